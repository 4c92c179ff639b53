// Sender session state: src/sender/session_state.rs, over a lent queue of probe records (document 01, "Monitor").
// An operation takes the monitor by value and hands back the next one, with its notification counts, or a refusal's number alone.
// Each operation that is lent the queue is a straight line of calls; what depends on a test is in the steps below them.
#![tactic(auto, unfolding(crate::specs::Refusals::refusal_of, crate::specs::Refusals::refusal_of_sent, crate::specs::Answers::answered, crate::specs::Answers::idle_to, crate::specs::Answers::deadline_of, crate::specs::Operations::idle_on, crate::specs::Parts::near_if, crate::specs::Parts::search_in, crate::specs::Parts::hearing, crate::specs::Parts::back_of, crate::specs::Parts::queued_probe_of, crate::specs::Parts::deadline_at, crate::specs::States::same, crate::specs::States::enters, crate::specs::States::loses, crate::specs::Parts::ring_if, crate::specs::Parts::taken_of, crate::specs::Parts::queued_by, crate::specs::Answers::sent_to, crate::specs::Answers::reply_to, crate::specs::Answers::advance_to, crate::specs::Operations::sent_if, crate::specs::Operations::reply_if, crate::specs::Operations::advance_if))]

ghost use Rattle.std.specs.Prelude.{◌≡◌};
ghost use Rattle.limits.specs.Numbers.{number, numbered};
ghost use Rattle.monitor.specs.Refusals.{refusal_of, refusal_of_sent};
ghost use Rattle.monitor.specs.Operations.{Leaves, fresh, sent_if, reply_if, advance_if};
ghost use Rattle.monitor.specs.Answers.{Ends, sent_to, reply_to, advance_to, idle_to, deadline_of};

mod notifying;
mod steps;

use limits::Refusal;
use probe_queue::{QueueRing, QueuedProbe, Rule};

#[derive(Clone, Copy, Debug, Drop, PartialEq, Eq)]
pub enum State {
    Idle,
    Active,
    Failed,
}

#[derive(Clone, Copy)]
pub struct Summary {
    pub state: State,
    pub loss_threshold: u16,
    pub consecutive_losses: u32,
    pub active_notifications: u64,
    pub failed_notifications: u64,
    pub idle_notifications: u64,
}

// `run`: how many of the last queued sequences are known to ascend. `latest`: the last queued sequence.
// While the run covers the queue, no sequence is queued twice, and a pop has no second copy to unmark.
#[derive(Clone, Copy)]
pub struct Monitor {
    pub summary: Summary,
    pub timeout: u64,
    pub transmitting: bool,
    pub ring: QueueRing,
    pub run: usize,
    pub latest: u32,
}

// `new`: threshold 0 counts as 1.
impl Monitor {
    pub fn new(threshold: u16, timeout: u64) -> Self
        ensures { result ≡ fresh threshold timeout }
    {
        let loss_threshold = if threshold == 0 { 1 } else { threshold };
        Monitor {
            summary: Summary {
                state: State::Idle,
                loss_threshold,
                consecutive_losses: 0,
                active_notifications: 0,
                failed_notifications: 0,
                idle_notifications: 0,
            },
            timeout,
            transmitting: false,
            ring: QueueRing { head: 0, len: 0 },
            run: 0,
            latest: 0,
        }
    }

    // `summary`: it only reads, and refuses nothing.
    pub fn summary(self) -> Summary
        ensures { result ≡ self.summary }
    {
        self.summary
    }

    // Why `reply`, `advance` and `idle` are refused with a room of this size.
    pub fn refusal(self, room: usize) -> Option<Refusal>
        ensures { number result ≡ refusal_of self room }
    {
        if self.out_of_place(room) {
            Some(Refusal::WrongRoom)
        } else if self.summary.full() {
            Some(Refusal::CountsFull)
        } else {
            None
        }
    }

    // Why `sent` is refused with a room of this size at this send time.
    pub fn refusal_of_sent(self, room: usize, time: u64) -> Option<Refusal>
        ensures { number result ≡ refusal_of_sent self room time }
    {
        if self.out_of_place(room) {
            Some(Refusal::WrongRoom)
        } else if time > u64::MAX - self.timeout {
            Some(Refusal::DeadlinePasses)
        } else if self.summary.full() {
            Some(Refusal::CountsFull)
        } else if self.timeout > 0 && self.ring.len >= limits::CAPACITY {
            Some(Refusal::QueueFull)
        } else {
            None
        }
    }
}

// The public operations.
impl Monitor {
    pub fn sent(
        self,
        queue: &mut [QueuedProbe],
        sequence: u32,
        time: u64,
    ) -> Result<Monitor, Refusal>
        ensures { Ends (sent_to self queue.old sequence time) (numbered result) queue.new }
    {
        if let Some(refusal) = self.refusal_of_sent(queue.len(), time) {
            return Err(refusal);
        }
        Ok(self.sent_if(true, queue, sequence, time))
    }

    pub fn reply(self, queue: &mut [QueuedProbe], sequence: u32) -> Result<Monitor, Refusal>
        ensures { Ends (reply_to self queue.old sequence) (numbered result) queue.new }
    {
        if let Some(refusal) = self.refusal(queue.len()) {
            return Err(refusal);
        }
        Ok(self.reply_if(true, queue, sequence))
    }

    pub fn advance(self, queue: &mut [QueuedProbe], time: u64) -> Result<Monitor, Refusal>
        ensures { Ends (advance_to self queue.old time) (numbered result) queue.new }
    {
        if let Some(refusal) = self.refusal(queue.len()) {
            return Err(refusal);
        }
        Ok(self.advance_if(true, queue, time))
    }

    // Nothing of the room changes: none of its records is queued any more.
    pub fn idle(self) -> Result<Monitor, Refusal>
        ensures { numbered result ≡ idle_to self }
    {
        if let Some(refusal) = self.refusal(limits::CAPACITY) {
            return Err(refusal);
        }
        Ok(Monitor {
            summary: self.summary.stopped(self.transmitting),
            transmitting: false,
            ring: QueueRing {
                len: 0,
                ..self.ring
            },
            ..self
        })
    }

    // The front probe's deadline.
    pub fn deadline(self, queue: &[QueuedProbe]) -> Result<Option<u64>, Refusal>
        ensures { numbered result ≡ deadline_of self queue.now }
    {
        let room = queue.len();
        let probe = probe_queue::front(queue, self.ring.head);
        self.deadline_of(room, probe)
    }
}

// The same where whoever calls may not want it to go on, as when another part of one call is refused: then nothing changes.
impl Monitor {
    pub fn sent_if(self, go: bool, queue: &mut [QueuedProbe], sequence: u32, time: u64) -> Monitor
        ensures { Leaves (sent_if go self queue.old sequence time) result queue.new }
    {
        let room = queue.len();
        let at = self.back(go, room, time);
        let probe = self.probe(sequence, time);
        probe_queue::push(queue, at, probe);
        self.queued(go, room, sequence, time)
    }

    // `near` is the ring where sequences ascend: there the search ends at the first that is not below the reply's.
    pub fn reply_if(self, go: bool, queue: &mut [QueuedProbe], sequence: u32) -> Monitor
        ensures { Leaves (reply_if go self queue.old sequence) result queue.new }
    {
        let room = queue.len();
        let heard = self.hears(go, room);
        let ring = self.ring_if(heard);
        let near = self.near(ring);
        let below = probe_queue::look(queue, near, Rule::Below(sequence));
        let search = self.search(ring, below);
        let first = probe_queue::look(queue, search, Rule::Until(sequence));
        let marked = probe_queue::look(queue, search, Rule::Unmarked(sequence));
        let count = steps::taken(search, first, marked);
        let rest = probe_queue::ring_after(ring, count);
        let again = self.repeats(count);
        probe_queue::pop(queue, ring, rest, again);
        self.replied(go, room, rest)
    }

    pub fn advance_if(self, go: bool, queue: &mut [QueuedProbe], time: u64) -> Monitor
        ensures { Leaves (advance_if go self queue.old time) result queue.new }
    {
        let room = queue.len();
        let serves = self.serves(go, room);
        let ring = self.ring_if(serves);
        let count = probe_queue::look(queue, ring, Rule::Due(time));
        let rest = probe_queue::ring_after(ring, count);
        let again = self.repeats(count);
        probe_queue::pop(queue, ring, rest, again);
        self.advanced(go, room, count, rest)
    }
}
