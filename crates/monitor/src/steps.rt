// The steps of an operation between two uses of the queue: what it looks at next, and the monitor that it leaves.
// All are by value, and none is the host's to call.
ghost use Rattle.std.specs.Prelude.{◌≡◌, ◌<◌, ◌≤◌};
ghost use Rattle.monitor.specs.Refusals.{misplaced, refusal_of, refusal_of_sent, served};
ghost use Rattle.monitor.specs.States.{loses, hears};
ghost use Rattle.monitor.specs.Operations.{ascending, repeated, runs, standing};
ghost use Rattle.monitor.specs.Parts.{ring_if, near_if, search_in, taken_of, hearing, back_of, queued_probe_of, queued_by, settled, deadline_at};
ghost use Rattle.probe_queue.specs.Queue.{choose};
ghost use Rattle.limits.specs.Limits.{capacity};
ghost use Rattle.limits.specs.Numbers.{numbered};

use crate::{Monitor, Summary};
use limits::Refusal;
use probe_queue::{QueueRing, QueuedProbe};

// How many probes a search pops, from where the first of the sequence and a marked one were found.
pub fn taken(search: QueueRing, first: usize, marked: usize) -> usize
    requires { first ≤ capacity }
    ensures { result ≡ taken_of search first marked }
{
    if marked < search.len { first + 1 } else { 0 }
}

impl Monitor {
    // Whether the room or the ring is not one that a call leaves.
    pub fn out_of_place(self, room: usize) -> bool
        ensures { result ≡ misplaced self room }
    {
        room != limits::CAPACITY
            || self.ring.head >= limits::CAPACITY
            || self.ring.len > limits::CAPACITY
    }

    pub fn serves(self, go: bool, room: usize) -> bool
        ensures { result ≡ served go (refusal_of self room) }
    {
        go && self.refusal(room).is_none()
    }

    pub fn serves_sent(self, go: bool, room: usize, time: u64) -> bool
        ensures { result ≡ served go (refusal_of_sent self room time) }
    {
        go && self.refusal_of_sent(room, time).is_none()
    }

    pub fn hears(self, go: bool, room: usize) -> bool
        ensures { result ≡ hearing go self room }
    {
        self.serves(go, room) && self.transmitting
    }

    pub fn ring_if(self, serves: bool) -> QueueRing
        ensures { result ≡ ring_if serves self }
    {
        if serves {
            self.ring
        } else {
            QueueRing { head: 0, len: 0 }
        }
    }

    pub fn ascends(self) -> bool
        ensures { result ≡ ascending self }
    {
        sequence_run::covers(self.ring.len, self.run)
    }

    // Of so many pops, how many unmark what stays queued.
    pub fn repeats(self, count: usize) -> usize
        ensures { result ≡ repeated self count }
    {
        sequence_run::repeats(self.ring.len, self.run, count)
    }

    pub fn near(self, ring: QueueRing) -> QueueRing
        ensures { result ≡ near_if self ring }
    {
        if self.ascends() {
            ring
        } else {
            QueueRing { len: 0, ..ring }
        }
    }

    pub fn search(self, ring: QueueRing, below: usize) -> QueueRing
        requires { below ≤ capacity }
        ensures { result ≡ search_in self ring below }
    {
        if self.ascends() && below < ring.len {
            QueueRing {
                len: below + 1,
                ..ring
            }
        } else {
            ring
        }
    }

    // Where `sent` stores its probe: past the end of the room where it stores none.
    pub fn back(self, go: bool, room: usize, time: u64) -> usize
        ensures { result ≡ back_of go self room time }
    {
        if self.serves_sent(go, room, time) && self.timeout > 0 {
            probe_queue::place_of(self.ring, self.ring.len)
        } else {
            room
        }
    }

    pub fn probe(self, sequence: u32, time: u64) -> QueuedProbe
        ensures { result ≡ queued_probe_of self sequence time }
    {
        QueuedProbe {
            sequence,
            deadline: time.checked_add(self.timeout).unwrap_or(0),
            mark: 1,
        }
    }

    // How many of the last queued sequences ascend once one more is queued.
    pub fn run_with(self, sequence: u32) -> usize
        requires { self.ring.len < capacity }
        ensures { result ≡ runs self sequence }
    {
        sequence_run::longer(self.ring.len, self.run, self.latest, sequence)
    }

    // The monitor after `sent`.
    pub fn queued(self, go: bool, room: usize, sequence: u32, time: u64) -> Monitor
        ensures { result ≡ queued_by go self room sequence time }
    {
        if !self.serves_sent(go, room, time) {
            return self;
        }
        if self.timeout == 0 {
            return Monitor {
                transmitting: true,
                ..self
            };
        }
        Monitor {
            transmitting: true,
            ring: QueueRing {
                len: self.ring.len + 1,
                ..self.ring
            },
            run: self.run_with(sequence),
            latest: sequence,
            ..self
        }
    }

    // The monitor with another summary and ring.
    pub fn stand(self, summary: Summary, ring: QueueRing) -> Monitor
        ensures { result ≡ standing self summary ring }
    {
        Monitor {
            summary,
            ring,
            ..self
        }
    }

    // The monitor after `reply`.
    pub fn replied(self, go: bool, room: usize, rest: QueueRing) -> Monitor
        ensures { result ≡ settled (hearing go self room) self (hears self.summary) rest }
    {
        if !self.hears(go, room) {
            return self;
        }
        self.stand(self.summary.heard(), rest)
    }

    // The monitor after `advance`. Without transmitting, what is due is popped and not counted.
    pub fn advanced(self, go: bool, room: usize, count: usize, rest: QueueRing) -> Monitor
        ensures { result ≡ settled (served go (refusal_of self room)) self (choose self.transmitting (loses count self.summary) self.summary) rest }
    {
        if !self.serves(go, room) {
            return self;
        }
        if self.transmitting {
            self.stand(self.summary.lost(count), rest)
        } else {
            self.stand(self.summary, rest)
        }
    }

    pub fn deadline_of(self, room: usize, probe: QueuedProbe) -> Result<Option<u64>, Refusal>
        ensures { numbered result ≡ deadline_at self room probe }
    {
        if self.out_of_place(room) {
            Err(Refusal::WrongRoom)
        } else if self.ring.len == 0 {
            Ok(None)
        } else {
            Ok(Some(probe.deadline))
        }
    }
}
