// The monitor's queue: `probes: VecDeque<Probe>` and `received: HashSet<u32>` of src/sender/session_state.rs, in one lent slice of records.
// A record is queued while the ring covers it. The mark belongs to the sequence: it is received's where any queued record of it is marked.
// What depends on numbers and records alone stands in functions that take no slice.
#![tactic(auto)]

ghost use Rattle.std.specs.Prelude.{◌≡◌, ◌<◌, ◌≤◌, set, get_or};
ghost use Rattle.probe_queue.specs.Queue.{nil, Held, place, after, queued, leading, passes, unmark, place_if, unmarked as unmarkedRoom, popped};
ghost use Rattle.limits.specs.Limits.{capacity};

// `Probe`, with its sequence's mark: 0 is no mark, anything else is one, so that whatever a host's memory holds is a record.
#[repr(C)]
#[derive(Clone, Copy)]
pub struct QueuedProbe {
    pub sequence: u32,
    pub deadline: u64,
    pub mark: u32,
}

// Which records of a room are queued: `len` of them, from `head` on, past the end from 0 on.
#[derive(Clone, Copy)]
pub struct QueueRing {
    pub head: usize,
    pub len: usize,
}

// Which records a look from the front passes.
#[derive(Clone, Copy)]
pub enum Rule {
    Due(u64),
    Below(u32),
    Until(u32),
    Unmarked(u32),
}

// What is read past the end of a room.
pub fn absent() -> QueuedProbe
    ensures { result ≡ nil }
{
    QueuedProbe {
        sequence: 0,
        deadline: 0,
        mark: 0,
    }
}

// Where the i-th queued record lies.
pub fn place_of(ring: QueueRing, i: usize) -> usize
    requires { (ring.head < capacity) × (i ≤ capacity) }
    ensures { result ≡ place ring i }
{
    (ring.head + i) % limits::CAPACITY
}

// The ring after `count` pops.
pub fn ring_after(ring: QueueRing, count: usize) -> QueueRing
    requires { Held ring × (count ≤ ring.len) }
    ensures { result ≡ after ring count }
{
    QueueRing {
        head: (ring.head + count) % limits::CAPACITY,
        len: ring.len - count,
    }
}

// Whether a look passes a record.
#[tactic(auto, unfolding(crate::specs::Queue::passes))]
pub fn goes_on(probe: QueuedProbe, rule: Rule) -> bool
    ensures { result ≡ passes rule probe }
{
    match rule {
        Rule::Due(now) => probe.deadline <= now,
        Rule::Below(sequence) => probe.sequence < sequence,
        Rule::Until(sequence) => probe.sequence != sequence,
        Rule::Unmarked(sequence) => probe.sequence != sequence || probe.mark == 0,
    }
}

// A record without its mark, where it is of the sequence.
#[tactic(auto, unfolding(crate::specs::Queue::unmark))]
pub fn unmarked(probe: QueuedProbe, sequence: u32) -> QueuedProbe
    ensures { result ≡ unmark sequence probe }
{
    if probe.sequence == sequence {
        QueuedProbe { mark: 0, ..probe }
    } else {
        probe
    }
}

// Where a record is stored once a sequence is unmarked: past the end of any room where the record is of another one, so that nothing is stored.
#[tactic(auto, unfolding(crate::specs::Queue::place_if))]
pub fn place_if(probe: QueuedProbe, sequence: u32, at: usize) -> usize
    ensures { result ≡ place_if sequence probe at }
{
    if probe.sequence == sequence {
        at
    } else {
        usize::MAX
    }
}

// The record at a place, `absent` past the end.
pub fn front(queue: &[QueuedProbe], at: usize) -> QueuedProbe
    ensures { result ≡ get_or queue.now at nil }
{
    if at < queue.len() {
        queue[at]
    } else {
        absent()
    }
}

// Stores a record at a place; past the end it stores nothing.
pub fn push(queue: &mut [QueuedProbe], at: usize, probe: QueuedProbe)
    ensures { queue.new ≡ set queue.old at probe }
{
    if at < queue.len() {
        queue[at] = probe;
    }
}

// How many front records the rule passes.
pub fn look(queue: &[QueuedProbe], ring: QueueRing, rule: Rule) -> usize
    requires { Held ring }
    ensures { result ≡ leading (passes rule) (queued queue.now ring) }
{
    for i in 0..ring.len {
        let at = place_of(ring, i);
        let probe = front(queue, at);
        if !goes_on(probe, rule) {
            return i;
        }
    }
    ring.len
}

// Unmarks a sequence in every queued record.
pub fn unmark_queued(queue: &mut [QueuedProbe], ring: QueueRing, sequence: u32)
    requires { Held ring }
    ensures { queue.new ≡ unmarkedRoom queue.old ring sequence ring.len }
{
    for i in 0..ring.len {
        let at = place_of(ring, i);
        let probe = front(queue, at);
        let changed = unmarked(probe, sequence);
        let to = place_if(probe, sequence, at);
        push(queue, to, changed);
    }
}

// What `count` pops unmark: each popped sequence, in what stays queued.
pub fn pop(queue: &mut [QueuedProbe], ring: QueueRing, rest: QueueRing, count: usize)
    requires { Held ring × (Held rest × (count ≤ capacity)) }
    ensures { queue.new ≡ popped queue.old ring rest count }
{
    for i in 0..count {
        let probe = front(queue, place_of(ring, i));
        unmark_queued(queue, rest, probe.sequence);
    }
}
