// `Measurements` of src/sender/measurements.rs: its state by value, the order of the refusals, the test of its rings, and `needs_burst_wait`, which
// only reads it. The snapshot, the rooms and the calls over them stand above.
#![tactic(auto, unfolding(crate::specs::State::secret_of, crate::specs::State::words_of))]

ghost use Rattle.std.specs.Prelude.{◌≡◌};
ghost use Rattle.limits.specs.Numbers.{number};
ghost use Rattle.ledger_state.specs.State.{at_least_one, secret_of, words_of, fresh_counts, fresh_ledger};
ghost use Rattle.ledger_state.specs.Refusal.{first_refusal, ring_fits, rings_fit};
ghost use Rattle.ledger_state.specs.BurstWait.{burst_wait};

use chains::Ring;
use delays::Delays;
use direct::Direct;
use follow_ups::FollowUps;
use limits::Refusal;
use replies::Replies;

// The rings of the accepted keys and of the held probes, and whether the newest key awaits its observation.
#[derive(Clone, Copy)]
pub struct Tables {
    pub keys: Ring,
    pub probes: Ring,
    pub awaits: bool,
}

// Every count of `MeasurementSummary`, with `rtt`, `follow_delay` and `direct`.
#[derive(Clone, Copy)]
pub struct Counts {
    pub replies: Replies,
    pub rtt: Delays,
    pub direct: Direct,
    pub follow: FollowUps,
}

// The words of the hash. They are no array, since an answer that is an enum cannot hold one.
#[derive(Clone, Copy)]
pub struct Secret {
    pub first: u32,
    pub second: u32,
    pub third: u32,
    pub fourth: u32,
    pub fifth: u32,
    pub sixth: u32,
    pub seventh: u32,
    pub eighth: u32,
}

impl Secret {
    pub fn of_words(words: [u32; 8]) -> Secret
        ensures { result ≡ secret_of words }
    {
        Secret {
            first: words[0],
            second: words[1],
            third: words[2],
            fourth: words[3],
            fifth: words[4],
            sixth: words[5],
            seventh: words[6],
            eighth: words[7],
        }
    }

    pub fn words(self) -> [u32; 8]
        ensures { result ≡ words_of self }
    {
        [
            self.first,
            self.second,
            self.third,
            self.fourth,
            self.fifth,
            self.sixth,
            self.seventh,
            self.eighth,
        ]
    }
}

// `copies`, the words of the hash, and how many sent, accept and observe calls were served.
#[derive(Clone, Copy)]
pub struct Ledger {
    pub copies: u16,
    pub secret: Secret,
    pub calls: u64,
    pub tables: Tables,
    pub counts: Counts,
}

fn at_least_one(copies: u16) -> u16
    ensures { result ≡ at_least_one copies }
{
    copies.max(1)
}

fn fresh_counts() -> Counts
    ensures { result ≡ fresh_counts }
{
    Counts {
        replies: Replies::fresh(),
        rtt: Delays::new(),
        direct: Direct::fresh(),
        follow: FollowUps::fresh(),
    }
}

// `Measurements::new`. The rooms may hold anything.
pub fn fresh(copies: u16, secret: [u32; 8]) -> Ledger
    ensures { result ≡ fresh_ledger copies secret }
{
    Ledger {
        copies: at_least_one(copies),
        secret: Secret::of_words(secret),
        calls: 0,
        tables: Tables {
            keys: Ring { head: 0, len: 0 },
            probes: Ring { head: 0, len: 0 },
            awaits: false,
        },
        counts: fresh_counts(),
    }
}

// The first refusal in the order of document 01's table.
pub fn first_refusal(
    placed: bool,
    ranged: bool,
    timely: bool,
    counted: bool,
    awaiting: bool,
    room: bool,
) -> Option<Refusal>
    ensures { number result ≡ first_refusal placed ranged timely counted awaiting room }
{
    if !placed {
        Some(Refusal::WrongRoom)
    } else if !ranged {
        Some(Refusal::OutOfRange)
    } else if !timely {
        Some(Refusal::DeadlinePasses)
    } else if !counted {
        Some(Refusal::CountsFull)
    } else if !awaiting {
        Some(Refusal::NotAwaiting)
    } else if !room {
        Some(Refusal::QueueFull)
    } else {
        None
    }
}

fn ring_fits(ring: Ring) -> bool
    ensures { result ≡ ring_fits ring }
{
    ring.head < limits::CAPACITY && ring.len <= limits::CAPACITY
}

// Refusal 5, the part of the state: whether every ring and the number of seen offsets are in bounds.
pub fn rings_fit(ledger: Ledger) -> bool
    ensures { result ≡ rings_fit ledger }
{
    ring_fits(ledger.tables.keys)
        && ring_fits(ledger.tables.probes)
        && direct::seen_in(ledger.counts.direct.window) <= limits::CAPACITY
}

pub fn needs_burst_wait(ledger: Ledger) -> bool
    ensures { result ≡ burst_wait ledger }
{
    ledger.counts.replies.needs_burst_wait(ledger.copies)
}
