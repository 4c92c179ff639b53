// `Direct` and `DirectSummary` of src/sender/measurements.rs by value: loss in each direction from the three counters of RFC 8972,
// section 4.5. The seen offsets themselves stand in a room of the ledger's: whether one was seen is an argument here, and the answer
// says what becomes of the room.
ghost use Rattle.std.specs.Prelude.{◌≡◌, ◌^◌, ◌≤◌, max, true, false};
ghost use Rattle.limits.specs.Limits.{capacity};
ghost use Rattle.direct.specs.Offsets.{offset, jumps, sender_offset, received_offset, transmit_offset};
ghost use Rattle.direct.specs.Outcomes.{one_unavailable, one_observed, one_discontinuity, one_reordered, history_exceeded};
ghost use Rattle.direct.specs.Outcomes.{mismatched};
ghost use Rattle.direct.specs.Outcomes.{step, moved_by, without_anchor, with_anchor, both_zero, in_window, recorded, sought_in};
ghost use Rattle.direct.specs.Outcomes.{fresh_direct, InBounds, seen_in};

pub mod summary;

use call_types::{CounterPoint, ReflectorRx, ReflectorTx, SenderTx};

// The counts of `DirectSummary`. `exceeded` is its `history_exceeded`.
#[derive(Clone, Copy)]
pub struct Counts {
    pub observations: u64,
    pub unavailable: u64,
    pub discontinuities: u64,
    pub reordered: u64,
    pub exceeded: bool,
}

// What is known since the anchor: the anchor, the latest transmit point (`high_tx` is its count), `max_sender`, `max_rx`, and how many
// transmit offsets were seen.
#[derive(Clone, Copy)]
pub struct Epoch {
    pub anchor: CounterPoint,
    pub latest: CounterPoint,
    pub sender: u32,
    pub received: u32,
    pub seen: usize,
}

#[derive(Clone, Copy)]
pub struct Direct {
    pub counts: Counts,
    pub window: Option<Epoch>,
}

// What becomes of the set of seen offsets.
#[derive(Clone, Copy)]
pub enum Offsets {
    Kept,
    // It begins with offset 0.
    Begun,
    Added(u32),
    Cleared,
}

#[derive(Clone, Copy)]
pub struct Step {
    pub direct: Direct,
    pub offsets: Offsets,
}

// How far `now` is from `then`, modulo 2^32. Below it has a function for each counter, so that only like counters are subtracted.
#[tactic(auto, unfolding(crate::specs::Offsets::offset))]
fn since(then: u32, now: u32) -> u32
    ensures { result ≡ offset then now }
{
    now.wrapping_sub(then)
}

pub fn sender_since(then: SenderTx, now: SenderTx) -> u32
    ensures { result ≡ offset then.0 now.0 }
{
    since(then.0, now.0)
}

pub fn received_since(then: ReflectorRx, now: ReflectorRx) -> u32
    ensures { result ≡ offset then.0 now.0 }
{
    since(then.0, now.0)
}

pub fn transmitted_since(then: ReflectorTx, now: ReflectorTx) -> u32
    ensures { result ≡ offset then.0 now.0 }
{
    since(then.0, now.0)
}

// The offsets of a point from an anchor.
fn sender_offset(anchor: CounterPoint, point: CounterPoint) -> u32
    ensures { result ≡ sender_offset anchor point }
{
    sender_since(anchor.sender, point.sender)
}

fn received_offset(anchor: CounterPoint, point: CounterPoint) -> u32
    ensures { result ≡ received_offset anchor point }
{
    received_since(anchor.received, point.received)
}

pub fn transmit_offset(anchor: CounterPoint, point: CounterPoint) -> u32
    ensures { result ≡ transmit_offset anchor point }
{
    transmitted_since(anchor.transmitted, point.transmitted)
}

// A delta of 2^31 or more is a backwards step in serial-number arithmetic: a reset or data from before the anchor.
fn breaks(anchor: CounterPoint, point: CounterPoint) -> bool
    ensures { result ≡ jumps anchor point }
{
    let transmitted = transmit_offset(anchor, point);
    let sender = sender_offset(anchor, point);
    let received = received_offset(anchor, point);
    transmitted >= 2147483648 || sender >= 2147483648 || received >= 2147483648
}

fn larger(a: u32, b: u32) -> u32
    ensures { result ≡ max a b }
{
    a.max(b)
}

impl Counts {
    fn one_unavailable(mut self) -> Counts
        requires { self.unavailable ≤ 2 ^ 63 }
        ensures { result ≡ one_unavailable self }
    {
        self.unavailable += 1;
        self
    }

    fn one_observed(mut self) -> Counts
        requires { self.observations ≤ 2 ^ 63 }
        ensures { result ≡ one_observed self }
    {
        self.observations += 1;
        self
    }

    fn one_discontinuity(mut self) -> Counts
        requires { self.discontinuities ≤ 2 ^ 63 }
        ensures { result ≡ one_discontinuity self }
    {
        self.discontinuities += 1;
        self
    }

    fn one_reordered(mut self) -> Counts
        requires { self.reordered ≤ 2 ^ 63 }
        ensures { result ≡ one_reordered self }
    {
        self.reordered += 1;
        self
    }

    fn history_exceeded(mut self) -> Counts
        ensures { result ≡ history_exceeded self }
    {
        self.exceeded = true;
        self
    }
}

fn step_of(counts: Counts, window: Option<Epoch>, offsets: Offsets) -> Step
    ensures { result ≡ step counts window offsets }
{
    Step {
        direct: Direct { counts, window },
        offsets,
    }
}

// The sender count is not the probe's ordinal, or the probe has none.
fn mismatch(counts: Counts, window: Option<Epoch>) -> Step
    requires { InBounds counts }
    ensures { result ≡ mismatched counts window }
{
    step_of(counts.one_unavailable(), window, Offsets::Kept)
}

// All-zero reflector counters do not establish supported measurement; others become the anchor.
fn anchor_at(counts: Counts, point: CounterPoint) -> Step
    requires { InBounds counts }
    ensures { result ≡ without_anchor (both_zero point) counts point }
{
    let observed = counts.one_observed();
    if point.received.0 == 0 && point.transmitted.0 == 0 {
        return step_of(observed.one_unavailable(), None, Offsets::Kept);
    }
    let epoch = Epoch {
        anchor: point,
        latest: point,
        sender: 0,
        received: 0,
        seen: 1,
    };
    step_of(observed, Some(epoch), Offsets::Begun)
}

// An offset below the highest moves the sender maximum alone; one above moves the received maximum and the latest transmit point too.
fn moved(lower: bool, epoch: Epoch, point: CounterPoint) -> Epoch
    requires { epoch.seen ≤ 4096 }
    ensures { result ≡ moved_by lower epoch point }
{
    let anchor = epoch.anchor;
    let latest = epoch.latest;
    let sender = larger(epoch.sender, sender_offset(anchor, point));
    let seen = epoch.seen + 1;
    if lower {
        return Epoch {
            anchor,
            latest,
            sender,
            received: epoch.received,
            seen,
        };
    }
    let received = larger(epoch.received, received_offset(anchor, point));
    Epoch {
        anchor,
        latest: point,
        sender,
        received,
        seen,
    }
}

// What goes on from the anchor.
fn go_on(lower: bool, counts: Counts, epoch: Epoch, point: CounterPoint) -> Step
    requires { InBounds counts × (epoch.seen ≤ 4096) }
    ensures { result ≡ with_anchor false false false lower counts epoch point }
{
    let anchor = epoch.anchor;
    let transmitted = transmit_offset(anchor, point);
    let next = moved(lower, epoch, point);
    let observed = counts.one_observed();
    if lower {
        return step_of(
            observed.one_reordered(),
            Some(next),
            Offsets::Added(transmitted),
        );
    }
    step_of(observed, Some(next), Offsets::Added(transmitted))
}

// The first outcome that holds. What breaks the window off does not become the anchor of the next.
fn follow(counts: Counts, epoch: Epoch, point: CounterPoint, again: bool) -> Step
    requires { InBounds counts × (epoch.seen ≤ 4096) }
    ensures { result ≡ in_window capacity counts (Some epoch) point again }
{
    let anchor = epoch.anchor;
    let latest = epoch.latest;
    if breaks(anchor, point) {
        let observed = counts.one_observed();
        let discontinued = observed.one_discontinuity();
        return step_of(discontinued, None, Offsets::Cleared);
    }
    if again {
        let observed = counts.one_observed();
        let unavailable = observed.one_unavailable(); // distinct replies must advance R_TxC
        let seen_again = unavailable.one_discontinuity();
        return step_of(seen_again, None, Offsets::Cleared);
    }
    if epoch.seen == limits::CAPACITY {
        let observed = counts.one_observed();
        return step_of(observed.history_exceeded(), None, Offsets::Cleared);
    }
    let lower = transmit_offset(anchor, point) < transmit_offset(anchor, latest);
    go_on(lower, counts, epoch, point)
}

impl Direct {
    pub fn fresh() -> Direct
        ensures { result ≡ fresh_direct }
    {
        Direct {
            counts: Counts {
                observations: 0,
                unavailable: 0,
                discontinuities: 0,
                reordered: 0,
                exceeded: false,
            },
            window: None,
        }
    }
}

// The transmit offset that is to be looked for among those seen.
pub fn sought(window: Option<Epoch>, point: CounterPoint) -> u32
    ensures { result ≡ sought_in window point }
{
    match window {
        None => 0,
        Some(epoch) => transmit_offset(epoch.anchor, point),
    }
}

// How many offsets are seen: the length of their room's list.
pub fn seen_in(window: Option<Epoch>) -> usize
    ensures { result ≡ seen_in window }
{
    match window {
        None => 0,
        Some(epoch) => epoch.seen,
    }
}

// `Direct::record`, and the `unavailable` of `observe` where the probe has no ordinal. `again` says whether the offset that `sought` gives
// is among those seen.
#[tactic(auto, unfolding(crate::specs::Outcomes::recorded))]
pub fn record_point(direct: Direct, point: CounterPoint, ordinal: Option<u32>, again: bool) -> Step
    requires { InBounds direct.counts × (seen_in direct.window ≤ 4096) }
    ensures { result ≡ recorded capacity direct point ordinal again }
{
    if ordinal != Some(point.sender.0) {
        return mismatch(direct.counts, direct.window);
    }
    match direct.window {
        None => anchor_at(direct.counts, point),
        Some(epoch) => follow(direct.counts, epoch, point, again),
    }
}
