// The parts of a ledger that are no plain counts: out of their words, and back.
ghost use Rattle.std.specs.Prelude.{◌≡◌};
ghost use Rattle.host_ledger.specs.Parts.{reflector_of, extreme_of, extreme_kind, extreme_magnitude, delays_of, point_of, epoch_of, EpochSaid};

use call_types::{CounterPoint, ReflectorRx, ReflectorTx, SenderTx};
use delays::{Delays, Nanoseconds, Sum};
use direct::Epoch;
use host_numbers::{both, flag, high, is_set, low};

// ---- out of their words

pub fn reflector_of(word: u64) -> Option<u32>
    ensures { result ≡ reflector_of word }
{
    if is_set(word) {
        return Some(low(word));
    }
    None
}

fn extreme_of(kind: u64, magnitude: u64) -> Option<Nanoseconds>
    ensures { result ≡ extreme_of kind magnitude }
{
    if is_set(kind) {
        return Some(Nanoseconds {
            negative: kind == 2,
            magnitude,
        });
    }
    None
}

pub fn delays_of(
    count: u64,
    negative: u64,
    high: u64,
    low: u64,
    min_kind: u64,
    min: u64,
    max_kind: u64,
    max: u64,
) -> Delays
    ensures { result ≡ delays_of count negative high low min_kind min max_kind max }
{
    let smallest = extreme_of(min_kind, min);
    let largest = extreme_of(max_kind, max);
    Delays {
        count,
        sum: Sum {
            negative: is_set(negative),
            high,
            low,
        },
        min: smallest,
        max: largest,
    }
}

fn point_of(sender: u32, received: u32, transmitted: u32) -> CounterPoint
    ensures { result ≡ point_of sender received transmitted }
{
    CounterPoint {
        sender: SenderTx(sender),
        received: ReflectorRx(received),
        transmitted: ReflectorTx(transmitted),
    }
}

pub fn epoch_of(anchor: u64, transmitted: u64, latest: u64, maxima: u64, seen: u64) -> Epoch
    ensures { result ≡ epoch_of anchor transmitted latest maxima seen }
{
    let first = point_of(low(anchor), high(anchor), low(transmitted));
    let last = point_of(low(latest), high(latest), high(transmitted));
    Epoch {
        anchor: first,
        latest: last,
        sender: low(maxima),
        received: high(maxima),
        seen: seen as usize,
    }
}

// ---- and back

pub fn extreme_kind(extreme: Option<Nanoseconds>) -> u64
    ensures { result ≡ extreme_kind extreme }
{
    match extreme {
        None => 0,
        Some(ns) => 1 + flag(ns.negative),
    }
}

pub fn extreme_magnitude(extreme: Option<Nanoseconds>) -> u64
    ensures { result ≡ extreme_magnitude extreme }
{
    match extreme {
        None => 0,
        Some(ns) => ns.magnitude,
    }
}

// The words of an open window, after the first.
#[derive(Clone, Copy)]
pub struct EpochWords {
    pub anchor: u64,
    pub transmitted: u64,
    pub latest: u64,
    pub maxima: u64,
    pub seen: u64,
}

pub fn epoch_words(epoch: Epoch) -> EpochWords
    ensures { EpochSaid epoch result.anchor result.transmitted result.latest result.maxima result.seen }
{
    let first = epoch.anchor;
    let last = epoch.latest;
    let sent = first.sender;
    let received = first.received;
    let transmitted = first.transmitted;
    let last_sent = last.sender;
    let last_received = last.received;
    let last_transmitted = last.transmitted;
    EpochWords {
        anchor: both(sent.0, received.0),
        transmitted: both(transmitted.0, last_transmitted.0),
        latest: both(last_sent.0, last_received.0),
        maxima: both(epoch.sender, epoch.received),
        seen: epoch.seen as u64,
    }
}
