// One delay of a matched follow-up more in the words of a ledger. A delay that is no new extreme and has the sign of the sum, the usual case,
// changes the count and the sum's magnitude: these are stored alone. Any other goes through crate delays, which has the same definition by value.
// Round trips are counted in crate host_round_trip, where there is no sign to look at.
ghost use Rattle.std.specs.Prelude.{◌≡◌, get_or, set, ◌+◌, pos};
ghost use Rattle.std.proofs.lemmas.List.Edits.{sets};
ghost use Rattle.floats.specs.Whole.{magnitude};
ghost use Rattle.delays.specs.Bounds.{Bounded};
ghost use Rattle.delays.specs.Delays.{recorded_of};
ghost use Rattle.delays.specs.Sums.{nanoseconds_of, sum_of};
ghost use Rattle.host_ledger.specs.Parts.{delays_at, delays_words};
ghost use Rattle.host_delay.specs.Usual.{within, usual};
ghost use Rattle.host_ledger.specs.Places as place;

use delays::Nanoseconds;
use host_ledger::{LEDGER_WORDS, places};

fn lies_within(
    kind: u64,
    other: u64,
    magnitude: u64,
    far_kind: u64,
    far: u64,
    near_kind: u64,
    near: u64,
) -> bool
    ensures { result ≡ within kind other magnitude far_kind far near_kind near }
{
    if far_kind != kind {
        return false;
    }
    if far < magnitude {
        return false;
    }
    if near_kind == other {
        return true;
    }
    (near_kind == kind) & (near <= magnitude)
}

fn is_usual(ledger: &[u64; LEDGER_WORDS], ns: Nanoseconds) -> bool
    ensures { result ≡ usual ledger.now ns }
{
    if ns.negative {
        if ledger[places::DELAY_SIGN] != 1 {
            return false;
        }
        return lies_within(
            2,
            1,
            ns.magnitude,
            ledger[places::DELAY_MIN_KIND],
            ledger[places::DELAY_MIN],
            ledger[places::DELAY_MAX_KIND],
            ledger[places::DELAY_MAX],
        );
    }
    if ledger[places::DELAY_SIGN] != 0 {
        return false;
    }
    lies_within(
        1,
        2,
        ns.magnitude,
        ledger[places::DELAY_MAX_KIND],
        ledger[places::DELAY_MAX],
        ledger[places::DELAY_MIN_KIND],
        ledger[places::DELAY_MIN],
    )
}

// One delay more, and the sum farther from zero.
fn add(ledger: &mut [u64; LEDGER_WORDS], more: u64)
    requires { Bounded (delays_at place.delay ledger.old) }
    ensures { let words = ledger.old in
        let sum = sum_of (pos (magnitude (get_or words 52 0) (get_or words 53 0) + more)) in
        ledger.new ≡ set (set (set words 50 (get_or words 50 0 + 1)) 52 sum.high) 53 sum.low }
{
    let count = ledger[places::DELAY];
    let sum = host_round_trip::farther(ledger[places::DELAY_HIGH], ledger[places::DELAY_LOW], more);
    ledger[places::DELAY] = count + 1;
    ledger[places::DELAY_HIGH] = sum.high;
    ledger[places::DELAY_LOW] = sum.low;
}

// For a caller that has tested the count and the sum.
pub fn count(ledger: &mut [u64; LEDGER_WORDS], ns: i64)
    requires { Bounded (delays_at place.delay ledger.old) }
    ensures { ledger.new ≡ sets ledger.old place.delay (delays_words (recorded_of (delays_at place.delay ledger.old) (nanoseconds_of ns))) }
{
    let sample = delays::from_i64(ns);
    if is_usual(ledger, sample) {
        add(ledger, sample.magnitude);
        return;
    }
    let before = host_ledger_parts::delay_of(ledger);
    host_ledger_parts::store_delay(ledger, before.recorded(sample));
}
