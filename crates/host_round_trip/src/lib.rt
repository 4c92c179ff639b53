// One round trip more in the words of a ledger. Round trips are never negative, so of words that calls leave only the count, the sum and at
// times an extreme change: they are stored alone. Any other words go through crate round_trips, which has the same definition by value.
ghost use Rattle.std.specs.Prelude.{◌≡◌, false, ◌&&◌, cond, ◌+◌, ◌^◌, ◌<◌, eqb, ltb, pos, get_or};
ghost use Rattle.std.proofs.lemmas.List.Edits.{sets};
ghost use Rattle.floats.specs.Whole.{magnitude};
ghost use Rattle.delays.specs.Bounds.{Bounded};
ghost use Rattle.delays.specs.Delays.{recorded_of};
ghost use Rattle.delays.specs.Sums.{nanoseconds_of, sum_of};
ghost use Rattle.host_ledger.specs.Parts.{delays_at, delays_words};
ghost use Rattle.host_ledger.specs.Places as place;

use delays::Sum;
use host_ledger::{LEDGER_WORDS, places};

const MOST: u64 = 18446744073709551615;

// A magnitude of two words made larger.
pub fn farther(high: u64, low: u64, ns: u64) -> Sum
    requires { high < 2 ^ 62 }
    ensures { result ≡ sum_of (pos (magnitude high low + ns)) }
{
    let room = MOST - low;
    if ns <= room {
        return Sum {
            negative: false,
            high,
            low: low + ns,
        };
    }
    Sum {
        negative: false,
        high: high + 1,
        low: ns - room - 1,
    }
}

fn smaller(least: u64, ns: u64) -> u64
    ensures { result ≡ cond (ltb ns least) ns least }
{
    if ns < least { ns } else { least }
}

fn larger(most: u64, ns: u64) -> u64
    ensures { result ≡ cond (ltb most ns) ns most }
{
    if most < ns { ns } else { most }
}

// The sum is not negative, and there are a smallest and a largest that are not.
fn is_ordinary(ledger: &[u64; LEDGER_WORDS]) -> bool
    ensures { result ≡ (eqb (get_or ledger.now place.trips_sign 0) 0 && eqb (get_or ledger.now place.trips_min_kind 0) 1 && eqb (get_or ledger.now place.trips_max_kind 0) 1) }
{
    (ledger[places::TRIPS_SIGN] == 0)
        & (ledger[places::TRIPS_MIN_KIND] == 1)
        & (ledger[places::TRIPS_MAX_KIND] == 1)
}

fn add(ledger: &mut [u64; LEDGER_WORDS], ns: u64)
    requires { Bounded (delays_at place.trips ledger.old) × (get_or ledger.old place.trips_sign 0 ≡ 0) × (get_or ledger.old place.trips_min_kind 0 ≡ 1) × (get_or ledger.old place.trips_max_kind 0 ≡ 1) }
    ensures { ledger.new ≡ sets ledger.old place.trips (delays_words (recorded_of (delays_at place.trips ledger.old) (nanoseconds_of (pos ns)))) }
{
    let count = ledger[places::TRIPS];
    let sum = farther(ledger[places::TRIPS_HIGH], ledger[places::TRIPS_LOW], ns);
    let least = smaller(ledger[places::TRIPS_MIN], ns);
    let most = larger(ledger[places::TRIPS_MAX], ns);
    ledger[places::TRIPS] = count + 1;
    ledger[places::TRIPS_HIGH] = sum.high;
    ledger[places::TRIPS_LOW] = sum.low;
    ledger[places::TRIPS_MIN] = least;
    ledger[places::TRIPS_MAX] = most;
}

// For a caller that has tested the count and the sum.
pub fn count(ledger: &mut [u64; LEDGER_WORDS], ns: u64)
    requires { Bounded (delays_at place.trips ledger.old) }
    ensures { ledger.new ≡ sets ledger.old place.trips (delays_words (recorded_of (delays_at place.trips ledger.old) (nanoseconds_of (pos ns)))) }
{
    if is_ordinary(ledger) {
        add(ledger, ns);
        return;
    }
    let before = host_ledger_parts::rtt_of(ledger);
    host_ledger_parts::store_rtt(ledger, round_trips::recorded(before, ns));
}
