// `Delays::record` of src/sender/measurements.rs for a round trip, which is never negative. Crate delays has it for a sample of either
// sign, to the same definition. `observe` records both kinds, and a function with one caller is compiled into its place: with one function
// for both, the whole state would go through memory, which is a third of an observe's time.
ghost use Rattle.std.specs.Prelude.{◌≡◌, true, ◌+◌, ◌^◌, ◌<◌, pos, ◌+ℤ◌};
ghost use Rattle.std.specs.Int.Signed.{lt_z};
ghost use Rattle.floats.specs.Whole.{magnitude, signed};
ghost use Rattle.delays.specs.Sums.{nanoseconds_of, value_of, total_of, sum_of};
ghost use Rattle.delays.specs.Delays.{lesser, greater, recorded_of};
ghost use Rattle.delays.specs.Bounds.{Bounded};

use delays::{Delays, Nanoseconds, Sum};

const MOST: u64 = 18446744073709551615;

// A sum that is not negative, and one round trip more.
fn farther(high: u64, low: u64, ns: u64) -> Sum
    requires { high < 2 ^ 62 }
    ensures { result ≡ sum_of (pos (magnitude high low + ns)) }
{
    let room = MOST - low;
    if ns <= room {
        return Sum {
            negative: false,
            high,
            low: low + ns,
        };
    }
    Sum {
        negative: false,
        high: high + 1,
        low: ns - room - 1,
    }
}

// A negative sum of one word.
fn small_nearer(low: u64, ns: u64) -> Sum
    ensures { result ≡ sum_of (signed true (magnitude 0 low) +ℤ pos ns) }
{
    if low <= ns {
        return Sum {
            negative: false,
            high: 0,
            low: ns - low,
        };
    }
    Sum {
        negative: true,
        high: 0,
        low: low - ns,
    }
}

// A negative sum, which no round trips leave, but a state could have it.
fn nearer(high: u64, low: u64, ns: u64) -> Sum
    ensures { result ≡ sum_of (signed true (magnitude high low) +ℤ pos ns) }
{
    if high == 0 {
        return small_nearer(low, ns);
    }
    if ns <= low {
        return Sum {
            negative: true,
            high,
            low: low - ns,
        };
    }
    Sum {
        negative: true,
        high: high - 1,
        low: MOST - ns + low + 1,
    }
}

fn added(sum: Sum, ns: u64) -> Sum
    requires { sum.high < 2 ^ 62 }
    ensures { result ≡ sum_of (total_of sum +ℤ pos ns) }
{
    let high = sum.high;
    let low = sum.low;
    if sum.negative {
        return nearer(high, low, ns);
    }
    farther(high, low, ns)
}

// A round trip is below a sample.
fn under(ns: u64, sample: Nanoseconds) -> bool
    ensures { result ≡ lt_z (pos ns) (value_of sample) }
{
    if sample.negative {
        return false;
    }
    ns < sample.magnitude
}

// A round trip is above a sample.
fn over(ns: u64, sample: Nanoseconds) -> bool
    ensures { result ≡ lt_z (value_of sample) (pos ns) }
{
    if sample.negative {
        if sample.magnitude > 0 {
            return true;
        }
        return 0 < ns;
    }
    sample.magnitude < ns
}

fn lesser_of(extreme: Option<Nanoseconds>, ns: u64) -> Option<Nanoseconds>
    ensures { result ≡ lesser extreme (nanoseconds_of (pos ns)) }
{
    match extreme {
        Some(least) => {
            if under(ns, least) {
                return Some(delays::from_u64(ns));
            }
            Some(least)
        }
        None => Some(delays::from_u64(ns)),
    }
}

fn greater_of(extreme: Option<Nanoseconds>, ns: u64) -> Option<Nanoseconds>
    ensures { result ≡ greater extreme (nanoseconds_of (pos ns)) }
{
    match extreme {
        Some(most) => {
            if over(ns, most) {
                return Some(delays::from_u64(ns));
            }
            Some(most)
        }
        None => Some(delays::from_u64(ns)),
    }
}

// One round trip more, for a caller that has tested the count and the sum.
pub fn recorded(before: Delays, ns: u64) -> Delays
    requires { Bounded before }
    ensures { result ≡ recorded_of before (nanoseconds_of (pos ns)) }
{
    let sum = before.sum;
    let least = before.min;
    let most = before.max;
    Delays {
        count: before.count + 1,
        sum: added(sum, ns),
        min: lesser_of(least, ns),
        max: greater_of(most, ns),
    }
}
