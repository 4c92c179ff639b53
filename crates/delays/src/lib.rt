// A port of `Delays` and `DelaySummary` of src/sender/measurements.rs. An i128 is a sign and two words, and a sample a sign and one word:
// a round trip is at most 2^64 - 1 ns, and a follow-up delay at most 8 * 10^18 + 8.64 * 10^13 ns either way.
#![tactic(auto)]

ghost use Rattle.std.specs.Prelude.{◌≡◌, ◌+◌, ◌-◌, ◌^◌, ◌≤◌, ◌<◌, pos, ◌+ℤ◌};
ghost use Rattle.std.specs.Int.Signed.{lt_z};
ghost use Rattle.floats.specs.Whole.{magnitude};
ghost use Rattle.delays.specs.Sums.{nanoseconds_of, value_of, total_of, sum_from, sum_of};
ghost use Rattle.delays.specs.Delays.{lesser, greater, fresh, recorded_of};
ghost use Rattle.delays.specs.Bounds.{Bounded, counts_fit, refusal_of, answer};
ghost use Rattle.delays.specs.Summary.{in_ms, extreme_ms, average_ms, summary_of};

use limits::Refusal;

// A time span in ns. Zero is not negative.
#[derive(Clone, Copy)]
pub struct Nanoseconds {
    pub negative: bool,
    pub magnitude: u64,
}

// A sum of time spans in ns, high * 2^64 + low with its sign. Zero is not negative.
#[derive(Clone, Copy)]
pub struct Sum {
    pub negative: bool,
    pub high: u64,
    pub low: u64,
}

#[derive(Clone, Copy)]
pub struct Delays {
    pub count: u64,
    pub sum: Sum,
    pub min: Option<Nanoseconds>,
    pub max: Option<Nanoseconds>,
}

#[derive(Clone, Copy)]
pub struct DelaySummary {
    pub samples: u64,
    pub min: Option<f64>,
    pub average: Option<f64>,
    pub max: Option<f64>,
}

// A sum's high word at this is a magnitude of 2^126.
const HIGH_BOUND: u64 = 4611686018427387904;

// A round trip.
pub fn from_u64(ns: u64) -> Nanoseconds
    ensures { result ≡ nanoseconds_of (pos ns) }
{
    Nanoseconds {
        negative: false,
        magnitude: ns,
    }
}

// A follow-up delay.
pub fn from_i64(ns: i64) -> Nanoseconds
    ensures { result ≡ nanoseconds_of ns }
{
    Nanoseconds {
        negative: ns < 0,
        magnitude: ns.unsigned_abs(),
    }
}

// The sum of a sign and two words, whose zero is not negative.
fn canonical(negative: bool, high: u64, low: u64) -> Sum
    ensures { result ≡ sum_from negative (magnitude high low) }
{
    Sum {
        negative: negative && (high > 0 || low > 0),
        high,
        low,
    }
}

// A magnitude made larger.
fn enlarged(negative: bool, high: u64, low: u64, more: u64) -> Sum
    requires { high < 2 ^ 62 }
    ensures { result ≡ sum_from negative (magnitude high low + more) }
{
    let room = 18446744073709551615 - low;
    if more <= room {
        return canonical(negative, high, low + more);
    }
    canonical(negative, high + 1, more - room - 1)
}

// A magnitude made smaller.
fn lessened(negative: bool, high: u64, low: u64, less: u64) -> Sum
    requires { less ≤ magnitude high low }
    ensures { result ≡ sum_from negative (magnitude high low - less) }
{
    if less <= low {
        return canonical(negative, high, low - less);
    }
    canonical(negative, high - 1, 18446744073709551615 - less + low + 1)
}

// A sum and one sample more.
fn added(sum: Sum, ns: Nanoseconds) -> Sum
    requires { sum.high < 2 ^ 62 }
    ensures { result ≡ sum_of (total_of sum +ℤ value_of ns) }
{
    if sum.negative == ns.negative {
        return enlarged(sum.negative, sum.high, sum.low, ns.magnitude);
    }
    if sum.high == 0 && sum.low < ns.magnitude {
        return canonical(ns.negative, 0, ns.magnitude - sum.low);
    }
    lessened(sum.negative, sum.high, sum.low, ns.magnitude)
}

// a is below b.
fn below(a: Nanoseconds, b: Nanoseconds) -> bool
    ensures { result ≡ lt_z (value_of a) (value_of b) }
{
    let a_under = a.negative && a.magnitude > 0;
    let b_under = b.negative && b.magnitude > 0;
    if a_under && b_under {
        return b.magnitude < a.magnitude;
    }
    a_under || !b_under && a.magnitude < b.magnitude
}

fn lesser_of(extreme: Option<Nanoseconds>, ns: Nanoseconds) -> Option<Nanoseconds>
    ensures { result ≡ lesser extreme ns }
{
    match extreme {
        Some(least) if !below(ns, least) => Some(least),
        _ => Some(ns),
    }
}

fn greater_of(extreme: Option<Nanoseconds>, ns: Nanoseconds) -> Option<Nanoseconds>
    ensures { result ≡ greater extreme ns }
{
    match extreme {
        Some(most) if !below(most, ns) => Some(most),
        _ => Some(ns),
    }
}

// A time span in ms.
fn in_ms(ns: Nanoseconds) -> f64
    ensures { result ≡ in_ms (value_of ns) }
{
    floats::nearest_signed(ns.negative, 0, ns.magnitude) / 1000000.0
}

fn extreme_ms(extreme: Option<Nanoseconds>) -> Option<f64>
    ensures { result ≡ extreme_ms extreme }
{
    extreme.map(in_ms)
}

fn average_ms(sum: Sum, count: u64) -> Option<f64>
    ensures { result ≡ average_ms (total_of sum) count }
{
    if count == 0 {
        return None;
    }
    let total = floats::nearest_signed(sum.negative, sum.high, sum.low);
    let divisor = floats::nearest(count);
    Some(total / divisor / 1000000.0)
}

impl Delays {
    // No sample yet.
    pub fn new() -> Delays
        ensures { result ≡ fresh }
    {
        Delays {
            count: 0,
            sum: Sum {
                negative: false,
                high: 0,
                low: 0,
            },
            min: None,
            max: None,
        }
    }

    // The count and the sum are below their bounds.
    pub fn counts_fit(self) -> bool
        ensures { result ≡ counts_fit self }
    {
        self.count < limits::COUNT_BOUND && self.sum.high < HIGH_BOUND
    }

    // Refused where the count or the sum is at its bound.
    pub fn record(self, ns: Nanoseconds) -> Result<Delays, Refusal>
        ensures { result ≡ answer (refusal_of self) (recorded_of self ns) }
    {
        if self.counts_fit() {
            return Ok(self.recorded(ns));
        }
        Err(Refusal::CountsFull)
    }

    // One sample more, for a caller that has tested the count and the sum.
    pub fn recorded(self, ns: Nanoseconds) -> Delays
        requires { Bounded self }
        ensures { result ≡ recorded_of self ns }
    {
        Delays {
            count: self.count + 1,
            sum: added(self.sum, ns),
            min: lesser_of(self.min, ns),
            max: greater_of(self.max, ns),
        }
    }

    // Refuses nothing.
    pub fn summary(self) -> DelaySummary
        ensures { result ≡ summary_of self }
    {
        DelaySummary {
            samples: self.count,
            min: extreme_ms(self.min),
            average: average_ms(self.sum, self.count),
            max: extreme_ms(self.max),
        }
    }
}
