// `RttCollector` of src/stats.rs: its state by value, and `record`. Its smallest and largest sample are the quantiles' own. Where the count is 0
// there is no first and no last sample, whatever `origin` and `last` hold.
#![tactic(auto)]

ghost use Rattle.std.specs.Prelude.{◌≡◌, ◌^◌, ◌<◌, true};
ghost use Rattle.buckets.specs.Buckets.{pick};
ghost use Rattle.spread.specs.Spread.{apart, centered_of, welford_from, jitter_of, fresh, fits, grown_of};
ghost use Rattle.spread.specs.Record.{outcome, record_to};

use delays::{Nanoseconds, Sum};
use limits::Refusal;
use quantiles::Quantiles;

// The Rust's variance_origin, centered_mean_ns and m2_ns.
#[derive(Clone, Copy)]
pub struct Welford {
    pub origin: u64,
    pub mean: f64,
    pub m2: f64,
}

// The Rust's jitter_sum_ns, jitter_count and last_rtt_ns.
#[derive(Clone, Copy)]
pub struct Jitter {
    pub sum: Sum,
    pub count: u64,
    pub last: u64,
}

#[derive(Clone, Copy)]
pub struct RttCollector {
    pub quantiles: Quantiles,
    pub sum: Sum,
    pub welford: Welford,
    pub jitter: Jitter,
}

// How far apart two samples are.
fn abs_diff(a: u64, b: u64) -> u64
    ensures { result ≡ apart a b }
{
    if a < b { b - a } else { a - b }
}

// A sample less the origin, in whole numbers, converted once.
fn centered(value: u64, origin: u64) -> f64
    ensures { result ≡ centered_of value origin }
{
    if value < origin {
        return floats::nearest_signed(true, 0, origin - value);
    }
    floats::nearest_signed(false, 0, value - origin)
}

// The first sample is the origin.
fn origin_with(first: bool, value: u64, origin: u64) -> u64
    ensures { result ≡ pick first value origin }
{
    if first { value } else { origin }
}

impl Welford {
    // The steps for the sample with which there are `count`, in the source's order.
    pub fn with(self, origin: u64, count: u64, value: u64) -> Welford
        ensures { result ≡ welford_from origin self count value }
    {
        let centered = centered(value, origin);
        let samples = std::num::nearest_u64_to_f64(count);
        let delta = centered - self.mean;
        let mean = self.mean + delta / samples;
        let m2 = self.m2 + delta * (centered - mean);
        Welford { origin, mean, m2 }
    }
}

impl Jitter {
    // The first sample has none before it.
    pub fn with(self, first: bool, value: u64) -> Jitter
        requires { (self.sum.high < 2 ^ 62) × (self.count < 2 ^ 63) }
        ensures { result ≡ jitter_of self first value }
    {
        let before = self.sum;
        if first {
            return Jitter {
                sum: before,
                count: self.count,
                last: value,
            };
        }
        let apart = delays::from_u64(abs_diff(value, self.last));
        let sum = series::sum_with(before, apart);
        Jitter {
            sum,
            count: self.count + 1,
            last: value,
        }
    }
}

impl RttCollector {
    // `RttCollector::new`: no samples yet. What the room holds then does not matter.
    pub fn new() -> RttCollector
        ensures { result ≡ fresh }
    {
        RttCollector {
            quantiles: Quantiles {
                signed: false,
                count: 0,
                min: 0,
                max: 0,
            },
            sum: Sum {
                negative: false,
                high: 0,
                low: 0,
            },
            welford: Welford {
                origin: 0,
                mean: 0.0,
                m2: 0.0,
            },
            jitter: Jitter {
                sum: Sum {
                    negative: false,
                    high: 0,
                    low: 0,
                },
                count: 0,
                last: 0,
            },
        }
    }

    // Both sums and the count of differences are below their bounds.
    pub fn sums_fit(self) -> bool
        ensures { result ≡ fits self }
    {
        let sum = self.sum;
        let jitter = self.jitter;
        let differences = jitter.sum;
        series::sum_fits(sum) & series::sum_fits(differences) & (jitter.count < limits::COUNT_BOUND)
    }

    // One sample more, once the quantiles have it.
    fn grown(self, next: Quantiles, value: u64) -> RttCollector
        requires { fits self ≡ true }
        ensures { result ≡ grown_of self next value }
    {
        let quantiles = self.quantiles;
        let before = self.sum;
        let steps = self.welford;
        let differences = self.jitter;
        let first = quantiles.count == 0;
        let origin = origin_with(first, value, steps.origin);
        let sum = series::sum_with(before, delays::from_u64(value));
        let welford = steps.with(origin, next.count, value);
        let jitter = differences.with(first, value);
        RttCollector {
            quantiles: next,
            sum,
            welford,
            jitter,
        }
    }

    // `record`: one sample more, in the room that holds the others: refusal 5; refusal 4; none, Rust's false; or the collector as it then stands.
    pub fn record(self, room: &mut [u64], value: u64) -> Result<Option<RttCollector>, Refusal>
        ensures { outcome self result room.new ≡ record_to self room.old value }
    {
        let quantiles = self.quantiles;
        let fits = self.sums_fit();
        match series::record_beside(fits, quantiles, room, value)? {
            None => Ok(None),
            Some(next) => Ok(Some(self.grown(next, value))),
        }
    }
}
