// A port of src/stats/clock_quality.rs: declared timestamp quality. What the endpoints assert, not what their clocks are.
ghost use Rattle.std.specs.Prelude.{◌≡◌, ◌&&◌};
ghost use Rattle.std.specs.Float.{binary64};
ghost use Rattle.std.specs.Float.Ieee.{add};
ghost use Rattle.clock_quality.specs.Quality.{clock_estimate_of, fresh, known_class, invalid_with, is_known, classed, larger_of, paired_of, recorded_of};
ghost use Rattle.clock_quality.specs.Quality.Class.{unknown, invalid_sender, invalid_reflector, invalid_both};
ghost use Rattle.clock_quality.specs.Bounds.{Bounded, counts_fit, refusal_of, answer};

use estimate::{ClockFormat, ErrorEstimate, Reading};
use limits::Refusal;

// An estimate with all its fields, and its reading.
#[derive(Clone, Copy)]
pub struct ClockEstimate {
    pub synchronized: bool,
    pub format: ClockFormat,
    pub scale: u8,
    pub multiplier: u8,
    pub error: Reading,
}

// How many samples there are, how many of each class, at whose end the invalid ones are invalid, the last two estimates and the largest
// combined error.
#[derive(Clone, Copy)]
pub struct ClockQuality {
    pub samples: u64,
    pub both: u64,
    pub unsynchronized: u64,
    pub invalid: u64,
    pub unknown: u64,
    pub invalid_sender: u64,
    pub invalid_reflector: u64,
    pub invalid_both: u64,
    pub sender: Option<ClockEstimate>,
    pub reflector: Option<ClockEstimate>,
    pub largest: Option<f64>,
}

// `ClockEstimate::from`.
pub fn clock_estimate(estimate: ErrorEstimate) -> ClockEstimate
    ensures { result ≡ clock_estimate_of estimate }
{
    ClockEstimate {
        synchronized: estimate.synchronized,
        format: estimate.clock_format(),
        scale: estimate.scale,
        multiplier: estimate.multiplier,
        error: estimate.reading(),
    }
}

// The larger of two errors; the second where there was none.
pub fn larger(largest: Option<f64>, combined: f64) -> Option<f64>
    ensures { result ≡ larger_of largest combined }
{
    match largest {
        Some(most) if most >= combined => Some(most),
        _ => Some(combined),
    }
}

impl ClockQuality {
    // No sample yet.
    pub fn new() -> ClockQuality
        ensures { result ≡ fresh }
    {
        ClockQuality {
            samples: 0,
            both: 0,
            unsynchronized: 0,
            invalid: 0,
            unknown: 0,
            invalid_sender: 0,
            invalid_reflector: 0,
            invalid_both: 0,
            sender: None,
            reflector: None,
            largest: None,
        }
    }

    // Every count is below its bound.
    pub fn counts_fit(self) -> bool
        ensures { result ≡ counts_fit self }
    {
        self.samples < limits::COUNT_BOUND
            && self.both < limits::COUNT_BOUND
            && self.unsynchronized < limits::COUNT_BOUND
            && self.invalid < limits::COUNT_BOUND
            && self.unknown < limits::COUNT_BOUND
            && self.invalid_sender < limits::COUNT_BOUND
            && self.invalid_reflector < limits::COUNT_BOUND
            && self.invalid_both < limits::COUNT_BOUND
    }

    // The host's call: refused where a count is at its bound.
    pub fn record(
        self,
        estimates: Option<(ErrorEstimate, ErrorEstimate)>,
    ) -> Result<ClockQuality, Refusal>
        ensures { result ≡ answer (refusal_of self) (recorded_of self estimates) }
    {
        if self.counts_fit() {
            return Ok(self.recorded(estimates));
        }
        Err(Refusal::CountsFull)
    }

    // One sample more, for a caller that has tested the counts.
    pub fn recorded(mut self, estimates: Option<(ErrorEstimate, ErrorEstimate)>) -> ClockQuality
        requires { Bounded self }
        ensures { result ≡ recorded_of self estimates }
    {
        match estimates {
            None => {
                self.samples += 1;
                self.unknown += 1;
                self.sender = None;
                self.reflector = None;
                self
            }
            Some((sender, reflector)) => {
                self.with_estimates(clock_estimate(sender), clock_estimate(reflector))
            }
        }
    }

    // A sample with two estimates. Where both errors are known, their sum is rounded once.
    fn with_estimates(mut self, sender: ClockEstimate, reflector: ClockEstimate) -> ClockQuality
        requires { Bounded self }
        ensures { result ≡ paired_of self sender reflector }
    {
        self.samples += 1;
        self.sender = Some(sender);
        self.reflector = Some(reflector);
        match (sender.error, reflector.error) {
            (Reading::Known(x), Reading::Known(y)) => {
                self.largest = larger(self.largest, x + y);
                if sender.synchronized && reflector.synchronized {
                    self.both += 1;
                } else {
                    self.unsynchronized += 1;
                }
            }
            (Reading::Known(_), Reading::Invalid(_)) => {
                self.invalid += 1;
                self.invalid_reflector += 1;
            }
            (Reading::Invalid(_), Reading::Known(_)) => {
                self.invalid += 1;
                self.invalid_sender += 1;
            }
            (Reading::Invalid(_), Reading::Invalid(_)) => {
                self.invalid += 1;
                self.invalid_both += 1;
            }
        }
        self
    }
}
