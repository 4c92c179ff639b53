// A port of src/error_estimate.rs and src/clock_format.rs: the 16-bit error estimate of a STAMP timestamp.
// Its reading has `ClockEstimate::error_ms` of src/stats/clock_quality.rs.
#![tactic(auto)]

ghost use Rattle.std.specs.Prelude.{◌≡◌, false, ◌<◌};
ghost use Rattle.estimate.specs.Wire.{bit, estimate_of, wire_of};
ghost use Rattle.estimate.specs.Make.{is_ptp, format_of, made_of, smallest};
ghost use Rattle.estimate.specs.Error.{InSeconds, InMs};

use limits::Refusal;

// Which format a 64-bit timestamp has.
#[derive(Clone, Copy)]
pub enum ClockFormat {
    NTP,
    PTP,
}

// S, Z, scale and multiplier of RFC 8762, section 4.2.1.
#[derive(Clone, Copy)]
pub struct ErrorEstimate {
    pub synchronized: bool,
    pub ptp: bool,
    pub scale: u8,
    pub multiplier: u8,
}

// The reading of one estimate: known with its error in ms, or invalid with its 16 bits, so that what came can be seen.
// RFC 4656, section 4.1.2: the multiplier 0 is invalid, not an error of zero.
#[derive(Clone, Copy)]
pub enum Reading {
    Known(f64),
    Invalid(u16),
}

impl ErrorEstimate {
    // A scale above 63 is refused.
    #[tactic(auto, using(crate::specs::Make::in_range_lem, crate::specs::Make::above_range))]
    pub fn new(
        synchronized: bool,
        ptp: bool,
        scale: u8,
        multiplier: u8,
    ) -> Result<ErrorEstimate, Refusal>
        ensures { result ≡ made_of synchronized ptp scale multiplier }
    {
        if scale > 63 {
            return Err(Refusal::OutOfRange);
        }
        Ok(ErrorEstimate {
            synchronized,
            ptp,
            scale,
            multiplier,
        })
    }

    // As `new`, with the Z bit by the clock format.
    pub fn with_clock_format(
        synchronized: bool,
        format: ClockFormat,
        scale: u8,
        multiplier: u8,
    ) -> Result<ErrorEstimate, Refusal>
        ensures { result ≡ made_of synchronized (is_ptp format) scale multiplier }
    {
        ErrorEstimate::new(synchronized, is_ptp(format), scale, multiplier)
    }

    // The smallest error that is not invalid, of a clock that is not synchronized, in NTP format.
    pub fn unsynchronized() -> ErrorEstimate
        ensures { result ≡ smallest false }
    {
        ErrorEstimate {
            synchronized: false,
            ptp: false,
            scale: 0,
            multiplier: 1,
        }
    }

    // The same in the clock format given.
    pub fn unsynchronized_with_format(format: ClockFormat) -> ErrorEstimate
        ensures { result ≡ smallest (is_ptp format) }
    {
        ErrorEstimate {
            synchronized: false,
            ptp: is_ptp(format),
            scale: 0,
            multiplier: 1,
        }
    }

    // The clock format that the Z bit says.
    pub fn clock_format(self) -> ClockFormat
        ensures { result ≡ format_of self.ptp }
    {
        format_of(self.ptp)
    }

    // The estimate that the 16 bits of a word say.
    pub fn from_wire(value: u16) -> ErrorEstimate
        ensures { result ≡ estimate_of value }
    {
        ErrorEstimate {
            synchronized: (value >> 15) % 2 == 1,
            ptp: (value >> 14) % 2 == 1,
            scale: ((value >> 8) % 64) as u8,
            multiplier: (value % 256) as u8,
        }
    }

    // The 16 bits of an estimate, of whose scale six bits count.
    pub fn to_wire(self) -> u16
        ensures { result ≡ wire_of self }
    {
        flag(self.synchronized) * 32768
            + flag(self.ptp) * 16384
            + ((self.scale % 64) as u16) * 256
            + (self.multiplier as u16)
    }

    // The error in seconds, multiplier * 2 ^ (scale - 32).
    pub fn error_seconds(self) -> f64
        ensures { InSeconds self result }
    {
        // the exponent's field of 2 ^ (scale - 32) is scale - 32 + 1023
        let power = floats::power_of_two((self.scale as u64) + 991);
        (self.multiplier as f64) * power
    }

    // The error in ms; invalid for the multiplier 0, and for a scale that is not one of six bits, with the bits that `to_wire` gives.
    pub fn reading(self) -> Reading
        ensures { InMs self result }
    {
        if self.multiplier == 0 || self.scale > 63 {
            return Reading::Invalid(self.to_wire());
        }
        Reading::Known(self.error_seconds() * 1000.0)
    }
}

// Whether timestamps are PTP and not NTP.
pub fn is_ptp(format: ClockFormat) -> bool
    ensures { result ≡ is_ptp format }
{
    match format {
        ClockFormat::PTP => true,
        ClockFormat::NTP => false,
    }
}

// The format that this flag says.
pub fn format_of(ptp: bool) -> ClockFormat
    ensures { result ≡ format_of ptp }
{
    if ptp {
        ClockFormat::PTP
    } else {
        ClockFormat::NTP
    }
}

fn flag(set: bool) -> u16
    ensures { (result ≡ bit set) × (result < 2) }
{
    if set { 1 } else { 0 }
}
