// `DirectionSummary` of src/ber.rs: what one direction of a link has counted, and what it shows of it. The Rust keeps each ratio beside
// the counts and works it out at each `record`; here it is worked out when it is shown, from the same counts in the same steps.
ghost use Rattle.std.specs.Prelude.{◌≡◌};
ghost use Rattle.bit_summary.specs.Summary.{fresh, wrong_packet, greater_burst, one_burst, burst_bits, recorded_of};
ghost use Rattle.bit_summary.specs.Record.{Bounded, counts_fit, record_to};
ghost use Rattle.bit_summary.specs.Shown.{ratio_of, per_million, shown_of};

use limits::Refusal;

// One packet's padding: how many bits it has, how many were wrong, and the longest run of wrong ones where it is known.
#[derive(Clone, Copy)]
pub struct Sample {
    pub bits: u64,
    pub errors: u32,
    pub burst: Option<u32>,
}

// The Rust's packets_received, packets_with_errors, padding_bits, bit_errors, burst_samples, burst_sum and max_burst_bits.
#[derive(Clone, Copy)]
pub struct DirectionSummary {
    pub received: u64,
    pub faulty: u64,
    pub bits: u64,
    pub errors: u64,
    pub bursts: u64,
    pub sum: u64,
    pub longest: Option<u32>,
}

// What a summary shows beside its counts: the Rust's bit_error_ratio, bit_errors_per_million, packets_with_errors_per_million and
// average_max_burst_bits.
#[derive(Clone, Copy)]
pub struct Ratios {
    pub ratio: Option<f64>,
    pub errors: Option<f64>,
    pub packets: Option<f64>,
    pub burst: Option<f64>,
}

fn wrong_packet(errors: u32) -> u64
    ensures { result ≡ wrong_packet errors }
{
    if errors == 0 { 0 } else { 1 }
}

fn greater_burst(burst: Option<u32>, bits: u32) -> Option<u32>
    ensures { result ≡ greater_burst burst bits }
{
    match burst {
        Some(most) => {
            if most < bits {
                return Some(bits);
            }
            Some(most)
        }
        None => Some(bits),
    }
}

fn ratio_of(part: u64, whole: u64) -> Option<f64>
    ensures { result ≡ ratio_of part whole }
{
    if whole == 0 {
        return None;
    }
    let upper = std::num::nearest_u64_to_f64(part);
    let lower = std::num::nearest_u64_to_f64(whole);
    Some(upper / lower)
}

fn per_million(ratio: Option<f64>) -> Option<f64>
    ensures { result ≡ per_million ratio }
{
    match ratio {
        Some(value) => Some(value * 1000000.0),
        None => None,
    }
}

impl DirectionSummary {
    // `Default`: no packet yet.
    pub fn new() -> DirectionSummary
        ensures { result ≡ fresh }
    {
        DirectionSummary {
            received: 0,
            faulty: 0,
            bits: 0,
            errors: 0,
            bursts: 0,
            sum: 0,
            longest: None,
        }
    }

    // The counts and sums are below their bound.
    fn counts_fit(self) -> bool
        ensures { result ≡ counts_fit self }
    {
        (self.received < limits::COUNT_BOUND)
            & (self.faulty < limits::COUNT_BOUND)
            & (self.bits < limits::COUNT_BOUND)
            & (self.errors < limits::COUNT_BOUND)
            & (self.bursts < limits::COUNT_BOUND)
            & (self.sum < limits::COUNT_BOUND)
    }

    // One sample more, once the refusals were tested.
    fn recorded(self, sample: Sample) -> DirectionSummary
        requires { Bounded self sample }
        ensures { result ≡ recorded_of self sample }
    {
        let wrong = wrong_packet(sample.errors);
        let received = self.received + 1;
        let with_errors = self.faulty + wrong;
        let bits = self.bits + sample.bits;
        let errors = self.errors + sample.errors as u64;
        let most = self.longest;
        let burst = sample.burst;
        match burst {
            Some(run) => {
                let greatest = greater_burst(most, run);
                DirectionSummary {
                    received: received,
                    faulty: with_errors,
                    bits: bits,
                    errors: errors,
                    bursts: self.bursts + 1,
                    sum: self.sum + run as u64,
                    longest: greatest,
                }
            }
            None => DirectionSummary {
                received: received,
                faulty: with_errors,
                bits: bits,
                errors: errors,
                bursts: self.bursts,
                sum: self.sum,
                longest: most,
            },
        }
    }

    // The summary as it then stands. Refused for a sample of more than 524,280 bits, then where a count or a sum is at its bound.
    pub fn record(self, sample: Sample) -> Result<DirectionSummary, Refusal>
        ensures { result ≡ record_to self sample }
    {
        if sample.bits > request_limits::MOST_BITS {
            return Err(Refusal::TooMuchPadding);
        }
        if self.counts_fit() {
            return Ok(self.recorded(sample));
        }
        Err(Refusal::CountsFull)
    }

    // Refuses nothing.
    pub fn ratios(self) -> Ratios
        ensures { result ≡ shown_of self }
    {
        let bits = ratio_of(self.errors, self.bits);
        let packets = ratio_of(self.faulty, self.received);
        let bursts = ratio_of(self.sum, self.bursts);
        let bits_per_million = per_million(bits);
        let packets_per_million = per_million(packets);
        Ratios {
            ratio: bits,
            errors: bits_per_million,
            packets: packets_per_million,
            burst: bursts,
        }
    }
}
