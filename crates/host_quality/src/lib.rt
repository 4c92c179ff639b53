// The parts of a clock quality that are no plain counts, in words that a host lends: out of their words, and back.
ghost use Rattle.std.specs.Prelude.{◌≡◌, ◌<◌};
ghost use Rattle.host_quality.specs.Words.{error_of, error_bits, estimate_of, estimate_word, last_of, last_word, last_bits, largest_of, largest_word, largest_bits};
ghost use Rattle.host_quality.specs.Words.{ErrorKept, LastKept, LargestKept};
ghost use Rattle.clock_quality.specs.Quality.{is_known};

use clock_quality::ClockEstimate;
use estimate::{Reading, format_of};
use host_numbers::{bits_of, flag, float_of, is_set};

// ---- out of their words

fn error_of(known: bool, bits: u64) -> Reading
    ensures { result ≡ error_of known bits }
{
    if known {
        return Reading::Known(float_of(bits));
    }
    Reading::Invalid((bits % 65536) as u16)
}

fn estimate_of(word: u64, bits: u64) -> ClockEstimate
    ensures { result ≡ estimate_of word bits }
{
    ClockEstimate {
        synchronized: word / 2 % 2 == 1,
        format: format_of(word / 4 % 2 == 1),
        scale: (word / 256 % 256) as u8,
        multiplier: (word / 65536 % 256) as u8,
        error: error_of(word / 8 % 2 == 1, bits),
    }
}

pub fn last_of(word: u64, bits: u64) -> Option<ClockEstimate>
    ensures { result ≡ last_of word bits }
{
    if is_set(word) {
        return Some(estimate_of(word, bits));
    }
    None
}

pub fn largest_of(known: u64, bits: u64) -> Option<f64>
    ensures { result ≡ largest_of known bits }
{
    if is_set(known) {
        return Some(float_of(bits));
    }
    None
}

// ---- and back

fn is_known(error: Reading) -> bool
    ensures { result ≡ is_known error }
{
    match error {
        Reading::Known(_) => true,
        Reading::Invalid(_) => false,
    }
}

fn error_bits(error: Reading) -> u64
    ensures { (result ≡ error_bits error) × ErrorKept error }
{
    match error {
        Reading::Known(x) => bits_of(x),
        Reading::Invalid(wire) => wire as u64,
    }
}

fn estimate_word(estimate: ClockEstimate) -> u64
    ensures { (result ≡ estimate_word estimate) × (estimate.scale < 256) × (estimate.multiplier < 256) }
{
    1 + flag(estimate.synchronized) * 2
        + flag(estimate::is_ptp(estimate.format)) * 4
        + flag(is_known(estimate.error)) * 8
        + (estimate.scale as u64) * 256
        + (estimate.multiplier as u64) * 65536
}

// The two words of a last estimate.
#[derive(Clone, Copy)]
pub struct LastWords {
    pub word: u64,
    pub bits: u64,
}

pub fn last_words(last: Option<ClockEstimate>) -> LastWords
    ensures { (result.word ≡ last_word last) × (result.bits ≡ last_bits last) × LastKept last }
{
    match last {
        None => LastWords { word: 0, bits: 0 },
        Some(estimate) => LastWords {
            word: estimate_word(estimate),
            bits: error_bits(estimate.error),
        },
    }
}

pub fn largest_word(largest: Option<f64>) -> u64
    ensures { result ≡ largest_word largest }
{
    match largest {
        None => 0,
        Some(_) => 1,
    }
}

pub fn largest_bits(largest: Option<f64>) -> u64
    ensures { (result ≡ largest_bits largest) × LargestKept largest }
{
    match largest {
        None => 0,
        Some(x) => bits_of(x),
    }
}
