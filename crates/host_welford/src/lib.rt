// The Welford steps of crate spread on the two words in which a host keeps the mean and the sum of squares. Words come in and words go out: mean
// after mean is a chain through a host's memory, and a processor hands an integer on through memory sooner than a float.
ghost use Rattle.std.specs.Prelude.{◌≡◌, false, not, ◌+◌, ◌^◌, ◌<◌, T, pos, ◌-ℤ◌};
ghost use Rattle.std.specs.Float.{binary64};
ghost use Rattle.std.specs.Float.Ieee.{of_int, nan_bits};
ghost use Rattle.std.specs.Float.Ieee.Exact.{HasValue};
ghost use Rattle.host_welford.specs.Steps.{step_words};

use spread::Welford;

// The f64 patterns of the mean and of the sum of squares.
#[derive(Clone, Copy)]
pub struct FloatWords {
    pub mean: u64,
    pub m2: u64,
}

// Whether a word is the pattern of a number.
fn is_number(word: u64) -> bool
    ensures { result ≡ not (nan_bits binary64 word) }
{
    word % 9223372036854775808 <= 9218868437227405312
}

// 2^52 + n: in the pattern of 2^52 the last digit stands for 1, and the 52 that can be others are 0.
fn lifted(n: u64) -> f64
    requires { n < 2 ^ 52 }
    ensures { HasValue result false (2 ^ 52 + n) 1 }
{
    f64::from_bits(4841369599423283200 + n)
}

// a - b, converted once. Which of the two is greater picks no way through the code: a processor guesses wrong which side of the first sample the
// next one is on.
fn difference(a: u64, b: u64) -> f64
    requires { (a < 2 ^ 52) × (b < 2 ^ 52) }
    ensures { result ≡ of_int binary64 (pos a -ℤ pos b) }
{
    let above = lifted(a);
    let below = lifted(b);
    above - below
}

// The steps of any words and numbers, as crate spread has them.
fn any_steps(origin: u64, mean: u64, m2: u64, count: u64, value: u64) -> FloatWords
    ensures { result ≡ step_words origin mean m2 count value }
{
    let at = host_numbers::float_of(mean);
    let squares = host_numbers::float_of(m2);
    let before = Welford {
        origin: origin,
        mean: at,
        m2: squares,
    };
    let after = before.with(origin, count, value);
    let next = host_numbers::bits_of(after.mean);
    let sum = host_numbers::bits_of(after.m2);
    FloatWords {
        mean: next,
        m2: sum,
    }
}

// The steps where both words are numbers and the whole numbers are below 2^52. A result that is no number is left to `any_steps`: a guessed jump, so
// that no word waits for the test of the other.
fn small_steps(origin: u64, mean: u64, m2: u64, count: u64, value: u64) -> FloatWords
    requires { T (not (nan_bits binary64 mean)) × T (not (nan_bits binary64 m2)) × (origin < 2 ^ 52) × (count < 2 ^ 52) × (value < 2 ^ 52) }
    ensures { result ≡ step_words origin mean m2 count value }
{
    let centered = difference(value, origin);
    let samples = difference(count, 0);
    let at = f64::from_bits(mean);
    let delta = centered - at;
    let next = at + delta / samples;
    let sum = f64::from_bits(m2) + delta * (centered - next);
    if (next == next) & (sum == sum) {
        return FloatWords {
            mean: f64::to_bits(next),
            m2: f64::to_bits(sum),
        };
    }
    any_steps(origin, mean, m2, count, value)
}

// The steps for the sample with which there are `count`.
pub fn steps(origin: u64, mean: u64, m2: u64, count: u64, value: u64) -> FloatWords
    ensures { result ≡ step_words origin mean m2 count value }
{
    if is_number(mean)
        & is_number(m2)
        & (value < 4503599627370496)
        & (origin < 4503599627370496)
        & (count < 4503599627370496)
    {
        return small_steps(origin, mean, m2, count, value);
    }
    any_steps(origin, mean, m2, count, value)
}
