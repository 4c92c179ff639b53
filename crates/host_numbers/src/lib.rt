// Small numbers in the words that a host lends: two u32 in one word, a flag, the bits of an f64. Two's complement is the library's `cast_unsigned` and `cast_signed`.
ghost use Rattle.std.specs.Prelude.{◌≡◌, ◌<◌, ◌^◌};
ghost use Rattle.std.specs.Float.{binary64};
ghost use Rattle.std.specs.Float.Ieee.{of_bits, to_bits};
ghost use Rattle.host_numbers.specs.Numbers.{lower, upper, joined, flag_word, is_set};

// ---- two u32 in one word

pub fn low(word: u64) -> u32
    ensures { result ≡ lower word }
{
    (word % 4294967296) as u32
}

pub fn high(word: u64) -> u32
    ensures { result ≡ upper word }
{
    (word / 4294967296 % 4294967296) as u32
}

pub fn both(first: u32, second: u32) -> u64
    ensures { (result ≡ joined first second) × (lower result ≡ first) × (upper result ≡ second) }
{
    (first as u64) + (second as u64) * 4294967296
}

// ---- flags

pub fn flag(set: bool) -> u64
    ensures { (result ≡ flag_word set) × (result < 2) }
{
    if set { 1 } else { 0 }
}

// Any word is a flag: 0 is no, anything else yes.
pub fn is_set(word: u64) -> bool
    ensures { result ≡ is_set word }
{
    !(word == 0)
}

// ---- an f64 in a word

// A float's bits; those of a NaN, which has many patterns, are one.
pub fn bits_of(x: f64) -> u64
    ensures { (result ≡ to_bits binary64 x) × (of_bits binary64 result ≡ x) }
{
    if x == x {
        return f64::to_bits(x);
    }
    9221120237041090560
}

// The float of a pattern; each pattern of a NaN gives the same one.
pub fn float_of(bits: u64) -> f64
    ensures { result ≡ of_bits binary64 bits }
{
    if bits % 9223372036854775808 > 9218868437227405312 {
        return 0.0 / 0.0;
    }
    f64::from_bits(bits)
}
