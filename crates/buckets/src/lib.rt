// The buckets of src/stats/quantiles.rs: `magnitude_index`, `magnitude_value`, and `QuantileValue` of u64 and i64.
// An i64 is its two's complement word, and the type parameter is a flag, so that both kinds share one set of laws.
ghost use Rattle.std.specs.Prelude.{◌≡◌, ◌+◌, ◌*◌, ◌/◌, ◌^◌, ◌<◌, ◌≤◌, true, nat_lt};
ghost use Rattle.buckets.specs.Buckets.{pick, shift_of, index, value};
ghost use Rattle.buckets.specs.Signed.{bucket_count, magnitude, order, index_of, value_of};

const HALF: u64 = 9223372036854775808;

const SIGNED_ZERO: usize = 7296;

// The bit length less 8, not below 0: with bit 7 set a value below 128 has eight digits, and any other keeps its length. No comparison is left.
fn bucket_shift(value: u64) -> u32
    ensures { (result ≡ shift_of value) × (result ≤ 56) × (value / 2 ^ result < 256) }
{
    56 - u64::leading_zeros(value | 128)
}

// `magnitude_index`
pub fn magnitude_index(value: u64) -> usize
    ensures { (result ≡ index value) × (result < 7424) }
{
    let shift = bucket_shift(value);
    let top = value >> shift;
    (shift as usize) * 128 + top as usize
}

// `magnitude_value`
pub fn magnitude_value(place: usize) -> u64
    requires { place < 7424 }
    ensures { result ≡ value place }
{
    if place < 256 {
        return place as u64;
    }
    let shift = (place / 128 - 1) as u32;
    ((128 + place % 128) as u64) << shift
}

// How far a signed word's value is from zero.
fn from_zero(word: u64) -> u64
    ensures { result ≡ magnitude true word }
{
    if word < HALF {
        word
    } else {
        18446744073709551615 - word + 1
    }
}

// Twice the place where the value is below zero, else 0. Which of the two is no jump in the compiled code: a processor guesses the sign of a
// delay around zero wrong half of the time.
fn twice_below_zero(word: u64, place: usize) -> usize
    requires { place < 7424 }
    ensures { result ≡ pick (nat_lt word (2 ^ 63)) 0 (place + place) }
{
    if word < HALF { 0 } else { place + place }
}

// `QuantileValue::index`: the bucket of a word.
pub fn bucket_of(signed: bool, word: u64) -> usize
    ensures { (result ≡ index_of signed word) × (result < bucket_count signed) }
{
    if signed {
        let place = magnitude_index(from_zero(word));
        let back = twice_below_zero(word, place);
        return SIGNED_ZERO + place - back;
    }
    magnitude_index(word)
}

// `QuantileValue::value`: the word that a bucket shows.
pub fn shown_by(signed: bool, place: usize) -> u64
    requires { place < bucket_count signed }
    ensures { result ≡ value_of signed place }
{
    if signed {
        if place < SIGNED_ZERO {
            return 18446744073709551615 - magnitude_value(SIGNED_ZERO - place) + 1;
        }
        return magnitude_value(place - SIGNED_ZERO);
    }
    magnitude_value(place)
}

// `Ord` of u64 and of i64: words in the order of the values they stand for.
pub fn ordered(signed: bool, word: u64) -> u64
    ensures { result ≡ order signed word }
{
    if signed {
        return std::num::wrapping_add_u64(word, HALF);
    }
    word
}
