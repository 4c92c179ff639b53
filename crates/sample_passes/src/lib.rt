// What is read off the samples in one pass. A sample has a key: the number by which samples are ordered.
#![tactic(auto)]

ghost use Rattle.std.specs.Prelude.{◌≡◌, ℕ, ◌+◌, ◌-◌, ◌*◌, ◌/◌, ◌%◌, ◌^◌, ◌<◌, ◌≤◌, true, ◌⊎◌, length, take, nat_lt, slice_index};
ghost use Rattle.sample_passes.specs.Keys.{shifted, InOrder, InReverse};
ghost use Rattle.sample_passes.specs.Counting.{one_if, below};
ghost use Rattle.sample_passes.specs.Passes.{Least, Most, Nearer, Shorter, Counted};

// The number by which samples are ordered.
pub fn key(sample: u64, bias: u64) -> u64
    ensures { result ≡ shifted bias sample }
{
    sample.wrapping_add(bias)
}

// How far the sample's key lies past `low`, going round: so no more than `high - low` only where it lies from low to high.
pub fn past(sample: u64, bias: u64, low: u64) -> u64
    ensures { (result + low) % 2 ^ 64 ≡ shifted bias sample }
{
    key(sample, bias).wrapping_sub(low)
}

// How far the sample's key lies short of `high`, going round.
fn short_of(sample: u64, bias: u64, high: u64) -> u64
    ensures { (result + shifted bias sample) % 2 ^ 64 ≡ high }
{
    high.wrapping_sub(key(sample, bias))
}

// The shorter of two distances.
fn shorter(d: u64, distance: u64) -> u64
    ensures { (result ≤ distance) × (((result ≡ d) × (d < distance)) ⊎ ((result ≡ distance) × (distance ≤ d))) }
{
    if d < distance {
        return d;
    }
    distance
}

// The distance past low to the first key, with the four samples from i on. Four in a row, and a way out of the loop that calls
// this, are twice as fast on x86-64 as the vector code that a plain loop becomes there.
fn least_four(samples: &[u64], bias: u64, low: u64, i: usize, distance: u64) -> u64
    requires { i + 4 ≤ length samples.now }
    ensures { Nearer (shifted bias) samples.now low i 4 distance result }
{
    let first = shorter(past(samples[i], bias, low), distance);
    let second = shorter(past(samples[i + 1], bias, low), first);
    let third = shorter(past(samples[i + 2], bias, low), second);
    shorter(past(samples[i + 3], bias, low), third)
}

// The distance past low to where the keys from low to high begin, of the samples in whole blocks of four.
fn least_of_blocks(samples: &[u64], count: usize, bias: u64, low: u64, high: u64) -> u64
    requires { (count ≤ length samples.now) × (low ≤ high) }
    ensures { (result ≤ high - low) × Least (shifted bias) (take (count - count % 4) samples.now) low high (low + result) }
{
    let mut distance = high - low;
    // An index loop by four samples a turn, with a way out: a plain loop over them takes twice the time (`least_four`).
    let mut i = 0;
    while count - i > 3 {
        distance = least_four(samples, bias, low, i, distance);
        if distance == 0 {
            return distance;
        }
        i += 4;
    }
    distance
}

// Where the keys from low to high begin.
pub fn least(samples: &[u64], count: usize, bias: u64, low: u64, high: u64) -> u64
    requires { (count ≤ length samples.now) × (low ≤ high) }
    ensures { Least (shifted bias) (take count samples.now) low high result }
{
    let mut distance = least_of_blocks(samples, count, bias, low, high);
    for i in count - count % 4..count {
        distance = shorter(past(samples[i], bias, low), distance);
    }
    low + distance
}

// The distance short of high to the last key, with the four samples from i on.
fn most_four(samples: &[u64], bias: u64, high: u64, i: usize, distance: u64) -> u64
    requires { i + 4 ≤ length samples.now }
    ensures { Shorter (shifted bias) samples.now high i 4 distance result }
{
    let first = shorter(short_of(samples[i], bias, high), distance);
    let second = shorter(short_of(samples[i + 1], bias, high), first);
    let third = shorter(short_of(samples[i + 2], bias, high), second);
    shorter(short_of(samples[i + 3], bias, high), third)
}

// The distance short of high to where the keys from low to high end, of the samples in whole blocks of four.
fn most_of_blocks(samples: &[u64], count: usize, bias: u64, low: u64, high: u64) -> u64
    requires { (count ≤ length samples.now) × (low ≤ high) }
    ensures { (result ≤ high - low) × Most (shifted bias) (take (count - count % 4) samples.now) low high (high - result) }
{
    let mut distance = high - low;
    // An index loop by four samples a turn, with a way out: a plain loop over them takes twice the time (`least_four`).
    let mut i = 0;
    while count - i > 3 {
        distance = most_four(samples, bias, high, i, distance);
        if distance == 0 {
            return distance;
        }
        i += 4;
    }
    distance
}

// Where the keys from low to high end.
pub fn most(samples: &[u64], count: usize, bias: u64, low: u64, high: u64) -> u64
    requires { (count ≤ length samples.now) × (low ≤ high) }
    ensures { Most (shifted bias) (take count samples.now) low high result }
{
    let mut distance = most_of_blocks(samples, count, bias, low, high);
    for i in count - count % 4..count {
        distance = shorter(short_of(samples[i], bias, high), distance);
    }
    high - distance
}

// How many keys each digit has, of the keys from low to high.
pub fn digits(
    samples: &[u64],
    count: usize,
    bias: u64,
    low: u64,
    high: u64,
    shift: u32,
) -> [u64; 256]
    requires { (count ≤ length samples.now) × (low ≤ high) × (shift < 64) × (high - low < 256 * 2 ^ shift) }
    ensures { Counted (shifted bias) (take count samples.now) low high (2 ^ shift) result }
{
    let mut counts = [0u64; 256];
    let span = high - low;
    for i in 0..count {
        let d = past(samples[i], bias, low);
        if d <= span {
            let digit = (d >> shift) as usize;
            counts[digit] += 1;
        }
    }
    counts
}

// How many samples have a key below a value, and how many have one of at most it.
#[derive(Clone, Copy)]
pub struct Tally {
    pub under: u64,
    pub reach: u64,
}

// 1 where a key is below a value.
fn one_below(k: u64, value: u64) -> u64
    ensures { result ≡ one_if (nat_lt k value) }
{
    if k < value { 1 } else { 0 }
}

// 1 where a key is at most a value.
fn one_through(k: u64, value: u64) -> u64
    ensures { result ≡ one_if (nat_lt k (value + 1)) }
{
    if k <= value { 1 } else { 0 }
}

// The keys below a value and those of at most it, counted.
pub fn around(samples: &[u64], count: usize, bias: u64, value: u64) -> Tally
    requires { count ≤ length samples.now }
    ensures { (result.under ≡ below (shifted bias) value (take count samples.now))
        × (result.reach ≡ below (shifted bias) (value + 1) (take count samples.now)) }
{
    let mut under: u64 = 0;
    let mut reach: u64 = 0;
    for i in 0..count {
        let k = key(samples[i], bias);
        under += one_below(k, value);
        reach += one_through(k, value);
    }
    Tally { under, reach }
}

// 0 where no key falls below the one before it, in the 16 steps from `base`.
fn falls(samples: &[u64], bias: u64, base: usize) -> u64
    requires { base + 16 < length samples.now }
    ensures { result ≡ 0
        → (k : ℕ) → k < 16
        → shifted bias (slice_index samples.now (base + k)) ≤ shifted bias (slice_index samples.now (base + k + 1)) }
{
    let mut n: u64 = 0;
    for j in 0..16 {
        if key(samples[base + j + 1], bias) < key(samples[base + j], bias) {
            n = 1;
        }
    }
    n
}

// How many steps from the first sample surely do not fall: whole blocks of 16.
fn rising_blocks(samples: &[u64], count: usize, bias: u64) -> usize
    requires { count ≤ length samples.now }
    ensures { (result ≤ count)
        × ((k : ℕ) → k < result
        → shifted bias (slice_index samples.now k) ≤ shifted bias (slice_index samples.now (k + 1))) }
{
    // An index loop: the place where it stops is the answer.
    let mut i = 0;
    while count - i > 16 {
        if falls(samples, bias, i) != 0 {
            return i;
        }
        i += 16;
    }
    i
}

// Whether no sample has a lower key than the one before it.
pub fn in_order(samples: &[u64], count: usize, bias: u64) -> bool
    requires { count ≤ length samples.now }
    ensures { result ≡ true → InOrder (shifted bias) samples.now count }
{
    for i in rising_blocks(samples, count, bias)..count.saturating_sub(1) {
        if key(samples[i + 1], bias) < key(samples[i], bias) {
            return false;
        }
    }
    true
}

// 0 where no key rises above the one before it, in the 16 steps from `base`.
fn rises(samples: &[u64], bias: u64, base: usize) -> u64
    requires { base + 16 < length samples.now }
    ensures { result ≡ 0
        → (k : ℕ) → k < 16
        → shifted bias (slice_index samples.now (base + k + 1)) ≤ shifted bias (slice_index samples.now (base + k)) }
{
    let mut n: u64 = 0;
    for j in 0..16 {
        if key(samples[base + j + 1], bias) > key(samples[base + j], bias) {
            n = 1;
        }
    }
    n
}

// How many steps from the first sample surely do not rise: whole blocks of 16.
fn falling_blocks(samples: &[u64], count: usize, bias: u64) -> usize
    requires { count ≤ length samples.now }
    ensures { (result ≤ count)
        × ((k : ℕ) → k < result
        → shifted bias (slice_index samples.now (k + 1)) ≤ shifted bias (slice_index samples.now k)) }
{
    // An index loop: the place where it stops is the answer.
    let mut i = 0;
    while count - i > 16 {
        if rises(samples, bias, i) != 0 {
            return i;
        }
        i += 16;
    }
    i
}

// Whether no sample has a higher key than the one before it.
pub fn in_reverse(samples: &[u64], count: usize, bias: u64) -> bool
    requires { count ≤ length samples.now }
    ensures { result ≡ true → InReverse (shifted bias) samples.now count }
{
    for i in falling_blocks(samples, count, bias)..count.saturating_sub(1) {
        if key(samples[i + 1], bias) > key(samples[i], bias) {
            return false;
        }
    }
    true
}
