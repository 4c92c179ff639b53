// Keys at which to part a range of keys. Nothing here promises which key: it bears on the time of a search alone, which holds at
// whatever key a range is parted.
#![tactic(auto)]

ghost use Rattle.std.specs.Prelude.{◌≡◌, ◌<◌, ◌≤◌, length};

// The greatest key.
const LAST: u64 = 18446744073709551615;

// The order in which keys are tried: this many further each time, going round, so that keys in rising or falling order are scattered.
const FURTHER: u64 = 157;

// The lowest mask of one of three lengths that has every place below n, of at most 256.
fn mask_of(n: usize) -> u64
    ensures { result ≤ 255 }
{
    if n > 64 {
        return 255;
    }
    if n > 16 {
        return 63;
    }
    15
}

// Of the first n keys, at most 256, that of a rank. One key after another is tried: the keys below it and through it tell on which
// side of it the rank is, and keys on the other side are not tried any more.
pub fn chosen(keys: &[u64], n: usize, rank: u64) -> u64
    requires { n ≤ length keys.now }
{
    let mask = mask_of(n);
    let mut from: u64 = 0;
    let mut to = LAST;
    for i in 0..mask + 1 {
        let j = ((i * FURTHER) & mask) as usize;
        if j < n {
            let k = keys[j];
            if (from <= k) & (k <= to) {
                let tally = sample_passes::around(keys, n, 0, k);
                if rank < tally.under {
                    to = k.wrapping_sub(1);
                } else {
                    if rank < tally.reach {
                        return k;
                    }
                    from = k.wrapping_add(1);
                }
            }
        }
    }
    from
}

// Up to 64 keys of the range, from places equally far apart, and how many these are.
fn sampled(
    samples: &[u64],
    count: usize,
    bias: u64,
    low: u64,
    high: u64,
    keys: &mut [u64; 64],
) -> usize
    requires { (count ≤ length samples.now) × (low ≤ high) × (length keys.old ≡ 64) }
    ensures { (result ≤ 64) × (length keys.new ≡ 64) }
{
    let span = high - low;
    let apart = count / 64 + 1;
    let mut n: usize = 0;
    for i in (0..count).step_by(apart) {
        let k = sample_passes::key(samples[i], bias);
        if k.wrapping_sub(low) <= span {
            keys[n % 64] = k;
            n += 1;
        }
    }
    n.min(64)
}

// How many of the first n keys are at most `crowd` away from a value.
fn near(keys: &[u64], n: usize, value: u64, crowd: u64) -> u64
    requires { n ≤ length keys.now }
{
    let from = if value < crowd { 0 } else { value - crowd };
    let to = if LAST - value < crowd {
        LAST
    } else {
        value + crowd
    };
    let start = sample_passes::around(keys, n, 0, from);
    let end = sample_passes::around(keys, n, 0, to);
    end.reach.wrapping_sub(start.under)
}

// The place among `seen` keys, of `held`, where the rank's key should be.
fn place_of(rank: u64, held: u64, seen: u64) -> u64
    requires { 0 < seen }
    ensures { result < seen }
{
    let each = held / seen;
    if each > 0 {
        let place = rank / each;
        if place < seen {
            return place;
        }
    }
    seen - 1
}

// By n keys of a range that has `held`, for a rank among these: the key that seems to have the rank, where several are equal to it; else,
// where more than half are so near to it that equal parts of the range would hold them together, one a little past it, on the side that
// has more keys; else none.
fn guess_by(keys: &[u64], n: usize, rank: u64, held: u64) -> Option<u64>
    requires { (n ≤ length keys.now) × (0 < n) }
{
    let seen = n as u64;
    let place = place_of(rank, held, seen);
    let value = chosen(keys, n, place);
    let some = seen / 16 + 1;
    if near(keys, n, value, 0) > some {
        return Some(value);
    }
    let first = sample_passes::least(keys, n, 0, 0, LAST);
    let last = sample_passes::most(keys, n, 0, first, LAST);
    if near(keys, n, value, (last - first) >> 8) <= seen / 2 {
        return None;
    }
    if place < seen / 2 {
        return Some(chosen(keys, n, place + some));
    }
    Some(chosen(keys, n, place.wrapping_sub(some)))
}

// A key at which to part the range, by up to 64 samples of it; none where parting it does not pay.
pub fn guessed(
    samples: &[u64],
    count: usize,
    bias: u64,
    low: u64,
    high: u64,
    rank: u64,
    held: u64,
) -> Option<u64>
    requires { (count ≤ length samples.now) × (low ≤ high) }
{
    let mut keys = [0u64; 64];
    let n = sampled(samples, count, bias, low, high, &mut keys);
    if n > 2 {
        return guess_by(&keys, n, rank, held);
    }
    None
}
