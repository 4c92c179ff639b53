// `observation` of src/ber.rs: the sample that a reply's items make, that its sender does not do this, or nothing. An item of the
// extension area (RFC 8972, 4) is one word: its header's four bytes as they stand in the packet, flags, type and length, then the
// place where its value begins. A value reaches as far as the bytes do. The list has the items in the packet's order, HMAC too.
ghost use Rattle.std.specs.Prelude.{◌≡◌, Bool, not, ◌-◌, ◌/◌, ◌%◌, ◌≤◌, ◌<◌, ◌^◌, length, take, drop};
ghost use Rattle.bit_observation.specs.Items.{flag_of, kind_of, length_of, start_of, value_of, same_bytes, is_ber, is_ours, PartOf};
ghost use Rattle.bit_observation.specs.declared.Reading.TheVariants.{On};
ghost use Rattle.bit_observation.specs.Observation.{failed, burst_fits, sampled, count_judged, judged, ending, observed};
ghost use Rattle.bit_observation.specs.Reading.{is_absent, nothing, with_pattern, with_padding, with_count, with_burst, noted, step_of, turned, read_all};

use limits::Refusal;

// What was read so far: whether the pattern was there, the item of the padding, the count and the burst.
#[derive(Clone, Copy)]
pub struct Seen {
    pub pattern: bool,
    pub padding: Option<u64>,
    pub count: Option<u64>,
    pub burst: Option<u64>,
}

// Reading goes on, ended at a malformed item, or has its answer.
#[derive(Clone, Copy)]
pub enum Reading {
    On(Seen),
    Ended(Seen),
    Unsupported,
    Unusable,
}

// `Observation::Sample`. `forward` is what the reflector counted, `burst` its longest run; `reverse` and `longest` are counted here.
#[derive(Clone, Copy)]
pub struct Sample {
    pub bits: u64,
    pub forward: u64,
    pub burst: Option<u64>,
    pub reverse: u32,
    pub longest: u32,
}

// `None`, or one of the two observations.
#[derive(Clone, Copy)]
pub enum Observed {
    Unusable,
    Unsupported,
    Sampled(Sample),
}

// Where a value lies in the bytes.
#[derive(Clone, Copy)]
pub struct Part {
    pub from: usize,
    pub end: usize,
}

// A flag of an item: U is bit 63 of the word, M 62, I 61, C 60.
fn flag(word: u64, bit: u32) -> bool
    requires { bit < 64 }
    ensures { result ≡ flag_of bit word }
{
    (word >> bit) % 2 == 1
}

fn kind_of(word: u64) -> u64
    ensures { result ≡ kind_of word }
{
    word / 281474976710656 % 256
}

fn place(bytes: &[u8], word: u64) -> Part
    ensures { PartOf bytes.now word result }
{
    let start = (word % 4294967296) as usize;
    let length = (word / 4294967296 % 65536) as usize;
    let from = start.min(bytes.len());
    let taken = length.min(bytes.len() - from);
    Part {
        from,
        end: from + taken,
    }
}

fn same(a: &[u8], b: &[u8]) -> bool
    ensures { result ≡ same_bytes a.now b.now }
{
    a == b
}

fn absent(field: Option<u64>) -> bool
    ensures { result ≡ is_absent field }
{
    match field {
        None => true,
        Some(value) => false,
    }
}

fn with_pattern(seen: Seen, value: &[u8], pattern: &[u8]) -> Reading
    ensures { result ≡ with_pattern seen value.now pattern.now }
{
    if seen.pattern {
        return Reading::Unusable;
    }
    if same(value, pattern) {
        return Reading::On(Seen {
            pattern: true,
            ..seen
        });
    }
    Reading::Unusable
}

fn with_padding(seen: Seen, word: u64) -> Reading
    ensures { result ≡ with_padding seen word }
{
    if absent(seen.padding) {
        return Reading::On(Seen {
            padding: Some(word),
            ..seen
        });
    }
    Reading::Unusable
}

fn with_count(seen: Seen, value: &[u8]) -> Reading
    ensures { result ≡ with_count seen value.now }
{
    if value.len() == 4 {
        if absent(seen.count) {
            return Reading::On(Seen {
                count: Some(big_endian::u32_at(value, 0) as u64),
                ..seen
            });
        }
        return Reading::Unusable;
    }
    Reading::Unusable
}

fn with_burst(seen: Seen, value: &[u8]) -> Reading
    ensures { result ≡ with_burst seen value.now }
{
    if value.len() == 4 {
        if absent(seen.burst) {
            return Reading::On(Seen {
                burst: Some(big_endian::u32_at(value, 0) as u64),
                ..seen
            });
        }
        return Reading::Unusable;
    }
    Reading::Unusable
}

fn note(seen: Seen, word: u64, bytes: &[u8], pattern: &[u8]) -> Reading
    ensures { result ≡ noted bytes.now pattern.now seen word }
{
    let kind = kind_of(word);
    let part = place(bytes, word);
    let value = &bytes[part.from..part.end];
    match kind {
        240 => with_pattern(seen, value, pattern),
        241 => with_count(seen, value),
        242 => with_burst(seen, value),
        _ => with_padding(seen, word),
    }
}

fn is_ber(kind: u64) -> bool
    ensures { result ≡ is_ber kind }
{
    (kind == 240) | (kind == 241) | (kind == 242)
}

fn step(seen: Seen, word: u64, bytes: &[u8], pattern: &[u8]) -> Reading
    ensures { result ≡ step_of bytes.now pattern.now seen word }
{
    let kind = kind_of(word);
    if kind == 8 {
        return Reading::On(seen);
    }
    if flag(word, 62) {
        return Reading::Ended(seen);
    }
    let unrecognized = flag(word, 63);
    let ber = is_ber(kind);
    if ber & unrecognized {
        return Reading::Unsupported;
    }
    if ber | (kind == 1) {
        let conformant = flag(word, 60);
        if unrecognized | conformant {
            return Reading::Unusable;
        }
        return note(seen, word, bytes, pattern);
    }
    Reading::On(seen)
}

fn turn(reading: Reading, word: u64, bytes: &[u8], pattern: &[u8]) -> Reading
    ensures { result ≡ turned bytes.now pattern.now reading word }
{
    match reading {
        Reading::On(seen) => step(seen, word, bytes, pattern),
        Reading::Ended(seen) => Reading::Ended(seen),
        Reading::Unsupported => Reading::Unsupported,
        Reading::Unusable => Reading::Unusable,
    }
}

fn read_all(items: &[u64], bytes: &[u8], pattern: &[u8]) -> Reading
    ensures { result ≡ read_all bytes.now pattern.now (On nothing) items.now }
{
    let mut reading = Reading::On(Seen {
        pattern: false,
        padding: None,
        count: None,
        burst: None,
    });
    for word in items {
        reading = turn(reading, *word, bytes, pattern);
    }
    reading
}

fn any_failed(items: &[u64]) -> bool
    ensures { result ≡ failed items.now }
{
    for word in items {
        if flag(*word, 61) {
            return true;
        }
    }
    false
}

fn burst_fits(wanted: bool, count: u64, burst: Option<u64>) -> bool
    ensures { result ≡ burst_fits wanted count burst }
{
    match burst {
        Some(n) => {
            if n > count {
                return false;
            }
            if n == 0 {
                return count == 0;
            }
            !(count == 0)
        }
        None => !wanted,
    }
}

fn counted(value: &[u8], pattern: &[u8], count: u64, burst: Option<u64>) -> Observed
    requires { length value.now ≤ 65535 }
    ensures { result ≡ sampled value.now pattern.now count burst }
{
    let bits = value.len() as u64 * 8;
    match bit_errors::xor_popcount_and_max_burst(value, pattern) {
        Ok(found) => Observed::Sampled(Sample {
            bits,
            forward: count,
            burst,
            reverse: found.errors,
            longest: found.longest,
        }),
        Err(_) => unreachable!(),
    }
}

// The padding was found and has its size: the count, the burst, then the bits.
fn judge_count(
    value: &[u8],
    pattern: &[u8],
    wanted: bool,
    count: Option<u64>,
    burst: Option<u64>,
) -> Observed
    requires { length value.now ≤ 65535 }
    ensures { result ≡ count_judged value.now pattern.now wanted count burst }
{
    match count {
        Some(n) => {
            let bits = value.len() as u64 * 8;
            if n > bits {
                return Observed::Unusable;
            }
            if burst_fits(wanted, n, burst) {
                return counted(value, pattern, n, burst);
            }
            Observed::Unusable
        }
        None => Observed::Unusable,
    }
}

fn judge(seen: Seen, bytes: &[u8], pattern: &[u8], size: usize, wanted: bool) -> Observed
    requires { size ≤ 65535 }
    ensures { result ≡ judged bytes.now pattern.now size wanted seen }
{
    let padding = seen.padding;
    let count = seen.count;
    let burst = seen.burst;
    match padding {
        Some(word) => {
            let part = place(bytes, word);
            let from = part.from;
            let end = part.end;
            if end - from == size {
                if pattern.len() == 0 {
                    return Observed::Unusable;
                }
                return judge_count(&bytes[from..end], pattern, wanted, count, burst);
            }
            Observed::Unusable
        }
        None => Observed::Unusable,
    }
}

fn finish(reading: Reading, bytes: &[u8], pattern: &[u8], size: usize, wanted: bool) -> Observed
    requires { size ≤ 65535 }
    ensures { result ≡ ending bytes.now pattern.now size wanted reading }
{
    match reading {
        Reading::On(seen) => judge(seen, bytes, pattern, size, wanted),
        Reading::Ended(seen) => judge(seen, bytes, pattern, size, wanted),
        Reading::Unsupported => Observed::Unsupported,
        Reading::Unusable => Observed::Unusable,
    }
}

// `intact` is the sender's verdict on the reply's HMAC, `size` the padding that it sends, `wanted` whether it asks for bursts.
// Refused, before all else, for a size above 65,535.
pub fn observation(
    items: &[u64],
    bytes: &[u8],
    pattern: &[u8],
    size: usize,
    intact: bool,
    wanted: bool,
) -> Result<Observed, Refusal>
    ensures { result ≡ observed items.now bytes.now pattern.now size intact wanted }
{
    if size > request_limits::MOST_PADDING {
        return Err(Refusal::TooMuchPadding);
    }
    if intact {
        if any_failed(items) {
            return Ok(Observed::Unusable);
        }
        let reading = read_all(items, bytes, pattern);
        return Ok(finish(reading, bytes, pattern, size, wanted));
    }
    Ok(Observed::Unusable)
}
