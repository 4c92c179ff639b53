// Bit errors: `xor_popcount_and_max_burst` of src/ber.rs. The padding is compared with the pattern, repeated, by words of 64
// bits; the counts are those of the plain list of all bits.
ghost use Rattle.std.specs.Prelude.{◌≡◌, ◌+◌, ◌*◌, ◌%◌, ◌≤◌, ◌<◌, ◌^◌, length, take};
ghost use Rattle.big_endian.specs.Numbers.{number_at};
ghost use Rattle.bit_runs.specs.Bits.{all_bits};
ghost use Rattle.bit_runs.specs.Tally.{none, after, Room};
ghost use Rattle.bit_errors.specs.Errors.{wrong_from, comparison};
ghost use Rattle.bit_errors.specs.Parts.{differing, Repeats};

use bit_runs::Tally;
use limits::Refusal;

#[derive(Clone, Copy)]
pub struct BitErrors {
    pub errors: u32,
    pub longest: u32,
}

fn shifted(byte: u8, by: u32) -> u64
    requires { by ≤ 56 }
    ensures { result ≡ byte * 2 ^ by }
{
    (byte as u64) << by
}

// The word at a place, the first byte highest. Eight shifts in a row become one load.
fn word_at(bytes: &[u8], at: usize) -> u64
    requires { at + 8 ≤ length bytes.now }
    ensures { result ≡ number_at 3 bytes.now at }
{
    shifted(bytes[at], 56)
        | shifted(bytes[at + 1], 48)
        | shifted(bytes[at + 2], 40)
        | shifted(bytes[at + 3], 32)
        | shifted(bytes[at + 4], 24)
        | shifted(bytes[at + 5], 16)
        | shifted(bytes[at + 6], 8)
        | shifted(bytes[at + 7], 0)
}

// The bits of whole words, up to the byte `end`.
fn after_words(t: Tally, padding: &[u8], pattern: &[u8], end: usize) -> Tally
    requires { (end % 8 ≡ 0) × (end ≤ length padding.now) × (length padding.now ≤ length pattern.now) × Room (8 * end) t }
    ensures { result ≡ after (all_bits (take end (differing padding.now pattern.now))) t }
{
    let mut u = t;
    let mut at: usize = 0;
    // A place of both rows at once, eight bytes further at each step: pairs of chunks would be no plainer.
    while at < end {
        let word = word_at(padding, at) ^ word_at(pattern, at);
        u = word_runs::after_word(u, word);
        at += 8;
    }
    u
}

// The bits of the bytes behind the last whole word.
fn after_bytes(t: Tally, padding: &[u8], pattern: &[u8]) -> Tally
    requires { (length padding.now ≤ length pattern.now) × Room (8 * length padding.now) t }
    ensures { result ≡ after (all_bits (differing padding.now pattern.now)) t }
{
    let mut u = t;
    for (at, byte) in padding.iter().enumerate() {
        u = bit_runs::after_byte(u, *byte ^ pattern[at]);
    }
    u
}

// The bits of a part of the padding, against as much of the pattern.
fn after_part(t: Tally, padding: &[u8], pattern: &[u8]) -> Tally
    requires { (length padding.now ≤ length pattern.now) × Room (8 * length padding.now) t }
    ensures { result ≡ after (all_bits (differing padding.now pattern.now)) t }
{
    let end = padding.len() - padding.len() % 8;
    let u = after_words(t, padding, pattern, end);
    after_bytes(u, &padding[end..], &pattern[end..])
}

// How far a part goes from the place `from`: over the pattern's end, in whole words where the room has enough of them, or else just to it.
fn reach(from: usize, size: usize, room: usize) -> usize
    requires { (from < size) × (size ≤ room) }
    ensures { (0 < result) × (size ≤ from + result) × (from + result ≤ room) }
{
    let words = (room - from) / 8 * 8;
    if from + words < size {
        return size - from;
    }
    words
}

// The padding, about as much as the pattern is long at a time. The room has the pattern's `size` bytes and, behind them, those that come
// next when it is repeated; `from` is the place in the pattern where a part begins.
fn compared(padding: &[u8], room: &[u8], size: usize) -> Tally
    requires { (0 < size) × (size ≤ length room.now) × (length room.now < 2 * size) × Repeats room.now (take size room.now) (length room.now) × (length padding.now ≤ 65535) }
    ensures { result ≡ after (all_bits (wrong_from (take size room.now) 0 padding.now)) none }
{
    let mut t = Tally {
        errors: 0,
        run: 0,
        longest: 0,
    };
    let mut at: usize = 0;
    let mut from: usize = 0;
    // Two places move at once, each by as much as `reach` finds: no iterator steps so.
    while at < padding.len() {
        let far = reach(from, size, room.len());
        let end = at + (padding.len() - at).min(far);
        t = after_part(t, &padding[at..end], &room[from..]);
        at = end;
        from = from + far - size;
    }
    t
}

// The pattern, written down again and again.
fn repeat(room: &mut [u8], pattern: &[u8], size: usize)
    requires { (0 < length pattern.now) × (size ≤ length room.old) }
    ensures { Repeats room.new pattern.now size }
{
    let mut from: usize = 0;
    for at in 0..size {
        room[at] = pattern[from];
        from += 1;
        if from == pattern.len() {
            from = 0;
        }
    }
}

// How often a pattern is written down: the more, the longer the padding is, but no more than 760 bytes.
fn times(length: usize, padding: usize) -> usize
    requires { (0 < length) × (length ≤ 760) × (padding ≤ 65535) }
    ensures { (0 < result) × (8 ≤ result * length) × (result * length ≤ 760) }
{
    (760 / length).min(1 + (8 + padding / 32) / length)
}

// A pattern is first written down, with seven bytes more, so that all parts are whole words. To write a byte takes about half as long as
// to compare one that is in no whole word: a pattern that is long beside the padding is compared as it stands.
fn counted(padding: &[u8], pattern: &[u8]) -> Tally
    requires { (0 < length pattern.now) × (length padding.now ≤ 65535) }
    ensures { result ≡ after (all_bits (wrong_from pattern.now 0 padding.now)) none }
{
    let long = pattern.len();
    if long > 760 || padding.len() / long * (long % 8 + 1) * 2 <= long {
        return compared(padding, pattern, long);
    }
    let size = times(long, padding.len()) * long;
    let mut room = [0u8; 768];
    repeat(&mut room, pattern, size + 7);
    compared(padding, &room[..size + 7], size)
}

// `xor_popcount_and_max_burst`. Padding above 65,535 bytes is refused; an empty pattern counts nothing.
pub fn xor_popcount_and_max_burst(padding: &[u8], pattern: &[u8]) -> Result<BitErrors, Refusal>
    ensures { result ≡ comparison padding.now pattern.now }
{
    if padding.len() > request_limits::MOST_PADDING {
        return Err(Refusal::TooMuchPadding);
    }
    if pattern.is_empty() {
        return Ok(BitErrors {
            errors: 0,
            longest: 0,
        });
    }
    let t = counted(padding, pattern);
    Ok(BitErrors {
        errors: t.errors,
        longest: t.longest,
    })
}
