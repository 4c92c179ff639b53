// The host's calls for bit errors on a link (crates bit_pattern, bit_errors, bit_observation and bit_summary). A summary is eight lent
// words: packets received and packets with errors, padding bits and wrong ones, bursts and their sum, whether there is a longest burst,
// and that.
ghost use Rattle.std.specs.Prelude.{◌≡◌};
ghost use Rattle.std.proofs.lemmas.List.Edits.{sets};
ghost use Rattle.host_bits.specs.Words.{burst_from, known, ratio_word, summary_at, summary_words};
ghost use Rattle.host_bits.specs.Calls.{parse_left, parse_to, count_left, count_to, observed_words, observe_to, fresh_to, record_to, show_to};

use bit_observation::Observed;
use bit_summary::{DirectionSummary, Sample};

// The bytes of a pattern's text, at the start of the room; `length` has how many.
#[unsafe(no_mangle)]
pub extern "C" fn ambrulicciu_parse_pattern(
    text: &[u8],
    room: &mut [u8],
    length: &mut [u64; 1],
) -> u8
    ensures { parse_left result room.new length.new ≡ parse_to text.now room.old length.old }
{
    match bit_pattern::parse_pattern(text, room) {
        Err(refusal) => u8::from(refusal),
        Ok(count) => {
            length[0] = count as u64;
            0
        }
    }
}

// The bits of the padding that differ from the pattern, repeated.
// Words of `counts`: 0 errors, 1 longest.
#[unsafe(no_mangle)]
pub extern "C" fn ambrulicciu_bit_errors(
    padding: &[u8],
    pattern: &[u8],
    counts: &mut [u64; 2],
) -> u8
    ensures { count_left result counts.new ≡ count_to padding.now pattern.now counts.old }
{
    match bit_errors::xor_popcount_and_max_burst(padding, pattern) {
        Err(refusal) => u8::from(refusal),
        Ok(found) => {
            counts[0] = found.errors as u64;
            counts[1] = found.longest as u64;
            0
        }
    }
}

fn burst_from(known: u64, bits: u32) -> Option<u32>
    ensures { result ≡ burst_from known bits }
{
    if known == 0 {
        return None;
    }
    Some(bits)
}

// Whether a value is there: 1, or 0 where it is not.
fn known<T: Copy>(value: Option<T>) -> u64
    ensures { result ≡ known value }
{
    match value {
        None => 0,
        Some(_) => 1,
    }
}

fn ratio_word(ratio: Option<f64>) -> u64
    ensures { result ≡ ratio_word ratio }
{
    match ratio {
        None => 0,
        Some(value) => host_numbers::bits_of(value),
    }
}

// What was observed, in the answer's words.
fn tell(observed: Observed, answer: &mut [u64; 7])
    ensures { answer.new ≡ observed_words observed answer.old }
{
    match observed {
        Observed::Unusable => answer[0] = 0,
        Observed::Unsupported => answer[0] = 1,
        Observed::Sampled(sample) => {
            answer[0] = 2;
            answer[1] = sample.bits;
            answer[2] = sample.forward;
            answer[3] = known(sample.burst);
            answer[4] = sample.burst.unwrap_or(0);
            answer[5] = sample.reverse as u64;
            answer[6] = sample.longest as u64;
        }
    }
}

// What a reply's items make. An item is one word: its header's four bytes, then where its value begins in `bytes`.
// Words of `answer`: 0 class, 1 bits, 2 forward_errors, 3 forward_burst_known, 4 forward_burst, 5 reverse_errors, 6 reverse_burst.
#[unsafe(no_mangle)]
pub extern "C" fn ambrulicciu_bit_observation(
    items: &[u64],
    bytes: &[u8],
    pattern: &[u8],
    size: usize,
    intact: u32,
    wanted: u32,
    answer: &mut [u64; 7],
) -> u8
    ensures { count_left result answer.new ≡ observe_to items.now bytes.now pattern.now size intact wanted answer.old }
{
    match bit_observation::observation(items, bytes, pattern, size, intact != 0, wanted != 0) {
        Err(refusal) => u8::from(refusal),
        Ok(observed) => {
            tell(observed, answer);
            0
        }
    }
}

fn load(words: &[u64; 8]) -> DirectionSummary
    ensures { result ≡ summary_at words.now }
{
    let longest = burst_from(words[6], host_numbers::low(words[7]));
    DirectionSummary {
        received: words[0],
        faulty: words[1],
        bits: words[2],
        errors: words[3],
        bursts: words[4],
        sum: words[5],
        longest,
    }
}

fn store(words: &mut [u64; 8], summary: DirectionSummary)
    ensures { words.new ≡ sets words.old 0 (summary_words summary) }
{
    let longest = summary.longest;
    words[0] = summary.received;
    words[1] = summary.faulty;
    words[2] = summary.bits;
    words[3] = summary.errors;
    words[4] = summary.bursts;
    words[5] = summary.sum;
    words[6] = known(longest);
    words[7] = longest.unwrap_or(0) as u64;
}

// No packet yet.
#[unsafe(no_mangle)]
pub extern "C" fn ambrulicciu_bit_summary_fresh(summary: &mut [u64; 8]) -> u8
    ensures { count_left result summary.new ≡ fresh_to summary.old }
{
    store(summary, DirectionSummary::new());
    0
}

// One packet more: the bits of its padding, the wrong ones, and the longest run of them where it is known.
#[unsafe(no_mangle)]
pub extern "C" fn ambrulicciu_bit_summary_record(
    summary: &mut [u64; 8],
    bits: u64,
    errors: u32,
    known: u32,
    burst: u32,
) -> u8
    ensures { count_left result summary.new ≡ record_to summary.old bits errors known burst }
{
    let state = load(summary);
    let run = burst_from(known as u64, burst);
    let sample = Sample {
        bits,
        errors,
        burst: run,
    };
    match state.record(sample) {
        Err(refusal) => u8::from(refusal),
        Ok(next) => {
            store(summary, next);
            0
        }
    }
}

// What a summary shows; any words are shown. A value that is not there is 0, with a 0 before it.
// Words of `shown`: 0 packets_received, 1 packets_with_errors, 2 padding_bits, 3 bit_errors, 4 burst_samples, 5 max_burst_known,
// 6 max_burst_bits, 7 bit_error_ratio_known, 8 bit_error_ratio (f64), 9 bit_errors_per_million_known, 10 bit_errors_per_million (f64),
// 11 packets_with_errors_per_million_known, 12 packets_with_errors_per_million (f64), 13 average_max_burst_known,
// 14 average_max_burst_bits (f64).
#[unsafe(no_mangle)]
pub extern "C" fn ambrulicciu_bit_summary_show(summary: &[u64; 8], shown: &mut [u64; 15]) -> u8
    ensures { count_left result shown.new ≡ show_to summary.now shown.old }
{
    let state = load(summary);
    let longest = state.longest;
    let ratios = state.ratios();
    let ratio = ratios.ratio;
    let errors = ratios.errors;
    let packets = ratios.packets;
    let burst = ratios.burst;
    shown[0] = state.received;
    shown[1] = state.faulty;
    shown[2] = state.bits;
    shown[3] = state.errors;
    shown[4] = state.bursts;
    shown[5] = known(longest);
    shown[6] = longest.unwrap_or(0) as u64;
    shown[7] = known(ratio);
    shown[8] = ratio_word(ratio);
    shown[9] = known(errors);
    shown[10] = ratio_word(errors);
    shown[11] = known(packets);
    shown[12] = ratio_word(packets);
    shown[13] = known(burst);
    shown[14] = ratio_word(burst);
    0
}
