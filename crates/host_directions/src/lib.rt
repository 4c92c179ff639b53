// The host's calls for one-way delays in both directions (crate directions). Both are twelve lent words: the forward direction's count, least and
// greatest sample, 1 where its sum is negative, and the sum's magnitude, high word first; then the reverse direction's. An i64 is its two's
// complement word.
#![tactic(auto)]

ghost use Rattle.std.specs.Prelude.{◌≡◌, ◌+◌, ◌≤◌, get_or};
ghost use Rattle.std.proofs.lemmas.List.Edits.{sets};
ghost use Rattle.directions.specs.Directions.{start_of, own, Untouched};
ghost use Rattle.host_numbers.specs.Numbers.{is_set};
ghost use Rattle.host_directions.specs.Words.{directions_at, words_start, direction_words, directions_words, more_words};
ghost use Rattle.host_directions.specs.Calls.{words_left, fresh_to, record_left, record_to, show_to};

use delays::Sum;
use directions::{Directions, OwdDirection};
use quantiles::Quantiles;

fn store(words: &mut [u64; 12], directions: Directions)
    ensures { words.new ≡ sets words.old 0 (directions_words directions) }
{
    words[0] = directions.forward.quantiles.count;
    words[1] = directions.forward.quantiles.min;
    words[2] = directions.forward.quantiles.max;
    words[3] = host_numbers::flag(directions.forward.sum.negative);
    words[4] = directions.forward.sum.high;
    words[5] = directions.forward.sum.low;
    words[6] = directions.reverse.quantiles.count;
    words[7] = directions.reverse.quantiles.min;
    words[8] = directions.reverse.quantiles.max;
    words[9] = host_numbers::flag(directions.reverse.sum.negative);
    words[10] = directions.reverse.sum.high;
    words[11] = directions.reverse.sum.low;
}

// No samples yet, in either direction. The slice needs no preparation.
#[unsafe(no_mangle)]
pub extern "C" fn ambrulicciu_directions_fresh(directions: &mut [u64; 12]) -> u8
    ensures { words_left result directions.new ≡ fresh_to directions.old }
{
    store(directions, Directions::new());
    0
}

// Where a direction's six words begin.
fn words_start(reverse: bool) -> usize
    ensures { (result ≡ words_start reverse) × (result ≤ 6) }
{
    if reverse { 6 } else { 0 }
}

// The one direction or the other, from its own six words.
fn load_own(words: &[u64; 12], reverse: bool) -> OwdDirection
    ensures { result ≡ own (directions_at words.now) reverse }
{
    let at = words_start(reverse);
    OwdDirection {
        quantiles: Quantiles {
            signed: true,
            count: words[at],
            min: words[at + 1],
            max: words[at + 2],
        },
        sum: Sum {
            negative: words[at + 3] != 0,
            high: words[at + 4],
            low: words[at + 5],
        },
    }
}

// Its sum alone.
fn load_sum(words: &[u64; 12], reverse: bool) -> Sum
    ensures { result ≡ (own (directions_at words.now) reverse).sum }
{
    let at = words_start(reverse);
    Sum {
        negative: words[at + 3] != 0,
        high: words[at + 4],
        low: words[at + 5],
    }
}

// Its six words alone; the other direction's stay.
fn store_own(words: &mut [u64; 12], reverse: bool, own: OwdDirection)
    ensures { words.new ≡ sets words.old (words_start reverse) (direction_words own) }
{
    let at = words_start(reverse);
    words[at] = own.quantiles.count;
    words[at + 1] = own.quantiles.min;
    words[at + 2] = own.quantiles.max;
    words[at + 3] = host_numbers::flag(own.sum.negative);
    words[at + 4] = own.sum.high;
    words[at + 5] = own.sum.low;
}

// What a sample leaves of a direction's words that changes neither its least nor its greatest, nor the sign of its sum: where that is not
// negative, its word is 0 already.
fn store_more(words: &mut [u64; 12], reverse: bool, count: u64, negative: bool, high: u64, low: u64)
    requires { negative ≡ is_set (get_or words.old (words_start reverse + 3) 0) }
    ensures { words.new ≡ more_words words.old (words_start reverse) count negative high low }
{
    let at = words_start(reverse);
    words[at] = count;
    words[at + 4] = high;
    words[at + 5] = low;
    if negative {
        words[at + 3] = 1;
        return;
    }
}

// Any sample.
fn record_any(
    directions: &mut [u64; 12],
    slice: &mut [u64],
    reverse: u32,
    value: u64,
    recorded: &mut [u64; 1],
) -> u8
    ensures { (record_left result directions.new slice.new recorded.new ≡ record_to directions.old slice.old reverse value recorded.old) × Untouched (start_of (is_set reverse)) slice.old slice.new }
{
    let back = reverse != 0;
    let own = load_own(directions, back);
    let answer = directions::record_own(own, slice, back, value);
    match answer {
        Err(refusal) => u8::from(refusal),
        Ok(None) => {
            recorded[0] = 0;
            0
        }
        Ok(Some(next)) => {
            store_own(directions, back, next);
            recorded[0] = 1;
            0
        }
    }
}

// One sample of a direction: `recorded` has 1; or 0 at a count of 2^64-1, and then nothing else changes. The other direction's words stay.
// A sample between the least and the greatest so far, which is nearer to zero than the sum's low word alone, goes a way that is short for each
// direction: the sum keeps its sign, and is read only once the room has the sample. Any other is left to `record_any`, which stands by itself in
// the compiled code since more than one place calls it.
#[unsafe(no_mangle)]
pub extern "C" fn ambrulicciu_directions_record(
    directions: &mut [u64; 12],
    slice: &mut [u64],
    reverse: u32,
    value: u64,
    recorded: &mut [u64; 1],
) -> u8
    ensures { (record_left result directions.new slice.new recorded.new ≡ record_to directions.old slice.old reverse value recorded.old) × Untouched (start_of (is_set reverse)) slice.old slice.new }
{
    if reverse == 0 {
        let own = load_own(directions, false);
        let sum = own.sum;
        if series::is_far(sum, value) {
            if directions::try_own(own, slice, false, value) {
                let before = load_sum(directions, false);
                let words = series::sum_step(before, value);
                store_more(
                    directions,
                    false,
                    own.quantiles.count + 1,
                    before.negative,
                    words.high,
                    words.low,
                );
                recorded[0] = 1;
                return 0;
            }
            return record_any(directions, slice, 0, value, recorded);
        }
        return record_any(directions, slice, 0, value, recorded);
    }
    let own = load_own(directions, true);
    let sum = own.sum;
    if series::is_far(sum, value) {
        if directions::try_own(own, slice, true, value) {
            let before = load_sum(directions, true);
            let words = series::sum_step(before, value);
            store_more(
                directions,
                true,
                own.quantiles.count + 1,
                before.negative,
                words.high,
                words.low,
            );
            recorded[0] = 1;
            return 0;
        }
        return record_any(directions, slice, 1, value, recorded);
    }
    record_any(directions, slice, 1, value, recorded)
}

// Minimum, average and maximum of a direction in ms; any words are shown. A value that is not there is 0, with a 0 before it.
// Words of `shown`: 0 samples, 1 minimum_known, 2 minimum (f64), 3 average_known, 4 average (f64), 5 maximum_known, 6 maximum (f64).
#[unsafe(no_mangle)]
pub extern "C" fn ambrulicciu_directions_show(
    directions: &[u64; 12],
    reverse: u32,
    shown: &mut [u64; 7],
) -> u8
    ensures { words_left result shown.new ≡ show_to directions.now reverse shown.old }
{
    let direction = load_own(directions, reverse != 0);
    let quantiles = direction.quantiles;
    let sum = direction.sum;
    let summary = series::summary(quantiles, sum);
    host_summary::show(shown, summary);
    0
}
