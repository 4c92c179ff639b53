// The host's calls for the spread and jitter of a series of round trips (crate spread). A collector is twelve lent words: the count, the least
// and the greatest sample; the sum, high word first; the first sample, then mean and sum of squares around it as f64; the sum of successive
// differences, high word first, and their count; the last sample.
#![tactic(auto)]

ghost use Rattle.std.specs.Prelude.{◌≡◌, true, ◌+◌, ◌^◌, ◌<◌, get_or, set};
ghost use Rattle.std.specs.Float.Ieee.{eq, to_bits};
ghost use Rattle.std.specs.Float.{binary64};
ghost use Rattle.std.proofs.lemmas.List.Edits.{sets};
ghost use Rattle.quantiles.specs.Between.{one_more};
ghost use Rattle.spread.specs.Spread.{fits, grown_of};
ghost use Rattle.host_spread.specs.Words.{collector_at, collector_words};
ghost use Rattle.host_spread.specs.Calls.{words_left, fresh_to, record_left, record_to, show_to};

use delays::Sum;
use quantiles::Quantiles;
use spread::{Jitter, RttCollector, Welford};

fn load(words: &[u64; 12]) -> RttCollector
    ensures { result ≡ collector_at words.now }
{
    let mean = host_numbers::float_of(words[6]);
    let m2 = host_numbers::float_of(words[7]);
    RttCollector {
        quantiles: Quantiles {
            signed: false,
            count: words[0],
            min: words[1],
            max: words[2],
        },
        sum: Sum {
            negative: false,
            high: words[3],
            low: words[4],
        },
        welford: Welford {
            origin: words[5],
            mean: mean,
            m2: m2,
        },
        jitter: Jitter {
            sum: Sum {
                negative: false,
                high: words[8],
                low: words[9],
            },
            count: words[10],
            last: words[11],
        },
    }
}

// Any collector. The first sample stands behind the floats: in another order than `store_numbers` has, so that no compiler makes one of the two,
// in which each float would wait for the test of both.
fn store(words: &mut [u64; 12], collector: RttCollector)
    ensures { words.new ≡ sets words.old 0 (collector_words collector) }
{
    words[0] = collector.quantiles.count;
    words[1] = collector.quantiles.min;
    words[2] = collector.quantiles.max;
    words[3] = collector.sum.high;
    words[4] = collector.sum.low;
    words[6] = host_numbers::bits_of(collector.welford.mean);
    words[7] = host_numbers::bits_of(collector.welford.m2);
    words[5] = collector.welford.origin;
    words[8] = collector.jitter.sum.high;
    words[9] = collector.jitter.sum.low;
    words[10] = collector.jitter.count;
    words[11] = collector.jitter.last;
}

// The bits of a number, which is what is equal to itself.
fn bits_of_number(x: f64) -> u64
    requires { eq x x ≡ true }
    ensures { result ≡ to_bits binary64 x }
{
    f64::to_bits(x)
}

// A collector whose floats are numbers, as from fresh they are.
fn store_numbers(words: &mut [u64; 12], collector: RttCollector)
    requires { (eq collector.welford.mean collector.welford.mean ≡ true) × (eq collector.welford.m2 collector.welford.m2 ≡ true) }
    ensures { words.new ≡ sets words.old 0 (collector_words collector) }
{
    words[0] = collector.quantiles.count;
    words[1] = collector.quantiles.min;
    words[2] = collector.quantiles.max;
    words[3] = collector.sum.high;
    words[4] = collector.sum.low;
    words[5] = collector.welford.origin;
    words[6] = bits_of_number(collector.welford.mean);
    words[7] = bits_of_number(collector.welford.m2);
    words[8] = collector.jitter.sum.high;
    words[9] = collector.jitter.sum.low;
    words[10] = collector.jitter.count;
    words[11] = collector.jitter.last;
}

// What a sample leaves that is not the first and changes neither the least nor the greatest, once the room has it. The mean's word is the last: a
// processor hands a word on to the next call sooner where few stores stand between, and beside each other a compiler would store both floats as
// one, so that the mean would wait for the squares.
fn store_more(words: &mut [u64; 12], value: u64, recorded: &mut [u64; 1])
    requires { (fits (collector_at words.old) ≡ true) × (0 < get_or words.old 0 0) × (get_or words.old 0 0 + 1 < 2 ^ 64) }
    ensures { (words.new ≡ sets words.old 0 (collector_words (grown_of (collector_at words.old) (one_more (collector_at words.old).quantiles) value))) × (recorded.new ≡ set recorded.old 0 1) }
{
    let count = words[0] + 1;
    let floats = host_welford::steps(words[5], words[6], words[7], count, value);
    let sum = series::sum_with(
        Sum {
            negative: false,
            high: words[3],
            low: words[4],
        },
        delays::from_u64(value),
    );
    let before = Jitter {
        sum: Sum {
            negative: false,
            high: words[8],
            low: words[9],
        },
        count: words[10],
        last: words[11],
    };
    let jitter = before.with(false, value);
    words[0] = count;
    words[3] = sum.high;
    words[4] = sum.low;
    words[8] = jitter.sum.high;
    words[9] = jitter.sum.low;
    words[10] = jitter.count;
    words[11] = jitter.last;
    words[7] = floats.m2;
    recorded[0] = 1;
    words[6] = floats.mean;
}

// No samples yet. The room needs no preparation.
// Words of `spread`: 0 count, 1 minimum, 2 maximum, 3 sum_high, 4 sum_low, 5 origin, 6 mean (f64), 7 m2 (f64), 8 jitter_high, 9 jitter_low,
// 10 jitter_count, 11 last.
#[unsafe(no_mangle)]
pub extern "C" fn ambrulicciu_spread_fresh(spread: &mut [u64; 12]) -> u8
    ensures { words_left result spread.new ≡ fresh_to spread.old }
{
    store(spread, RttCollector::new());
    0
}

// Any sample.
fn record_any(spread: &mut [u64; 12], room: &mut [u64], value: u64, recorded: &mut [u64; 1]) -> u8
    ensures { record_left result spread.new room.new recorded.new ≡ record_to spread.old room.old value recorded.old }
{
    let state = load(spread);
    let answer = state.record(room, value);
    match answer {
        Err(refusal) => u8::from(refusal),
        Ok(None) => {
            recorded[0] = 0;
            0
        }
        Ok(Some(next)) => {
            let steps = next.welford;
            if steps.mean == steps.mean {
                if steps.m2 == steps.m2 {
                    store_numbers(spread, next);
                    recorded[0] = 1;
                    return 0;
                }
            }
            store(spread, next);
            recorded[0] = 1;
            0
        }
    }
}

// One sample more: `recorded` has 1; or 0 at a count of 2^64-1, and then nothing else changes. A sample between the least and the greatest so far
// goes a short way. Any other is left to `record_any`, which stands by itself in the compiled code since more than one place calls it.
#[unsafe(no_mangle)]
pub extern "C" fn ambrulicciu_spread_record(
    spread: &mut [u64; 12],
    room: &mut [u64],
    value: u64,
    recorded: &mut [u64; 1],
) -> u8
    ensures { record_left result spread.new room.new recorded.new ≡ record_to spread.old room.old value recorded.old }
{
    let state = load(spread);
    let quantiles = state.quantiles;
    if state.sums_fit() & (0 < quantiles.count) {
        if quantiles.record_between(room, value) {
            store_more(spread, value, recorded);
            return 0;
        }
        return record_any(spread, room, value, recorded);
    }
    record_any(spread, room, value, recorded)
}

// Minimum, average and maximum in ms; any words are shown. A value that is not there is 0, with a 0 before it.
// Words of `shown`: 0 samples, 1 minimum_known, 2 minimum (f64), 3 average_known, 4 average (f64), 5 maximum_known, 6 maximum (f64).
#[unsafe(no_mangle)]
pub extern "C" fn ambrulicciu_spread_show(spread: &[u64; 12], shown: &mut [u64; 7]) -> u8
    ensures { words_left result shown.new ≡ show_to spread.now shown.old }
{
    let state = load(spread);
    let quantiles = state.quantiles;
    let sum = state.sum;
    let summary = series::summary(quantiles, sum);
    host_summary::show(shown, summary);
    0
}
