// What `RttCollector::record` and `OwdDirection::record` of src/stats.rs share: the quantiles of a series of samples whose sums stand beside
// them, and a sum with one sample more.
#![tactic(auto)]

ghost use Rattle.std.specs.Prelude.{◌≡◌, ◌^◌, ◌<◌, ◌≤◌, true, false, ◌+ℤ◌};
ghost use Rattle.delays.specs.Sums.{nanoseconds_of, value_of, total_of, sum_of};
ghost use Rattle.delays.specs.Summary.{summary_of};
ghost use Rattle.quantiles.specs.Record.{outcome};
ghost use Rattle.series.specs.Series.{sum_fits, recorded_beside};
ghost use Rattle.series.specs.Shown.{span_at, extreme_of, delays_of};
ghost use Rattle.series.specs.Step.{one_if, with_words, far_from};

use delays::{DelaySummary, Delays, Nanoseconds, Sum};
use limits::Refusal;
use quantiles::Quantiles;

// A sum's high word at this is a magnitude of 2^126.
const HIGH_BOUND: u64 = 4611686018427387904;

// The sum is below its bound.
pub fn sum_fits(sum: Sum) -> bool
    ensures { result ≡ sum_fits sum }
{
    sum.high < HIGH_BOUND
}

// A sum with one sample more, as crate delays adds it.
pub fn sum_with(sum: Sum, ns: Nanoseconds) -> Sum
    requires { sum.high < 2 ^ 62 }
    ensures { result ≡ sum_of (total_of sum +ℤ value_of ns) }
{
    let before = Delays {
        count: 0,
        sum: sum,
        min: None,
        max: None,
    };
    let after = before.recorded(ns);
    after.sum
}

// Two words of a sum.
#[derive(Clone, Copy)]
pub struct SumWords {
    pub high: u64,
    pub low: u64,
}

fn one_if(yes: bool) -> u64
    ensures { (result ≡ one_if yes) × (result ≤ 1) }
{
    if yes { 1 } else { 0 }
}

// A sum below its bound whose low word alone is further from zero than the word: it keeps its sign with it, and is not zero.
pub fn is_far(sum: Sum, word: u64) -> bool
    ensures { result ≡ far_from sum word }
{
    let span = span_of(true, word);
    sum_fits(sum) & (span.magnitude < sum.low)
}

// Such a sum with the word more: the word's own sign picks no way through the code, and a sum's is guessed well.
pub fn sum_step(sum: Sum, word: u64) -> SumWords
    requires { far_from sum word ≡ true }
    ensures { with_words sum result.high result.low ≡ sum_of (total_of sum +ℤ span_at true word) }
{
    let below = one_if(9223372036854775808 <= word);
    if sum.negative {
        let borrow = one_if(sum.low < word);
        let low = std::num::wrapping_sub_u64(sum.low, word);
        return SumWords {
            high: sum.high + below - borrow,
            low: low,
        };
    }
    let low = std::num::wrapping_add_u64(sum.low, word);
    let carry = one_if(low < word);
    SumWords {
        high: sum.high + carry - below,
        low: low,
    }
}

// Which refusal it is where the sums have no room: the quantiles' own comes first. Asked of `record` itself, it would be called at two places
// and so not be compiled into the common one.
fn refused_beside(q: Quantiles, room: &mut [u64], value: u64) -> Result<Option<Quantiles>, Refusal>
    ensures { outcome q result room.new ≡ recorded_beside false q room.old value }
{
    if room.len() != quantile_room::room_size(q.signed) {
        return Err(Refusal::WrongRoom);
    }
    if quantiles::min_above_max(q) {
        return Err(Refusal::WrongRoom);
    }
    if q.count <= 4096 {
        return Err(Refusal::CountsFull);
    }
    let place = buckets::bucket_of(q.signed, value);
    if quantile_room::full_at(q.signed, room, place) {
        return Err(Refusal::WrongRoom);
    }
    Err(Refusal::CountsFull)
}

// `record` of the quantiles, where `fits` says that the sums beside them have room for a sample: refusal 5; refusal 4; none, Rust's false; or the
// quantiles after it.
pub fn record_beside(
    fits: bool,
    q: Quantiles,
    room: &mut [u64],
    value: u64,
) -> Result<Option<Quantiles>, Refusal>
    ensures { outcome q result room.new ≡ recorded_beside fits q room.old value }
{
    if fits {
        return q.record(room, value);
    }
    refused_beside(q, room, value)
}

// The time span that a word of a series says.
pub fn span_of(signed: bool, word: u64) -> Nanoseconds
    ensures { result ≡ nanoseconds_of (span_at signed word) }
{
    if signed {
        if word < 9223372036854775808 {
            return Nanoseconds {
                negative: false,
                magnitude: word,
            };
        }
        return Nanoseconds {
            negative: true,
            magnitude: 18446744073709551615 - word + 1,
        };
    }
    Nanoseconds {
        negative: false,
        magnitude: word,
    }
}

// The smallest or the largest sample; at count 0 there is none.
fn extreme_of(count: u64, ns: Nanoseconds) -> Option<Nanoseconds>
    ensures { result ≡ extreme_of count ns }
{
    if count == 0 {
        return None;
    }
    Some(ns)
}

// Minimum, average and maximum in ms, as crate delays shows them. Refuses nothing.
pub fn summary(q: Quantiles, sum: Sum) -> DelaySummary
    ensures { result ≡ summary_of (delays_of q sum) }
{
    let least = span_of(q.signed, q.min);
    let most = span_of(q.signed, q.max);
    let min = extreme_of(q.count, least);
    let max = extreme_of(q.count, most);
    let delays = Delays {
        count: q.count,
        sum: sum,
        min: min,
        max: max,
    };
    delays.summary()
}
