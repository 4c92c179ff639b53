// The samples of given ranks: what the exact mode of src/stats/quantiles.rs reads out of its sorted copy. Here nothing is
// copied and the samples are not touched. A search holds a range of keys and goes on in the part that has its rank: few keys
// are gathered and told apart in place, more are parted at a key that some samples show, or counted by 256 equal parts.
// Searches for several ranks share each pass that they have in common.
ghost use Rattle.std.specs.Prelude.{◌≡◌, ℕ, ◌+◌, ◌-◌, ◌*◌, ◌^◌, ◌<◌, ◌≤◌, ◌⊎◌, length, take};
ghost use Rattle.exact_rank.specs.Rank.{unsigned, signed, at_ranks, Ranks, standing_at, back_ranks};
ghost use Rattle.sample_passes.specs.Keys.{shifted};
ghost use Rattle.sample_passes.specs.Passes.{capped};
ghost use Rattle.sample_place.specs.Places.{Partable};
ghost use Rattle.exact_rank.specs.Searches.{
  AllInside,
  AllFollow,
  SameKeys,
  Leads,
  Led,
  LedWith,
  EndedWith,
  PartedWith,
  AllParted,
  LeadsAll,
  AllLed,
  AllEnded,
  Stepped,
  AllAtEnd,
  whole,
  turned_once,
};

use sample_place::Search;

// What is added to a signed sample, so that its key is in unsigned order.
const SIGNED: u64 = 9223372036854775808;

// A range with no more keys than these is gathered; one with more is parted or divided.
const FEW: u64 = 256;

// Four searches at once.
#[derive(Clone, Copy)]
struct Four {
    first: Search,
    second: Search,
    third: Search,
    fourth: Search,
}

// How far keys of a range are shifted, so that 256 digits hold them: the bit length of the range, less 8, not below 0.
fn shift_of(span: u64) -> u32
    ensures { (result < 64) × (span < 256 * 2 ^ result) × ((result ≡ 0) ⊎ (2 ^ result ≤ span)) }
{
    let length = 64 - u64::leading_zeros(span);
    if length < 8 { 0 } else { length - 8 }
}

// The lowest key of a digit.
fn start_of(low: u64, digit: usize, shift: u32) -> u64
    requires { (shift < 64) × (low + digit * 2 ^ shift < 2 ^ 64) }
    ensures { result ≡ low + digit * 2 ^ shift }
{
    low + ((digit as u64) << shift)
}

// The highest key of a digit that starts at `start`.
fn end_of(start: u64, high: u64, shift: u32) -> u64
    requires { (shift < 64) × (start ≤ high) }
    ensures { result + 1 ≡ capped (start + 2 ^ shift) (high + 1) }
{
    let last = (1u64 << shift) - 1;
    if high - start < last {
        high
    } else {
        start + last
    }
}

// The search, led to the digit that holds its rank.
fn led(counts: &[u64; 256], low: u64, high: u64, shift: u32, search: Search) -> Search
    requires { (shift < 64) × Leads counts.now low high shift search }
    ensures { Led counts.now low high shift search result }
{
    let place = sample_place::place_of(counts, search.rank - search.before);
    let digit = place.digit;
    let start = start_of(low, digit, shift);
    let before = search.rank - place.left;
    Search {
        low: start,
        high: end_of(start, high, shift),
        rank: search.rank,
        before: before,
        through: before + counts[digit],
    }
}

// The search, led with the node where it is among the node's keys.
fn led_with(
    counts: &[u64; 256],
    low: u64,
    high: u64,
    shift: u32,
    node: Search,
    search: Search,
) -> Search
    requires { (shift < 64) × (SameKeys search node → Leads counts.now low high shift search) }
    ensures { LedWith counts.now low high shift node search result }
{
    if search.low == node.low {
        if search.high == node.high {
            return led(counts, low, high, shift, search);
        }
    }
    search
}

// The first search, led to its digit, and the others that are among the same keys to theirs.
fn all_led(counts: &[u64; 256], low: u64, high: u64, shift: u32, four: Four) -> Four
    requires { (shift < 64) × LeadsAll counts.now low high shift four }
    ensures { AllLed counts.now low high shift four result }
{
    let node = four.first;
    Four {
        first: led(counts, low, high, shift, node),
        second: led_with(counts, low, high, shift, node, four.second),
        third: led_with(counts, low, high, shift, node, four.third),
        fourth: led_with(counts, low, high, shift, node, four.fourth),
    }
}

// The search, ended with the node where it is for the node's rank among the node's keys.
fn ended_with(value: u64, node: Search, search: Search) -> Search
    ensures { EndedWith value node search result }
{
    if search.low == node.low {
        if search.high == node.high {
            if search.rank == node.rank {
                return sample_place::ended(value, search);
            }
        }
    }
    search
}

// The first search, ended at a key, and the others that are for the same rank.
fn all_ended(value: u64, four: Four) -> Four
    ensures { AllEnded value four result }
{
    let node = four.first;
    Four {
        first: sample_place::ended(value, node),
        second: ended_with(value, node, four.second),
        third: ended_with(value, node, four.third),
        fourth: ended_with(value, node, four.fourth),
    }
}

// The keys of the first search, counted by digits from where they begin to where they end, and every search among them led on.
fn divided(samples: &[u64], count: usize, bias: u64, four: Four) -> Four
    requires { (count ≤ length samples.now) × AllInside (shifted bias) (take count samples.now) four
        × (four.first.low < four.first.high) }
    ensures { Stepped (shifted bias) (take count samples.now) four result }
{
    let node = four.first;
    let low = sample_passes::least(samples, count, bias, node.low, node.high);
    let high = sample_passes::most(samples, count, bias, low, node.high);
    let shift = shift_of(high - low);
    let counts = sample_passes::digits(samples, count, bias, low, high, shift);
    all_led(&counts, low, high, shift, four)
}

// The search, parted with the node where it is among the node's keys.
fn part_with(value: u64, under: u64, reach: u64, node: Search, search: Search) -> Search
    requires { Partable value under reach search }
    ensures { PartedWith value under reach node search result }
{
    if search.low == node.low {
        if search.high == node.high {
            return sample_place::part(value, under, reach, search);
        }
    }
    search
}

// The first search, parted at a value, and the others that are among the same keys.
fn all_parted(value: u64, under: u64, reach: u64, four: Four) -> Four
    requires { Partable value under reach four.first × Partable value under reach four.second
        × Partable value under reach four.third × Partable value under reach four.fourth }
    ensures { AllParted value under reach four result }
{
    let node = four.first;
    Four {
        first: sample_place::part(value, under, reach, node),
        second: part_with(value, under, reach, node, four.second),
        third: part_with(value, under, reach, node, four.third),
        fourth: part_with(value, under, reach, node, four.fourth),
    }
}

// The keys of the first search, parted at one of them, and every search among them led on.
fn parted(samples: &[u64], count: usize, bias: u64, value: u64, four: Four) -> Four
    requires { (count ≤ length samples.now) × AllInside (shifted bias) (take count samples.now) four
        × (four.first.low < four.first.high) × (four.first.low ≤ value) × (value ≤ four.first.high) }
    ensures { Stepped (shifted bias) (take count samples.now) four result }
{
    let around = sample_passes::around(samples, count, bias, value);
    all_parted(value, around.under, around.reach, four)
}

// The value, or the nearer end of a range where it is not in it.
fn within(value: u64, low: u64, high: u64) -> u64
    requires { low ≤ high }
    ensures { (low ≤ result) × (result ≤ high) }
{
    if value < low {
        return low;
    }
    if high < value {
        return high;
    }
    value
}

// The keys of the first search, which are few, gathered and parted at the one that has the rank, and every search among them led on.
fn picked(samples: &[u64], count: usize, bias: u64, four: Four) -> Four
    requires { (count ≤ length samples.now) × AllInside (shifted bias) (take count samples.now) four
        × (four.first.low < four.first.high) × (four.first.through - four.first.before ≤ 256) }
    ensures { Stepped (shifted bias) (take count samples.now) four result }
{
    let node = four.first;
    let mut keys = [0u64; 256];
    sample_gather::gather(samples, count, bias, node.low, node.high, &mut keys);
    let held = (node.through - node.before) as usize;
    let value = within(
        sample_guess::chosen(&keys, held, node.rank - node.before),
        node.low,
        node.high,
    );
    let around = sample_passes::around(&keys, held, 0, value);
    all_parted(
        value,
        node.before + around.under,
        node.before + around.reach,
        four,
    )
}

// The keys of the first search: gathered where they are few; else parted at one of them where a few samples show that this pays; else
// counted by digits.
fn narrowed(samples: &[u64], count: usize, bias: u64, four: Four) -> Four
    requires { (count ≤ length samples.now) × AllInside (shifted bias) (take count samples.now) four
        × (four.first.low < four.first.high) }
    ensures { Stepped (shifted bias) (take count samples.now) four result }
{
    let node = four.first;
    let held = node.through - node.before;
    if held <= FEW {
        return picked(samples, count, bias, four);
    }
    match sample_guess::guessed(
        samples,
        count,
        bias,
        node.low,
        node.high,
        node.rank - node.before,
        held,
    ) {
        Some(guess) => {
            let value = within(guess, node.low, node.high);
            parted(samples, count, bias, value, four)
        }
        None => divided(samples, count, bias, four),
    }
}

// One step of the first search. The first and the last rank of a range are read off in one pass.
fn step(samples: &[u64], count: usize, bias: u64, four: Four) -> Four
    requires { (count ≤ length samples.now) × AllInside (shifted bias) (take count samples.now) four
        × (four.first.low < four.first.high) }
    ensures { Stepped (shifted bias) (take count samples.now) four result }
{
    let node = four.first;
    if node.rank == node.before {
        return all_ended(
            sample_passes::least(samples, count, bias, node.low, node.high),
            four,
        );
    }
    if node.through - node.rank == 1 {
        return all_ended(
            sample_passes::most(samples, count, bias, node.low, node.high),
            four,
        );
    }
    narrowed(samples, count, bias, four)
}

// The four searches, with the first at its end.
fn found(samples: &[u64], count: usize, bias: u64, four: Four) -> Four
    requires { (count ≤ length samples.now) × AllInside (shifted bias) (take count samples.now) four }
    ensures { AllFollow (shifted bias) (take count samples.now) four result × (result.first.low ≡ result.first.high) }
{
    let mut moved = four;
    while moved.first.low < moved.first.high {
        moved = step(samples, count, bias, moved);
    }
    moved
}

// The search for a rank among all keys.
fn search_all(count: usize, rank: u64) -> Search
    ensures { result ≡ whole count rank }
{
    Search {
        low: 0,
        high: 18446744073709551615,
        rank: rank,
        before: 0,
        through: count as u64,
    }
}

// The searches, the next one first.
fn turned(four: Four) -> Four
    ensures { result ≡ turned_once four }
{
    let first = four.second;
    let second = four.third;
    let third = four.fourth;
    let fourth = four.first;
    Four {
        first,
        second,
        third,
        fourth,
    }
}

// The four searches, each at its end, in their order.
fn all_found(samples: &[u64], count: usize, bias: u64, four: Four) -> Four
    requires { (count ≤ length samples.now) × AllInside (shifted bias) (take count samples.now) four }
    ensures { AllFollow (shifted bias) (take count samples.now) four result × AllAtEnd result }
{
    let first = found(samples, count, bias, four);
    let second = found(samples, count, bias, turned(first));
    let third = found(samples, count, bias, turned(second));
    turned(found(samples, count, bias, turned(third)))
}

// The sample that has a key.
fn sample_of(key: u64, bias: u64) -> u64
    ensures { shifted bias result ≡ key }
{
    std::num::wrapping_sub_u64(key, bias)
}

// The samples of four ranks, searched for.
fn search_four(samples: &[u64], count: usize, bias: u64, ranks: [u64; 4]) -> [u64; 4]
    requires { (count ≤ length samples.now) × Ranks ranks count }
    ensures { result ≡ at_ranks (shifted bias) samples.now count ranks }
{
    let four = Four {
        first: search_all(count, ranks[0]),
        second: search_all(count, ranks[1]),
        third: search_all(count, ranks[2]),
        fourth: search_all(count, ranks[3]),
    };
    let end = all_found(samples, count, bias, four);
    [
        sample_of(end.first.low, bias),
        sample_of(end.second.low, bias),
        sample_of(end.third.low, bias),
        sample_of(end.fourth.low, bias),
    ]
}

// The samples that stand at four ranks.
fn read_four(samples: &[u64], ranks: [u64; 4]) -> [u64; 4]
    requires { Ranks ranks (length samples.now) }
    ensures { result ≡ standing_at samples.now ranks }
{
    let first = ranks[0] as usize;
    let second = ranks[1] as usize;
    let third = ranks[2] as usize;
    let fourth = ranks[3] as usize;
    [
        samples[first],
        samples[second],
        samples[third],
        samples[fourth],
    ]
}

// Four ranks as counted from the last of `count` samples.
fn back_ranks(count: usize, ranks: [u64; 4]) -> [u64; 4]
    requires { Ranks ranks count }
    ensures { result ≡ back_ranks count ranks }
{
    [
        sample_place::back_rank(count, ranks[0]),
        sample_place::back_rank(count, ranks[1]),
        sample_place::back_rank(count, ranks[2]),
        sample_place::back_rank(count, ranks[3]),
    ]
}

// The samples of four ranks in an order.
fn pick_four(samples: &[u64], count: usize, bias: u64, ranks: [u64; 4]) -> [u64; 4]
    requires { (count ≤ length samples.now) × Ranks ranks count }
    ensures { result ≡ at_ranks (shifted bias) samples.now count ranks }
{
    if sample_passes::in_order(samples, count, bias) {
        return read_four(samples, ranks);
    }
    if sample_passes::in_reverse(samples, count, bias) {
        return read_four(samples, back_ranks(count, ranks));
    }
    search_four(samples, count, bias, ranks)
}

// The samples of four ranks among unsigned samples.
pub fn pick_four_unsigned(samples: &[u64], count: usize, ranks: [u64; 4]) -> [u64; 4]
    requires { (count ≤ length samples.now) × Ranks ranks count }
    ensures { result ≡ at_ranks unsigned samples.now count ranks }
{
    pick_four(samples, count, 0, ranks)
}

// The samples of four ranks among signed samples, in two's complement.
pub fn pick_four_signed(samples: &[u64], count: usize, ranks: [u64; 4]) -> [u64; 4]
    requires { (count ≤ length samples.now) × Ranks ranks count }
    ensures { result ≡ at_ranks signed samples.now count ranks }
{
    pick_four(samples, count, SIGNED, ranks)
}
