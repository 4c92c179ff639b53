// What the histogram of `Quantiles` in src/stats/quantiles.rs shows for one rank: the block that holds it, by the totals, then the bucket in
// that block. It stands apart from `percentiles`, which asks it for each rank.
ghost use Rattle.std.specs.Prelude.{◌≡◌, false, ◌+◌, ◌<◌, ◌≤◌, length};
ghost use Rattle.buckets.specs.Signed.{bucket_count};
ghost use Rattle.histogram.specs.Histogram.{total, bucket_at, left_at};
ghost use Rattle.quantile_room.specs.Room.{block_count, room_size, totals};
ghost use Rattle.histogram_ranks.specs.Ranks.{block_at, lies, bucket_of, clamped, histogram_value};
ghost use Rattle.histogram_ranks.specs.Blocks.{block_end};

use histogram::Found;
use quantiles::Quantiles;

// The block that holds a rank.
fn held(signed: bool, room: &[u64], rank: u64) -> Found
    requires { length room.now ≡ room_size signed }
    ensures { (result.place ≡ bucket_at (totals signed room.now) rank) × (result.left ≡ left_at (totals signed room.now) rank) }
{
    let start = quantile_room::totals_start(signed);
    histogram::find(&room[start..], rank)
}

// The word behind a block that begins at a word: 128 on, or where the buckets end.
fn block_end(signed: bool, from: usize) -> usize
    requires { from < 4096 + bucket_count signed }
    ensures { (result ≡ block_end signed from) × (from < result) × (result ≤ 4096 + bucket_count signed) }
{
    let start = quantile_room::totals_start(signed);
    if from + 128 < start {
        from + 128
    } else {
        start
    }
}

// Whether a block is one that no `record` leaves.
fn block_lies(signed: bool, room: &[u64], k: usize) -> bool
    requires { (length room.now ≡ room_size signed) × (k < block_count signed) }
    ensures { result ≡ lies signed room.now k }
{
    let from = 4096 + 128 * k;
    let end = block_end(signed, from);
    let at = quantile_room::totals_start(signed) + k;
    let whole = counts_sum::add_up(&room[from..end], room[at]);
    if signed & (k == 114) {
        return !whole | (room[18688] != 0);
    }
    !whole
}

// Whether the block that holds a rank is one that no `record` leaves.
pub fn rank_lies(q: Quantiles, room: &[u64], rank: u64) -> bool
    requires { (length room.now ≡ room_size q.signed) × (total (totals q.signed room.now) ≡ q.count) × (rank < q.count) }
    ensures { result ≡ lies q.signed room.now (block_at q room.now rank) }
{
    let found = held(q.signed, room, rank);
    block_lies(q.signed, room, found.place)
}

// `clamp`, in the order of the values.
fn clamp(signed: bool, word: u64, low: u64, high: u64) -> u64
    ensures { result ≡ clamped signed word low high }
{
    let is = buckets::ordered(signed, word);
    if is < buckets::ordered(signed, low) {
        return low;
    }
    if buckets::ordered(signed, high) < is {
        return high;
    }
    word
}

// The bucket of a rank whose block does not lie.
fn place_of(q: Quantiles, room: &[u64], rank: u64) -> usize
    requires { (length room.now ≡ room_size q.signed) × (total (totals q.signed room.now) ≡ q.count) × (rank < q.count) × (lies q.signed room.now (block_at q room.now rank) ≡ false) }
    ensures { (result ≡ bucket_of q room.now rank) × (result < bucket_count q.signed) }
{
    let found = held(q.signed, room, rank);
    let from = 4096 + 128 * found.place;
    let end = block_end(q.signed, from);
    let inner = histogram::find(&room[from..end], found.left);
    128 * found.place + inner.place
}

// The value that a histogram shows for a rank.
pub fn histogram_value(q: Quantiles, room: &[u64], rank: u64) -> u64
    requires { (length room.now ≡ room_size q.signed) × (total (totals q.signed room.now) ≡ q.count) × (rank < q.count) × (lies q.signed room.now (block_at q room.now rank) ≡ false) }
    ensures { result ≡ histogram_value q room.now rank }
{
    if rank == 0 {
        return q.min;
    }
    if rank == q.count - 1 {
        return q.max;
    }
    let place = place_of(q, room, rank);
    clamp(q.signed, buckets::shown_by(q.signed, place), q.min, q.max)
}
