// `percentiles` of `Quantiles` in src/stats/quantiles.rs: as many percentiles as the caller lends words for the answer.
#![tactic(auto)]

ghost use Rattle.std.specs.Prelude.{◌≡◌, false, map, ◌+◌, ◌<◌, ◌≤◌, eqb, length};
ghost use Rattle.buckets.specs.Signed.{order};
ghost use Rattle.exact_rank.specs.Rank.{at_ranks, Ranks};
ghost use Rattle.histogram.specs.Histogram.{total};
ghost use Rattle.quantile_room.specs.Room.{room_size, totals};
ghost use Rattle.quantiles.specs.State.{crossed};
ghost use Rattle.percentiles.specs.Percentiles.{outcome, any_lies, spoilt, percentile, percentiles_of};
ghost use Rattle.percentiles.specs.Fours.{or_last, rank_at, four_ranks, put_four};

use limits::Refusal;
use quantiles::Quantiles;

// Whether the totals add up to the count.
fn totals_are(q: Quantiles, room: &[u64]) -> bool
    requires { length room.now ≡ room_size q.signed }
    ensures { result ≡ eqb (total (totals q.signed room.now)) q.count }
{
    let start = quantile_room::totals_start(q.signed);
    counts_sum::add_up(&room[start..], q.count)
}

// Whether the block of one of the percentiles is one that no `record` leaves.
fn any_lies(q: Quantiles, room: &[u64], ps: &[f64]) -> bool
    requires { (length room.now ≡ room_size q.signed) × (total (totals q.signed room.now) ≡ q.count) × (4096 < q.count) }
    ensures { result ≡ any_lies q room.now ps.now }
{
    for p in ps {
        if histogram_ranks::rank_lies(q, room, rank::rank(*p, q.count)) {
            return true;
        }
    }
    false
}

// The place i, or the last of `many` where there is no such place.
fn or_last(many: usize, i: usize) -> usize
    requires { 0 < many }
    ensures { (result ≡ or_last many i) × (result < many) }
{
    if i < many { i } else { many - 1 }
}

// The rank of a percentile, or of the last.
fn rank_at(q: Quantiles, ps: &[f64], i: usize) -> u64
    requires { 0 < length ps.now }
    ensures { result ≡ rank_at ps.now q.count i }
{
    let place = or_last(ps.len(), i);
    let p = ps[place];
    rank::rank(p, q.count)
}

// The ranks of four percentiles, from a place on.
fn four_ranks(q: Quantiles, ps: &[f64], i: usize) -> [u64; 4]
    requires { i < length ps.now }
    ensures { result ≡ four_ranks ps.now q.count i }
{
    [
        rank_at(q, ps, i),
        rank_at(q, ps, i + 1),
        rank_at(q, ps, i + 2),
        rank_at(q, ps, i + 3),
    ]
}

// The samples of four ranks in sorted order: one search for the four takes about half the time of four.
fn exact_four(q: Quantiles, room: &[u64], ranks: [u64; 4]) -> [u64; 4]
    requires { (q.count ≤ length room.now) × Ranks ranks q.count }
    ensures { result ≡ at_ranks (order q.signed) room.now q.count ranks }
{
    let count = q.count as usize;
    if q.signed {
        return exact_rank::pick_four_signed(room, count, ranks);
    }
    exact_rank::pick_four_unsigned(room, count, ranks)
}

// The values of four percentiles of an exact room, from a place on; the last one again where there are fewer.
fn show_four(q: Quantiles, room: &[u64], ps: &[f64], shown: &mut [u64], i: usize)
    requires { (q.count ≤ length room.now) × (q.count ≤ 4096) × (0 < q.count) × (length shown.old ≡ length ps.now) × (i < length ps.now) }
    ensures { shown.new ≡ put_four q room.now ps.now shown.old i }
{
    let ranks = four_ranks(q, ps, i);
    let four = exact_four(q, room, ranks);
    let first = or_last(ps.len(), i);
    let second = or_last(ps.len(), i + 1);
    let third = or_last(ps.len(), i + 2);
    let fourth = or_last(ps.len(), i + 3);
    shown[first] = four[0];
    shown[second] = four[1];
    shown[third] = four[2];
    shown[fourth] = four[3];
}

// The percentiles of an exact room, four by four.
fn show_exact(q: Quantiles, room: &[u64], ps: &[f64], shown: &mut [u64])
    requires { (q.count ≤ length room.now) × (q.count ≤ 4096) × (0 < q.count) × (length shown.old ≡ length ps.now) }
    ensures { shown.new ≡ map (percentile q room.now) ps.now }
{
    for i in (0..ps.len()).step_by(4) {
        show_four(q, room, ps, shown, i);
    }
}

// The percentiles of totals that hold the count, and of blocks that do not lie.
fn show_buckets(q: Quantiles, room: &[u64], ps: &[f64], shown: &mut [u64])
    requires { (length room.now ≡ room_size q.signed) × (4096 < q.count) × (spoilt q room.now ps.now ≡ false) × (length shown.old ≡ length ps.now) }
    ensures { shown.new ≡ map (percentile q room.now) ps.now }
{
    for (i, p) in ps.iter().enumerate() {
        shown[i] = histogram_ranks::histogram_value(q, room, rank::rank(*p, q.count));
    }
}

// The percentiles of a histogram.
fn show_histogram(
    q: Quantiles,
    room: &[u64],
    ps: &[f64],
    shown: &mut [u64],
) -> Result<bool, Refusal>
    requires { (length room.now ≡ room_size q.signed) × (length shown.old ≡ length ps.now) × (crossed q ≡ false) × (4096 < q.count) }
    ensures { outcome result shown.new ≡ percentiles_of q room.now ps.now shown.old }
{
    if !totals_are(q, room) {
        return Err(Refusal::WrongRoom);
    }
    if any_lies(q, room, ps) {
        return Err(Refusal::WrongRoom);
    }
    show_buckets(q, room, ps, shown);
    Ok(true)
}

// `percentiles`: the value of each of `ps`, in the word of `shown` that has its place, and whether there are values: without samples there are none.
// Refusal 5 leaves `shown` as it is.
pub fn percentiles(
    q: Quantiles,
    room: &[u64],
    ps: &[f64],
    shown: &mut [u64],
) -> Result<bool, Refusal>
    ensures { outcome result shown.new ≡ percentiles_of q room.now ps.now shown.old }
{
    if room.len() != quantile_room::room_size(q.signed) {
        return Err(Refusal::WrongRoom);
    }
    if shown.len() != ps.len() {
        return Err(Refusal::WrongRoom);
    }
    if quantiles::min_above_max(q) {
        return Err(Refusal::WrongRoom);
    }
    if 4096 < q.count {
        return show_histogram(q, room, ps, shown);
    }
    if q.count == 0 {
        return Ok(false);
    }
    show_exact(q, room, ps, shown);
    Ok(true)
}
