// The room that quantiles are lent, in place of `Storage` of src/stats/quantiles.rs: 4,096 samples, then the buckets, then a total for each
// block of 128 buckets. Where its words lie, a sample at its place, and one more in its counts. It stands apart from `quantiles`, which has the
// state: here are words alone.
ghost use Rattle.std.specs.Prelude.{◌≡◌, false, ◌++◌, ◌+◌, ◌/◌, ◌<◌, length, set};
ghost use Rattle.buckets.specs.Signed.{bucket_count};
ghost use Rattle.histogram.specs.Histogram.{bumped};
ghost use Rattle.quantile_room.specs.Room.{room_size, samples, buckets as bucketsOf, totals, full_at};

// A count that has no room for one more.
const MOST: u64 = 18446744073709551615;

// How many words a room has.
pub fn room_size(signed: bool) -> usize
    ensures { result ≡ room_size signed }
{
    if signed { 18804 } else { 11578 }
}

// The word where the totals begin.
pub fn totals_start(signed: bool) -> usize
    ensures { result ≡ 4096 + bucket_count signed }
{
    if signed { 18689 } else { 11520 }
}

// A sample at its place.
pub fn put_sample(room: &mut [u64], place: usize, value: u64)
    requires { place < length room.old }
    ensures { room.new ≡ set room.old place value }
{
    room[place] = value;
}

// Whether a bucket, or the total of its block, has no room for one more.
pub fn full_at(signed: bool, room: &[u64], place: usize) -> bool
    requires { (length room.now ≡ room_size signed) × (place < bucket_count signed) }
    ensures { result ≡ full_at signed room.now place }
{
    let at = limits::CAPACITY + place;
    let block = totals_start(signed) + place / 128;
    if room[at] == MOST {
        return true;
    }
    room[block] == MOST
}

// One sample more in a bucket, and in the total of its block.
pub fn count_in(signed: bool, room: &mut [u64], place: usize)
    requires { (length room.old ≡ room_size signed) × (place < bucket_count signed) × (full_at signed room.old place ≡ false) }
    ensures { room.new ≡ samples room.old ++ (bumped (bucketsOf signed room.old) place ++ bumped (totals signed room.old) (place / 128)) }
{
    let at = limits::CAPACITY + place;
    let block = totals_start(signed) + place / 128;
    room[at] = room[at] + 1;
    room[block] = room[block] + 1;
}
