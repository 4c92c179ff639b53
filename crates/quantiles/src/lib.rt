// `Quantiles` of src/stats/quantiles.rs: its state by value, and `record`. `Storage` is a lent room of u64 words (`quantile_room`). The type
// parameter is the flag `signed`, and an i64 is its two's complement word.
#![tactic(auto)]

ghost use Rattle.std.specs.Prelude.{◌≡◌, true, false, ◌++◌, ◌+◌, ◌-◌, ◌<◌, ◌≤◌, ◌^◌, length, take, replicate};
ghost use Rattle.quantile_room.specs.Room.{room_size, samples};
ghost use Rattle.quantiles.specs.State.{crossed};
ghost use Rattle.quantiles.specs.Record.{outcome, recorded, grown, filled_buckets, filled_totals};
ghost use Rattle.quantiles.specs.Between.{between, Tried};

use limits::Refusal;

// A count that has no room for one more.
const MOST: u64 = 18446744073709551615;

// How many samples were recorded, and the least and the greatest of them. At count 0 there is none, whatever `min` and `max` hold.
#[derive(Clone, Copy)]
pub struct Quantiles {
    pub signed: bool,
    pub count: u64,
    pub min: u64,
    pub max: u64,
}

// `Default`: no samples yet. What the room holds then does not matter.
pub fn fresh(signed: bool) -> Quantiles
    ensures { (result.signed ≡ signed) × (result.count ≡ 0) × (result.min ≡ 0) × (result.max ≡ 0) }
{
    Quantiles {
        signed: signed,
        count: 0,
        min: 0,
        max: 0,
    }
}

// Whether the minimum is above the maximum at a count above 0.
pub fn min_above_max(q: Quantiles) -> bool
    ensures { result ≡ crossed q }
{
    let crossed = extremes::above(q.signed, q.min, q.max);
    (0 < q.count) & crossed
}

// The state with one sample more, where there was one before.
fn grow(q: Quantiles, value: u64) -> Quantiles
    requires { (0 < q.count) × (q.count + 1 < 2 ^ 64) }
    ensures { result ≡ grown q value }
{
    let low = extremes::least(q.signed, q.min, value);
    let high = extremes::greatest(q.signed, q.max, value);
    Quantiles {
        signed: q.signed,
        count: q.count + 1,
        min: low,
        max: high,
    }
}

// The words behind the samples are lent on, and zeroed.
fn clear_counts(room: &mut [u64])
    requires { 4096 ≤ length room.old }
    ensures { room.new ≡ take 4096 room.old ++ replicate (length room.old - 4096) 0 }
{
    histogram::clear(&mut room[limits::CAPACITY..]);
}

// Zeroes, then fills the buckets and the totals from the 4,096 samples.
fn fill(signed: bool, room: &mut [u64])
    requires { length room.old ≡ room_size signed }
    ensures { room.new ≡ samples room.old ++ (filled_buckets signed (samples room.old) ++ filled_totals signed (samples room.old)) }
{
    clear_counts(room);
    for i in 0..limits::CAPACITY {
        let place = buckets::bucket_of(signed, room[i]);
        quantile_room::count_in(signed, room, place);
    }
}

// A sample of the exact mode: it stands behind those before it.
fn add_sample(q: Quantiles, room: &mut [u64], value: u64) -> Result<Option<Quantiles>, Refusal>
    requires { (length room.old ≡ room_size q.signed) × (crossed q ≡ false) × (0 < q.count) × (q.count < 4096) }
    ensures { outcome q result room.new ≡ recorded q room.old value }
{
    let next = q.count as usize;
    quantile_room::put_sample(room, next, value);
    Ok(Some(grow(q, value)))
}

// Sample 4,097: the buckets and the totals are zeroed, then filled, and have it too.
fn add_first(q: Quantiles, room: &mut [u64], value: u64) -> Result<Option<Quantiles>, Refusal>
    requires { (length room.old ≡ room_size q.signed) × (crossed q ≡ false) × (q.count ≡ 4096) }
    ensures { outcome q result room.new ≡ recorded q room.old value }
{
    let place = buckets::bucket_of(q.signed, value);
    fill(q.signed, room);
    quantile_room::count_in(q.signed, room, place);
    Ok(Some(grow(q, value)))
}

// A sample of a histogram: its bucket and its block have one more, unless one of them or the count is full.
fn add_later(q: Quantiles, room: &mut [u64], value: u64) -> Result<Option<Quantiles>, Refusal>
    requires { (length room.old ≡ room_size q.signed) × (crossed q ≡ false) × (4096 < q.count) }
    ensures { outcome q result room.new ≡ recorded q room.old value }
{
    let place = buckets::bucket_of(q.signed, value);
    if quantile_room::full_at(q.signed, room, place) {
        return Err(Refusal::WrongRoom);
    }
    if q.count == MOST {
        return Ok(None);
    }
    quantile_room::count_in(q.signed, room, place);
    Ok(Some(grow(q, value)))
}

// Tries a sample of the exact mode.
fn try_sample(q: Quantiles, room: &mut [u64], value: u64) -> bool
    requires { (between q value ≡ true) × (0 < q.count) × (q.count < 4096) }
    ensures { Tried result q room.old value room.new }
{
    if room.len() != quantile_room::room_size(q.signed) {
        return false;
    }
    let behind = q.count as usize;
    quantile_room::put_sample(room, behind, value);
    true
}

// Tries a sample of a histogram: its bucket and its block have one more, unless one of them is full.
fn try_later(q: Quantiles, room: &mut [u64], value: u64) -> bool
    requires { (between q value ≡ true) × (4096 < q.count) × (q.count + 1 < 2 ^ 64) }
    ensures { Tried result q room.old value room.new }
{
    if room.len() != quantile_room::room_size(q.signed) {
        return false;
    }
    let place = buckets::bucket_of(q.signed, value);
    if quantile_room::full_at(q.signed, room, place) {
        return false;
    }
    quantile_room::count_in(q.signed, room, place);
    true
}

impl Quantiles {
    // `record` of the first sample, which is the least and the greatest.
    fn record_first(self, room: &mut [u64], value: u64) -> Result<Option<Quantiles>, Refusal>
        requires { self.count ≡ 0 }
        ensures { outcome self result room.new ≡ recorded self room.old value }
    {
        if room.len() != quantile_room::room_size(self.signed) {
            return Err(Refusal::WrongRoom);
        }
        quantile_room::put_sample(room, 0, value);
        Ok(Some(Quantiles {
            signed: self.signed,
            count: 1,
            min: value,
            max: value,
        }))
    }

    // `record` of a sample of the exact mode, not the first.
    fn record_sample(self, room: &mut [u64], value: u64) -> Result<Option<Quantiles>, Refusal>
        requires { (0 < self.count) × (self.count < 4096) }
        ensures { outcome self result room.new ≡ recorded self room.old value }
    {
        if room.len() != quantile_room::room_size(self.signed) {
            return Err(Refusal::WrongRoom);
        }
        if extremes::above(self.signed, self.min, self.max) {
            return Err(Refusal::WrongRoom);
        }
        add_sample(self, room, value)
    }

    // `record` of sample 4,097.
    fn record_building(self, room: &mut [u64], value: u64) -> Result<Option<Quantiles>, Refusal>
        requires { self.count ≡ 4096 }
        ensures { outcome self result room.new ≡ recorded self room.old value }
    {
        if room.len() != quantile_room::room_size(self.signed) {
            return Err(Refusal::WrongRoom);
        }
        if extremes::above(self.signed, self.min, self.max) {
            return Err(Refusal::WrongRoom);
        }
        add_first(self, room, value)
    }

    // `record` of a later sample.
    fn record_later(self, room: &mut [u64], value: u64) -> Result<Option<Quantiles>, Refusal>
        requires { 4096 < self.count }
        ensures { outcome self result room.new ≡ recorded self room.old value }
    {
        if room.len() != quantile_room::room_size(self.signed) {
            return Err(Refusal::WrongRoom);
        }
        if extremes::above(self.signed, self.min, self.max) {
            return Err(Refusal::WrongRoom);
        }
        add_later(self, room, value)
    }

    // `record` of a sample that changes neither the least nor the greatest, where it is not the first and not sample 4,097; any other is left
    // alone. A minimum that is not above the sample, and a maximum that is not below it, are in order: no test of its own is left of that.
    pub fn record_between(self, room: &mut [u64], value: u64) -> bool
        ensures { Tried result self room.old value room.new }
    {
        if extremes::is_between(self.signed, self.min, self.max, value) {
            if (4096 < self.count) & (self.count < MOST) {
                return try_later(self, room, value);
            }
            if (0 < self.count) & (self.count < 4096) {
                return try_sample(self, room, value);
            }
        }
        false
    }

    // `record`: one sample more, in the room that holds the others: refusal 5; none, Rust's false, at a count of 2^64-1; or the state after it. A caller that is to be fast asks for `record_between` first, with a flag that
    // the compiler knows, and for this where that took nothing.
    pub fn record(self, room: &mut [u64], value: u64) -> Result<Option<Quantiles>, Refusal>
        ensures { outcome self result room.new ≡ recorded self room.old value }
    {
        if self.count == 0 {
            return self.record_first(room, value);
        }
        if self.count < 4096 {
            return self.record_sample(room, value);
        }
        if self.count == 4096 {
            return self.record_building(room, value);
        }
        self.record_later(room, value)
    }
}
