// `OwdDirection` of src/stats.rs, forward and reverse, each with its quantiles and its sum. Their two rooms lie in one lent slice: the reverse
// part begins where the forward part ends. Its smallest and largest sample are the quantiles' own. An i64 is its two's complement word.
#![tactic(auto)]

ghost use Rattle.std.specs.Prelude.{◌≡◌, true, ◌+◌, ◌≤◌, length};
ghost use Rattle.series.specs.Series.{sum_fits};
ghost use Rattle.directions.specs.Direction.{fresh, grown_of, outcome, record_to};
ghost use Rattle.directions.specs.Directions.{part_size, start_of, own, with_own, record_part, record_own, Untouched, fresh_both, outcome_both, record_in};
ghost use Rattle.directions.specs.Tried.{TriedOwn};

use delays::Sum;
use limits::Refusal;
use quantiles::Quantiles;

#[derive(Clone, Copy)]
pub struct OwdDirection {
    pub quantiles: Quantiles,
    pub sum: Sum,
}

impl OwdDirection {
    // `Default`: no samples yet. What the room holds then does not matter.
    pub fn new() -> OwdDirection
        ensures { result ≡ fresh }
    {
        OwdDirection {
            quantiles: Quantiles {
                signed: true,
                count: 0,
                min: 0,
                max: 0,
            },
            sum: Sum {
                negative: false,
                high: 0,
                low: 0,
            },
        }
    }

    // One sample more, once the quantiles have it.
    fn grown(self, next: Quantiles, value: u64) -> OwdDirection
        requires { sum_fits self.sum ≡ true }
        ensures { result ≡ grown_of self next value }
    {
        let before = self.sum;
        let ns = series::span_of(true, value);
        let sum = series::sum_with(before, ns);
        OwdDirection {
            quantiles: next,
            sum,
        }
    }

    // `record`: one sample more, in the room that holds the others: refusal 5; refusal 4; none, Rust's false; or the direction as it then stands.
    pub fn record(self, room: &mut [u64], value: u64) -> Result<Option<OwdDirection>, Refusal>
        ensures { outcome self result room.new ≡ record_to self room.old value }
    {
        let quantiles = self.quantiles;
        let sum = self.sum;
        let fits = series::sum_fits(sum);
        match series::record_beside(fits, quantiles, room, value)? {
            None => Ok(None),
            Some(next) => Ok(Some(self.grown(next, value))),
        }
    }
}

// A sample of the direction whose part begins at `start`: that part is lent on.
fn record_part(
    direction: OwdDirection,
    slice: &mut [u64],
    start: usize,
    value: u64,
) -> Result<Option<OwdDirection>, Refusal>
    requires { start + part_size ≤ length slice.old }
    ensures { (outcome direction result slice.new ≡ record_part direction slice.old start value) × Untouched start slice.old slice.new }
{
    let size = quantile_room::room_size(true);
    let end = start + size;
    direction.record(&mut slice[start..end], value)
}

// Where a direction's part begins.
fn start_of(reverse: bool) -> usize
    ensures { result ≡ start_of reverse }
{
    if reverse {
        return quantile_room::room_size(true);
    }
    0
}

// A sample of the one direction or the other, in its part of the slice. The other's part is left untouched.
pub fn record_own(
    own: OwdDirection,
    slice: &mut [u64],
    reverse: bool,
    value: u64,
) -> Result<Option<OwdDirection>, Refusal>
    ensures { (outcome own result slice.new ≡ record_own own slice.old reverse value) × Untouched (start_of reverse) slice.old slice.new }
{
    let size = quantile_room::room_size(true);
    if slice.len() < size + size {
        return Err(Refusal::WrongRoom);
    }
    let start = start_of(reverse);
    record_part(own, slice, start, value)
}

// Tries a sample that changes neither the least nor the greatest, in its direction's part of the slice; the sum is the caller's. Any other is left
// to `record_own`.
pub fn try_own(own: OwdDirection, slice: &mut [u64], reverse: bool, value: u64) -> bool
    requires { sum_fits own.sum ≡ true }
    ensures { TriedOwn result own slice.old reverse value slice.new }
{
    let size = quantile_room::room_size(true);
    if slice.len() < size + size {
        return false;
    }
    let quantiles = own.quantiles;
    let start = start_of(reverse);
    let end = start + size;
    quantiles.record_between(&mut slice[start..end], value)
}

// The forward direction is T2 - T1, from sender to reflector; the reverse T4 - T3.
#[derive(Clone, Copy)]
pub struct Directions {
    pub forward: OwdDirection,
    pub reverse: OwdDirection,
}

// The one direction or the other.
pub fn own_of(directions: Directions, reverse: bool) -> OwdDirection
    ensures { result ≡ own directions reverse }
{
    if reverse {
        return directions.reverse;
    }
    directions.forward
}

// Both, with another state of that direction.
fn with_own(directions: Directions, reverse: bool, next: OwdDirection) -> Directions
    ensures { result ≡ with_own directions reverse next }
{
    let forth = directions.forward;
    let back = directions.reverse;
    if reverse {
        return Directions {
            forward: forth,
            reverse: next,
        };
    }
    Directions {
        forward: next,
        reverse: back,
    }
}

impl Directions {
    // No samples yet, in either.
    pub fn new() -> Directions
        ensures { result ≡ fresh_both }
    {
        let forward = OwdDirection::new();
        let reverse = OwdDirection::new();
        Directions { forward, reverse }
    }

    // A sample of the one direction or the other, in its part of the slice: refusal 5; refusal 4; none, Rust's false; or both as they then stand.
    // The other's part is left untouched.
    pub fn record(
        self,
        slice: &mut [u64],
        reverse: bool,
        value: u64,
    ) -> Result<Option<Directions>, Refusal>
        ensures { (outcome_both self result slice.new ≡ record_in self slice.old reverse value) × Untouched (start_of reverse) slice.old slice.new }
    {
        let own = own_of(self, reverse);
        match record_own(own, slice, reverse, value)? {
            None => Ok(None),
            Some(next) => Ok(Some(with_own(self, reverse, next))),
        }
    }
}
