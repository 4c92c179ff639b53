// The least and the greatest of a series of samples, as plain words: what a sample more does to them, and whether they are in order. It stands
// apart from `quantiles`, whose state holds them: nothing here needs the room.
ghost use Rattle.std.specs.Prelude.{◌≡◌, ◌&&◌, ltb, leb};
ghost use Rattle.buckets.specs.Buckets.{pick};
ghost use Rattle.buckets.specs.Signed.{order};

// Whether the least value is above the greatest.
pub fn above(signed: bool, least: u64, greatest: u64) -> bool
    ensures { result ≡ ltb (order signed greatest) (order signed least) }
{
    let low = buckets::ordered(signed, least);
    let high = buckets::ordered(signed, greatest);
    high < low
}

// The value where it is below the least so far, else that.
pub fn least(signed: bool, old: u64, value: u64) -> u64
    ensures { result ≡ pick (ltb (order signed value) (order signed old)) value old }
{
    let was = buckets::ordered(signed, old);
    let is = buckets::ordered(signed, value);
    if is < was { value } else { old }
}

// The value where it is above the greatest so far, else that.
pub fn greatest(signed: bool, old: u64, value: u64) -> u64
    ensures { result ≡ pick (ltb (order signed old) (order signed value)) value old }
{
    let was = buckets::ordered(signed, old);
    let is = buckets::ordered(signed, value);
    if was < is { value } else { old }
}

// Whether a value changes neither the least nor the greatest.
pub fn is_between(signed: bool, least: u64, greatest: u64, value: u64) -> bool
    ensures { result ≡ leb (order signed least) (order signed value) && leb (order signed value) (order signed greatest) }
{
    let low = buckets::ordered(signed, least);
    let is = buckets::ordered(signed, value);
    let high = buckets::ordered(signed, greatest);
    (low <= is) & (is <= high)
}
