// Counts in a row: the buckets of a quantile room, which are what `Storage::Histogram` of src/stats/quantiles.rs is, those of one block, or
// the totals of all blocks.
#![tactic(auto)]

ghost use Rattle.std.specs.Prelude.{◌≡◌, ◌≤◌, length, replicate, eqb};
ghost use Rattle.histogram.specs.Histogram.{total, bucket_at, left_at};

// Every bucket 0.
pub fn clear(buckets: &mut [u64])
    ensures { buckets.new ≡ replicate (length buckets.old) 0 }
{
    buckets.fill(0);
}

// Whether the buckets have `count` samples, all together. Halves of 32 bits are summed, so that nothing wraps: a sum that
// passes u64 is not the count.
pub fn total_is(buckets: &[u64], count: u64) -> bool
    requires { length buckets.now ≤ 65536 }
    ensures { result ≡ eqb (total buckets.now) count }
{
    let mut low: u64 = 0;
    let mut high: u64 = 0;
    for here in buckets {
        low += *here % 4294967296;
        high += *here / 4294967296;
    }
    let carried = high + low / 4294967296;
    (carried == count / 4294967296) & (low % 4294967296 == count % 4294967296)
}

// The bucket of a rank, and what is left of the rank in it.
#[derive(Clone, Copy)]
pub struct Found {
    pub place: usize,
    pub left: u64,
}

// The bucket of a rank among these; or their number where they have too few.
pub fn find(buckets: &[u64], rank: u64) -> Found
    ensures { (result.place ≡ bucket_at buckets.now rank) × (result.left ≡ left_at buckets.now rank) }
{
    let mut left = rank;
    for (place, here) in buckets.iter().enumerate() {
        if left < *here {
            return Found { place, left };
        }
        left -= *here;
    }
    Found {
        place: buckets.len(),
        left,
    }
}
