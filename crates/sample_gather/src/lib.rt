// The keys of a range that few samples have, gathered in one pass (`sample_passes` has the other passes): a crate of its own for the edit of its store.
#![tactic(auto)]

ghost use Rattle.std.specs.Prelude.{◌≡◌, ◌≤◌, length, take};
ghost use Rattle.sample_passes.specs.Keys.{shifted};
ghost use Rattle.sample_passes.specs.Passes.{Gathered};

// The keys from low to high, where no more than 256 samples have one: as many as there are such samples, in the samples' order. They are
// put where the caller has room, so that they are not copied.
pub fn gather(samples: &[u64], count: usize, bias: u64, low: u64, high: u64, keys: &mut [u64; 256])
    requires { (count ≤ length samples.now) × (low ≤ high) × (length keys.old ≡ 256) }
    ensures { Gathered (shifted bias) (take count samples.now) low high keys.new × (length keys.new ≡ 256) }
{
    let span = high - low;
    let mut n: usize = 0;
    for i in 0..count {
        let d = sample_passes::past(samples[i], bias, low);
        if d <= span {
            keys[n % 256] = low + d;
            n += 1;
        }
    }
}
