// The rank of a percentile: `rank` of src/stats/quantiles.rs.
ghost use Rattle.std.specs.Prelude.{◌≡◌};
ghost use Rattle.rank.specs.Rank.{rank_of};

// The rank of the percentile p among count samples, from 0 to count - 1; of no samples it is 0.
pub fn rank(p: f64, count: u64) -> u64
    ensures { result ≡ rank_of p count }
{
    if count == 0 {
        return 0;
    }
    let last = count - 1;
    let most = std::num::nearest_u64_to_f64(last);
    floats::round_half_away(p / 100.0 * most, last)
}
