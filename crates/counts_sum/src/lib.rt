// Whether counts add up to a number, which `percentiles` asks of every block that it reads: `histogram::total_is` by one addition a count.
#![tactic(auto)]

ghost use Rattle.std.specs.Prelude.{◌≡◌, ◌≤◌, length, ◌==◌};
ghost use Rattle.histogram.specs.Histogram.{total};

// Whether counts add up to a number. One sum modulo 2^64 tells it where no count is large, with one addition a count; otherwise the sum is exact.
pub fn add_up(counts: &[u64], number: u64) -> bool
    requires { length counts.now ≤ 65536 }
    ensures { result ≡ (total counts.now == number) }
{
    let mut sum: u64 = 0;
    let mut any: u64 = 0;
    for here in counts {
        sum = sum.wrapping_add(*here);
        any |= *here;
    }
    if any < 281474976710656 {
        return sum == number;
    }
    histogram::total_is(counts, number)
}
