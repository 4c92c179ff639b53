// Where a rank lies: among the counts of digits, at a key by which a range is parted, and counted from the last sample. What a search of
// exact_rank does to itself, with no pass over the samples.
#![tactic(auto)]

ghost use Rattle.std.specs.Prelude.{◌≡◌, ◌-◌, ◌<◌};
ghost use Rattle.sample_passes.specs.Passes.{sum_to, Placed};
ghost use Rattle.sample_place.specs.Places.{EndedAt, Partable, Parted};

// A search for the sample of a rank, counted from 0. Its key is one of low to high. While these differ, `before` samples have
// a key below low, and `through` have one of at most high.
#[derive(Clone, Copy)]
pub struct Search {
    pub low: u64,
    pub high: u64,
    pub rank: u64,
    pub before: u64,
    pub through: u64,
}

// The digit that holds a rank, and the rank within it.
#[derive(Clone, Copy)]
pub struct Place {
    pub digit: usize,
    pub left: u64,
}

// The digit of a rank among the counts.
pub fn place_of(counts: &[u64; 256], rank: u64) -> Place
    requires { rank < sum_to counts.now 256 }
    ensures { Placed counts.now rank result.digit result.left }
{
    let mut left = rank;
    for digit in 0..255 {
        let n = counts[digit];
        if left < n {
            return Place { digit, left };
        }
        left -= n;
    }
    Place { digit: 255, left }
}

// The search, ended at a key.
pub fn ended(value: u64, search: Search) -> Search
    ensures { EndedAt value search result }
{
    Search {
        low: value,
        high: value,
        rank: search.rank,
        before: 0,
        through: 0,
    }
}

// The search, parted at a value.
pub fn part(value: u64, under: u64, reach: u64, search: Search) -> Search
    requires { Partable value under reach search }
    ensures { Parted value under reach search result }
{
    if search.rank < under {
        return Search {
            low: search.low,
            high: value - 1,
            rank: search.rank,
            before: search.before,
            through: under,
        };
    }
    if search.rank < reach {
        return ended(value, search);
    }
    Search {
        low: value + 1,
        high: search.high,
        rank: search.rank,
        before: reach,
        through: search.through,
    }
}

// The rank as counted from the last of `count` samples.
pub fn back_rank(count: usize, rank: u64) -> u64
    requires { rank < count }
    ensures { result ≡ count - 1 - rank }
{
    count as u64 - 1 - rank
}
