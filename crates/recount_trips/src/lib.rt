// The round trips of a marked log: how many, the shortest and the longest, in ns.
ghost use Rattle.std.specs.Prelude.{◌≡◌, ◌+◌, ◌≤◌, ◌<◌, ◌^◌, length};
ghost use Rattle.history.specs.FollowUps.{round_trips};
ghost use Rattle.recount_seen.specs.Seen.{events_of};
ghost use Rattle.recount_trips.specs.Trips.{shorter, longer, trips_with, trips_next, trips_of};

use call_types::ReplyObservation;
use recount_seen::Marked;
use report::figures::RoundTrip;

fn shorter(least: Option<u64>, ns: u64) -> Option<u64>
    ensures { result ≡ shorter least ns }
{
    match least {
        None => Some(ns),
        Some(old) => {
            if ns < old {
                return Some(ns);
            }
            Some(old)
        }
    }
}

fn longer(most: Option<u64>, ns: u64) -> Option<u64>
    ensures { result ≡ longer most ns }
{
    match most {
        None => Some(ns),
        Some(old) => {
            if old < ns {
                return Some(ns);
            }
            Some(old)
        }
    }
}

fn trips_with(ns: u64, t: RoundTrip) -> RoundTrip
    requires { t.samples + 1 < 2 ^ 64 }
    ensures { result ≡ trips_with ns t }
{
    let least = t.min;
    let most = t.max;
    RoundTrip {
        samples: t.samples + 1,
        min: shorter(least, ns),
        max: longer(most, ns),
    }
}

fn trips_next(x: Option<ReplyObservation>, t: RoundTrip) -> RoundTrip
    requires { t.samples + 1 < 2 ^ 64 }
    ensures { result ≡ trips_next x t }
{
    match x {
        None => t,
        Some(o) => trips_with(o.rtt, t),
    }
}

// Of the first n records.
pub fn round_trips(records: Marked, n: u32) -> RoundTrip
    requires { (n ≤ length records.marks.now) × (n < 65536) }
    ensures { result ≡ trips_of (round_trips (events_of records.entry.log.now records.entry.marks.now n)) }
{
    let mut t = RoundTrip {
        samples: 0,
        min: None,
        max: None,
    };
    for j in 0..n {
        t = trips_next(recount_observed::observation_at(records, j), t);
    }
    t
}
