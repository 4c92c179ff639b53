// The observation that a marked record made, or none: what follow-ups, direct loss and round trips look back for.
ghost use Rattle.std.specs.Prelude.{◌≡◌, ◌<◌, length};
ghost use Rattle.recount_observed.specs.Observed.{observation_of, observation_at};

use call_types::ReplyObservation;
use recount_seen::{Marked, Seen};

fn observation_of(seen: Seen) -> Option<ReplyObservation>
    ensures { result ≡ observation_of seen }
{
    match seen {
        Seen::Observed(o) => Some(o),
        Seen::Nothing
        | Seen::Probe(_)
        | Seen::Duplicate
        | Seen::Unknown
        | Seen::Known(_)
        | Seen::First(_) => None,
    }
}

// That of record j.
pub fn observation_at(records: Marked, j: u32) -> Option<ReplyObservation>
    requires { j < length records.marks.now }
    ensures { result ≡ observation_at records.entry.log.now records.entry.marks.now j }
{
    observation_of(records.seen_at(j))
}
