// How many follow-ups of a marked log are of a class, or of any, each by looking back.
ghost use Rattle.std.specs.Prelude.{◌≡◌, ◌≤◌, ◌<◌, length};
ghost use Rattle.recount_seen.specs.Seen.{seen_at, events_of};
ghost use Rattle.recount_counts.specs.Tests.{passing};
ghost use Rattle.recount_follow_counts.specs.Tests.{kind_of, telemetry_test, follow_test, follow_by};

use call_types::{FollowUpTelemetry, ReplyObservation};
use recount_follow::Class;
use recount_seen::Marked;

fn telemetry_test(
    wanted: Option<Class>,
    copies: u32,
    records: Marked,
    j: u32,
    o: ReplyObservation,
    f: FollowUpTelemetry,
) -> bool
    requires { (j ≤ length records.marks.now) × (j < 65536) }
    ensures { result ≡ telemetry_test (kind_of wanted) copies f o.key.reflector o.offset (events_of records.entry.log.now records.entry.marks.now j) }
{
    match wanted {
        None => true,
        Some(class) => {
            let b = recount_follow::slot_before(records, j, copies, f.sequence);
            class == recount_follow::class_of(f, o.key.reflector, o.offset, b)
        }
    }
}

fn follow_test(
    wanted: Option<Class>,
    copies: u32,
    records: Marked,
    j: u32,
    o: ReplyObservation,
) -> bool
    requires { (j ≤ length records.marks.now) × (j < 65536) }
    ensures { result ≡ follow_test (kind_of wanted) copies o.follow o.key.reflector o.offset (events_of records.entry.log.now records.entry.marks.now j) }
{
    match o.follow {
        None => false,
        Some(f) => telemetry_test(wanted, copies, records, j, o, f),
    }
}

// Whether record j has one that passes.
fn passes(wanted: Option<Class>, copies: u32, records: Marked, j: u32) -> bool
    requires { (j < length records.marks.now) × (j < 65536) }
    ensures { result ≡ follow_by (kind_of wanted) copies (seen_at records.entry.log.now records.entry.marks.now j) (events_of records.entry.log.now records.entry.marks.now j) }
{
    match recount_observed::observation_at(records, j) {
        None => false,
        Some(o) => follow_test(wanted, copies, records, j, o),
    }
}

// How many of the first n records do: of the class that is wanted, or of any.
pub fn count(wanted: Option<Class>, copies: u32, records: Marked, n: u32) -> u32
    requires { (n ≤ length records.marks.now) × (n < 65536) }
    ensures { result ≡ passing (follow_by (kind_of wanted) copies) records.entry.log.now records.entry.marks.now n }
{
    recount_back::count_where(n, |j| passes(wanted, copies, records, j))
}
