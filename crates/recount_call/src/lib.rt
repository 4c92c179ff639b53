// The mark of one call of a log, from the call and from looking back over the records before it: whether it is served, and the class of a reply.
ghost use Rattle.std.specs.Prelude.{◌≡◌, ◌≤◌, length};
ghost use Rattle.recount_seen.specs.Seen.{byte_of, events_of};
ghost use Rattle.recount_call.specs.Mark.{late, probe_mark, reply_mark, observe_mark};

pub mod range;

use call_types::{Reply, ReplyObservation, SentProbe};
use recount_seen::{Mark, Marked};

// The deadline of a probe that is sent at this time passes 2^64-1.
fn late(watched: bool, timeout: u64, time: u64) -> bool
    ensures { result ≡ late watched timeout time }
{
    watched && u64::MAX - timeout < time
}

// The mark of a probe: it is served unless it is late.
pub fn probe_mark(watched: bool, timeout: u64, probe: SentProbe) -> Mark
    ensures { byte_of result ≡ probe_mark watched timeout probe }
{
    if late(watched, timeout, probe.packet.time) {
        return Mark::TurnedAway;
    }
    Mark::Served
}

// The class of a reply, by looking back over the first n records.
pub fn reply_mark(records: Marked, n: u32, reply: Reply) -> Mark
    requires { n ≤ length records.marks.now }
    ensures { byte_of result ≡ reply_mark (events_of records.entry.log.now records.entry.marks.now n) reply }
{
    let key = reply.key;
    if recount_back::was_accepted(records, n, key) {
        return Mark::Duplicate;
    }
    if recount_back::was_remembered(records, n, key.sender) {
        return Mark::Known;
    }
    match reply.pending {
        None => Mark::Unknown,
        Some(_) => Mark::First,
    }
}

// The mark of an observation: it is served where it is in range and its key awaits it.
pub fn observe_mark(records: Marked, n: u32, o: ReplyObservation) -> Mark
    requires { n ≤ length records.marks.now }
    ensures { byte_of result ≡ observe_mark (events_of records.entry.log.now records.entry.marks.now n) o }
{
    if !range::in_range(o) {
        return Mark::TurnedAway;
    }
    if recount_back::awaits_observe(records, n, o.key) {
        return Mark::Served;
    }
    Mark::TurnedAway
}
