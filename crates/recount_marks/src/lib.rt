// One mark for each record of a log, in order, each from the record and from looking back over the records before it: whether it is
// served, and the class of a reply.
ghost use Rattle.std.specs.Prelude.{◌≡◌, ◌≤◌, ◌<◌, length};
ghost use Rattle.recount_seen.specs.Seen.{byte_of, events_of};
ghost use Rattle.recount_marks.specs.Marks.{call_mark, record_mark, marked_to, turned_in};

use call_types::Call;
use recount_seen::{Mark, Marked};

fn call_mark(records: Marked, n: u32, watched: bool, timeout: u64, call: Call) -> Mark
    requires { n ≤ length records.marks.now }
    ensures { byte_of result ≡ call_mark watched timeout (events_of records.entry.log.now records.entry.marks.now n) call }
{
    match call {
        Call::Sent(probe) => recount_call::probe_mark(watched, timeout, probe),
        Call::Accept(reply) => recount_call::reply_mark(records, n, reply),
        Call::Observe(o) => recount_call::observe_mark(records, n, o),
        Call::Advance(_) | Call::Idle => Mark::Served,
    }
}

fn record_mark(records: Marked, n: u32, watched: bool, timeout: u64) -> Mark
    requires { n ≤ length records.marks.now }
    ensures { byte_of result ≡ record_mark watched timeout records.entry.log.now records.entry.marks.now n }
{
    match log_whole::call_at(records.log, n) {
        Some(call) => call_mark(records, n, watched, timeout, call),
        None => Mark::TurnedAway,
    }
}

// Marks the first n records.
pub fn mark_records(log: &[u8], marks: &mut [u8], n: u32, watched: bool, timeout: u64)
    requires { n ≤ length marks.old }
    ensures { marks.new ≡ marked_to watched timeout log.now marks.old n }
{
    for i in 0..n {
        let mark = record_mark(Marked { log, marks }, i, watched, timeout);
        marks[i as usize] = u8::from(mark);
    }
}

// How many of the first n records are turned away.
pub fn turned_away(marks: &[u8], n: u32) -> u32
    requires { (n ≤ length marks.now) × (n < 65536) }
    ensures { result ≡ turned_in marks.now n }
{
    recount_back::count_where(n, |j| marks[j as usize] == u8::from(Mark::TurnedAway))
}
