// How many records of a marked log pass a test, each test by looking back from the record.
#![tactic(auto)]

ghost use Rattle.std.specs.Prelude.{◌≡◌, ◌≤◌, ◌<◌, length, MatchOption};
ghost use Rattle.recount_seen.specs.Seen.{seen_at, events_of};
ghost use Rattle.recount_counts.specs.Tests.{number_of, unique_at, test_by, passing};

use call_types::Reply;
use recount_seen::{Marked, Seen};

// What a record may be.
#[derive(Clone, Copy, Debug, Drop, PartialEq, Eq)]
pub enum Test {
    // A probe that was sent.
    Sent = 0,
    // A reply by its class.
    Duplicate = 1,
    Unknown = 2,
    Unique = 3,
    // A unique reply: the first to its probe, or one more.
    Answered = 4,
    Additional = 5,
    // The first to its probe, with no packet pending.
    Late = 6,
    // One of as many to its probe as there are copies.
    Satisfying = 7,
    // With a reflector number that is not the sender's.
    Independent = 8,
    // Behind the highest reflector number before it.
    Reordered = 9,
}

// The test of a number, where there is one.
fn test_of(kind: u8) -> Option<Test>
    ensures { MatchOption result (9 < kind) (λ test. number_of test ≡ kind) }
{
    match kind {
        0 => Some(Test::Sent),
        1 => Some(Test::Duplicate),
        2 => Some(Test::Unknown),
        3 => Some(Test::Unique),
        4 => Some(Test::Answered),
        5 => Some(Test::Additional),
        6 => Some(Test::Late),
        7 => Some(Test::Satisfying),
        8 => Some(Test::Independent),
        9 => Some(Test::Reordered),
        _ => None,
    }
}

// Of the unique reply at record j, whose probe had `before` replies.
fn unique_at(test: Test, copies: u32, records: Marked, j: u32, before: u32, reply: Reply) -> bool
    requires { j ≤ length records.marks.now }
    ensures { result ≡ unique_at (number_of test) copies (events_of records.entry.log.now records.entry.marks.now j) before reply }
{
    match test {
        Test::Sent | Test::Duplicate | Test::Unknown => false,
        Test::Unique => true,
        Test::Answered => before == 0,
        Test::Additional => before != 0,
        Test::Late => (before == 0) & reply.pending.is_none(),
        Test::Satisfying => before < copies,
        Test::Independent => reply.key.reflector != reply.key.sender,
        Test::Reordered => {
            let highest = recount_back::highest_before(records, j);
            recount_back::is_behind(reply.key.reflector, highest)
        }
    }
}

// Whether record j passes.
fn passes(test: Test, copies: u32, records: Marked, j: u32) -> bool
    requires { (j < length records.marks.now) × (j < 65536) }
    ensures { result ≡ test_by (number_of test) copies (seen_at records.entry.log.now records.entry.marks.now j) (events_of records.entry.log.now records.entry.marks.now j) }
{
    match records.seen_at(j) {
        Seen::Probe(_) => test == Test::Sent,
        Seen::Duplicate => test == Test::Duplicate,
        Seen::Unknown => test == Test::Unknown,
        Seen::Known(reply) => {
            let before = recount_back::replies_before(records, j, reply.key.sender);
            unique_at(test, copies, records, j, before, reply)
        }
        Seen::First(reply) => unique_at(test, copies, records, j, 0, reply),
        Seen::Nothing | Seen::Observed(_) => false,
    }
}

// How many of the first n records pass the test of a number. Where no test has it, none does.
pub fn count(kind: u8, copies: u32, records: Marked, n: u32) -> u32
    requires { (n ≤ length records.marks.now) × (n < 65536) }
    ensures { result ≡ passing (test_by kind copies) records.entry.log.now records.entry.marks.now n }
{
    match test_of(kind) {
        Some(test) => recount_back::count_where(n, |j| passes(test, copies, records, j)),
        None => 0,
    }
}
