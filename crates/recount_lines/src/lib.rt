// The lines of the report that the counts of records, probes and replies give: `records`, `requested`, `unique`, `answered`, `reordered`.
ghost use Rattle.std.specs.Prelude.{◌≡◌, ◌^◌, ◌≤◌, ◌<◌, length};
ghost use Rattle.history.specs.Ledger.{copies_of};
ghost use Rattle.recount_lines.specs.Lines.{thousandths_of, loss_by, played_at, loss_at, replies_at, probes_at, order_at};

use recount_counts::{Test, count};
use recount_seen::Marked;
use report::figures;

// Copies 0 counts as 1.
pub fn copies_of(copies: u16) -> u32
    ensures { result ≡ copies_of copies }
{
    if copies == 0 {
        return 1;
    }
    copies as u32
}

pub fn played(marks: &[u8], n: u32) -> figures::PlayedRecords
    requires { (n ≤ length marks.now) × (n < 65536) }
    ensures { result ≡ played_at marks.now n }
{
    let turned = recount_marks::turned_away(marks, n);
    figures::PlayedRecords {
        records: n as u64,
        turned_away: turned as u64,
    }
}

// With nothing requested there is no figure of loss.
fn thousandths_of(requested: u64, lost: u64) -> Option<u64>
    requires { lost < 2 ^ 32 }
    ensures { result ≡ thousandths_of requested lost }
{
    if requested == 0 {
        return None;
    }
    Some(1000 * lost / requested)
}

fn loss_by(requested: u64, satisfied: u64) -> figures::Loss
    requires { requested < 2 ^ 32 }
    ensures { result ≡ loss_by requested satisfied }
{
    let lost = requested.saturating_sub(satisfied);
    figures::Loss {
        requested,
        unobserved: lost,
        thousandths: thousandths_of(requested, lost),
    }
}

pub fn loss(copies: u32, records: Marked, n: u32) -> figures::Loss
    requires { (copies < 65536) × (n ≤ length records.marks.now) × (n < 65536) }
    ensures { result ≡ loss_at copies records.entry.log.now records.entry.marks.now n }
{
    let sent = count(Test::Sent as u8, copies, records, n);
    let satisfied = count(Test::Satisfying as u8, copies, records, n);
    let requested = (copies as u64) * (sent as u64);
    loss_by(requested, satisfied as u64)
}

pub fn replies(copies: u32, records: Marked, n: u32) -> figures::Replies
    requires { (n ≤ length records.marks.now) × (n < 65536) }
    ensures { result ≡ replies_at copies records.entry.log.now records.entry.marks.now n }
{
    let unique = count(Test::Unique as u8, copies, records, n);
    let duplicate = count(Test::Duplicate as u8, copies, records, n);
    let unknown = count(Test::Unknown as u8, copies, records, n);
    figures::Replies {
        unique: unique as u64,
        duplicate: duplicate as u64,
        unknown: unknown as u64,
    }
}

pub fn probes(copies: u32, records: Marked, n: u32) -> figures::Probes
    requires { (n ≤ length records.marks.now) × (n < 65536) }
    ensures { result ≡ probes_at copies records.entry.log.now records.entry.marks.now n }
{
    let answered = count(Test::Answered as u8, copies, records, n);
    let additional = count(Test::Additional as u8, copies, records, n);
    let late = count(Test::Late as u8, copies, records, n);
    figures::Probes {
        answered: answered as u64,
        additional: additional as u64,
        late: late as u64,
    }
}

pub fn order(copies: u32, records: Marked, n: u32) -> figures::Order
    requires { (n ≤ length records.marks.now) × (n < 65536) }
    ensures { result ≡ order_at copies records.entry.log.now records.entry.marks.now n }
{
    let reordered = count(Test::Reordered as u8, copies, records, n);
    let independent = count(Test::Independent as u8, copies, records, n);
    figures::Order {
        reordered: reordered as u64,
        independent: independent as u64,
    }
}
