// The report of a log, counted a second time (document 02, Q-13): straight from the list of its records, looking back through it, with no
// ring, slot, hash or sum. It stands on the reader of the log and on the report's text, and on nothing of the ledger or the monitor.
// All it keeps is one mark and one front for each record, in lent rooms.
ghost use Rattle.std.specs.Prelude.{◌≡◌, ◌≤◌, ◌<◌, length};
ghost use Rattle.limits.specs.Numbers.{numbered};
ghost use Rattle.report.specs.Report.{outcome, report_room};
ghost use Rattle.recount.specs.Figures.{followup_at, direct_at, figures_by, watched_by};
ghost use Rattle.recount.specs.Recount.{rooms_fit, checked_of, checked_by, recounted, recount_good, recount_of_log};

use limits::Refusal;
use log_whole::{Fault, Settings};
use recount_class::Figure;
use recount_follow::Class;
use recount_seen::Marked;
use report::figures;
use report::figures::{Figures, Session};

// A log has no more records: so many marks and so many fronts are lent.
pub const MOST_RECORDS: usize = 682;

// ---- the figures

fn followup(copies: u32, records: Marked, n: u32) -> figures::FollowUps
    requires { (n ≤ length records.marks.now) × (n < 65536) }
    ensures { result ≡ followup_at copies records.entry.log.now records.entry.marks.now n }
{
    let observations = recount_follow_counts::count(None, copies, records, n);
    let matched = recount_follow_counts::count(Some(Class::Matched), copies, records, n);
    let repeated = recount_follow_counts::count(Some(Class::Repeated), copies, records, n);
    let unmatched = recount_follow_counts::count(Some(Class::Unmatched), copies, records, n);
    let ambiguous = recount_follow_counts::count(Some(Class::Ambiguous), copies, records, n);
    let unavailable = recount_follow_counts::count(Some(Class::Unavailable), copies, records, n);
    figures::FollowUps {
        observations: observations as u64,
        matched: matched as u64,
        repeated: repeated as u64,
        unmatched: unmatched as u64,
        ambiguous: ambiguous as u64,
        unavailable: unavailable as u64,
    }
}

fn direct(records: Marked, n: u32) -> figures::Direct
    requires { (n ≤ length records.marks.now) × (n < 65536) }
    ensures { result ≡ direct_at records.entry.log.now records.entry.marks.now n }
{
    let observations = recount_direct::count(Figure::Observations, records, n);
    let unavailable = recount_direct::count(Figure::Unavailable, records, n);
    let discontinuities = recount_direct::count(Figure::Discontinuities, records, n);
    let reordered = recount_direct::count(Figure::Reordered, records, n);
    figures::Direct {
        observations: observations as u64,
        unavailable: unavailable as u64,
        discontinuities: discontinuities as u64,
        reordered: reordered as u64,
    }
}

// All figures of a marked log but its session, which is handed in. No probe leaves the held ones: a log has too few records.
fn figures_by(copies: u16, records: Marked, n: u32, session: Session) -> Figures
    requires { (n ≤ length records.marks.now) × (n < 65536) }
    ensures { result ≡ figures_by copies records.entry.log.now records.entry.marks.now n session }
{
    let asked = recount_lines::copies_of(copies);
    let played = recount_lines::played(records.marks, n);
    let loss = recount_lines::loss(asked, records, n);
    let replies = recount_lines::replies(asked, records, n);
    let probes = recount_lines::probes(asked, records, n);
    let order = recount_lines::order(asked, records, n);
    let followup = followup(asked, records, n);
    let direct = direct(records, n);
    let missing = recount_direct::missing(records, n);
    let rtt = recount_trips::round_trips(records, n);
    Figures {
        played,
        loss,
        replies,
        probes,
        order,
        followup,
        direct,
        missing,
        session,
        rtt,
        evicted: figures::Evicted { unanswered: 0 },
    }
}

// ---- the check

fn rooms_fit(marks: usize, fronts: usize, text: usize) -> bool
    ensures { result ≡ rooms_fit marks fronts text }
{
    (marks == MOST_RECORDS) & (fronts == MOST_RECORDS) & (text == report::REPORT_ROOM)
}

// What the log says besides its records, or document 01's answer to bytes that are no log.
fn checked_of(found: Result<Settings, Fault>) -> Result<Settings, Refusal>
    ensures { result ≡ checked_of found }
{
    match found {
        Ok(settings) => Ok(settings),
        Err(fault) => Err(Refusal::from(fault)),
    }
}

// A room of another size comes before what is wrong with the log.
fn checked_by(fit: bool, found: Result<Settings, Fault>) -> Result<Settings, Refusal>
    ensures { result ≡ checked_by fit found }
{
    if fit {
        return checked_of(found);
    }
    Err(Refusal::WrongRoom)
}

// ---- the report

fn watched_by(threshold: u16) -> bool
    ensures { result ≡ watched_by threshold }
{
    threshold != 0
}

fn recount_good(
    s: Settings,
    log: &[u8],
    marks: &mut [u8],
    fronts: &mut [u32],
    text: &mut [u8],
) -> Result<usize, Refusal>
    requires { (s.count ≤ length marks.old) × (s.count ≤ length fronts.old) × (s.count < 65536) × (length text.old ≡ report_room) }
    ensures { recounted (outcome (numbered result) text.new) marks.new fronts.new ≡ recount_good s log.now marks.old fronts.old text.old }
{
    recount_marks::mark_records(log, marks, s.count, watched_by(s.threshold), s.timeout);
    let records = Marked { log, marks };
    let session = recount_monitor::session(records, fronts, s.count, s.threshold, s.timeout);
    let figures = figures_by(s.copies, records, s.count, session);
    report::report(text, figures)
}

// The report of a log, at the start of the buffer. The rooms may hold anything; 5 where one has another size, then 9, 7 or 8 of the log itself,
// and nothing is changed.
pub fn recount_log(
    log: &[u8],
    marks: &mut [u8],
    fronts: &mut [u32],
    text: &mut [u8],
) -> Result<usize, Refusal>
    ensures { recounted (outcome (numbered result) text.new) marks.new fronts.new ≡ recount_of_log log.now marks.old fronts.old text.old }
{
    let fit = rooms_fit(marks.len(), fronts.len(), text.len());
    let found = log_whole::check(log);
    let checked = checked_by(fit, found);
    match checked {
        Err(refusal) => Err(refusal),
        Ok(settings) => recount_good(settings, log, marks, fronts, text),
    }
}
