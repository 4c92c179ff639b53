// The line `state` of a log's report, without a queue: one front for each record in a lent room, each worked out from the records and from
// the fronts before it; from them the state and its losses. Whether the monitor transmits, and whether a sequence is marked, is looked up.
ghost use Rattle.std.specs.Prelude.{◌≡◌, ◌&&◌, ◌+◌, ◌-◌, ◌^◌, ◌≤◌, ◌<◌, length};
ghost use Rattle.recount_queue.specs.Moves.{move_at, queued_at};
ghost use Rattle.recount_monitor.specs.Fronts.{front_at, transmits_next, transmits_in, marked_next, marked_in, reply_front, front_next, fronts_to, Fronted};
ghost use Rattle.recount_monitor.specs.Session.{loss_more, lose_one, lose_if, lost_in, heard, halted, line_next, line_in, session_in, fronts_after};

use call_types::SentProbe;
use recount_queue::Move;
use recount_seen::Marked;
use report::figures::Session;

// Losses saturate here.
const MOST_LOSSES: u32 = u32::MAX;

// ---- looking back

fn transmits_next(step: Move, before: bool) -> bool
    ensures { result ≡ transmits_next step before }
{
    match step {
        Move::Sends(_) => true,
        Move::Halts => false,
        Move::Hears(_) | Move::Advances(_) | Move::Rests => before,
    }
}

// Whether the monitor transmits after n records.
fn transmits(records: Marked, n: u32) -> bool
    requires { n ≤ length records.marks.now }
    ensures { result ≡ transmits_in (move_at records.entry.log.now records.entry.marks.now) n }
{
    let mut on = false;
    for j in 0..n {
        let step = recount_queue::move_at(records, j);
        on = transmits_next(step, on);
    }
    on
}

// The front before record j.
fn front_at(fronts: &[u32], j: u32) -> u32
    requires { j ≤ length fronts.now }
    ensures { result ≡ front_at fronts.now j }
{
    if j == 0 {
        return 0;
    }
    let at = j as usize;
    fronts[at - 1]
}

fn marked_next(timeout: u64, step: Move, sequence: u32, passed: bool, before: bool) -> bool
    ensures { result ≡ marked_next timeout step sequence passed before }
{
    match step {
        Move::Sends(probe) => ((timeout > 0) & (probe.sequence == sequence)) | before,
        Move::Hears(_) | Move::Advances(_) => !passed & before,
        Move::Halts => false,
        Move::Rests => before,
    }
}

// Whether a sequence is marked after n records: since a probe with it was queued, the front has passed none that has it.
fn is_marked(records: Marked, fronts: &[u32], timeout: u64, sequence: u32, n: u32) -> bool
    requires { (n ≤ length records.marks.now) × (n ≤ length fronts.now) × Fronted timeout (move_at records.log.now records.marks.now) fronts.now n }
    ensures { result ≡ marked_in timeout (move_at records.entry.log.now records.entry.marks.now) fronts.now sequence n }
{
    let mut found = false;
    for j in 0..n {
        let step = recount_queue::move_at(records, j);
        let from = front_at(fronts, j);
        let to = front_at(fronts, j + 1);
        let passed = recount_queue::any_named(records, timeout, sequence, from, to);
        found = marked_next(timeout, step, sequence, passed, found);
    }
    found
}

// ---- the front after each record

fn reply_front(records: Marked, fronts: &[u32], timeout: u64, sequence: u32, n: u32) -> u32
    requires { (n ≤ length records.marks.now) × (n ≤ length fronts.now) × Fronted timeout (move_at records.log.now records.marks.now) fronts.now n }
    ensures { result ≡ reply_front timeout (move_at records.entry.log.now records.entry.marks.now) fronts.now sequence n }
{
    let front = front_at(fronts, n);
    let on = transmits(records, n);
    let marked = is_marked(records, fronts, timeout, sequence, n);
    if on & marked {
        return recount_queue::front_to(records, timeout, sequence, front, n);
    }
    front
}

fn front_next(records: Marked, fronts: &[u32], timeout: u64, n: u32) -> u32
    requires { (n < length records.marks.now) × (n ≤ length fronts.now) × (n + 1 < 2 ^ 32) × Fronted timeout (move_at records.log.now records.marks.now) fronts.now n }
    ensures { result ≡ front_next timeout (move_at records.entry.log.now records.entry.marks.now) (move_at records.entry.log.now records.entry.marks.now n) fronts.now n }
{
    let step = recount_queue::move_at(records, n);
    let front = front_at(fronts, n);
    match step {
        Move::Sends(_) => front,
        Move::Hears(sequence) => reply_front(records, fronts, timeout, sequence, n),
        Move::Advances(time) => recount_queue::front_by(records, timeout, time, front, n),
        Move::Halts => n + 1,
        Move::Rests => front,
    }
}

fn front_records(records: Marked, fronts: &mut [u32], timeout: u64, n: u32)
    requires { (n ≤ length records.marks.now) × (n ≤ length fronts.old) }
    ensures { fronts.new ≡ fronts_to timeout (move_at records.entry.log.now records.entry.marks.now) fronts.old n }
{
    for i in 0..n {
        let front = front_next(records, fronts, timeout, i);
        fronts[i as usize] = front;
    }
}

// ---- the state and its losses

fn one_more(losses: u32) -> u32
    ensures { result ≡ loss_more losses }
{
    if losses < MOST_LOSSES {
        return losses + 1;
    }
    MOST_LOSSES
}

// One loss more, and failed at the threshold.
fn lose_one(threshold: u16, session: Session) -> Session
    ensures { result ≡ lose_one threshold session }
{
    match session {
        Session::None => Session::None,
        Session::Idle(losses) => {
            let more = one_more(losses);
            if threshold as u32 <= more {
                return Session::Failed(more);
            }
            Session::Idle(more)
        }
        Session::Active(losses) => {
            let more = one_more(losses);
            if threshold as u32 <= more {
                return Session::Failed(more);
            }
            Session::Active(more)
        }
        Session::Failed(losses) => Session::Failed(one_more(losses)),
    }
}

fn lose_if(threshold: u16, queued: Option<SentProbe>, session: Session) -> Session
    ensures { result ≡ lose_if threshold queued session }
{
    match queued {
        None => session,
        Some(_) => lose_one(threshold, session),
    }
}

// Each probe of the records from `from` to before `to` is lost.
fn lost(
    records: Marked,
    threshold: u16,
    timeout: u64,
    session: Session,
    from: u32,
    to: u32,
) -> Session
    requires { to ≤ length records.marks.now }
    ensures { result ≡ lost_in threshold (queued_at timeout (move_at records.entry.log.now records.entry.marks.now)) session from (to - from) }
{
    let mut left = session;
    for i in from..to {
        let queued = recount_queue::queued_at(records, timeout, i);
        left = lose_if(threshold, queued, left);
    }
    left
}

fn heard(on: bool, session: Session) -> Session
    ensures { result ≡ heard on session }
{
    if on {
        return Session::Active(0);
    }
    session
}

fn halted(session: Session) -> Session
    ensures { result ≡ halted session }
{
    match session {
        Session::None => Session::None,
        Session::Idle(losses) => Session::Idle(losses),
        Session::Active(_) => Session::Idle(0),
        Session::Failed(_) => Session::Idle(0),
    }
}

fn line_next(
    records: Marked,
    fronts: &[u32],
    threshold: u16,
    timeout: u64,
    n: u32,
    session: Session,
) -> Session
    requires { (n < length records.marks.now) × (n < length fronts.now) × (n + 1 < 2 ^ 32) × (front_at fronts.now (n + 1) ≤ length records.marks.now) }
    ensures { result ≡ line_next threshold timeout (move_at records.entry.log.now records.entry.marks.now) fronts.now n (move_at records.entry.log.now records.entry.marks.now n) session }
{
    let step = recount_queue::move_at(records, n);
    match step {
        Move::Sends(_) => session,
        Move::Hears(_) => {
            let on = transmits(records, n);
            heard(on, session)
        }
        Move::Advances(_) => {
            let from = front_at(fronts, n);
            let to = front_at(fronts, n + 1);
            if transmits(records, n) {
                return lost(records, threshold, timeout, session, from, to);
            }
            session
        }
        Move::Halts => halted(session),
        Move::Rests => session,
    }
}

fn line(records: Marked, fronts: &[u32], threshold: u16, timeout: u64, n: u32) -> Session
    requires { (n ≤ length records.marks.now) × (n ≤ length fronts.now) × Fronted timeout (move_at records.log.now records.marks.now) fronts.now n }
    ensures { result ≡ line_in threshold timeout (move_at records.entry.log.now records.entry.marks.now) fronts.now n }
{
    let mut session = Session::Idle(0);
    for j in 0..n {
        session = line_next(records, fronts, threshold, timeout, j, session);
    }
    session
}

// The state and its consecutive losses after the first n records of a marked log; none where the threshold is 0.
pub fn session(records: Marked, fronts: &mut [u32], n: u32, threshold: u16, timeout: u64) -> Session
    requires { (n ≤ length records.marks.now) × (n ≤ length fronts.old) }
    ensures { (result ≡ session_in threshold timeout (move_at records.entry.log.now records.entry.marks.now) n) × (fronts.new ≡ fronts_after threshold timeout (move_at records.entry.log.now records.entry.marks.now) fronts.old n) }
{
    if threshold == 0 {
        return Session::None;
    }
    front_records(records, fronts, timeout, n);
    line(records, fronts, threshold, timeout, n)
}
