// The monitor's queue, from the records of a marked log alone: what is queued are the probes among the records from a front on.
// What a record is to the monitor, and how far a reply or an advance moves the front.
ghost use Rattle.std.specs.Prelude.{◌≡◌, ◌+◌, ◌-◌, ◌≤◌, ◌<◌, leb, length};
ghost use Rattle.recount_seen.specs.Seen.{byte_of};
ghost use Rattle.recount_queue.specs.Moves.{move_by, move_at, sent_by, queued_by, queued_at};
ghost use Rattle.recount_queue.specs.Queue.{named, goes, any_named, front_to, front_by};

use call_types::{Call, SentProbe};
use recount_seen::{Mark, Marked};

// What a served record is to the monitor: a probe, a unique reply to a sequence, an advance to a time, an idle, or nothing.
#[derive(Clone, Copy)]
pub enum Move {
    Sends(SentProbe),
    Hears(u32),
    Advances(u64),
    Halts,
    Rests,
}

// ---- what a record is

fn call_move(mark: Mark, call: Call) -> Move
    ensures { result ≡ move_by (byte_of mark) (Some call) }
{
    match call {
        Call::Sent(probe) if mark == Mark::Served => Move::Sends(probe),
        Call::Accept(reply) if (mark == Mark::Known) | (mark == Mark::First) => {
            Move::Hears(reply.key.sender)
        }
        Call::Advance(time) => Move::Advances(time),
        Call::Idle => Move::Halts,
        Call::Sent(_) | Call::Accept(_) | Call::Observe(_) => Move::Rests,
    }
}

fn move_by(mark: Mark, played: Option<Call>) -> Move
    ensures { result ≡ move_by (byte_of mark) played }
{
    match played {
        Some(call) => call_move(mark, call),
        None => Move::Rests,
    }
}

// Record j of a log with its mark. A byte that is no mark is as that of a record that was turned away.
pub fn move_at(records: Marked, j: u32) -> Move
    requires { j < length records.marks.now }
    ensures { result ≡ move_at records.entry.log.now records.entry.marks.now j }
{
    let played = log_whole::call_at(records.log, j);
    match Mark::try_from(records.marks[j as usize]) {
        Ok(mark) => move_by(mark, played),
        Err(_) => move_by(Mark::TurnedAway, played),
    }
}

fn sent_by(step: Move) -> Option<SentProbe>
    ensures { result ≡ sent_by step }
{
    match step {
        Move::Sends(probe) => Some(probe),
        Move::Hears(_) | Move::Advances(_) | Move::Halts | Move::Rests => None,
    }
}

fn queued_by(timeout: u64, step: Move) -> Option<SentProbe>
    ensures { result ≡ queued_by timeout step }
{
    if timeout == 0 {
        return None;
    }
    sent_by(step)
}

// The probe that record j queues.
pub fn queued_at(records: Marked, timeout: u64, j: u32) -> Option<SentProbe>
    requires { j < length records.marks.now }
    ensures { result ≡ queued_at timeout (move_at records.entry.log.now records.entry.marks.now) j }
{
    let step = move_at(records, j);
    queued_by(timeout, step)
}

// ---- the records from a front on

fn is_named(sequence: u32, queued: Option<SentProbe>) -> bool
    ensures { result ≡ named sequence queued }
{
    match queued {
        None => false,
        Some(probe) => probe.sequence == sequence,
    }
}

// Send time plus timeout is at or before this time; the sum itself may be too large.
fn is_due(sent: u64, timeout: u64, time: u64) -> bool
    ensures { result ≡ leb (sent + timeout) time }
{
    if time < sent {
        return false;
    }
    timeout <= time - sent
}

// It does not stay in the queue at this time: its deadline, send time plus timeout, is not after it.
fn goes(timeout: u64, time: u64, queued: Option<SentProbe>) -> bool
    ensures { result ≡ goes timeout time queued }
{
    match queued {
        None => true,
        Some(probe) => is_due(probe.packet.time, timeout, time),
    }
}

// Whether one of the records from `from` to before `to` queues a probe with this sequence.
pub fn any_named(records: Marked, timeout: u64, sequence: u32, from: u32, to: u32) -> bool
    requires { to ≤ length records.marks.now }
    ensures { result ≡ any_named (queued_at timeout (move_at records.entry.log.now records.entry.marks.now)) sequence from (to - from) }
{
    for i in from..to {
        let queued = queued_at(records, timeout, i);
        if is_named(sequence, queued) {
            return true;
        }
    }
    false
}

// The front after a reply to a marked sequence, before record n: past the first record that has it.
pub fn front_to(records: Marked, timeout: u64, sequence: u32, front: u32, n: u32) -> u32
    requires { (front ≤ n) × (n ≤ length records.marks.now) }
    ensures { result ≡ front_to (queued_at timeout (move_at records.entry.log.now records.entry.marks.now)) sequence front n }
{
    for i in front..n {
        let queued = queued_at(records, timeout, i);
        if is_named(sequence, queued) {
            return i + 1;
        }
    }
    n
}

// The front after an advance, before record n: at the first probe whose deadline is after the time.
pub fn front_by(records: Marked, timeout: u64, time: u64, front: u32, n: u32) -> u32
    requires { (front ≤ n) × (n ≤ length records.marks.now) }
    ensures { result ≡ front_by timeout (queued_at timeout (move_at records.entry.log.now records.entry.marks.now)) time front n }
{
    for i in front..n {
        let queued = queued_at(records, timeout, i);
        if !goes(timeout, time, queued) {
            return i;
        }
    }
    n
}
