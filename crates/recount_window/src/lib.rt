// The window of direct loss as a run of records: the matching counters of the records since the last one that cleared it. Each function
// goes through the run from its start, and keeps one answer.
ghost use Rattle.std.specs.Prelude.{◌≡◌, ◌+◌, ◌-◌, ◌≤◌, ◌<◌, ◌^◌, max, length};
ghost use Rattle.history.specs.Counting.{has};
ghost use Rattle.history.specs.Given.{ordinal_of, counters_of};
ghost use Rattle.history.specs.DirectLoss.{anchor, seen};
ghost use Rattle.recount_observed.specs.Observed.{observation_at};
ghost use Rattle.recount_window.specs.Window.{point_by, point_of, points_from};
ghost use Rattle.recount_window.specs.Reach.{first_of, is_seen, reach_of, received_next, reach_with, reach_next};

use call_types::{CounterPoint, ReplyObservation};
use recount_seen::Marked;

// ---- the counters of a record

// Those whose sender count is the ordinal.
fn matching(ordinal: Option<u32>, point: CounterPoint) -> Option<CounterPoint>
    ensures { counters_of result ≡ point_by (ordinal_of ordinal) (counters_of (Some point)) }
{
    let Some(n) = ordinal else {
        return None;
    };
    if point.sender.0 == n {
        return Some(point);
    }
    None
}

fn point_in(o: ReplyObservation) -> Option<CounterPoint>
    ensures { counters_of result ≡ point_of (Some o) }
{
    match o.counters {
        None => None,
        Some(point) => matching(o.ordinal, point),
    }
}

fn point_at(records: Marked, j: u32) -> Option<CounterPoint>
    requires { j < length records.marks.now }
    ensures { counters_of result ≡ point_of (observation_at records.entry.log.now records.entry.marks.now j) }
{
    match recount_observed::observation_at(records, j) {
        None => None,
        Some(o) => point_in(o),
    }
}

// ---- the anchor: the first of a run

fn first_of(found: Option<CounterPoint>, point: Option<CounterPoint>) -> Option<CounterPoint>
    ensures { counters_of result ≡ first_of (counters_of found) (counters_of point) }
{
    match found {
        None => point,
        Some(first) => Some(first),
    }
}

// Of the records from `start` up to but not including n.
pub fn anchor(records: Marked, start: u32, n: u32) -> Option<CounterPoint>
    requires { (start ≤ n) × (n ≤ length records.marks.now) }
    ensures { counters_of result ≡ anchor (points_from (observation_at records.entry.log.now records.entry.marks.now) start (n - start)) }
{
    let mut found = None;
    for j in start..n {
        let point = point_at(records, j);
        found = first_of(found, point);
    }
    found
}

// ---- is this transmit offset one of a run?

fn is_seen(anchor: CounterPoint, point: Option<CounterPoint>, wanted: u32) -> bool
    ensures { result ≡ is_seen anchor (counters_of point) wanted }
{
    match point {
        None => false,
        Some(c) => wanted == recount_back::step(anchor.transmitted.0, c.transmitted.0),
    }
}

pub fn was_seen(records: Marked, start: u32, n: u32, anchor: CounterPoint, wanted: u32) -> bool
    requires { (start ≤ n) × (n ≤ length records.marks.now) }
    ensures { result ≡ has (seen anchor (points_from (observation_at records.entry.log.now records.entry.marks.now) start (n - start))) wanted }
{
    let mut found = false;
    for j in start..n {
        let point = point_at(records, j);
        found = is_seen(anchor, point, wanted) | found;
    }
    found
}

// ---- how far a run reaches from its anchor

// How many counters, how many of them above transmit offset 0, the highest transmit offset, the sender maximum and the received maximum.
#[derive(Clone, Copy)]
pub struct Reach {
    pub points: u32,
    pub above: u32,
    pub highest: u32,
    pub sender: u32,
    pub received: u32,
}

fn larger(a: u32, b: u32) -> u32
    ensures { result ≡ max a b }
{
    if a < b {
        return b;
    }
    a
}

// The received maximum, moved only by counters whose transmit offset is above all before it.
fn received_next(highest: u32, transmit: u32, received: u32, before: u32) -> u32
    ensures { result ≡ received_next highest transmit received before }
{
    if highest < transmit {
        return larger(received, before);
    }
    before
}

fn reach_with(anchor: CounterPoint, c: CounterPoint, r: Reach) -> Reach
    requires { (r.points + 1 < 2 ^ 32) × (r.above + 1 < 2 ^ 32) }
    ensures { result ≡ reach_with anchor c r }
{
    let transmit = recount_back::step(anchor.transmitted.0, c.transmitted.0);
    let sender = recount_back::step(anchor.sender.0, c.sender.0);
    let received = recount_back::step(anchor.received.0, c.received.0);
    Reach {
        points: r.points + 1,
        above: recount_back::one_if(transmit != 0, r.above),
        highest: larger(transmit, r.highest),
        sender: larger(sender, r.sender),
        received: received_next(r.highest, transmit, received, r.received),
    }
}

fn reach_next(anchor: CounterPoint, point: Option<CounterPoint>, r: Reach) -> Reach
    requires { (r.points + 1 < 2 ^ 32) × (r.above + 1 < 2 ^ 32) }
    ensures { result ≡ reach_next anchor (counters_of point) r }
{
    match point {
        None => r,
        Some(c) => reach_with(anchor, c, r),
    }
}

pub fn reach_of(records: Marked, start: u32, n: u32, anchor: CounterPoint) -> Reach
    requires { (start ≤ n) × (n ≤ length records.marks.now) × (n < 65536) }
    ensures { result ≡ reach_of anchor (points_from (observation_at records.entry.log.now records.entry.marks.now) start (n - start)) }
{
    let mut r = Reach {
        points: 0,
        above: 0,
        highest: 0,
        sender: 0,
        received: 0,
    };
    for j in start..n {
        let point = point_at(records, j);
        r = reach_next(anchor, point, r);
    }
    r
}
