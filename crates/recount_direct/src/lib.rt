// Direct loss, by looking back: the class of each observation's counters in the window that the records before it leave, and the figures of
// the window at the end.
ghost use Rattle.std.specs.Prelude.{◌≡◌, ◌-◌, ◌≤◌, ◌<◌, length};
ghost use Rattle.limits.specs.Limits.{capacity};
ghost use Rattle.history.specs.Given.{ordinal_of, counters_of};
ghost use Rattle.history.specs.DirectLoss.{on_window, window, spans};
ghost use Rattle.recount_seen.specs.Seen.{events_of};
ghost use Rattle.recount_observed.specs.Observed.{observation_at};
ghost use Rattle.recount_window.specs.Window.{points_from, start_of};
ghost use Rattle.recount_counts.specs.Tests.{passing};
ghost use Rattle.recount_class.specs.Numbers.{number_of, class_number, figure_number};
ghost use Rattle.recount_direct.specs.Classes.{direct_number, without_anchor, from_anchor, counters_class, class_in, direct_by};
ghost use Rattle.recount_direct.specs.Missing.{missing_of};

use call_types::CounterPoint;
use recount_class::{Class, Figure};
use recount_seen::Marked;
use report::figures::Missing;

// ---- the class of a record's counters

fn without_anchor(c: CounterPoint) -> Class
    ensures { number_of result ≡ without_anchor c }
{
    if (c.received.0 == 0) & (c.transmitted.0 == 0) {
        return Class::Zeros;
    }
    Class::Anchor
}

fn from_anchor(records: Marked, start: u32, n: u32, a: CounterPoint, c: CounterPoint) -> Class
    requires { (start ≤ n) × (n ≤ length records.marks.now) × (n < 65536) }
    ensures { number_of result ≡ from_anchor a c (points_from (observation_at records.entry.log.now records.entry.marks.now) start (n - start)) }
{
    let transmit = recount_back::step(a.transmitted.0, c.transmitted.0);
    let sender = recount_back::step(a.sender.0, c.sender.0);
    let received = recount_back::step(a.received.0, c.received.0);
    if (2147483648 <= transmit) | (2147483648 <= sender) | (2147483648 <= received) {
        return Class::Jump;
    }
    if recount_window::was_seen(records, start, n, a, transmit) {
        return Class::Again;
    }
    let r = recount_window::reach_of(records, start, n, a);
    if r.points == 4096 {
        return Class::Exceeded;
    }
    if transmit < r.highest {
        return Class::Reordered;
    }
    Class::Advanced
}

// In the window of the records from `start` up to but not including n.
fn on_window(records: Marked, start: u32, n: u32, c: CounterPoint) -> Class
    requires { (start ≤ n) × (n ≤ length records.marks.now) × (n < 65536) }
    ensures { number_of result ≡ direct_number (on_window capacity c (points_from (observation_at records.entry.log.now records.entry.marks.now) start (n - start))) }
{
    let anchor = recount_window::anchor(records, start, n);
    match anchor {
        None => without_anchor(c),
        Some(a) => from_anchor(records, start, n, a, c),
    }
}

fn point_class(records: Marked, start: u32, n: u32, ordinal: Option<u32>, c: CounterPoint) -> Class
    requires { (start ≤ n) × (n ≤ length records.marks.now) × (n < 65536) }
    ensures { number_of result ≡ counters_class (ordinal_of ordinal) (counters_of (Some c)) (points_from (observation_at records.entry.log.now records.entry.marks.now) start (n - start)) }
{
    match ordinal {
        None => Class::Mismatch,
        Some(number) => {
            if c.sender.0 == number {
                return on_window(records, start, n, c);
            }
            Class::Mismatch
        }
    }
}

fn counters_class(
    records: Marked,
    start: u32,
    n: u32,
    ordinal: Option<u32>,
    counters: Option<CounterPoint>,
) -> Option<Class>
    requires { (start ≤ n) × (n ≤ length records.marks.now) × (n < 65536) }
    ensures { class_number result ≡ counters_class (ordinal_of ordinal) (counters_of counters) (points_from (observation_at records.entry.log.now records.entry.marks.now) start (n - start)) }
{
    match counters {
        None => None,
        Some(c) => Some(point_class(records, start, n, ordinal, c)),
    }
}

// Of record j, whose window starts at `start`.
fn class_at(records: Marked, start: u32, j: u32) -> Option<Class>
    requires { (start ≤ j) × (j < length records.marks.now) × (j < 65536) }
    ensures { class_number result ≡ class_in (observation_at records.entry.log.now records.entry.marks.now j) (points_from (observation_at records.entry.log.now records.entry.marks.now) start (j - start)) }
{
    match recount_observed::observation_at(records, j) {
        None => None,
        Some(o) => counters_class(records, start, j, o.ordinal, o.counters),
    }
}

// ---- where the window starts

fn start_of(records: Marked, n: u32) -> u32
    requires { (n ≤ length records.marks.now) × (n < 65536) }
    ensures { result ≡ start_of (observation_at records.entry.log.now records.entry.marks.now) capacity n }
{
    let mut start = 0;
    for j in 0..n {
        let class = class_at(records, start, j);
        start = recount_class::start_next(class, start, j);
    }
    start
}

// ---- the counts

// How many of the first n records are of a figure.
pub fn count(figure: Figure, records: Marked, n: u32) -> u32
    requires { (n ≤ length records.marks.now) × (n < 65536) }
    ensures { result ≡ passing (direct_by (figure_number figure)) records.entry.log.now records.entry.marks.now n }
{
    let mut total = 0;
    let mut start = 0;
    for j in 0..n {
        let class = class_at(records, start, j);
        total = recount_back::one_if(recount_class::passes(figure, class), total);
        start = recount_class::start_next(class, start, j);
    }
    total
}

// ---- what is missing

// Of the window that the first n records leave.
pub fn missing(records: Marked, n: u32) -> Missing
    requires { (n ≤ length records.marks.now) × (n < 65536) }
    ensures { result ≡ missing_of (spans (window capacity (events_of records.entry.log.now records.entry.marks.now n))) }
{
    let start = start_of(records, n);
    let anchor = recount_window::anchor(records, start, n);
    match anchor {
        None => Missing {
            forward: None,
            reverse: None,
        },
        Some(a) => {
            let r = recount_window::reach_of(records, start, n, a);
            recount_class::missing_by(r)
        }
    }
}
