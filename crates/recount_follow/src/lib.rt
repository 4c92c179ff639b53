// The class of a follow-up, by looking back: how many observed replies before it carry its number, what the only one brought, and whether
// an earlier follow-up was matched to it.
ghost use Rattle.std.specs.Prelude.{◌≡◌, eqb, ◌+◌, ◌≤◌, ◌<◌, ◌^◌, length};
ghost use Rattle.recount_seen.specs.Seen.{events_of};
ghost use Rattle.recount_follow.specs.Slots.{slot_in};
ghost use Rattle.recount_follow.specs.Brief.{number_of, by_record, has_record, by_slot, class_of, followed_by, followed, left_time, left_by, raised, observed_by, slot_next, brief_of};

use call_types::{FollowUpTelemetry, ReplyObservation};
use estimate::ClockFormat;
use recount_seen::Marked;

// The class of a follow-up.
#[derive(Clone, Copy, Debug, Drop, PartialEq, Eq)]
pub enum Class {
    // It says no time.
    Unavailable = 0,
    // It is about the reply that carries it, or about more than one.
    Ambiguous = 1,
    // No observed reply carries its number.
    Unmatched = 2,
    // An earlier one was matched to the reply.
    Repeated = 3,
    Matched = 4,
}

// What an observed reply leaves to its follow-up: nothing, a record without T4, or one with T4, whose format and reference say how a
// timestamp is to be read.
#[derive(Clone, Copy)]
pub enum Left {
    Nothing,
    Untimed,
    Timed(ClockFormat, i64),
}

// What is asked of the observed replies that carry a number: is there any, how many, what the first left, and whether a follow-up was
// matched to it.
#[derive(Clone, Copy)]
pub struct Brief {
    pub there: bool,
    pub count: u32,
    pub left: Left,
    pub corrected: bool,
}

fn by_record(timestamp: u64, offset: i32, left: Left) -> Class
    ensures { number_of result ≡ by_record timestamp offset left }
{
    match left {
        Left::Nothing => Class::Ambiguous,
        Left::Untimed => Class::Unavailable,
        Left::Timed(format, reference) => {
            if recount_time::says_time(format, timestamp, reference, offset) {
                return Class::Matched;
            }
            Class::Unavailable
        }
    }
}

fn has_record(left: Left) -> bool
    ensures { result ≡ has_record left }
{
    match left {
        Left::Nothing => false,
        Left::Untimed => true,
        Left::Timed(_, _) => true,
    }
}

fn by_slot(timestamp: u64, offset: i32, b: Brief) -> Class
    ensures { number_of result ≡ by_slot timestamp offset b }
{
    let left = b.left;
    if !b.there {
        return Class::Unmatched;
    }
    if !has_record(left) {
        return Class::Ambiguous;
    }
    if b.count != 1 {
        return Class::Ambiguous;
    }
    if b.corrected {
        return Class::Repeated;
    }
    by_record(timestamp, offset, left)
}

// By the reply that it is about. `own` and `offset` are those of the observation that carries it.
pub fn class_of(f: FollowUpTelemetry, own: u32, offset: i32, b: Brief) -> Class
    ensures { number_of result ≡ class_of f own offset b }
{
    if f.unknown | (f.timestamp == 0) {
        return Class::Unavailable;
    }
    if f.sequence == own {
        return Class::Ambiguous;
    }
    by_slot(f.timestamp, offset, b)
}

fn is_matched(class: Class) -> bool
    ensures { result ≡ eqb 4 (number_of class) }
{
    class == Class::Matched
}

fn followed_by(f: FollowUpTelemetry, own: u32, offset: i32, number: u32, b: Brief) -> Brief
    ensures { result ≡ followed_by f own offset number b }
{
    let left = b.left;
    let class = class_of(f, own, offset, b);
    if is_matched(class) & (number == f.sequence) {
        return Brief {
            there: b.there,
            count: b.count,
            left,
            corrected: b.there,
        };
    }
    b
}

fn followed(
    follow: Option<FollowUpTelemetry>,
    own: u32,
    offset: i32,
    number: u32,
    b: Brief,
) -> Brief
    ensures { result ≡ followed follow own offset number b }
{
    match follow {
        None => b,
        Some(f) => followed_by(f, own, offset, number, b),
    }
}

fn left_time(time: Option<i64>, format: ClockFormat, reference: i64) -> Left
    ensures { result ≡ left_time time format reference }
{
    match time {
        None => Left::Untimed,
        Some(_) => Left::Timed(format, reference),
    }
}

fn left_by(copies: u32, o: ReplyObservation) -> Left
    ensures { result ≡ left_by copies o }
{
    let t4 = o.t4;
    let format = o.format;
    if (1 < copies) & (o.key.sender == o.key.reflector) {
        return Left::Nothing;
    }
    left_time(t4, format, o.reference)
}

fn raised(left: Left, b: Brief) -> Brief
    requires { b.count + 1 < 2 ^ 32 }
    ensures { result ≡ raised left b }
{
    if b.there {
        return Brief {
            there: true,
            count: b.count + 1,
            left: Left::Nothing,
            corrected: b.corrected,
        };
    }
    Brief {
        there: true,
        count: 1,
        left,
        corrected: false,
    }
}

fn observed_by(o: ReplyObservation, copies: u32, number: u32, b: Brief) -> Brief
    requires { b.count + 1 < 2 ^ 32 }
    ensures { result ≡ observed_by o copies number b }
{
    let follow = o.follow;
    let own = o.key.reflector;
    let after = followed(follow, own, o.offset, number, b);
    if number == own {
        return raised(left_by(copies, o), after);
    }
    after
}

fn slot_next(x: Option<ReplyObservation>, copies: u32, number: u32, b: Brief) -> Brief
    requires { b.count + 1 < 2 ^ 32 }
    ensures { result ≡ slot_next x copies number b }
{
    match x {
        None => b,
        Some(o) => observed_by(o, copies, number, b),
    }
}

// Of the first n records.
pub fn slot_before(records: Marked, n: u32, copies: u32, number: u32) -> Brief
    requires { (n ≤ length records.marks.now) × (n < 65536) }
    ensures { result ≡ brief_of (slot_in copies (events_of records.entry.log.now records.entry.marks.now n) number) }
{
    let mut b = Brief {
        there: false,
        count: 0,
        left: Left::Nothing,
        corrected: false,
    };
    for j in 0..n {
        b = slot_next(
            recount_observed::observation_at(records, j),
            copies,
            number,
            b,
        );
    }
    b
}
