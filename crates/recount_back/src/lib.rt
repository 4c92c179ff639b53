// Looking back: what the first n records of a marked log say. Each function goes through the records from the first, and keeps one answer.
ghost use Rattle.std.specs.Prelude.{ℕ, ◌≡◌, ◌+◌, ◌^◌, ◌<◌, ◌≤◌, length};
ghost use Rattle.history.specs.Counting.{has, tally, offset};
ghost use Rattle.history.specs.Ledger.{same_key, has_key, accepted, rememberings, awaiting, replies, highest_reflector};
ghost use Rattle.recount_seen.specs.Seen.{events_of};
ghost use Rattle.recount_back.specs.Back.{accepts, remembers, awaits, awaits_next, replies_next, zero_if, highest_of, raised, highest_next, is_behind, Counted};

use call_types::ReplyKey;
use recount_seen::{Marked, Seen};

pub fn same_key(a: ReplyKey, b: ReplyKey) -> bool
    ensures { result ≡ same_key a b }
{
    (a.sender == b.sender) & (a.reflector == b.reflector) & (a.t3 == b.t3)
}

// ---- is this key one of a unique reply?

fn accepts(seen: Seen, key: ReplyKey) -> bool
    ensures { result ≡ accepts seen key }
{
    match seen {
        Seen::Known(reply) | Seen::First(reply) => same_key(key, reply.key),
        Seen::Nothing | Seen::Probe(_) | Seen::Duplicate | Seen::Unknown | Seen::Observed(_) =>
            false,
    }
}

pub fn was_accepted(records: Marked, n: u32, key: ReplyKey) -> bool
    requires { n ≤ length records.marks.now }
    ensures { result ≡ has_key (accepted (events_of records.entry.log.now records.entry.marks.now n)) key }
{
    records.fold(n, false, |seen, found| accepts(seen, key) | found)
}

// ---- was this probe remembered?

fn remembers(seen: Seen, sequence: u32) -> bool
    ensures { result ≡ remembers seen sequence }
{
    match seen {
        Seen::Probe(probe) => sequence == probe.sequence,
        Seen::First(reply) => sequence == reply.key.sender,
        Seen::Nothing | Seen::Duplicate | Seen::Unknown | Seen::Known(_) | Seen::Observed(_) =>
            false,
    }
}

pub fn was_remembered(records: Marked, n: u32, sequence: u32) -> bool
    requires { n ≤ length records.marks.now }
    ensures { result ≡ has (rememberings (events_of records.entry.log.now records.entry.marks.now n)) sequence }
{
    records.fold(n, false, |seen, found| remembers(seen, sequence) | found)
}

// ---- does this key await its observe?

fn awaits_next(seen: Seen, key: ReplyKey, before: bool) -> bool
    ensures { result ≡ awaits_next seen key before }
{
    match seen {
        Seen::Known(reply) | Seen::First(reply) => same_key(key, reply.key),
        Seen::Observed(_) => false,
        Seen::Nothing | Seen::Probe(_) | Seen::Duplicate | Seen::Unknown => before,
    }
}

pub fn awaits_observe(records: Marked, n: u32, key: ReplyKey) -> bool
    requires { n ≤ length records.marks.now }
    ensures { result ≡ awaits (awaiting (events_of records.entry.log.now records.entry.marks.now n)) key }
{
    records.fold(n, false, |seen, held| awaits_next(seen, key, held))
}

// ---- how many replies has this probe had since it was remembered?

pub fn one_if(test: bool, n: u32) -> u32
    requires { n + 1 < 2 ^ 32 }
    ensures { result ≡ tally test n }
{
    if test {
        return n + 1;
    }
    n
}

// How many of the numbers below n pass a test.
pub fn count_where<F: Fn(u32) -> bool>(n: u32, test: F) -> u32
    requires callable { (j : ℕ) → j < n → F.pre test j }
    ensures { Counted (F.post test) n result }
{
    let mut count = 0;
    for j in 0..n {
        count = one_if(test(j), count);
    }
    count
}

fn zero_if(test: bool, n: u32) -> u32
    ensures { result ≡ zero_if test n }
{
    if test {
        return 0;
    }
    n
}

fn replies_next(seen: Seen, sequence: u32, before: u32) -> u32
    requires { before + 1 < 2 ^ 32 }
    ensures { result ≡ replies_next seen sequence before }
{
    match seen {
        Seen::Probe(probe) => zero_if(sequence == probe.sequence, before),
        Seen::Known(reply) => one_if(sequence == reply.key.sender, before),
        Seen::First(reply) => {
            let own = sequence == reply.key.sender;
            one_if(own, zero_if(own, before))
        }
        Seen::Nothing | Seen::Duplicate | Seen::Unknown | Seen::Observed(_) => before,
    }
}

pub fn replies_before(records: Marked, n: u32, sequence: u32) -> u32
    requires { (n ≤ length records.marks.now) × (n < 65536) }
    ensures { result ≡ replies sequence (events_of records.entry.log.now records.entry.marks.now n) }
{
    records.fold(n, 0, |seen, count| replies_next(seen, sequence, count))
}

// ---- what is the highest reflector number of the unique replies?

// How far `to` is from `from`, modulo 2^32.
pub fn step(from: u32, to: u32) -> u32
    ensures { result ≡ offset from to }
{
    std::num::wrapping_sub_u32(to, from)
}

fn raised(reflector: u32, highest: Option<u32>) -> Option<u32>
    ensures { result ≡ raised reflector highest }
{
    let Some(high) = highest else {
        return Some(reflector);
    };
    if step(high, reflector) < 2147483648 {
        return Some(reflector);
    }
    Some(high)
}

fn highest_next(seen: Seen, before: Option<u32>) -> Option<u32>
    ensures { result ≡ highest_next seen before }
{
    match seen {
        Seen::Known(reply) | Seen::First(reply) => raised(reply.key.reflector, before),
        Seen::Nothing | Seen::Probe(_) | Seen::Duplicate | Seen::Unknown | Seen::Observed(_) =>
            before,
    }
}

pub fn highest_before(records: Marked, n: u32) -> Option<u32>
    requires { n ≤ length records.marks.now }
    ensures { result ≡ highest_of (highest_reflector (accepted (events_of records.entry.log.now records.entry.marks.now n))) }
{
    records.fold(n, None, highest_next)
}

// Whether a reflector number is 2^31 or more from the highest.
pub fn is_behind(reflector: u32, highest: Option<u32>) -> bool
    ensures { result ≡ is_behind reflector highest }
{
    match highest {
        None => false,
        Some(high) => 2147483648 <= step(high, reflector),
    }
}
