// What record j of a log is, once it is marked: one mark for each record says whether it was served, and a reply's class.
ghost use Rattle.std.specs.Prelude.{◌≡◌, ◌<◌, ◌≤◌, length, Ok, Err};
ghost use Rattle.recount_seen.specs.Seen.{byte_of, Reads, reply_by, seen_by, seen_at, Folded, Foldable};

use call_types::{Call, Reply, ReplyObservation, SentProbe};

// How a record was played: it was turned away; it was served, a probe, an observation, an advance or an idle; it was a reply of a class, a unique one by
// whether its probe was held or is remembered with it. In the lent room of marks each is a byte.
#[derive(Clone, Copy, Debug, Drop, PartialEq, Eq)]
pub enum Mark {
    TurnedAway = 0,
    Served = 1,
    Duplicate = 2,
    Unknown = 3,
    Known = 4,
    First = 5,
}

// A byte that is no mark.
#[derive(Clone, Copy, Debug, Drop, PartialEq, Eq)]
pub struct NoMark(pub u8);

impl From<Mark> for u8 {
    fn from(mark: Mark) -> u8
        ensures { result ≡ byte_of mark }
    {
        mark as u8
    }
}

impl TryFrom<u8> for Mark {
    type Error = NoMark;

    ghost try_from_gives = { Reads };

    fn try_from(byte: u8) -> Result<Mark, NoMark> {
        match byte {
            0 => Ok(Mark::TurnedAway),
            1 => Ok(Mark::Served),
            2 => Ok(Mark::Duplicate),
            3 => Ok(Mark::Unknown),
            4 => Ok(Mark::Known),
            5 => Ok(Mark::First),
            _ => Err(NoMark(byte)),
        }
    }
}

// What a marked record says. A unique reply is `Known` where its probe was held, and otherwise `First`.
#[derive(Clone, Copy)]
pub enum Seen {
    Nothing,
    Probe(SentProbe),
    Duplicate,
    Unknown,
    Known(Reply),
    First(Reply),
    Observed(ReplyObservation),
}

fn reply_by(mark: Mark, reply: Reply) -> Seen
    ensures { result ≡ reply_by (byte_of mark) reply }
{
    match mark {
        Mark::TurnedAway | Mark::Served => Seen::Nothing,
        Mark::Duplicate => Seen::Duplicate,
        Mark::Unknown => Seen::Unknown,
        Mark::Known => Seen::Known(reply),
        Mark::First => Seen::First(reply),
    }
}

fn seen_by(mark: Mark, call: Call) -> Seen
    ensures { result ≡ seen_by (byte_of mark) (Some call) }
{
    match call {
        Call::Sent(probe) if mark == Mark::Served => Seen::Probe(probe),
        Call::Observe(o) if mark == Mark::Served => Seen::Observed(o),
        Call::Accept(reply) => reply_by(mark, reply),
        Call::Sent(_) | Call::Observe(_) | Call::Advance(_) | Call::Idle => Seen::Nothing,
    }
}

// A log with a mark for each of its first records.
#[derive(Clone, Copy)]
pub struct Marked<'a> {
    pub log: &'a [u8],
    pub marks: &'a [u8],
}

impl Marked<'_> {
    // Record j with its mark.
    pub fn seen_at(self, j: u32) -> Seen
        requires { j < length self.marks.now }
        ensures { result ≡ seen_at self.entry.log.now self.entry.marks.now j }
    {
        let Ok(mark) = Mark::try_from(self.marks[j as usize]) else {
            return Seen::Nothing;
        };
        match log_whole::call_at(self.log, j) {
            Some(call) => seen_by(mark, call),
            None => Seen::Nothing,
        }
    }

    // Goes through the first n records and keeps one answer, which `next` makes of a record and the answer before it.
    pub fn fold<A, F: Fn(Seen, A) -> A>(self, n: u32, start: A, next: F) -> A
        requires within { n ≤ length self.marks.now }
        requires callable { Foldable (F.pre next) (F.post next) self.log.now self.marks.now start n }
        ensures { Folded (F.post next) self.entry.log.now self.entry.marks.now start n result }
    {
        let mut answer = start;
        for j in 0..n {
            answer = next(self.seen_at(j), answer);
        }
        answer
    }
}
