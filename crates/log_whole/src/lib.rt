// A log of calls, 96-byte records and a 24-byte trailer (document 01, 'Log and program'): checked as a whole, and read record by record.
ghost use Rattle.std.specs.Prelude.{◌≡◌, true, ◌+◌, ◌*◌, ◌≤◌, length, take, drop};
ghost use Rattle.log_record.specs.Records.{good, read_of};
ghost use Rattle.log_whole.specs.Logs.{refusal_of, trailer_fits, trailer_good, settings_of, distance_of, first_bad, by_records, log_of, played_by, call_at};

pub mod trailer;

use big_endian::{u16_at, u32_at, u64_at};
use call_types::Call;
use limits::Refusal;
use record_parts::Entry;

// A log has no more bytes.
pub const MOST_BYTES: usize = 65536;

// What a log says besides its records, which start at byte `start`. A threshold of 0 means no monitor.
#[derive(Clone, Copy)]
pub struct Settings {
    pub copies: u16,
    pub threshold: u16,
    pub timeout: u64,
    pub count: u32,
    pub start: usize,
}

// Why bytes are no log. A bad record is counted from 0.
#[derive(Clone, Copy, Debug, Drop, PartialEq, Eq)]
pub enum Fault {
    TooLong,
    BadTrailer,
    BadRecord(u32),
}

// The refusal that a host is told.
impl From<Fault> for Refusal {
    ghost from_gives = { λ fault refusal. refusal ≡ refusal_of fault };

    fn from(fault: Fault) -> Refusal {
        match fault {
            Fault::TooLong => Refusal::TooLong,
            Fault::BadTrailer => Refusal::BadTrailer,
            Fault::BadRecord(_) => Refusal::BadRecord,
        }
    }
}

fn trailer_fits(log: &[u8]) -> bool
    requires { (24 ≤ length log.now) × (length log.now ≤ 65536) }
    ensures { result ≡ trailer_fits log.now }
{
    let at = log.len() - 24;
    let distance = u32_at(log, at);
    let count = u32_at(log, at + 4);
    let mark = u32_at(log, at + 20);
    let whole = 24 + 96 * (count as u64);
    (mark == 0x53544c47) & ((distance as u64) == whole) & ((distance as u64) <= (log.len() as u64))
}

fn trailer_good(log: &[u8]) -> bool
    requires { length log.now ≤ 65536 }
    ensures { result ≡ trailer_good log.now }
{
    if log.len() < 24 {
        return false;
    }
    trailer_fits(log)
}

fn settings_of(log: &[u8]) -> Settings
    requires { (24 ≤ length log.now) × (distance_of log.now ≤ length log.now) }
    ensures { result ≡ settings_of log.now }
{
    let at = log.len() - 24;
    let distance = u32_at(log, at);
    Settings {
        copies: u16_at(log, at + 8),
        threshold: u16_at(log, at + 10),
        timeout: u64_at(log, at + 12),
        count: u32_at(log, at + 4),
        start: log.len() - (distance as usize),
    }
}

fn read_at(log: &[u8], at: usize) -> Result<Entry, Refusal>
    requires { at + 96 ≤ length log.now }
    ensures { result ≡ read_of (take 96 (drop at log.now)) }
{
    let end = at + 96;
    log_record::read(&log[at..end])
}

fn good_at(log: &[u8], at: usize) -> bool
    requires { at + 96 ≤ length log.now }
    ensures { result ≡ good (take 96 (drop at log.now)) }
{
    read_at(log, at).is_ok()
}

// How many of the `count` records from byte `start` on stand before the first bad one: all, where none is bad.
pub fn first_bad(log: &[u8], start: usize, count: u32) -> u32
    requires { start + 96 * count ≤ length log.now }
    ensures { result ≡ first_bad log.now start 0 count }
{
    for i in 0..count {
        let at = start + 96 * (i as usize);
        if !good_at(log, at) {
            return i;
        }
    }
    count
}

fn by_records(first: u32, settings: Settings) -> Result<Settings, Fault>
    ensures { result ≡ by_records first settings }
{
    if first == settings.count {
        return Ok(settings);
    }
    Err(Fault::BadRecord(first))
}

// Whether the bytes are a log, tested in document 01's order before any record is played.
pub fn check(log: &[u8]) -> Result<Settings, Fault>
    ensures { result ≡ log_of log.now }
{
    if MOST_BYTES < log.len() {
        return Err(Fault::TooLong);
    }
    if trailer_good(log) {
        let s = settings_of(log);
        let first = first_bad(log, s.start, s.count);
        return by_records(first, s);
    }
    Err(Fault::BadTrailer)
}

fn play(answer: Result<Entry, Refusal>) -> Option<Call>
    ensures { result ≡ played_by answer }
{
    answer.ok().map(|said| record_parts::call_of(said))
}

// The call of record i of a log; nothing where there is none to play.
pub fn call_at(log: &[u8], i: u32) -> Option<Call>
    ensures { result ≡ call_at log.now i }
{
    if MOST_BYTES < log.len() {
        return None;
    }
    if trailer_good(log) {
        let s = settings_of(log);
        if i < s.count {
            let at = s.start + 96 * (i as usize);
            return play(read_at(log, at));
        }
    }
    None
}
