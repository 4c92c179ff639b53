// One record of a log on a link, in parts: what depends on a test is a function by value, or one over the words and rooms of a ledger, so that a record
// is a straight line of calls over the queue that is lent (log_play). The ledger's calls are those that a host makes: they work on its words. A call
// that either part refuses changes neither (link_steps).
ghost use Rattle.std.specs.Prelude.{◌≡◌, eqb};
ghost use Rattle.ledger_steps.specs.Calls.{observe_to};
ghost use Rattle.link_steps.specs.Steps.{watch_refuses, watch_refuses_sent};
ghost use Rattle.record_parts.specs.Fits.{ObservationFits};
ghost use Rattle.log_whole.specs.Logs.{call_at};
ghost use Rattle.host_ledger.specs.Words.{ledger_at};
ghost use Rattle.host_observe_words.specs.Observe.{left, left_by};
ghost use Rattle.host_watched_accept_words.specs.Calls.{heard_in};
ghost use Rattle.limits.specs.Numbers.{number};
ghost use Rattle.log_play_parts.specs.Parts.{CallFits, ReadFits, rooms_of, other_of, part_with, parted, call_part, part_of, monitor_of, is_watched, kind_of, goes_on, sequence_of, time_of, watch_after};

use call_types::{Call, ReplyObservation, SentProbe};
use host_ledger::{LEDGER_WORDS, counted};
use host_watched_accept_words::ReplyAnswer;
use limits::Refusal;
use monitor::Monitor;

// The number of the refusal or 0, and whether the monitor's call goes on.
#[derive(Clone, Copy)]
pub struct Part {
    pub refused: u8,
    pub go: bool,
}

// ---- the record

// Record i of a log, whose numbers fit their types; nothing where there is none to play.
pub fn record_at(log: &[u8], i: u32) -> Option<Call>
    ensures { (result ≡ call_at log.now i) × ReadFits result }
{
    log_whole::call_at(log, i)
}

// ---- the ledger's part

// Why the monitor refuses `sent`, with a room of this size.
fn refuses_sent(watch: Option<Monitor>, room: usize, sent: SentProbe) -> Option<Refusal>
    ensures { number result ≡ watch_refuses_sent watch room sent }
{
    match watch {
        None => None,
        Some(monitor) => monitor.refusal_of_sent(room, sent.packet.time),
    }
}

// Why the monitor refuses any other call.
fn refuses(watch: Option<Monitor>, room: usize) -> Option<Refusal>
    ensures { number result ≡ watch_refuses watch room }
{
    match watch {
        None => None,
        Some(monitor) => monitor.refusal(room),
    }
}

// Why the monitor refuses a record.
pub fn refusal_of(watch: Option<Monitor>, read: Option<Call>, room: usize) -> Option<Refusal>
    ensures { number result ≡ other_of watch read room }
{
    match read {
        None | Some(Call::Observe(_)) => None,
        Some(Call::Sent(probe)) => refuses_sent(watch, room, probe),
        Some(Call::Accept(_)) | Some(Call::Advance(_)) => refuses(watch, room),
        Some(Call::Idle) => refuses(watch, limits::CAPACITY),
    }
}

fn plain_part(refused: u8, go: bool) -> Part
    ensures { result ≡ part_with refused go }
{
    Part { refused, go }
}

// A probe that was sent is the monitor's too, where nothing refused it.
fn sent_part(number: u8) -> Part
    ensures { result ≡ part_with number (eqb number 0) }
{
    plain_part(number, number == 0)
}

// A unique reply is the monitor's too.
fn accept_part(given: ReplyAnswer) -> Part
    ensures { result ≡ part_with given.number (heard_in given.words) }
{
    plain_part(given.number, host_watched_accept_words::was_unique(given))
}

// `observe` of an observation by value, by way of the words in which a host tells it.
fn observe(
    ledger: &mut [u64; LEDGER_WORDS],
    keys: &[[u64; 2]],
    slots: &mut [[u64; 3]],
    offsets: &mut [u32],
    links: &mut [[u16; 8]],
    told: ReplyObservation,
) -> Option<Refusal>
    requires { ObservationFits told }
    ensures { let words = ledger.old in
        left (number result) ledger.new slots.new offsets.new links.new ≡ left_by (observe_to (ledger_at words) keys.now slots.old offsets.old links.old told) told.counters words }
{
    let words = host_call_words::observation_words(told);
    host_observe_words::observe(ledger, keys, slots, offsets, links, &words)
}

// The ledger's part of a call, with the monitor's refusal.
fn call_part(
    other: u8,
    call: Call,
    ledger: &mut [u64; LEDGER_WORDS],
    keys: &mut [[u64; 2]],
    slots: &mut [[u64; 3]],
    probes: &mut [[u64; 4]],
    offsets: &mut [u32],
    links: &mut [[u16; 8]],
) -> Part
    requires { CallFits call }
    ensures { parted result (ledger_at ledger.new) (rooms_of keys.new slots.new probes.new offsets.new links.new) ≡ call_part other (ledger_at ledger.old) (rooms_of keys.old slots.old probes.old offsets.old links.old) call }
{
    counted(*ledger);
    match call {
        Call::Sent(probe) => {
            let number = host_sent_words::sent_unless(other, ledger, probes, links, probe);
            sent_part(number)
        }
        Call::Accept(reply) => {
            let given = host_watched_accept_words::accept_unless(
                other, ledger, keys, slots, probes, links, reply,
            );
            accept_part(given)
        }
        Call::Observe(told) => {
            let refused = observe(ledger, keys, slots, offsets, links, told);
            plain_part(limits::number(refused), false)
        }
        Call::Advance(_) => plain_part(other, true),
        Call::Idle => plain_part(other, false),
    }
}

// The ledger's part of a record, with the monitor's refusal.
pub fn ledger_part(
    other: u8,
    read: Option<Call>,
    ledger: &mut [u64; LEDGER_WORDS],
    keys: &mut [[u64; 2]],
    slots: &mut [[u64; 3]],
    probes: &mut [[u64; 4]],
    offsets: &mut [u32],
    links: &mut [[u16; 8]],
) -> Part
    requires { ReadFits read }
    ensures { parted result (ledger_at ledger.new) (rooms_of keys.new slots.new probes.new offsets.new links.new) ≡ part_of other (ledger_at ledger.old) (rooms_of keys.old slots.old probes.old offsets.old links.old) read }
{
    match read {
        None => plain_part(0, false),
        Some(call) => { call_part(other, call, ledger, keys, slots, probes, offsets, links) }
    }
}

// ---- the monitor's part

// The link's monitor; a fresh one where it has none, with which nothing goes on.
pub fn monitor_of(watch: Option<Monitor>) -> Monitor
    ensures { result ≡ monitor_of watch }
{
    match watch {
        None => Monitor::new(1, 0),
        Some(monitor) => monitor,
    }
}

fn watches(watch: Option<Monitor>) -> bool
    ensures { result ≡ is_watched watch }
{
    match watch {
        None => false,
        Some(_) => true,
    }
}

// 0 no record, 1 sent, 2 accept, 3 observe, 4 advance, 5 idle.
pub fn kind_of(read: Option<Call>) -> u8
    ensures { result ≡ kind_of read }
{
    match read {
        None => 0,
        Some(call) => {
            match call {
                Call::Sent(_) => 1,
                Call::Accept(_) => 2,
                Call::Observe(_) => 3,
                Call::Advance(_) => 4,
                Call::Idle => 5,
            }
        }
    }
}

// Whether the monitor's call of this kind goes on.
pub fn goes(kind: u8, watch: Option<Monitor>, read: Option<Call>, part: Part) -> bool
    ensures { result ≡ goes_on kind watch read part.go }
{
    watches(watch) & (kind_of(read) == kind) & part.go
}

pub fn sequence_of(read: Option<Call>) -> u32
    ensures { result ≡ sequence_of read }
{
    match read {
        None => 0,
        Some(call) => {
            match call {
                Call::Sent(probe) => probe.sequence,
                Call::Accept(reply) => {
                    let key = reply.key;
                    key.sender
                }
                Call::Observe(_) => 0,
                Call::Advance(_) => 0,
                Call::Idle => 0,
            }
        }
    }
}

pub fn time_of(read: Option<Call>) -> u64
    ensures { result ≡ time_of read }
{
    match read {
        None => 0,
        Some(call) => {
            match call {
                Call::Sent(probe) => {
                    let packet = probe.packet;
                    packet.time
                }
                Call::Accept(_) => 0,
                Call::Observe(_) => 0,
                Call::Advance(time) => time,
                Call::Idle => 0,
            }
        }
    }
}

pub fn watch_after(watch: Option<Monitor>, monitor: Monitor) -> Option<Monitor>
    ensures { result ≡ watch_after watch monitor }
{
    match watch {
        None => None,
        Some(_) => Some(monitor),
    }
}
