// What a record of a log says, and its parts as numbers of the record, and back (document 01, 'Log and program'): one small function a part.
ghost use Rattle.std.specs.Prelude.{◌≡◌, ◌<◌};
ghost use Rattle.record_parts.specs.Parts.{call_of, flag, flag_of, observe_flags, pending_time, pending_tag, time_word};
ghost use Rattle.record_parts.specs.Parts.{ordinal_number, sender_count, received_count, transmitted_count};
ghost use Rattle.record_parts.specs.Parts.{follow_sequence, follow_timestamp, follow_time, unknown_flag};
ghost use Rattle.record_parts.specs.Parts.{sender_wire, reflector_wire, format_flag};
ghost use Rattle.record_parts.specs.Parts.{pending_by, time_by, ordinal_by, counters_by, follow_by, estimates_by};
ghost use Rattle.estimate.specs.Make.{format_of};
ghost use Rattle.estimate.specs.Wire.{bit};

use call_types::{
    Call, CounterPoint, FollowUpTelemetry, PendingPacket, ReflectorRx, ReflectorTx, Reply,
    ReplyObservation, SenderTx, SentProbe,
};
use estimate::{ClockFormat, ErrorEstimate};

// What a record of a log says: a call, and with an observe the time of its flag 16, to which an earlier host converted the follow-up's
// timestamp. No call is told that time (document 02, Q-9), so that a record and the call that it makes are two types.
#[derive(Clone, Copy)]
pub enum Entry {
    Sent(SentProbe),
    Accept(Reply),
    Observe(ReplyObservation, Option<i64>),
    Advance(u64),
    Idle,
}

// The call that a record makes.
pub fn call_of(entry: Entry) -> Call
    ensures { result ≡ call_of entry }
{
    match entry {
        Entry::Sent(probe) => Call::Sent(probe),
        Entry::Accept(reply) => Call::Accept(reply),
        Entry::Observe(observation, _) => Call::Observe(observation),
        Entry::Advance(time) => Call::Advance(time),
        Entry::Idle => Call::Idle,
    }
}

// Whether the flag that document 01 calls 1, 2, 4, .. or 128 is set.
pub fn flag_set(flags: u8, k: u8) -> bool
    requires { 0 < k }
    ensures { result ≡ flag k flags }
{
    (flags / k) % 2 == 1
}

// 1 for true.
fn one_if(b: bool) -> u8
    ensures { (result ≡ bit b) × (result < 2) }
{
    u8::from(b)
}

// A part as a flag: 1 where it is there, 0 where it is absent.
pub fn flag_of<T: Copy>(part: Option<T>) -> u8
    ensures value { result ≡ flag_of part }
    ensures small { result < 2 }
{
    one_if(part.is_some())
}

pub fn pending_time(pending: Option<PendingPacket>) -> u64
    ensures { result ≡ pending_time pending }
{
    pending.map_or(0, |packet| packet.time)
}

pub fn pending_tag(pending: Option<PendingPacket>) -> u64
    ensures { result ≡ pending_tag pending }
{
    pending.map_or(0, |packet| packet.tag)
}

pub fn time_word(time: Option<i64>) -> u64
    ensures { result ≡ time_word time }
{
    time.map_or(0, |z| z.cast_unsigned())
}

pub fn ordinal_number(ordinal: Option<u32>) -> u32
    ensures { result ≡ ordinal_number ordinal }
{
    ordinal.unwrap_or(0)
}

pub fn sender_count(counters: Option<CounterPoint>) -> u32
    ensures { result ≡ sender_count counters }
{
    counters.map_or(0, |point| point.sender.0)
}

pub fn received_count(counters: Option<CounterPoint>) -> u32
    ensures { result ≡ received_count counters }
{
    counters.map_or(0, |point| point.received.0)
}

pub fn transmitted_count(counters: Option<CounterPoint>) -> u32
    ensures { result ≡ transmitted_count counters }
{
    counters.map_or(0, |point| point.transmitted.0)
}

pub fn follow_sequence(follow: Option<FollowUpTelemetry>) -> u32
    ensures { result ≡ follow_sequence follow }
{
    follow.map_or(0, |telemetry| telemetry.sequence)
}

pub fn follow_timestamp(follow: Option<FollowUpTelemetry>) -> u64
    ensures { result ≡ follow_timestamp follow }
{
    follow.map_or(0, |telemetry| telemetry.timestamp)
}

// The converted T3 that a record has beside a follow-up, absent where the follow-up is.
pub fn follow_time(follow: Option<FollowUpTelemetry>, converted: Option<i64>) -> Option<i64>
    ensures { result ≡ follow_time follow converted }
{
    follow.and(converted)
}

fn unknown_flag(follow: Option<FollowUpTelemetry>) -> u8
    ensures { (result ≡ unknown_flag follow) × (result < 2) }
{
    one_if(follow.is_some_and(|telemetry| telemetry.unknown))
}

pub fn sender_wire(quality: Option<(ErrorEstimate, ErrorEstimate)>) -> u16
    ensures { result ≡ sender_wire quality }
{
    quality.map_or(0, |(sender, _)| sender.to_wire())
}

pub fn reflector_wire(quality: Option<(ErrorEstimate, ErrorEstimate)>) -> u16
    ensures { result ≡ reflector_wire quality }
{
    quality.map_or(0, |(_, reflector)| reflector.to_wire())
}

fn format_flag(format: ClockFormat) -> u8
    ensures { (result ≡ format_flag format) × (result < 2) }
{
    match format {
        ClockFormat::NTP => 0,
        ClockFormat::PTP => 1,
    }
}

pub fn observe_flags(o: ReplyObservation, converted: Option<i64>) -> u8
    ensures { result ≡ observe_flags o converted }
{
    let t4 = o.t4;
    let ordinal = o.ordinal;
    let counters = o.counters;
    let follow = o.follow;
    let quality = o.quality;
    let format = o.format;
    let t3 = follow_time(follow, converted);
    flag_of(t4)
        + 2 * flag_of(ordinal)
        + 4 * flag_of(counters)
        + 8 * flag_of(follow)
        + 16 * flag_of(t3)
        + 32 * flag_of(quality)
        + 64 * format_flag(format)
        + 128 * unknown_flag(follow)
}

pub fn pending_by(there: bool, time: u64, tag: u64) -> Option<PendingPacket>
    ensures { result ≡ pending_by there time tag }
{
    there.then_some(PendingPacket { time, tag })
}

pub fn time_by(there: bool, word: u64) -> Option<i64>
    ensures { result ≡ time_by there word }
{
    there.then_some(word.cast_signed())
}

pub fn ordinal_by(there: bool, n: u32) -> Option<u32>
    ensures { result ≡ ordinal_by there n }
{
    there.then_some(n)
}

pub fn counters_by(
    there: bool,
    sender: u32,
    received: u32,
    transmitted: u32,
) -> Option<CounterPoint>
    ensures { result ≡ counters_by there sender received transmitted }
{
    there.then_some(CounterPoint {
        sender: SenderTx(sender),
        received: ReflectorRx(received),
        transmitted: ReflectorTx(transmitted),
    })
}

pub fn follow_by(
    there: bool,
    sequence: u32,
    timestamp: u64,
    unknown: bool,
) -> Option<FollowUpTelemetry>
    ensures { result ≡ follow_by there sequence timestamp unknown }
{
    there.then_some(FollowUpTelemetry {
        sequence,
        timestamp,
        unknown,
    })
}

pub fn estimates_by(
    there: bool,
    sender: u16,
    reflector: u16,
) -> Option<(ErrorEstimate, ErrorEstimate)>
    ensures { result ≡ estimates_by there sender reflector }
{
    there.then_some((
        ErrorEstimate::from_wire(sender),
        ErrorEstimate::from_wire(reflector),
    ))
}

pub fn format_by(ptp: bool) -> ClockFormat
    ensures { result ≡ format_of ptp }
{
    if ptp {
        return ClockFormat::PTP;
    }
    ClockFormat::NTP
}
