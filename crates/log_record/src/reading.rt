// What 96 bytes say, field by field.
ghost use Rattle.std.specs.Prelude.{◌≡◌, ◌+◌, ◌≤◌, length};
ghost use Rattle.std.specs.Int.{w32, w64};
ghost use Rattle.std.proofs.Common.{to_z};
ghost use Rattle.big_endian.specs.Numbers.{number_at};
ghost use Rattle.record_parts.specs.Parts.{time_by, ordinal_by};
ghost use Rattle.log_record.specs.Records.{key_at, sent_at, accept_at, counters_at, follow_at, estimates_at, observe_at, entry_of};

use big_endian::{u8_at, u16_at, u32_at, u64_at};
use call_types::{
    CounterPoint, FollowUpTelemetry, PendingPacket, Reply, ReplyKey, ReplyObservation, SentProbe,
};
use estimate::ErrorEstimate;
use record_parts::{Entry, flag_set};

fn key(bytes: &[u8]) -> ReplyKey
    requires { length bytes.now ≡ 96 }
    ensures { result ≡ key_at bytes.now }
{
    ReplyKey {
        sender: u32_at(bytes, 4),
        reflector: u32_at(bytes, 8),
        t3: u64_at(bytes, 12),
    }
}

fn sent(bytes: &[u8]) -> SentProbe
    requires { length bytes.now ≡ 96 }
    ensures { result ≡ sent_at bytes.now }
{
    SentProbe {
        sequence: u32_at(bytes, 4),
        ordinal: u32_at(bytes, 8),
        train: u32_at(bytes, 28),
        packet: PendingPacket {
            time: u64_at(bytes, 12),
            tag: u64_at(bytes, 20),
        },
    }
}

fn accept(bytes: &[u8], flags: u8) -> Reply
    requires { length bytes.now ≡ 96 }
    ensures { result ≡ accept_at flags bytes.now }
{
    let time = u64_at(bytes, 20);
    let tag = u64_at(bytes, 28);
    Reply {
        key: key(bytes),
        pending: record_parts::pending_by(flag_set(flags, 1), time, tag),
    }
}

fn time(bytes: &[u8], at: usize, there: bool) -> Option<i64>
    requires { at + 8 ≤ length bytes.now }
    ensures { result ≡ time_by there (number_at 3 bytes.now at) }
{
    record_parts::time_by(there, u64_at(bytes, at))
}

fn reference(bytes: &[u8]) -> i64
    requires { length bytes.now ≡ 96 }
    ensures { result ≡ to_z w64 (number_at 3 bytes.now 36) }
{
    u64_at(bytes, 36).cast_signed()
}

fn offset(bytes: &[u8]) -> i32
    requires { length bytes.now ≡ 96 }
    ensures { result ≡ to_z w32 (number_at 2 bytes.now 44) }
{
    u32_at(bytes, 44).cast_signed()
}

fn ordinal(bytes: &[u8], there: bool) -> Option<u32>
    requires { length bytes.now ≡ 96 }
    ensures { result ≡ ordinal_by there (number_at 2 bytes.now 48) }
{
    record_parts::ordinal_by(there, u32_at(bytes, 48))
}

fn counters(bytes: &[u8], flags: u8) -> Option<CounterPoint>
    requires { length bytes.now ≡ 96 }
    ensures { result ≡ counters_at flags bytes.now }
{
    let sender = u32_at(bytes, 52);
    let received = u32_at(bytes, 56);
    let transmitted = u32_at(bytes, 60);
    record_parts::counters_by(flag_set(flags, 4), sender, received, transmitted)
}

fn follow(bytes: &[u8], flags: u8) -> Option<FollowUpTelemetry>
    requires { length bytes.now ≡ 96 }
    ensures { result ≡ follow_at flags bytes.now }
{
    let sequence = u32_at(bytes, 64);
    let timestamp = u64_at(bytes, 68);
    let unknown = flag_set(flags, 128);
    record_parts::follow_by(flag_set(flags, 8), sequence, timestamp, unknown)
}

fn estimates(bytes: &[u8], flags: u8) -> Option<(ErrorEstimate, ErrorEstimate)>
    requires { length bytes.now ≡ 96 }
    ensures { result ≡ estimates_at flags bytes.now }
{
    let sender = u16_at(bytes, 84);
    let reflector = u16_at(bytes, 86);
    record_parts::estimates_by(flag_set(flags, 32), sender, reflector)
}

fn observe(bytes: &[u8], flags: u8) -> ReplyObservation
    requires { length bytes.now ≡ 96 }
    ensures { result ≡ observe_at flags bytes.now }
{
    ReplyObservation {
        key: key(bytes),
        rtt: u64_at(bytes, 20),
        t4: time(bytes, 28, flag_set(flags, 1)),
        format: record_parts::format_by(flag_set(flags, 64)),
        reference: reference(bytes),
        offset: offset(bytes),
        ordinal: ordinal(bytes, flag_set(flags, 2)),
        counters: counters(bytes, flags),
        follow: follow(bytes, flags),
        quality: estimates(bytes, flags),
    }
}

// What 96 bytes say. A kind above 4 says idle, whose record has another kind.
pub fn said(bytes: &[u8]) -> Entry
    requires { length bytes.now ≡ 96 }
    ensures { result ≡ entry_of bytes.now }
{
    let kind = u8_at(bytes, 0);
    let flags = u8_at(bytes, 1);
    if kind == 0 {
        return Entry::Sent(sent(bytes));
    }
    if kind == 1 {
        return Entry::Accept(accept(bytes, flags));
    }
    if kind == 2 {
        let converted = time(bytes, 76, flag_set(flags, 16));
        return Entry::Observe(observe(bytes, flags), converted);
    }
    if kind == 3 {
        return Entry::Advance(u64_at(bytes, 4));
    }
    Entry::Idle
}
