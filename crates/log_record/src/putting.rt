// The fields of an entry, written over the 96 bytes of a record: each group in the order of document 01.
ghost use Rattle.std.specs.Prelude.{◌≡◌, [], length};
ghost use Rattle.std.specs.Int.{w32, w64};
ghost use Rattle.std.proofs.Common.{of_z};
ghost use Rattle.big_endian.specs.Fields.{written};
ghost use Rattle.log_record.specs.Records.{frame, sent_fields, key_fields, accept_fields, observe_fields, table_of};
ghost use Rattle.log_record.specs.Groups.{pending_group, times_group, counts_group, follow_group, quality_group};

use big_endian::{put_u8, put_u16, put_u32, put_u64};
use call_types::{
    CounterPoint, FollowUpTelemetry, PendingPacket, Reply, ReplyKey, ReplyObservation, SentProbe,
};
use estimate::ErrorEstimate;
use record_parts::Entry;

fn put_frame(bytes: &mut [u8], kind: u8, flags: u8)
    requires { length bytes.old ≡ 96 }
    ensures { bytes.new ≡ written (frame kind flags []) bytes.old }
{
    put_u8(bytes, 0, kind);
    put_u8(bytes, 1, flags);
    put_u8(bytes, 95, 255 - kind);
}

fn put_sent(bytes: &mut [u8], p: SentProbe)
    requires { length bytes.old ≡ 96 }
    ensures { bytes.new ≡ written (sent_fields p) bytes.old }
{
    let packet = p.packet;
    put_u32(bytes, 4, p.sequence);
    put_u32(bytes, 8, p.ordinal);
    put_u64(bytes, 12, packet.time);
    put_u64(bytes, 20, packet.tag);
    put_u32(bytes, 28, p.train);
}

fn put_key(bytes: &mut [u8], key: ReplyKey)
    requires { length bytes.old ≡ 96 }
    ensures { bytes.new ≡ written (key_fields key []) bytes.old }
{
    put_u32(bytes, 4, key.sender);
    put_u32(bytes, 8, key.reflector);
    put_u64(bytes, 12, key.t3);
}

fn put_pending(bytes: &mut [u8], pending: Option<PendingPacket>)
    requires { length bytes.old ≡ 96 }
    ensures { bytes.new ≡ written (pending_group pending) bytes.old }
{
    let time = record_parts::pending_time(pending);
    let tag = record_parts::pending_tag(pending);
    put_u64(bytes, 20, time);
    put_u64(bytes, 28, tag);
}

fn reference_word(o: ReplyObservation) -> u64
    ensures { result ≡ of_z w64 o.reference }
{
    o.reference.cast_unsigned()
}

fn offset_word(o: ReplyObservation) -> u32
    ensures { result ≡ of_z w32 o.offset }
{
    o.offset.cast_unsigned()
}

fn put_times(bytes: &mut [u8], o: ReplyObservation)
    requires { length bytes.old ≡ 96 }
    ensures { bytes.new ≡ written (times_group o) bytes.old }
{
    let t4 = o.t4;
    let received = record_parts::time_word(t4);
    let reference = reference_word(o);
    let offset = offset_word(o);
    put_u64(bytes, 20, o.rtt);
    put_u64(bytes, 28, received);
    put_u64(bytes, 36, reference);
    put_u32(bytes, 44, offset);
}

fn put_counts(bytes: &mut [u8], ordinal: Option<u32>, counters: Option<CounterPoint>)
    requires { length bytes.old ≡ 96 }
    ensures { bytes.new ≡ written (counts_group ordinal counters) bytes.old }
{
    let number = record_parts::ordinal_number(ordinal);
    let sender = record_parts::sender_count(counters);
    let received = record_parts::received_count(counters);
    let transmitted = record_parts::transmitted_count(counters);
    put_u32(bytes, 48, number);
    put_u32(bytes, 52, sender);
    put_u32(bytes, 56, received);
    put_u32(bytes, 60, transmitted);
}

fn put_follow(bytes: &mut [u8], follow: Option<FollowUpTelemetry>, converted: Option<i64>)
    requires { length bytes.old ≡ 96 }
    ensures { bytes.new ≡ written (follow_group follow converted) bytes.old }
{
    let sequence = record_parts::follow_sequence(follow);
    let timestamp = record_parts::follow_timestamp(follow);
    let word = record_parts::time_word(record_parts::follow_time(follow, converted));
    put_u32(bytes, 64, sequence);
    put_u64(bytes, 68, timestamp);
    put_u64(bytes, 76, word);
}

fn put_quality(bytes: &mut [u8], quality: Option<(ErrorEstimate, ErrorEstimate)>)
    requires { length bytes.old ≡ 96 }
    ensures { bytes.new ≡ written (quality_group quality) bytes.old }
{
    let sender = record_parts::sender_wire(quality);
    let reflector = record_parts::reflector_wire(quality);
    put_u16(bytes, 84, sender);
    put_u16(bytes, 86, reflector);
}

fn put_accept(bytes: &mut [u8], reply: Reply)
    requires { length bytes.old ≡ 96 }
    ensures { bytes.new ≡ written (accept_fields reply) bytes.old }
{
    let key = reply.key;
    let pending = reply.pending;
    put_key(bytes, key);
    put_pending(bytes, pending);
}

fn put_observe(bytes: &mut [u8], o: ReplyObservation, converted: Option<i64>)
    requires { length bytes.old ≡ 96 }
    ensures { bytes.new ≡ written (observe_fields o converted) bytes.old }
{
    let key = o.key;
    let ordinal = o.ordinal;
    let counters = o.counters;
    let follow = o.follow;
    let quality = o.quality;
    put_key(bytes, key);
    put_times(bytes, o);
    put_counts(bytes, ordinal, counters);
    put_follow(bytes, follow, converted);
    put_quality(bytes, quality);
}

// Every field of an entry, over 96 bytes.
pub fn put_entry(bytes: &mut [u8], said: Entry)
    requires { length bytes.old ≡ 96 }
    ensures { bytes.new ≡ written (table_of said) bytes.old }
{
    match said {
        Entry::Sent(p) => {
            put_frame(bytes, 0, 0);
            put_sent(bytes, p);
        }
        Entry::Accept(reply) => {
            let pending = reply.pending;
            put_frame(bytes, 1, record_parts::flag_of(pending));
            put_accept(bytes, reply);
        }
        Entry::Observe(o, converted) => {
            put_frame(bytes, 2, record_parts::observe_flags(o, converted));
            put_observe(bytes, o, converted);
        }
        Entry::Advance(now) => {
            put_frame(bytes, 3, 0);
            put_u64(bytes, 4, now);
        }
        Entry::Idle => {
            put_frame(bytes, 4, 0);
        }
    }
}
