// A call in the 44 words in which a host reads it: its kind, and what it was told, each kind in words of its own; the other words are 0.
ghost use Rattle.std.specs.Prelude.{◌≡◌, ◌<◌};
ghost use Rattle.std.specs.Int.{w32, w64};
ghost use Rattle.std.proofs.Common.{of_z};
ghost use Rattle.host_call_words.specs.Words.{wires, sent_words, accept_words, observation_words, observe_words, advance_words, idle_words, call_words};
ghost use Rattle.host_call_words.specs.Stores.{long_at};

use call_types::{Call, Reply, ReplyObservation, SentProbe};
use estimate::ErrorEstimate;

fn put_long(words: &mut [u32; 44], at: usize, n: u64)
    requires { at < 43 }
    ensures { words.new ≡ long_at words.old at n }
{
    words[at] = host_numbers::low(n);
    words[at + 1] = host_numbers::high(n);
}

fn sent_words(p: SentProbe) -> [u32; 44]
    ensures { result ≡ sent_words p }
{
    let packet = p.packet;
    let mut words = [0u32; 44];
    put_long(&mut words, 2, packet.time);
    put_long(&mut words, 4, packet.tag);
    words[6] = p.sequence;
    words[7] = p.ordinal;
    words[1] = p.train;
    words
}

fn accept_words(reply: Reply) -> [u32; 44]
    ensures { result ≡ accept_words reply }
{
    let key = reply.key;
    let pending = reply.pending;
    let mut words = [0u32; 44];
    words[0] = 1;
    put_long(&mut words, 8, key.t3);
    put_long(&mut words, 10, record_parts::pending_time(pending));
    put_long(&mut words, 12, record_parts::pending_tag(pending));
    words[14] = key.sender;
    words[15] = key.reflector;
    words[16] = record_parts::flag_of(pending) as u32;
    words
}

fn reference_word(o: ReplyObservation) -> u64
    ensures { result ≡ of_z w64 o.reference }
{
    o.reference.cast_unsigned()
}

fn offset_word(o: ReplyObservation) -> u32
    ensures { result ≡ of_z w32 o.offset }
{
    o.offset.cast_unsigned()
}

// The sender's estimate in the low 16 bits, the reflector's in the high.
fn both_wires(quality: Option<(ErrorEstimate, ErrorEstimate)>) -> u32
    ensures { result ≡ wires quality }
{
    let sender = record_parts::sender_wire(quality);
    let reflector = record_parts::reflector_wire(quality);
    (sender as u32) + 65536 * (reflector as u32)
}

// An observation in the 24 words in which a host lends it to `observe`.
pub fn observation_words(o: ReplyObservation) -> [u32; 24]
    ensures { result ≡ observation_words o }
{
    let key = o.key;
    let t4 = o.t4;
    let ordinal = o.ordinal;
    let counters = o.counters;
    let follow = o.follow;
    let quality = o.quality;
    let received = record_parts::time_word(t4);
    let reference = reference_word(o);
    let timestamp = record_parts::follow_timestamp(follow);
    [
        host_numbers::low(key.t3),
        host_numbers::high(key.t3),
        host_numbers::low(o.rtt),
        host_numbers::high(o.rtt),
        host_numbers::low(received),
        host_numbers::high(received),
        host_numbers::low(reference),
        host_numbers::high(reference),
        0,
        0,
        host_numbers::low(timestamp),
        host_numbers::high(timestamp),
        key.sender,
        key.reflector,
        record_parts::ordinal_number(ordinal),
        record_parts::sender_count(counters),
        record_parts::received_count(counters),
        record_parts::transmitted_count(counters),
        record_parts::follow_sequence(follow),
        offset_word(o),
        both_wires(quality),
        record_parts::observe_flags(o, None) as u32,
        0,
        0,
    ]
}

fn observe_words(o: ReplyObservation) -> [u32; 44]
    ensures { result ≡ observe_words o }
{
    let told = observation_words(o);
    [
        2, 0, 0, 0, 0, 0, 0, 0, 0, 0, 0, 0, 0, 0, 0, 0, 0, 0, told[0], told[1], told[2], told[3],
        told[4], told[5], told[6], told[7], told[8], told[9], told[10], told[11], told[12],
        told[13], told[14], told[15], told[16], told[17], told[18], told[19], told[20], told[21],
        told[22], told[23], 0, 0,
    ]
}

fn advance_words(time: u64) -> [u32; 44]
    ensures { result ≡ advance_words time }
{
    let mut words = [0u32; 44];
    words[0] = 3;
    put_long(&mut words, 42, time);
    words
}

fn idle_words() -> [u32; 44]
    ensures { result ≡ idle_words }
{
    let mut words = [0u32; 44];
    words[0] = 4;
    words
}

pub fn call_words(call: Call) -> [u32; 44]
    ensures { result ≡ call_words call }
{
    match call {
        Call::Sent(p) => sent_words(p),
        Call::Accept(reply) => accept_words(reply),
        Call::Observe(o) => observe_words(o),
        Call::Advance(time) => advance_words(time),
        Call::Idle => idle_words(),
    }
}
