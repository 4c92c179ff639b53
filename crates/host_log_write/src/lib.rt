// What a host calls to write a log (document 01, 'Log and program'): the 96 bytes of each call's record, and the 24 bytes of the trailer. That of a `sent` is
// crate host_log_write_sent.
ghost use Rattle.std.specs.Prelude.{◌≡◌};
ghost use Rattle.log_record.specs.Records.{told, told_of, written_to};
ghost use Rattle.log_whole.specs.Logs.{trailer_to};
ghost use Rattle.host_log_write.specs.Told.{accept_told, observe_told, advance_told, idle_told};

use call_types::{Reply, ReplyKey};
use record_parts::Entry;

// The record of an `accept`, over 96 lent bytes; 5 for another number of bytes. Where `pending` is 0 there is no pending packet, and time and tag are not looked at.
#[unsafe(no_mangle)]
pub extern "C" fn ambrulicciu_log_write_accept(
    bytes: &mut [u8],
    sender: u32,
    reflector: u32,
    t3: u64,
    pending: u32,
    time: u64,
    tag: u64,
) -> u8
    ensures { told result bytes.new ≡ told_of (written_to bytes.old (accept_told sender reflector t3 pending time tag)) }
{
    let key = ReplyKey {
        sender,
        reflector,
        t3,
    };
    let held = record_parts::pending_by(pending != 0, time, tag);
    let reply = Reply { key, pending: held };
    log_record::number_in(log_record::write(bytes, Entry::Accept(reply)))
}

// The record of an `observe`, whose observation is lent as `ambrulicciu_observe` takes it. It is not held to the ranges of `observe`: the record
// says what the call was told, and flag 16 is never set.
// Words of `observation`: 0 t3 (u64), 2 round_trip (u64), 4 t4 (i64), 6 reference (i64), 8 reserved (2), 10 follow_up_timestamp (u64),
// 12 sender, 13 reflector, 14 ordinal, 15 s_txc, 16 r_rxc, 17 r_txc, 18 follow_up_sequence, 19 offset (i32),
// 20 sender_estimate (u16), reflector_estimate (u16), 21 flags, 22 unused (2).
#[unsafe(no_mangle)]
pub extern "C" fn ambrulicciu_log_write_observe(bytes: &mut [u8], observation: &[u32; 24]) -> u8
    ensures { told result bytes.new ≡ told_of (written_to bytes.old (observe_told observation.now)) }
{
    let told = host_observation::observation_of(observation);
    log_record::number_in(log_record::write(bytes, Entry::Observe(told, None)))
}

// The record of the monitor's `advance`.
#[unsafe(no_mangle)]
pub extern "C" fn ambrulicciu_log_write_advance(bytes: &mut [u8], time: u64) -> u8
    ensures { told result bytes.new ≡ told_of (written_to bytes.old (advance_told time)) }
{
    log_record::number_in(log_record::write(bytes, Entry::Advance(time)))
}

// The record of the monitor's `idle`.
#[unsafe(no_mangle)]
pub extern "C" fn ambrulicciu_log_write_idle(bytes: &mut [u8]) -> u8
    ensures { told result bytes.new ≡ told_of (written_to bytes.old idle_told) }
{
    log_record::number_in(log_record::write(bytes, Entry::Idle))
}

// The trailer of a log of `count` records, over 24 lent bytes; 5 for another number of bytes, and 9 for more records than 65,536 bytes hold.
#[unsafe(no_mangle)]
pub extern "C" fn ambrulicciu_log_write_trailer(
    bytes: &mut [u8],
    count: u32,
    copies: u16,
    threshold: u16,
    timeout: u64,
) -> u8
    ensures { told result bytes.new ≡ told_of (trailer_to bytes.old count copies threshold timeout) }
{
    let answer = log_whole::trailer::write(bytes, count, copies, threshold, timeout);
    log_record::number_in(answer)
}
