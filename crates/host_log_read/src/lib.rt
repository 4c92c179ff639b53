// What a host calls to read a log (document 01, 'Log and program'): whether the bytes are a log, its first bad record, and one record as a call.
ghost use Rattle.std.specs.Prelude.{◌≡◌};
ghost use Rattle.host_log_read.specs.Answers.{left, number_in, settings_words, check_to, first_bad_to, no_call, read_to};

use limits::Refusal;
use log_whole::{Fault, Settings};

// The number that a host is told of bytes that are no log.
fn number_in(fault: Fault) -> u8
    ensures { result ≡ number_in fault }
{
    u8::from(Refusal::from(fault))
}

fn settings_words(s: Settings) -> [u64; 4]
    ensures { result ≡ settings_words s }
{
    [
        s.count as u64,
        s.copies as u64,
        s.threshold as u64,
        s.timeout,
    ]
}

// Whether the bytes are a log: 0 and its settings; 9, 7 or 8.
// Words of `answer`: 0 count, 1 copies, 2 threshold, 3 timeout.
#[unsafe(no_mangle)]
pub extern "C" fn ambrulicciu_log_check(log: &[u8], answer: &mut [u64; 4]) -> u8
    ensures { left result answer.new ≡ check_to log.now answer.old }
{
    match log_whole::check(log) {
        Ok(settings) => {
            *answer = settings_words(settings);
            0
        }
        Err(fault) => number_in(fault),
    }
}

// The `N` of `refused 8 at N`: the first bad record, from 0, and the record count where none is bad. 9 and 7 as above.
#[unsafe(no_mangle)]
pub extern "C" fn ambrulicciu_log_first_bad(log: &[u8], answer: &mut [u64; 1]) -> u8
    ensures { left result answer.new ≡ first_bad_to log.now answer.old }
{
    match log_whole::check(log) {
        Ok(settings) => {
            *answer = [settings.count as u64];
            0
        }
        Err(fault) => match fault {
            Fault::BadRecord(first) => {
                *answer = [first as u64];
                0
            }
            Fault::TooLong => number_in(fault),
            Fault::BadTrailer => number_in(fault),
        },
    }
}

// Why there is no call to read: the log's 9 or 7, and otherwise 8, since no good record stands there.
fn no_call(checked: Result<Settings, Fault>) -> u8
    ensures { result ≡ no_call checked }
{
    match checked {
        Ok(_) => u8::from(Refusal::BadRecord),
        Err(fault) => number_in(fault),
    }
}

// Record `at` of a log, from 0: its kind, and what the call was told. Each kind has words of its own, so that no field has two meanings, and the
// words of the other kinds are 0. 9 and 7 as above; 8 where no good record stands there. The other records are not looked at.
// Words of `call`: 0 kind, 1 train, 2 sent.time (u64), 4 sent.tag (u64), 6 sent.sequence, 7 sent.ordinal,
// 8 accept.t3 (u64), 10 accept.time (u64), 12 accept.tag (u64), 14 accept.sender, 15 accept.reflector, 16 accept.pending, 17 accept.unused,
// 18 observation.t3 (u64), 20 observation.round_trip (u64), 22 observation.t4 (i64), 24 observation.reference (i64),
// 26 observation.reserved (2), 28 observation.follow_up_timestamp (u64), 30 observation.sender, 31 observation.reflector,
// 32 observation.ordinal, 33 observation.s_txc, 34 observation.r_rxc, 35 observation.r_txc, 36 observation.follow_up_sequence,
// 37 observation.offset (i32), 38 observation.sender_estimate (u16), observation.reflector_estimate (u16), 39 observation.flags,
// 40 observation.unused (2), 42 now (u64).
#[unsafe(no_mangle)]
pub extern "C" fn ambrulicciu_log_read(log: &[u8], at: u32, call: &mut [u32; 44]) -> u8
    ensures { left result call.new ≡ read_to log.now at call.old }
{
    let played = log_whole::call_at(log, at);
    match played {
        Some(told) => {
            let words = host_call_words::call_words(told);
            *call = words;
            0
        }
        None => no_call(log_whole::check(log)),
    }
}
