// The observation that a host lends as 24 words of 32 bits: fields of exact width, so that none needs a test that document 01 has no number for.
ghost use Rattle.std.specs.Prelude.{◌≡◌, ◌/◌, ◌%◌};
ghost use Rattle.std.specs.Int.{w32, w64};
ghost use Rattle.std.proofs.Common.{to_z};
ghost use Rattle.record_parts.specs.Parts.{flag, time_by, ordinal_by};
ghost use Rattle.estimate.specs.Make.{format_of};
ghost use Rattle.host_observation.specs.Observation.{word, double, flags_at, key_at, counters_at, follow_at, estimates_at, observation_at};

use call_types::{CounterPoint, FollowUpTelemetry, ReplyKey, ReplyObservation};
use estimate::{ClockFormat, ErrorEstimate};
use host_numbers::both;
use record_parts::flag_set;

fn flags(words: &[u32; 24]) -> u8
    ensures { result ≡ flags_at words.now }
{
    let all = words[21];
    (all % 256) as u8
}

fn key(words: &[u32; 24]) -> ReplyKey
    ensures { result ≡ key_at words.now }
{
    ReplyKey {
        sender: words[12],
        reflector: words[13],
        t3: both(words[0], words[1]),
    }
}

fn received_at(words: &[u32; 24]) -> Option<i64>
    ensures { result ≡ time_by (flag 1 (flags_at words.now)) (double words.now 4) }
{
    let there = flag_set(flags(words), 1);
    let time = both(words[4], words[5]);
    record_parts::time_by(there, time)
}

fn format(words: &[u32; 24]) -> ClockFormat
    ensures { result ≡ format_of (flag 64 (flags_at words.now)) }
{
    record_parts::format_by(flag_set(flags(words), 64))
}

fn reference(words: &[u32; 24]) -> i64
    ensures { result ≡ to_z w64 (double words.now 6) }
{
    both(words[6], words[7]).cast_signed()
}

fn offset(words: &[u32; 24]) -> i32
    ensures { result ≡ to_z w32 (word words.now 19) }
{
    words[19].cast_signed()
}

fn ordinal(words: &[u32; 24]) -> Option<u32>
    ensures { result ≡ ordinal_by (flag 2 (flags_at words.now)) (word words.now 14) }
{
    let there = flag_set(flags(words), 2);
    record_parts::ordinal_by(there, words[14])
}

fn counters(words: &[u32; 24]) -> Option<CounterPoint>
    ensures { result ≡ counters_at words.now }
{
    let there = flag_set(flags(words), 4);
    record_parts::counters_by(there, words[15], words[16], words[17])
}

// 128 counts only with 8: without a follow-up there is nothing that it says.
fn follow(words: &[u32; 24]) -> Option<FollowUpTelemetry>
    ensures { result ≡ follow_at words.now }
{
    let flags = flags(words);
    let timestamp = both(words[10], words[11]);
    let unknown = flag_set(flags, 128);
    record_parts::follow_by(flag_set(flags, 8), words[18], timestamp, unknown)
}

fn low_half(word: u32) -> u16
    ensures { result ≡ word % 65536 }
{
    (word % 65536) as u16
}

fn high_half(word: u32) -> u16
    ensures { result ≡ word / 65536 }
{
    (word / 65536) as u16
}

fn estimates(words: &[u32; 24]) -> Option<(ErrorEstimate, ErrorEstimate)>
    ensures { result ≡ estimates_at words.now }
{
    let there = flag_set(flags(words), 32);
    let sender = low_half(words[20]);
    let reflector = high_half(words[20]);
    record_parts::estimates_by(there, sender, reflector)
}

// The observation that the words say.
pub fn observation_of(words: &[u32; 24]) -> ReplyObservation
    ensures { result ≡ observation_at words.now }
{
    ReplyObservation {
        key: key(words),
        rtt: both(words[2], words[3]),
        t4: received_at(words),
        format: format(words),
        reference: reference(words),
        offset: offset(words),
        ordinal: ordinal(words),
        counters: counters(words),
        follow: follow(words),
        quality: estimates(words),
    }
}
