// Calls 5 to 7: clock quality.
use crate::{Answer, Outcome, State, estimates};
use clock_quality::{ClockEstimate, ClockQuality};
use estimate::ErrorEstimate;
use play_script::Call;

fn estimate_of(word: u64) -> ErrorEstimate {
    ErrorEstimate {
        synchronized: word % 2 == 1,
        ptp: (word >> 1) % 2 == 1,
        scale: ((word >> 8) % 256) as u8,
        multiplier: ((word >> 16) % 256) as u8,
    }
}

fn estimates_of(call: Call) -> Option<(ErrorEstimate, ErrorEstimate)> {
    if call.a == 0 {
        return None;
    }
    Some((estimate_of(call.b), estimate_of(call.c)))
}

fn largest_of(present: u64, bits: u64) -> Option<f64> {
    if present == 0 {
        return None;
    }
    Some(play_script::float_of(bits))
}

fn loaded(call: Call) -> ClockQuality {
    let largest = largest_of(call.f, call.g);
    ClockQuality {
        samples: call.a,
        both: call.b,
        unsynchronized: call.c,
        invalid: call.d,
        unknown: call.e,
        invalid_sender: 0,
        invalid_reflector: 0,
        invalid_both: 0,
        sender: None,
        reflector: None,
        largest,
    }
}

// The quality with three counts loaded: invalid at the sender alone, at the reflector alone, at both.
fn with_ends(q: ClockQuality, call: Call) -> ClockQuality {
    let sender = q.sender;
    let reflector = q.reflector;
    let largest = q.largest;
    ClockQuality {
        samples: q.samples,
        both: q.both,
        unsynchronized: q.unsynchronized,
        invalid: q.invalid,
        unknown: q.unknown,
        invalid_sender: call.a,
        invalid_reflector: call.b,
        invalid_both: call.c,
        sender,
        reflector,
        largest,
    }
}

// An estimate's fields in one word, its error in ms, and the 16 bits of an invalid one.
#[derive(Clone, Copy)]
struct LastWords {
    fields: u64,
    bits: u64,
    received: u64,
}

fn last_words(last: Option<ClockEstimate>) -> LastWords {
    match last {
        None => LastWords {
            fields: 0,
            bits: 0,
            received: 0,
        },
        Some(e) => {
            let error = e.error;
            let ms = estimates::error_words(error);
            let format = e.format;
            let flags = estimates::flag(e.synchronized) | (estimates::number_of(format) << 1);
            let numbers = ((e.scale as u64) << 8) | ((e.multiplier as u64) << 16);
            LastWords {
                fields: flags | numbers | 16777216 | (ms.known << 25),
                bits: ms.bits,
                received: ms.received,
            }
        }
    }
}

fn largest_words(largest: Option<f64>) -> LastWords {
    match largest {
        None => LastWords {
            fields: 0,
            bits: 0,
            received: 0,
        },
        Some(ms) => LastWords {
            fields: 1,
            bits: play_script::bits_of(ms),
            received: 0,
        },
    }
}

fn shown(refusal: u64, q: ClockQuality) -> Answer {
    let last = q.sender;
    let sender = last_words(last);
    let other = q.reflector;
    let reflector = last_words(other);
    let most = q.largest;
    let largest = largest_words(most);
    Answer {
        first: [
            refusal,
            q.samples,
            q.both,
            q.unsynchronized,
            q.invalid,
            q.unknown,
            sender.fields,
            sender.bits,
        ],
        second: [
            reflector.fields,
            reflector.bits,
            largest.fields,
            largest.bits,
            q.invalid_sender,
            q.invalid_reflector,
            q.invalid_both,
            sender.received | (reflector.received << 16),
        ],
    }
}

fn outcome(refusal: u64, quality: ClockQuality) -> Outcome {
    Outcome {
        answer: shown(refusal, quality),
        state: State { quality },
    }
}

pub fn play(state: State, call: Call) -> Outcome {
    let quality = state.quality;
    if call.operation == 6 {
        return outcome(0, loaded(call));
    }
    if call.operation == 7 {
        return outcome(0, with_ends(quality, call));
    }
    match quality.record(estimates_of(call)) {
        Ok(next) => outcome(0, next),
        Err(why) => outcome(u8::from(why) as u64, quality),
    }
}
