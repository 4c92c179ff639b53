// Calls 1 to 4: an estimate from its 16 bits and by its constructors.
use crate::Answer;
use estimate::{ClockFormat, ErrorEstimate, Reading};
use limits::Refusal;
use play_script::Call;

pub fn flag(set: bool) -> u64 {
    if set { 1 } else { 0 }
}

fn format_of(word: u64) -> ClockFormat {
    if word == 0 {
        return ClockFormat::NTP;
    }
    ClockFormat::PTP
}

pub fn number_of(format: ClockFormat) -> u64 {
    match format {
        ClockFormat::NTP => 0,
        ClockFormat::PTP => 1,
    }
}

fn unsynchronized(which: u64) -> ErrorEstimate {
    if which == 0 {
        return ErrorEstimate::unsynchronized();
    }
    ErrorEstimate::unsynchronized_with_format(format_of(which - 1))
}

fn made(call: Call) -> Result<ErrorEstimate, Refusal> {
    let operation = call.operation;
    let scale = (call.c % 256) as u8;
    let multiplier = (call.d % 256) as u8;
    match operation {
        1 => Ok(ErrorEstimate::from_wire((call.a % 65536) as u16)),
        2 => ErrorEstimate::new(call.a != 0, call.b != 0, scale, multiplier),
        3 => ErrorEstimate::with_clock_format(call.a != 0, format_of(call.b), scale, multiplier),
        _ => Ok(unsynchronized(call.a)),
    }
}

fn refused(number: u8) -> Answer {
    Answer {
        first: [number as u64, 0, 0, 0, 0, 0, 0, 0],
        second: [0; 8],
    }
}

// Of a reading: whether the error is known, the error's bits, and the 16 bits of an invalid one. What is not there is 0.
#[derive(Clone, Copy)]
pub struct ErrorWords {
    pub known: u64,
    pub bits: u64,
    pub received: u64,
}

pub fn error_words(error: Reading) -> ErrorWords {
    match error {
        Reading::Known(ms) => ErrorWords {
            known: 1,
            bits: play_script::bits_of(ms),
            received: 0,
        },
        Reading::Invalid(wire) => ErrorWords {
            known: 0,
            bits: 0,
            received: wire as u64,
        },
    }
}

fn shown(e: ErrorEstimate) -> Answer {
    let ms = error_words(e.reading());
    let wire = e.to_wire() as u64;
    let seconds = play_script::bits_of(e.error_seconds());
    let format = number_of(e.clock_format());
    Answer {
        first: [
            0,
            flag(e.synchronized),
            flag(e.ptp),
            e.scale as u64,
            e.multiplier as u64,
            wire,
            seconds,
            ms.known,
        ],
        second: [ms.bits, format, ms.received, 0, 0, 0, 0, 0],
    }
}

pub fn play(call: Call) -> Answer {
    match made(call) {
        Ok(e) => shown(e),
        Err(why) => refused(u8::from(why)),
    }
}
