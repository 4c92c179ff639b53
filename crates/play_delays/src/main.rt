// Plays a script of calls on sums of delays, and writes each answer with the state that it leaves.
// compare/src/parts/delays plays the same script on the original, and says what each word is.
#![tactic(auto)]

use delays::{Delays, Nanoseconds, Sum};
use play_script::Call;
use std::io;
use std::io::{Read, Write};

// What a call leaves, and its refusal or 0.
#[derive(Clone, Copy)]
struct Outcome {
    refusal: u64,
    state: Delays,
}

fn flag(set: bool) -> u64 {
    if set { 1 } else { 0 }
}

fn recorded(state: Delays, ns: Nanoseconds) -> Outcome {
    match state.record(ns) {
        Ok(next) => Outcome {
            refusal: 0,
            state: next,
        },
        Err(why) => Outcome {
            refusal: u8::from(why) as u64,
            state,
        },
    }
}

fn extreme_of(count: u64, word: u64) -> Option<Nanoseconds> {
    if count == 0 {
        return None;
    }
    Some(delays::from_i64(word.cast_signed()))
}

fn loaded(call: Call) -> Delays {
    let min = extreme_of(call.a, call.e);
    let max = extreme_of(call.a, call.f);
    Delays {
        count: call.a,
        sum: Sum {
            negative: call.b != 0,
            high: call.c,
            low: call.d,
        },
        min,
        max,
    }
}

fn play(state: Delays, call: Call) -> Outcome {
    let operation = call.operation;
    match operation {
        1 => recorded(state, delays::from_u64(call.a)),
        2 => recorded(state, delays::from_i64(call.a.cast_signed())),
        3 => Outcome {
            refusal: 0,
            state: loaded(call),
        },
        _ => Outcome {
            refusal: 0,
            state: Delays::new(),
        },
    }
}

// A word that says whether there is a value, and the value.
#[derive(Clone, Copy)]
struct Words {
    known: u64,
    value: u64,
}

fn ms_words(ms: Option<f64>) -> Words {
    match ms {
        Some(x) => Words {
            known: 1,
            value: play_script::bits_of(x),
        },
        None => Words { known: 0, value: 0 },
    }
}

// Whether there is an extreme, its sign and its magnitude.
#[derive(Clone, Copy)]
struct ExtremeWords {
    known: u64,
    negative: u64,
    magnitude: u64,
}

fn extreme_words(extreme: Option<Nanoseconds>) -> ExtremeWords {
    match extreme {
        Some(ns) => ExtremeWords {
            known: 1,
            negative: flag(ns.negative),
            magnitude: ns.magnitude,
        },
        None => ExtremeWords {
            known: 0,
            negative: 0,
            magnitude: 0,
        },
    }
}

fn write_state<W: Write>(to: &mut W, refusal: u64, state: Delays) -> io::Result<()> {
    let sum = state.sum;
    let least = state.min;
    let min = extreme_words(least);
    play_script::write(
        to,
        [
            refusal,
            state.count,
            flag(sum.negative),
            sum.high,
            sum.low,
            min.known,
            min.negative,
            min.magnitude,
        ],
    )
}

fn write_summary<W: Write>(to: &mut W, state: Delays) -> io::Result<()> {
    let most = state.max;
    let max = extreme_words(most);
    let summary = state.summary();
    let least = summary.min;
    let mean = summary.average;
    let greatest = summary.max;
    let low = ms_words(least);
    let average = ms_words(mean);
    let high = ms_words(greatest);
    play_script::write(
        to,
        [
            max.negative,
            max.magnitude,
            low.known | (average.known << 1) | (high.known << 2),
            low.value,
            average.value,
            high.value,
            0,
            0,
        ],
    )
}

// One call, if there is one.
fn turn<R: Read, W: Write>(from: &mut R, to: &mut W, state: Delays) -> io::Result<Option<Delays>> {
    match play_script::read(from)? {
        None => Ok(None),
        Some(call) => {
            let outcome = play(state, call);
            let next = outcome.state;
            write_state(to, outcome.refusal, next)?;
            write_summary(to, next)?;
            Ok(Some(next))
        }
    }
}

fn main(rt: HostRuntime) -> io::Result<()> {
    let mut from = rt.stdin();
    let mut to = rt.stdout();
    let mut state = Delays::new();
    for _ in 0..u64::MAX {
        match turn(&mut from, &mut to, state)? {
            None => return Ok(()),
            Some(next) => state = next,
        }
    }
    Ok(())
}
