// Plays a script of calls on estimates and clock quality, and writes each answer with the state that it leaves.
// compare/src/parts/numbers plays the same script on the original, and says what each word is.
#![tactic(auto)]

mod estimates;
mod quality;

use clock_quality::ClockQuality;
use play_script::Call;
use std::io;
use std::io::{Read, Write};

// Eight words, and eight more.
#[derive(Clone, Copy)]
pub struct Answer {
    pub first: [u64; 8],
    pub second: [u64; 8],
}

// What the calls leave.
#[derive(Clone, Copy)]
pub struct State {
    pub quality: ClockQuality,
}

// A call's answer, and what it leaves.
#[derive(Clone, Copy)]
pub struct Outcome {
    pub answer: Answer,
    pub state: State,
}

fn fresh() -> Outcome {
    let quality = ClockQuality::new();
    Outcome {
        answer: Answer {
            first: [0; 8],
            second: [0; 8],
        },
        state: State { quality },
    }
}

fn play(state: State, call: Call) -> Outcome {
    let operation = call.operation;
    match operation {
        1 | 2 | 3 | 4 => Outcome {
            answer: estimates::play(call),
            state,
        },
        5 | 6 | 7 => quality::play(state, call),
        _ => fresh(),
    }
}

// One call, if there is one.
fn turn<R: Read, W: Write>(from: &mut R, to: &mut W, state: State) -> io::Result<Option<State>> {
    match play_script::read(from)? {
        None => Ok(None),
        Some(call) => {
            let outcome = play(state, call);
            let answer = outcome.answer;
            let first = answer.first;
            let second = answer.second;
            play_script::write(to, first)?;
            play_script::write(to, second)?;
            let next = outcome.state;
            Ok(Some(next))
        }
    }
}

fn main(rt: HostRuntime) -> io::Result<()> {
    let mut from = rt.stdin();
    let mut to = rt.stdout();
    let begun = fresh();
    let mut state = begun.state;
    let mut turns = u64::MAX;
    while turns > 0 {
        match turn(&mut from, &mut to, state)? {
            None => {
                return Ok(());
            }
            Some(next) => {
                state = next;
            }
        }
        turns -= 1;
    }
    Ok(())
}
