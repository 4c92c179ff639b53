// Plays a script of calls on the quantiles, and writes each answer with the state that it leaves.
// compare/src/parts/quantiles plays the same script on the original, and says what each word is.
#![tactic(auto)]

ghost use Rattle.std.specs.Prelude.{◌≤◌};

mod digests;

use limits::Refusal;
use play_script::{Call, Digest};
use quantiles::Quantiles;
use std::io;
use std::io::{Read, Write};

// What a call answers: its refusal or 0, whether it recorded or shows a value, the value, and the state that it leaves.
#[derive(Clone, Copy)]
struct Outcome {
    refusal: u64,
    flag: u64,
    value: u64,
    state: Quantiles,
}

fn left(state: Quantiles) -> Outcome {
    Outcome {
        refusal: 0,
        flag: 0,
        value: 0,
        state,
    }
}

fn refused(state: Quantiles, refusal: Refusal) -> Outcome {
    Outcome {
        refusal: u8::from(refusal) as u64,
        flag: 0,
        value: 0,
        state,
    }
}

// How many words of the room are lent: all that the width has, less those that the call leaves out.
fn lent(signed: bool, short: u64) -> usize {
    let size = quantile_room::room_size(signed);
    let less = (short % 8192) as usize;
    if less < size { size - less } else { 0 }
}

fn record(state: Quantiles, room: &mut [u64], value: u64, short: u64) -> Outcome {
    let end = lent(state.signed, short);
    if end > room.len() {
        return left(state);
    }
    match state.record(&mut room[..end], value) {
        Err(refusal) => refused(state, refusal),
        Ok(None) => left(state),
        Ok(Some(next)) => Outcome {
            refusal: 0,
            flag: 1,
            value: 0,
            state: next,
        },
    }
}

// One percentile, in an answer of one word.
fn percentile(state: Quantiles, room: &[u64], bits: u64, short: u64) -> Outcome {
    let end = lent(state.signed, short);
    if end > room.len() {
        return left(state);
    }
    let ps = [play_script::float_of(bits)];
    let mut shown = [0u64; 1];
    match percentiles::percentiles(state, &room[..end], &ps, &mut shown) {
        Err(refusal) => refused(state, refusal),
        Ok(false) => left(state),
        Ok(true) => Outcome {
            refusal: 0,
            flag: 1,
            value: shown[0],
            state,
        },
    }
}

fn put(room: &mut [u64], at: usize, word: u64) {
    if at < room.len() {
        room[at] = word;
    }
}

fn word(room: &[u64], at: usize) -> u64 {
    if at < room.len() { room[at] } else { 0 }
}

// The word where the totals begin.
fn totals(signed: bool) -> usize
    ensures { result ≤ 18689 }
{
    if signed { 18689 } else { 11520 }
}

// A bucket is made to hold a count, and the total of its block goes with it.
fn load_bucket(state: Quantiles, room: &mut [u64], bucket: u64, count: u64) {
    let place = (bucket % 16384) as usize;
    let at = 4096 + place;
    let block = totals(state.signed) + place / 128;
    let more = std::num::wrapping_sub_u64(count, word(room, at));
    let total = std::num::wrapping_add_u64(word(room, block), more);
    put(room, at, count);
    put(room, block, total);
}

// A total is made to hold a count, whatever its buckets hold.
fn load_total(state: Quantiles, room: &mut [u64], block: u64, count: u64) {
    put(room, totals(state.signed) + (block % 128) as usize, count);
}

// A bucket is made to hold a count, whatever the total of its block is.
fn spoil_bucket(room: &mut [u64], bucket: u64, count: u64) {
    put(room, 4096 + (bucket % 16384) as usize, count);
}

fn clear(room: &mut [u64]) {
    if 4096 <= room.len() {
        histogram::clear(&mut room[4096..]);
    }
}

fn load(state: Quantiles, room: &mut [u64], call: Call) -> Outcome {
    clear(room);
    left(Quantiles {
        signed: state.signed,
        count: call.a,
        min: call.b,
        max: call.c,
    })
}

fn play(state: Quantiles, room: &mut [u64], call: Call) -> Outcome {
    let operation = call.operation;
    if operation == 0 {
        return left(quantiles::fresh(call.a != 0));
    }
    if operation == 1 {
        return record(state, room, call.a, 0);
    }
    if operation == 2 {
        return percentile(state, room, call.a, 0);
    }
    if operation == 3 {
        return load(state, room, call);
    }
    if operation == 4 {
        load_bucket(state, room, call.a, call.b);
        return left(state);
    }
    if operation == 7 {
        load_total(state, room, call.a, call.b);
        return left(state);
    }
    if operation == 8 {
        spoil_bucket(room, call.a, call.b);
        return left(state);
    }
    if operation == 5 {
        return record(state, room, call.a, call.b);
    }
    percentile(state, room, call.a, call.b)
}

fn write<W: Write>(to: &mut W, outcome: Outcome, digest: Digest) -> io::Result<()> {
    let q = outcome.state;
    play_script::write(
        to,
        [
            outcome.refusal,
            outcome.flag,
            outcome.value,
            q.count,
            q.min,
            q.max,
            digest.first,
            digest.second,
        ],
    )
}

// One call, if there is one.
fn turn<R: Read, W: Write>(
    from: &mut R,
    to: &mut W,
    state: Quantiles,
    room: &mut [u64],
) -> io::Result<Option<Quantiles>> {
    match play_script::read(from)? {
        None => Ok(None),
        Some(call) => {
            let outcome = play(state, room, call);
            let next = outcome.state;
            write(to, outcome, digests::digest(next, room, call.g == 1))?;
            Ok(Some(next))
        }
    }
}

fn main(rt: HostRuntime) -> io::Result<()> {
    let mut from = rt.stdin();
    let mut to = rt.stdout();
    let mut state = quantiles::fresh(false);
    let mut room = [0u64; 18804];
    for _ in 0..u64::MAX {
        match turn(&mut from, &mut to, state, &mut room)? {
            None => return Ok(()),
            Some(next) => state = next,
        }
    }
    Ok(())
}
