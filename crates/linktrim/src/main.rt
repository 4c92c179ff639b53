// Reads a log that was cut short from standard input, and writes what is left of it, as a log that `linkreport` reads, to standard output (document 02, Q-11).
// Its three words are the trailer's settings. On standard error it says in one line `kept N stop N dropped N`, or `refused 9`, or what was wrong.
#![tactic(auto)]

use limits::Refusal;
use log_trim::Cut;
use std::env::{Env, FillError};
use std::io::{Read, Write};

// Whether the first `end` bytes are written.
fn write<W: Write>(to: &mut W, text: &[u8], end: usize) -> bool {
    if end > text.len() {
        return false;
    }
    to.write_all(&text[..end]).is_ok()
}

// Where nothing can be said, nothing is.
fn say<E: Write>(errors: &mut E, text: &[u8]) {
    write(errors, text, text.len());
}

fn say_cut<E: Write>(errors: &mut E, cut: Cut) {
    let mut text = [0u8; 128];
    let end = trim_print::put_cut(
        &mut text,
        cut.kept as u64,
        cut.stop as u64,
        cut.dropped as u64,
    );
    write(errors, &text, end);
}

fn say_refused<E: Write>(errors: &mut E, refusal: Refusal) {
    let mut text = [0u8; 128];
    let end = trim_print::put_refused(&mut text, u64::from(u8::from(refusal)));
    write(errors, &text, end);
}

// The log is written first: the line means that it is there.
fn put_log<W: Write, E: Write>(to: &mut W, errors: &mut E, room: &[u8], cut: Cut) {
    let stop = cut.stop;
    if stop <= 65512 {
        if write(to, room, stop + 24) {
            say_cut(errors, cut);
            return;
        }
    }
    say(errors, b"linktrim: the log could not be written\n");
}

// No room is short here: 65,536 bytes hold every log.
fn trim<W: Write, E: Write>(
    to: &mut W,
    errors: &mut E,
    log: &[u8],
    copies: u16,
    threshold: u16,
    timeout: u64,
) {
    let mut room = [0u8; 65536];
    let trimmed = log_trim::trim(log, copies, threshold, timeout, &mut room);
    match trimmed {
        Ok(cut) => put_log(to, errors, &room, cut),
        Err(refusal) => say_refused(errors, refusal),
    }
}

// Whether nothing more is to come: a read that fails is no end.
fn ended<R: Read>(from: &mut R) -> bool {
    let mut one = [0u8; 1];
    matches!(from.read(&mut one), Ok(0))
}

// One byte more than a log may have: all that is needed to refuse a longer one.
fn trim_input<R: Read, W: Write, E: Write>(
    from: &mut R,
    to: &mut W,
    errors: &mut E,
    copies: u16,
    threshold: u16,
    timeout: u64,
) {
    let mut log = [0u8; 65537];
    let Ok(got) = room_input::fill(from, &mut log) else {
        say(errors, b"linktrim: the log could not be read\n");
        return;
    };
    if got < 65537 {
        if !ended(from) {
            say(errors, b"linktrim: the log could not be read\n");
            return;
        }
    }
    trim(to, errors, &log[..got], copies, threshold, timeout);
}

// A word that is longer than its buffer, or is not there, is wrong.
fn small<R: Env>(rt: &R, i: usize) -> Option<u16> {
    let mut word = [0u8; 64];
    match rt.arg(i, &mut word) {
        Ok(end) => decimal_word::u16_of(&word[..end]),
        Err(_) => None,
    }
}

fn large<R: Env>(rt: &R, i: usize) -> Option<u64> {
    let mut word = [0u8; 64];
    match rt.arg(i, &mut word) {
        Ok(end) => decimal_word::u64_of(&word[..end], 18446744073709551615),
        Err(_) => None,
    }
}

fn is_there<R: Env>(rt: &R, i: usize) -> bool {
    let mut word = [0u8; 64];
    !matches!(rt.arg(i, &mut word), Err(FillError::NotPresent))
}

fn main(rt: HostRuntime) {
    let mut errors = rt.stderr();
    if !is_there(&rt, 3) || is_there(&rt, 4) {
        say(
            &mut errors,
            b"usage: linktrim COPIES THRESHOLD TIMEOUT < cut.log > whole.log\n",
        );
        return;
    }
    let Some(copies) = small(&rt, 1) else {
        say(
            &mut errors,
            b"linktrim: COPIES is a number from 0 to 65535\n",
        );
        return;
    };
    let Some(threshold) = small(&rt, 2) else {
        say(
            &mut errors,
            b"linktrim: THRESHOLD is a number from 0 to 65535\n",
        );
        return;
    };
    let Some(timeout) = large(&rt, 3) else {
        say(
            &mut errors,
            b"linktrim: TIMEOUT is a number from 0 to 18446744073709551615\n",
        );
        return;
    };
    trim_input(
        &mut rt.stdin(),
        &mut rt.stdout(),
        &mut errors,
        copies,
        threshold,
        timeout,
    );
}
