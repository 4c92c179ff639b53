// Plays many logs, and writes the report of each as linkreport prints it, with a 0 byte behind it.
// A log comes as its length, eight bytes with the lowest first, and its bytes. compare/src/parts/logs plays the same logs on the original.
#![tactic(auto)]

ghost use Rattle.std.specs.Prelude.{◌≤◌, ◌≡◌, length};

use limits::numbered;
use std::io;
use std::io::{Read, Write};

fn read_length<R: Read>(from: &mut R) -> io::Result<Option<u64>> {
    let mut bytes = [0u8; 8];
    let got = room_input::fill(from, &mut bytes)?;
    if got < 8 {
        return Ok(None);
    }
    Ok(Some(play_script::word(&bytes, 0)))
}

fn least(length: u64, most: usize) -> usize
    ensures { result ≤ most }
{
    if length < (most as u64) {
        return length as usize;
    }
    most
}

// Plays a log and prints what is said of it.
fn report<W: Write>(
    to: &mut W,
    log: &[u8],
    secret: u32,
    keys: &mut [[u64; 2]],
    slots: &mut [[u64; 3]],
    probes: &mut [[u64; 4]],
    offsets: &mut [u32],
    links: &mut [[u16; 8]],
    text: &mut [u8],
) -> io::Result<()> {
    let words = [secret; 8];
    let answer = link_report::report_log_alone(
        log, &words, keys, slots, probes, offsets, links, text,
    );
    let end = log_print::printed(log, text, numbered(answer));
    log_print::write(to, text, end)?;
    to.write_all(&[0u8])
}

// Reads a log of this length, or as much of it as the room holds, and writes its report.
fn turn<R: Read, W: Write>(
    from: &mut R,
    to: &mut W,
    room: &mut [u8],
    length: u64,
    secret: u32,
    keys: &mut [[u64; 2]],
    slots: &mut [[u64; 3]],
    probes: &mut [[u64; 4]],
    offsets: &mut [u32],
    links: &mut [[u16; 8]],
    text: &mut [u8],
) -> io::Result<()> {
    let size = least(length, room.len());
    room_input::fill(from, &mut room[..size])?;
    report(
        to,
        &room[..size],
        secret,
        keys,
        slots,
        probes,
        offsets,
        links,
        text,
    )
}

// A room is handed from log to log as the last one left it, and each log has another secret: no report may depend on either.
fn main(rt: HostRuntime) -> io::Result<()> {
    let mut from = rt.stdin();
    let mut to = rt.stdout();
    let mut room = [0u8; 66048];
    let mut text = [0u8; 1024];
    let mut keys = [[7u64; 2]; 4096];
    let mut slots = [[7u64; 3]; 4096];
    let mut probes = [[7u64; 4]; 4096];
    let mut offsets = [7u32; 4096];
    let mut links = [[7u16; 8]; 4096];
    let mut turns = u64::MAX;
    while turns > 0 {
        match read_length(&mut from)? {
            None => {
                return Ok(());
            }
            Some(length) => {
                turn(
                    &mut from,
                    &mut to,
                    &mut room,
                    length,
                    (turns % 4294967296) as u32,
                    &mut keys,
                    &mut slots,
                    &mut probes,
                    &mut offsets,
                    &mut links,
                    &mut text,
                )?;
            }
        }
        turns -= 1;
    }
    Ok(())
}
