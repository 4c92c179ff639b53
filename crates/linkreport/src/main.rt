// Reads a log from standard input, and writes its report or why it is refused (document 01, 'Log and program').
#![tactic(auto)]

use limits::numbered;
use std::io;
use std::io::Write;

// The words of the hash that places keys. They decide where a key is looked for, and no figure.
fn secret() -> [u32; 8] {
    [
        0x9e3779b9, 0x7f4a7c15, 0xf39cc060, 0x5cedc834, 0x1082276b, 0xf3a27251, 0xf86c6a11,
        0xd0c18e95,
    ]
}

fn report<W: Write>(to: &mut W, log: &[u8]) -> io::Result<()> {
    let words = secret();
    let mut keys = [[0u64; 2]; 4096];
    let mut slots = [[0u64; 3]; 4096];
    let mut probes = [[0u64; 4]; 4096];
    let mut offsets = [0u32; 4096];
    let mut links = [[0u16; 8]; 4096];
    let mut text = [0u8; 1024];
    let answer = link_report::report_log_alone(
        log,
        &words,
        &mut keys,
        &mut slots,
        &mut probes,
        &mut offsets,
        &mut links,
        &mut text,
    );
    let end = log_print::printed(log, &mut text, numbered(answer));
    log_print::write(to, &text, end)
}

// One byte more than a log may have: all that is needed to refuse a longer one.
fn main(rt: HostRuntime) -> io::Result<()> {
    let mut log = [0u8; 65537];
    let got = room_input::fill(&mut rt.stdin(), &mut log)?;
    report(&mut rt.stdout(), &log[..got])
}
