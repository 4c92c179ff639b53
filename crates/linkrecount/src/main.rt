// Reads a log from standard input, counts it a second time, straight from its records, and writes its report or why it is refused (document 02, Q-13).
// It prints what `linkreport` prints of the same log, and shares with it the reader of the log and the report's text, and nothing else.
#![tactic(auto)]

use limits::numbered;
use std::io;
use std::io::Write;

fn report<W: Write>(to: &mut W, log: &[u8]) -> io::Result<()> {
    let mut marks = [0u8; 682];
    let mut fronts = [0u32; 682];
    let mut text = [0u8; 1024];
    let answer = recount::recount_log(log, &mut marks, &mut fronts, &mut text);
    let end = log_print::printed(log, &mut text, numbered(answer));
    log_print::write(to, &text, end)
}

// One byte more than a log may have: all that is needed to refuse a longer one.
fn main(rt: HostRuntime) -> io::Result<()> {
    let mut log = [0u8; 65537];
    let got = room_input::fill(&mut rt.stdin(), &mut log)?;
    report(&mut rt.stdout(), &log[..got])
}
