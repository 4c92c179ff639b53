// What a program prints of a log (document 01, 'Log and program'), as bytes in a buffer: its report, or `refused 9`, `refused 7` or `refused 8 at N`.
// A program hands these bytes, and no others, to the system (`write`).
#![tactic(auto)]

ghost use Rattle.std.specs.Prelude.{◌≡◌, ◌++◌, ◌≤◌, length};
ghost use Rattle.decimal.specs.Decimal.{decimal};
ghost use Rattle.decimal.specs.Writing.{Stands};
ghost use Rattle.template.specs.Text.{bytes};
ghost use Rattle.log_print.specs.Printed.{refusal_line, said, line_in, refused_in, printed_in};

use log_whole::{Fault, Settings};
use report::REPORT_ROOM;
use report::words::{put_figure, put_text};
use std::io;
use std::io::Write;

fn put_bad_record(text: &mut [u8], first: u32) -> usize
    requires { 64 ≤ length text.old }
    ensures { Stands 64 (bytes "refused 8 at " ++ decimal first ++ bytes "\n") text.old 0 text.new result }
{
    let end = put_figure(text, 0, b"refused 8 at ", first as u64);
    put_text(text, end, b"\n")
}

// Why bytes are no log, as a line.
fn put_fault(text: &mut [u8], fault: Fault) -> usize
    requires { 64 ≤ length text.old }
    ensures { said result text.new ≡ line_in (refusal_line (Err fault)) text.old }
{
    match fault {
        Fault::TooLong => put_text(text, 0, b"refused 9\n"),
        Fault::BadTrailer => put_text(text, 0, b"refused 7\n"),
        Fault::BadRecord(first) => put_bad_record(text, first),
    }
}

// Nothing of a log that is good: it is refused only where a room has another size, and a program's have theirs.
fn put_refused(text: &mut [u8], checked: Result<Settings, Fault>) -> usize
    ensures { said result text.new ≡ refused_in checked text.old }
{
    if text.len() != REPORT_ROOM {
        return 0;
    }
    match checked {
        Ok(_) => 0,
        Err(fault) => put_fault(text, fault),
    }
}

// How many bytes at the start of the buffer are to be printed: those of the report that stands there, or of why the log is refused, put there.
pub fn printed(log: &[u8], text: &mut [u8], answer: Result<usize, u8>) -> usize
    ensures { said result text.new ≡ printed_in log.now answer text.old }
{
    match answer {
        Ok(end) => end,
        Err(_) => put_refused(text, log_whole::check(log)),
    }
}

// Hands the first `end` bytes to a writer, as the system's output is one. What the system does with them no contract says.
pub fn write<W: Write>(to: &mut W, text: &[u8], end: usize) -> io::Result<()> {
    if end <= text.len() {
        to.write_all(&text[..end])?;
    }
    Ok(())
}
