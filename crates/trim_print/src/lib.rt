// The line that `linktrim` says of a log (document 02, Q-11), as bytes at the start of a buffer: `kept N stop N dropped N`, or `refused N`.
ghost use Rattle.std.specs.Prelude.{◌≤◌, length};
ghost use Rattle.decimal.specs.Writing.{Stands};
ghost use Rattle.trim_print.specs.Lines.{cut_line, refused_line};

use template::words::{put_figure, put_text};

pub fn put_cut(text: &mut [u8], kept: u64, stop: u64, dropped: u64) -> usize
    requires { 128 ≤ length text.old }
    ensures { Stands 81 (cut_line kept stop dropped) text.old 0 text.new result }
{
    let first = put_figure(text, 0, b"kept ", kept);
    let second = put_figure(text, first, b" stop ", stop);
    let third = put_figure(text, second, b" dropped ", dropped);
    put_text(text, third, b"\n")
}

pub fn put_refused(text: &mut [u8], number: u64) -> usize
    requires { 128 ≤ length text.old }
    ensures { Stands 29 (refused_line number) text.old 0 text.new result }
{
    let end = put_figure(text, 0, b"refused ", number);
    put_text(text, end, b"\n")
}
