// A text with places, filled from a list of values: a byte of the template is copied, and at each place the next value is written.
pub mod words;

ghost use Rattle.std.specs.Prelude.{◌+◌, ◌≤◌, length};
ghost use Rattle.decimal.specs.Decimal.{most_digits};
ghost use Rattle.decimal.specs.Writing.{Stands};
ghost use Rattle.template.specs.Filled.{shown_text, places, most_filled, filled};

use crate::words::put_text;

// How many places the template has.
pub const PLACES: usize = 31;

// The byte of the template that stands for a value.
pub const PLACE: u8 = b'#';

// What a place shows: a number, `-` where it is absent, or the word of a session's state. Each is a text of its own: an `Option` of a number would
// leave the states no place.
#[derive(Clone, Copy)]
pub enum Shown {
    Absent,
    Number(u64),
    None,
    Idle,
    Active,
    Failed,
}

fn put_shown(bytes: &mut [u8], at: usize, shown: Shown) -> usize
    requires { at + most_digits ≤ length bytes.old }
    ensures { Stands most_digits (shown_text shown) bytes.old at bytes.new result }
{
    match shown {
        Shown::Absent => put_text(bytes, at, b"-"),
        Shown::Number(n) => decimal::put_decimal(bytes, at, n),
        Shown::None => put_text(bytes, at, b"none"),
        Shown::Idle => put_text(bytes, at, b"idle"),
        Shown::Active => put_text(bytes, at, b"active"),
        Shown::Failed => put_text(bytes, at, b"failed"),
    }
}

// Writes the filled template at the start of the bytes, and answers the place behind it.
pub fn fill(bytes: &mut [u8], template: &[u8], values: [Shown; PLACES]) -> usize
    requires { (places template.now ≤ length values) × (most_filled template.now values ≤ length bytes.old) }
    ensures { Stands (most_filled template.now values) (filled template.now values) bytes.old 0 bytes.new result }
{
    let mut at: usize = 0;
    let mut next: usize = 0;
    for byte in template {
        if *byte == PLACE {
            at = put_shown(bytes, at, values[next]);
            next += 1;
        } else {
            bytes[at] = *byte;
            at += 1;
        }
    }
    at
}
