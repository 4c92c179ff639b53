// A writer of the extension area (RFC 8972, section 4) into lent bytes: `RawTlv::write_to` of src/tlv/core.rs, one item after the other. An
// item is one word, as the reader gives it: its header's four bytes, then 32 bits of where its value begins in other lent bytes.
#![tactic(auto)]

ghost use Rattle.std.specs.Prelude.{◌≡◌, ◌+◌, ◌≤◌, ◌<◌, length, get_or, Ok};
ghost use Rattle.std.proofs.Math.Seq.{paste};
ghost use Rattle.area_items.specs.Rows.{item_bytes, as_written};
ghost use Rattle.area_write.specs.Write.{flags_of, kind_of, length_of, place_of, item_in, verdict_in, first_bad, size_of, needed, sized, row_of, outcome, write_into};

use limits::Refusal;

fn flags_of(word: u64) -> u8
    ensures { result ≡ flags_of word }
{
    (word / 72057594037927936) as u8
}

fn kind_of(word: u64) -> u8
    ensures { result ≡ kind_of word }
{
    (word / 281474976710656 % 256) as u8
}

fn length_of(word: u64) -> usize
    ensures { (result ≡ length_of word) × (result < 65536) }
{
    (word / 4294967296 % 65536) as usize
}

fn place_of(word: u64) -> usize
    ensures { (result ≡ place_of word) × (result < 4294967296) }
{
    (word % 4294967296) as usize
}

fn verdict(values: &[u8], word: u64) -> Result<(), Refusal>
    ensures { result ≡ verdict_in values.now word }
{
    let size = length_of(word);
    let end = place_of(word) + size;
    if values.len() < end {
        return Err(Refusal::PassesEnd);
    }
    if area_items::length_fits(kind_of(word), size) {
        return Ok(());
    }
    Err(Refusal::WrongLength)
}

fn first_bad(items: &[u64], values: &[u8]) -> Result<(), Refusal>
    ensures { result ≡ first_bad values.now items.now }
{
    for word in items {
        verdict(values, *word)?;
    }
    Ok(())
}

// The reserved bytes of type 7 are 0.
fn value_byte(word: u64, values: &[u8], at: usize) -> u8
    requires { (verdict_in values.now word ≡ Ok tt) × (at < length_of word) }
    ensures { result ≡ get_or (item_bytes (as_written (item_in values.now word))) (at + 4) 0 }
{
    let from = place_of(word) + at;
    if kind_of(word) == 7 {
        if at > 12 {
            return 0;
        }
        return values[from];
    }
    values[from]
}

fn byte_of(word: u64, values: &[u8], at: usize) -> u8
    requires { (verdict_in values.now word ≡ Ok tt) × (at < size_of word) }
    ensures { result ≡ get_or (item_bytes (as_written (item_in values.now word))) at 0 }
{
    let size = length_of(word);
    if at == 0 {
        return flags_of(word);
    }
    if at == 1 {
        return kind_of(word);
    }
    if at == 2 {
        return (size / 256) as u8;
    }
    if at == 3 {
        return (size % 256) as u8;
    }
    value_byte(word, values, at - 4)
}

fn put_item(word: u64, values: &[u8], room: &mut [u8], at: usize)
    requires { (verdict_in values.now word ≡ Ok tt) × (at + size_of word ≤ length room.old) }
    ensures { room.new ≡ paste room.old at (item_bytes (as_written (item_in values.now word))) (size_of word) }
{
    let size = length_of(word) + 4;
    for index in 0..size {
        room[at + index] = byte_of(word, values, index);
    }
}

fn size_of(items: &[u64], most: usize) -> Option<usize>
    ensures { result ≡ sized most items.now }
{
    let mut left = most;
    for word in items {
        let size = length_of(*word) + 4;
        if left < size {
            return None;
        }
        left -= size;
    }
    Some(most - left)
}

fn put_items(items: &[u64], values: &[u8], room: &mut [u8])
    requires { (first_bad values.now items.now ≡ Ok tt) × (needed items.now ≤ length room.old) }
    ensures { room.new ≡ paste room.old 0 (row_of values.now items.now) (needed items.now) }
{
    let mut at: usize = 0;
    for word in items {
        put_item(*word, values, room, at);
        at += length_of(*word) + 4;
    }
}

// The items in a row at the start of the room, and how many bytes they take. Refused when a value passes the end of `values`, then for type 5
// or 7 with another length, the first bad item first; then for a room shorter than they need.
pub fn write(items: &[u64], values: &[u8], room: &mut [u8]) -> Result<usize, Refusal>
    ensures { outcome result room.new ≡ write_into items.now values.now room.old }
{
    first_bad(items, values)?;
    let Some(size) = size_of(items, room.len()) else {
        return Err(Refusal::ShortRoom);
    };
    put_items(items, values, room);
    Ok(size)
}
