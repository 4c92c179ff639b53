// Calls in, answers out: what the programs that play scripts share. A script is a list of calls of eight or sixteen
// words, an answer a list of words, each word eight bytes, lowest first. compare/src/part.rs has the other side.

#![tactic(auto)]

ghost use Rattle.std.specs.Prelude.{◌≡◌, length};

pub use host_numbers::{bits_of, float_of};
use std::io;
use std::io::{Read, Write};

// One call: its operation, and what it is told.
#[derive(Clone, Copy)]
pub struct Call {
    pub operation: u64,
    pub a: u64,
    pub b: u64,
    pub c: u64,
    pub d: u64,
    pub e: u64,
    pub f: u64,
    pub g: u64,
}

// The byte at a place, 0 past the end.
fn byte(bytes: &[u8], at: usize) -> u64 {
    if at < bytes.len() {
        return u64::from(bytes[at]);
    }
    0
}

// The word whose first byte stands at a place, 0 beyond where any call is.
pub fn word(bytes: &[u8], at: usize) -> u64 {
    if at > 1024 {
        return 0;
    }
    let low = byte(bytes, at)
        | (byte(bytes, at + 1) << 8)
        | (byte(bytes, at + 2) << 16)
        | (byte(bytes, at + 3) << 24);
    let high = byte(bytes, at + 4)
        | (byte(bytes, at + 5) << 8)
        | (byte(bytes, at + 6) << 16)
        | (byte(bytes, at + 7) << 24);
    low | (high << 32)
}

// Reads a call of eight words.
pub fn read<R: Read>(from: &mut R) -> io::Result<Option<Call>> {
    let mut bytes = [0u8; 64];
    let got = room_input::fill(from, &mut bytes)?;
    if got < 64 {
        return Ok(None);
    }
    Ok(Some(Call {
        operation: word(&bytes, 0),
        a: word(&bytes, 8),
        b: word(&bytes, 16),
        c: word(&bytes, 24),
        d: word(&bytes, 32),
        e: word(&bytes, 40),
        f: word(&bytes, 48),
        g: word(&bytes, 56),
    }))
}

// One byte of a word.
fn digit(w: u64, place: u64) -> u8 {
    if place < 8 {
        return ((w >> (8 * place)) % 256) as u8;
    }
    0
}

fn put(bytes: &mut [u8], at: usize, b: u8)
    ensures { length bytes.new ≡ length bytes.old }
{
    if at < bytes.len() {
        bytes[at] = b;
    }
}

// Puts the four low bytes of a word at a place, as far as there is room.
fn put_half(bytes: &mut [u8], at: usize, w: u64)
    ensures { length bytes.new ≡ length bytes.old }
{
    if at < 1024 {
        put(bytes, at, digit(w, 0));
        put(bytes, at + 1, digit(w, 1));
        put(bytes, at + 2, digit(w, 2));
        put(bytes, at + 3, digit(w, 3));
    }
}

// Puts a word's eight bytes at a place, as far as there is room.
fn put_word(bytes: &mut [u8], at: usize, w: u64)
    ensures { length bytes.new ≡ length bytes.old }
{
    if at < 1000 {
        put_half(bytes, at, w);
        put_half(bytes, at + 4, w >> 32);
    }
}

// Writes eight words.
pub fn write<W: Write>(to: &mut W, words: [u64; 8]) -> io::Result<()> {
    let mut bytes = [0u8; 64];
    put_word(&mut bytes, 0, words[0]);
    put_word(&mut bytes, 8, words[1]);
    put_word(&mut bytes, 16, words[2]);
    put_word(&mut bytes, 24, words[3]);
    put_word(&mut bytes, 32, words[4]);
    put_word(&mut bytes, 40, words[5]);
    put_word(&mut bytes, 48, words[6]);
    put_word(&mut bytes, 56, words[7]);
    to.write_all(&bytes)
}

// Two digests of a long list, as compare/src/digest.rs has them.
#[derive(Clone, Copy)]
pub struct Digest {
    pub first: u64,
    pub second: u64,
}

fn mixed(product: u64) -> u64 {
    product ^ (product >> 31)
}

fn first_mixed(x: u64) -> u64 {
    let low = (x % 4294967296) * 2654435761;
    let high = (x >> 32) * 2246822519;
    mixed(low.wrapping_add(high))
}

fn second_mixed(x: u64) -> u64 {
    let low = (x % 4294967296) * 3266489917;
    let high = (x >> 32) * 668265263;
    mixed(low.wrapping_add(high))
}

impl Digest {
    pub fn empty() -> Self {
        Digest {
            first: 0,
            second: 0,
        }
    }

    // One word more: the order counts.
    pub fn then(self, x: u64) -> Self {
        Digest {
            first: self.first.rotate_left(5).wrapping_add(first_mixed(x)),
            second: self.second.rotate_left(11).wrapping_add(second_mixed(x)),
        }
    }

    // One entry more of a set, by its own digest: the order does not count.
    pub fn with(self, entry: Digest) -> Self {
        Digest {
            first: self.first.wrapping_add(entry.first),
            second: self.second.wrapping_add(entry.second),
        }
    }
}
