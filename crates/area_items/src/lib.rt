// The extension area of a packet (RFC 8972, section 4), `RawTlv` of src/tlv/core.rs: what stands at a place of it. specs/Items.antt says
// which byte strings are areas, specs/Rows.antt what is written of items.
#![tactic(auto)]

ghost use Rattle.std.specs.Prelude.{◌≡◌, ◌+◌, ◌≤◌, length};
ghost use Rattle.area_items.specs.Items.{fits, verdict_at, end_at, item_at};
ghost use Rattle.area_items.specs.Rows.{word_of};

use limits::Refusal;

// Whether a length is one that the type has.
#[tactic(auto, unfolding(crate::specs::Items::fits))]
pub fn length_fits(kind: u8, length: usize) -> bool
    ensures { result ≡ fits kind length }
{
    match kind {
        5 => length == 12,
        7 => length == 16,
        _ => true,
    }
}

// Whether the item at a place is good: the refusal that a bad one brings.
pub fn verdict(bytes: &[u8], at: usize) -> Result<(), Refusal>
    requires { at ≤ length bytes.now }
    ensures { result ≡ verdict_at bytes.now at }
{
    let left = bytes.len() - at;
    if left < 4 {
        return Err(Refusal::PassesEnd);
    }
    let size = big_endian::u16_at(bytes, at + 2) as usize;
    if left - 4 < size {
        return Err(Refusal::PassesEnd);
    }
    if length_fits(bytes[at + 1], size) {
        return Ok(());
    }
    Err(Refusal::WrongLength)
}

// Where a good item ends.
pub fn end_of(bytes: &[u8], at: usize) -> usize
    requires { (at + 4 ≤ length bytes.now) × (end_at bytes.now at ≤ length bytes.now) }
    ensures { result ≡ end_at bytes.now at }
{
    at + 4 + big_endian::u16_at(bytes, at + 2) as usize
}

// A good item in one word.
pub fn word_at(bytes: &[u8], at: usize) -> u64
    requires { (at + 4 ≤ length bytes.now) × (end_at bytes.now at ≤ length bytes.now) }
    ensures { result ≡ word_of (item_at bytes.now at) }
{
    let header = big_endian::u32_at(bytes, at) as u64;
    let place = (at + 4) as u64 % 4294967296;
    header * 4294967296 + place
}
