// A reader of the extension area (RFC 8972, section 4) over lent bytes: no byte is copied. `RawTlv::parse` of src/tlv/core.rs, one item
// after the other.
#![tactic(auto)]

ghost use Rattle.std.specs.Prelude.{◌≡◌, ◌≤◌, length};
ghost use Rattle.std.proofs.Math.Seq.{paste};
ghost use Rattle.area_items.specs.Items.{area};
ghost use Rattle.area_read.specs.Read.{checked_of, items_of, words_of, outcome, read_into};

use limits::Refusal;

// How many items an area has. Refused when a header or a value passes the end, then for type 5 or 7 with another length; the first bad item
// decides.
pub fn check(bytes: &[u8]) -> Result<usize, Refusal>
    ensures { result ≡ checked_of (area bytes.now) }
{
    let mut at: usize = 0;
    let mut count: usize = 0;
    // A place that moves by the length that each item's header says: no range or iterator of the library steps so.
    while at < bytes.len() {
        area_items::verdict(bytes, at)?;
        at = area_items::end_of(bytes, at);
        count += 1;
    }
    Ok(count)
}

// The words of the first items of a good area.
fn list(bytes: &[u8], room: &mut [u64], last: usize)
    requires { (last ≤ length room.old) × (last ≤ length (items_of (area bytes.now))) }
    ensures { room.new ≡ paste room.old 0 (words_of (items_of (area bytes.now))) last }
{
    let mut at: usize = 0;
    for index in 0..last {
        room[index] = area_items::word_at(bytes, at);
        at = area_items::end_of(bytes, at);
    }
}

// The items of an area, each in one word at the start of the room, as many as it has place for; the answer says how many there are.
pub fn read(bytes: &[u8], room: &mut [u64]) -> Result<usize, Refusal>
    ensures { outcome result room.new ≡ read_into bytes.now room.old }
{
    let count = check(bytes)?;
    list(bytes, room, count.min(room.len()));
    Ok(count)
}
