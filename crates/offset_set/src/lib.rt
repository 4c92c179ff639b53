// `seen` of `Direct` in src/sender/measurements.rs: the transmit offsets seen since the anchor, in two lent rooms.
// They stand in the order of their arrival, from entry 0 of `offsets` on, and lane 6 of `links` has their chains of equal hash.
// The set is cleared by a count of 0, whatever the rooms hold.
ghost use Rattle.std.specs.Prelude.{◌≡◌, ◌≤◌, length};
ghost use Rattle.limits.specs.Limits.{capacity};
ghost use Rattle.chains.specs.Hash.{number_hash};
ghost use Rattle.offset_set.specs.Offsets.{offset_set, contains, added};

use chains::{first, link, next, number_hash};
use limits::CAPACITY;

// The lane of `links` that is the offsets' own.
pub const LANE: usize = 6;

// Whether the offset is among the `count` offsets. Its chain only says where to look: the offset itself is compared.
pub fn contains(
    offsets: &[u32],
    links: &[[u16; 8]],
    count: usize,
    secret: [u32; 8],
    offset: u32,
) -> bool
    requires { (length offsets.now ≡ capacity) × (length links.now ≡ capacity) × (count ≤ capacity) }
    ensures { result ≡ contains capacity (number_hash secret) (offset_set offsets.now links.now count) offset }
{
    // No index is counted: a chain is walked, by links.
    let hash = number_hash(secret, offset);
    let mut bound = count;
    let mut slot = first(links, LANE, hash);
    while slot < bound {
        if offset == offsets[slot] {
            return true;
        }
        bound = slot;
        slot = next(links, LANE, slot);
    }
    false
}

// One offset more, and how many there are then. A set of 4,096 stays as it is.
pub fn add(
    offsets: &mut [u32],
    links: &mut [[u16; 8]],
    count: usize,
    secret: [u32; 8],
    offset: u32,
) -> usize
    requires { (length offsets.old ≡ capacity) × (length links.old ≡ capacity) × (count ≤ capacity) }
    ensures { offset_set offsets.new links.new result ≡ added capacity (number_hash secret) (offset_set offsets.old links.old count) offset }
{
    if count < CAPACITY {
        let hash = number_hash(secret, offset);
        offsets[count] = offset;
        link(links, LANE, hash, count);
        return count + 1;
    }
    count
}
