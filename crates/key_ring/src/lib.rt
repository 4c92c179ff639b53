// The accepted keys: `replies`, `reply_order` and `correlations` of src/sender/measurements.rs, in lent rooms.
// A ring of the last 4,096 keys; beside each key a row of three words, which its observation leaves. A reflector number's correlation slot
// is the row of its newest observed key (specs/Rows.antt), so there is no table of slots. Two chains through the ring find a key by all of its
// parts (lane 0 of `links`) and the holder of a number's slot (lane 2).
ghost use Rattle.std.specs.Prelude.{◌≡◌, ℕ, ◌+◌, ◌-◌, ◌*◌, ◌%◌, ◌≤◌, ◌<◌, length, get_or};
ghost use Rattle.limits.specs.Limits.{capacity};
ghost use Rattle.chains.specs.Rings.{RingFits};
ghost use Rattle.key_ring.specs.Keys.{numbers_of, key_at, same_key};
ghost use Rattle.key_ring.specs.Rows.{holds?};
ghost use Rattle.key_ring.specs.Table.{table_of, row_at, words_at, stored_at, newest_is, newest_slot, hash_of, find as findKey, holder as holder_of, evicted, pushed, accepted};

use call_types::ReplyKey;
use chains::Ring;
use limits::CAPACITY;

fn wide(number: u32) -> u64
    ensures { (result ≡ number) × (result < 4294967296) }
{
    number as u64
}

// Both sequence numbers of a key in one word.
fn numbers(key: ReplyKey) -> u64
    ensures { result ≡ numbers_of key }
{
    wide(key.sender) * 4294967296 + wide(key.reflector)
}

fn hash(secret: [u32; 8], key: ReplyKey) -> usize
    ensures { (result ≡ hash_of secret key) × (result < capacity) }
{
    chains::key_hash(secret, numbers(key), key.t3)
}

// Whether the key of a slot is this one, in all three parts.
fn key_is(keys: &[[u64; 2]], slot: usize, key: ReplyKey) -> bool
    requires { slot < length keys.now }
    ensures { result ≡ same_key key (key_at keys.now slot) }
{
    let both = numbers(key);
    both == keys[slot][0] && key.t3 == keys[slot][1]
}

// The slot of a key, 4,096 where it is not among the last accepted.
pub fn find(
    keys: &[[u64; 2]],
    links: &[[u16; 8]],
    ring: Ring,
    secret: [u32; 8],
    key: ReplyKey,
) -> usize
    requires { (length keys.now ≡ capacity) × (length links.now ≡ capacity) × RingFits capacity ring }
    ensures { result ≡ findKey secret keys.now links.now ring key }
{
    // No index is counted: a chain is walked, by links.
    let head = ring.head;
    let mut below = ring.len;
    let mut slot = chains::first(links, 0, hash(secret, key));
    let mut place = chains::place(head, slot);
    while place < below {
        if key_is(keys, slot, key) {
            return slot;
        }
        below = place; // a link is followed only down, so that a walk ends whatever the rooms hold
        slot = chains::next(links, 0, slot);
        place = chains::place(head, slot);
    }
    CAPACITY
}

// Whether the row of a slot holds the correlation slot of a number: it was observed, and its key has this number.
fn is_holder(keys: &[[u64; 2]], slots: &[[u64; 3]], slot: usize, number: u32) -> bool
    requires { (slot < length keys.now) × (slot < length slots.now) }
    ensures { result ≡ holds? number (row_at keys.now slots.now slot) }
{
    slots[slot][0] / 65536 % 2 == 1 && wide(number) == keys[slot][0] % 4294967296
}

// The slot of the newest observed key with a reflector number, 4,096 where there is none.
pub fn holder(
    keys: &[[u64; 2]],
    slots: &[[u64; 3]],
    links: &[[u16; 8]],
    ring: Ring,
    secret: [u32; 8],
    number: u32,
) -> usize
    requires { (length keys.now ≡ capacity) × (length slots.now ≡ capacity) × (length links.now ≡ capacity) × RingFits capacity ring }
    ensures { result ≡ holder_of secret keys.now slots.now links.now ring number }
{
    // No index is counted: a chain is walked, by links.
    let head = ring.head;
    let mut below = ring.len;
    let mut slot = chains::first(links, 2, chains::number_hash(secret, number));
    let mut place = chains::place(head, slot);
    while place < below {
        if is_holder(keys, slots, slot, number) {
            return slot;
        }
        below = place;
        slot = chains::next(links, 2, slot);
        place = chains::place(head, slot);
    }
    CAPACITY
}

// The words of a slot; zeros for what is no slot.
pub fn words(slots: &[[u64; 3]], slot: usize) -> [u64; 3]
    requires { length slots.now ≡ capacity }
    ensures { result ≡ words_at capacity slots.now slot }
{
    if slot < CAPACITY {
        return slots[slot];
    }
    [0, 0, 0]
}

// The words of a slot are replaced; nothing for what is no slot.
pub fn store(slots: &mut [[u64; 3]], slot: usize, words: [u64; 3])
    requires { length slots.old ≡ capacity }
    ensures { slots.new ≡ stored_at capacity slots.old slot words }
{
    if slot < CAPACITY {
        slots[slot] = words;
    }
}

// The slot of the newest key, whose own row an observation writes; of an empty ring the head.
pub fn newest(ring: Ring) -> usize
    requires { RingFits capacity ring }
    ensures { (result ≡ newest_slot capacity ring) × (result < capacity) }
{
    if ring.len == 0 {
        return ring.head;
    }
    chains::wrapped(ring.head + (ring.len - 1))
}

// Whether the newest key is this one: the only key that can await its observation.
pub fn is_newest(keys: &[[u64; 2]], ring: Ring, key: ReplyKey) -> bool
    requires { (length keys.now ≡ capacity) × RingFits capacity ring }
    ensures { result ≡ newest_is capacity keys.now ring key }
{
    if ring.len == 0 {
        return false;
    }
    key_is(keys, newest(ring), key)
}

// The oldest key goes where the ring is full: the slot of its reflector number falls by one.
fn evict(
    keys: &[[u64; 2]],
    slots: &mut [[u64; 3]],
    links: &[[u16; 8]],
    ring: Ring,
    secret: [u32; 8],
)
    requires { (length keys.now ≡ capacity) × (length slots.old ≡ capacity) × (length links.now ≡ capacity) × RingFits capacity ring }
    ensures { slots.new ≡ evicted secret keys.now slots.old links.now ring }
{
    let head = ring.head;
    if ring.len < CAPACITY {
        return;
    }
    let number = (keys[head][0] % 4294967296) as u32;
    let at = holder(keys, slots, links, ring, secret, number);
    if at < CAPACITY {
        slots[at][0] = correlation::lower_word(slots[at][0]);
    }
}

// The key as the newest, not observed, over the oldest where the ring is full.
fn push(
    keys: &mut [[u64; 2]],
    slots: &mut [[u64; 3]],
    links: &mut [[u16; 8]],
    ring: Ring,
    secret: [u32; 8],
    key: ReplyKey,
) -> Ring
    requires { (length keys.old ≡ capacity) × (length slots.old ≡ capacity) × (length links.old ≡ capacity) × RingFits capacity ring }
    ensures { table_of keys.new slots.new links.new result ≡ pushed secret (table_of keys.old slots.old links.old ring) key }
{
    let at = chains::push_slot(ring);
    keys[at] = [numbers(key), key.t3];
    slots[at] = [0, 0, 0];
    chains::link(links, 0, hash(secret, key), at);
    chains::link(links, 2, chains::number_hash(secret, key.reflector), at);
    chains::pushed(ring)
}

// The key over the oldest of a full ring. The hashes of the oldest come first: after the walk to the holder of its slot, the words of the hash
// would have lain on the stack meanwhile.
fn replace(
    keys: &mut [[u64; 2]],
    slots: &mut [[u64; 3]],
    links: &mut [[u16; 8]],
    ring: Ring,
    secret: [u32; 8],
    key: ReplyKey,
) -> Ring
    requires { (length keys.old ≡ capacity) × (length slots.old ≡ capacity) × (length links.old ≡ capacity) × RingFits capacity ring × (capacity ≤ ring.len) }
    ensures { table_of keys.new slots.new links.new result ≡ accepted secret (table_of keys.old slots.old links.old ring) key }
{
    let head = ring.head;
    let both = keys[head][0];
    let number = (both % 4294967296) as u32;
    let by_key = chains::key_hash(secret, both, keys[head][1]);
    let by_number = chains::number_hash(secret, number);
    evict(keys, slots, links, ring, secret);
    // Its chains end after its slot fell: the holder may be the oldest key itself, found through its chain.
    chains::end_at(links, 0, by_key, head);
    chains::end_at(links, 2, by_number, head);
    push(keys, slots, links, ring, secret, key)
}

// A unique reply's key is accepted: the oldest goes where the ring is full, and this one is the newest. That is asked once, for all that it bears on.
pub fn accept_key(
    keys: &mut [[u64; 2]],
    slots: &mut [[u64; 3]],
    links: &mut [[u16; 8]],
    ring: Ring,
    secret: [u32; 8],
    key: ReplyKey,
) -> Ring
    requires { (length keys.old ≡ capacity) × (length slots.old ≡ capacity) × (length links.old ≡ capacity) × RingFits capacity ring }
    ensures { table_of keys.new slots.new links.new result ≡ accepted secret (table_of keys.old slots.old links.old ring) key }
{
    if ring.len < CAPACITY {
        return push(keys, slots, links, ring, secret, key);
    }
    replace(keys, slots, links, ring, secret, key)
}
