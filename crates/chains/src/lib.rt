// Rings and chains of equal hash in lent rooms: what `HashMap`, `HashSet` and `VecDeque` of src/sender/measurements.rs stand on here.
// A ring has 4,096 entries. A place counts from its oldest entry, a slot is where the entry of a place stands in the room.
// A row of `links` has four lanes of two links each, at 0, 2, 4 and 6: in row h the newest slot whose entry hashes to h, in row p the slot of
// the next older entry with the hash of the entry in slot p. A walk only goes down in place, so that it ends whatever stands there, and links of
// entries that left need not be cleared. One may be (`end_at`): the newest link of a hash whose last entry leaves. It would lead to the slot's next
// entry, of another hash, and walks would go on through chains that are not theirs.
ghost use Rattle.std.specs.Prelude.{◌≡◌, cond, ℕ, ◌+◌, ◌-◌, ◌*◌, ◌≤◌, ◌<◌, eqb, length};
ghost use Rattle.limits.specs.Limits.{capacity};
ghost use Rattle.chains.specs.Rings.{wrap, push_slot, after_push, RingFits};
ghost use Rattle.chains.specs.Walk.{place_of};
ghost use Rattle.chains.specs.Links.{newest, older, linked, ended};
ghost use Rattle.chains.specs.Hash.{products_of, key_hash, number_hash};

use limits::CAPACITY;

// The slot of the oldest entry, and how many entries there are.
#[derive(Clone, Copy)]
pub struct Ring {
    pub head: usize,
    pub len: usize,
}

fn wide(link: u16) -> usize
    ensures { result ≡ link }
{
    link as usize
}

fn narrow(slot: usize) -> u16
    requires { slot < capacity }
    ensures { result ≡ slot }
{
    slot as u16
}

// A slot that was counted past the end of the room.
pub fn wrapped(i: usize) -> usize
    requires { i < capacity + capacity }
    ensures { (result ≡ wrap capacity i) × (result < capacity) }
{
    if i < CAPACITY { i } else { i - CAPACITY }
}

// Where a push goes: behind the newest entry, or over the oldest.
pub fn push_slot(ring: Ring) -> usize
    requires { RingFits capacity ring }
    ensures { (result ≡ push_slot capacity ring) × (result < capacity) }
{
    if ring.len < CAPACITY {
        return wrapped(ring.head + ring.len);
    }
    ring.head
}

// The ring after a push.
pub fn pushed(ring: Ring) -> Ring
    requires { RingFits capacity ring }
    ensures { (result ≡ after_push capacity ring) × RingFits capacity result }
{
    if ring.len < CAPACITY {
        return Ring {
            head: ring.head,
            len: ring.len + 1,
        };
    }
    Ring {
        head: wrapped(ring.head + 1),
        len: ring.len,
    }
}

// Where a link leads, counted from the oldest entry; 4,096 where it is no slot.
pub fn place(head: usize, link: usize) -> usize
    requires { head < capacity }
    ensures { result ≡ place_of capacity head link }
{
    if link < CAPACITY {
        if link < head {
            return link + CAPACITY - head;
        }
        return link - head;
    }
    CAPACITY
}

// The newest slot whose entry has this hash, in one lane.
pub fn first(links: &[[u16; 8]], lane: usize, hash: usize) -> usize
    requires { (length links.now ≡ capacity) × (lane < 7) × (hash < capacity) }
    ensures { result ≡ newest lane links.now hash }
{
    wide(links[hash][lane])
}

// The slot of the next older entry with the hash of the one in `slot`, in one lane.
pub fn next(links: &[[u16; 8]], lane: usize, slot: usize) -> usize
    requires { (length links.now ≡ capacity) × (lane < 7) × (slot < capacity) }
    ensures { result ≡ older lane links.now slot }
{
    wide(links[slot][lane + 1])
}

// The entry in `slot`, which has this hash, as the newest of its chain, in one lane.
pub fn link(links: &mut [[u16; 8]], lane: usize, hash: usize, slot: usize)
    requires { (length links.old ≡ capacity) × (lane < 7) × (hash < capacity) × (slot < capacity) }
    ensures { links.new ≡ linked lane links.old hash slot }
{
    links[slot][lane + 1] = links[hash][lane];
    links[hash][lane] = narrow(slot);
}

// The newest link of a chain that the entry in `slot` leaves: to no slot where it led there.
fn link_after(newest: u16, slot: usize) -> u16
    ensures { result ≡ cond (eqb newest slot) capacity newest }
{
    if wide(newest) == slot { 4096 } else { newest }
}

// The oldest entry, in `slot` and with this hash, leaves. Where it is the newest of its chain, it is the only one: the chain leads to no slot, in one lane.
// The link is written in either case: which one it is changes from entry to entry, and a jump would be guessed wrong.
pub fn end_at(links: &mut [[u16; 8]], lane: usize, hash: usize, slot: usize)
    requires { (length links.old ≡ capacity) × (lane < 7) × (hash < capacity) }
    ensures { links.new ≡ ended capacity lane links.old hash slot }
{
    links[hash][lane] = link_after(links[hash][lane], slot);
}

fn wide_word(word: u32) -> u64
    ensures { (result ≡ word) × (result < 4294967296) }
{
    word as u64
}

// A piece of at most 22 bits times its secret word.
fn times(word: u32, piece: u64) -> u64
    requires { piece < 4194304 }
    ensures { (result ≡ word * piece) × (result < 18014398509481984) }
{
    wide_word(word) * piece
}

// The three pieces of a word, each times its secret word.
fn products(w0: u32, w1: u32, w2: u32, x: u64) -> u64
    ensures { (result ≡ products_of w0 w1 w2 x) × (result < 54043195528445952) }
{
    times(w0, x % 4194304) + times(w1, x / 4194304 % 4194304) + times(w2, x / 17592186044416)
}

// The hash of a key of two words.
pub fn key_hash(secret: [u32; 8], a: u64, b: u64) -> usize
    ensures { (result ≡ key_hash secret a b) × (result < capacity) }
{
    let first = products(secret[0], secret[1], secret[2], a);
    let second = products(secret[3], secret[4], secret[5], b);
    ((first + second) / 1048576 % 4096) as usize
}

// The hash of a number: a reflector's, a sequence or an offset.
pub fn number_hash(secret: [u32; 8], n: u32) -> usize
    ensures { (result ≡ number_hash secret n) × (result < capacity) }
{
    let wide = wide_word(n);
    let sum = times(secret[0], wide % 4194304) + times(secret[6], wide / 4194304);
    (sum / 1048576 % 4096) as usize
}
