// `probes` and `probe_order` of src/sender/measurements.rs: the held probes, a ring in two lent rooms.
// A row of `probes` has a probe's four words, and lane 4 of `links` has the chains of equal hash of their sequences.
ghost use Rattle.std.specs.Prelude.{◌≡◌, [], ◌+◌, ◌-◌, ◌*◌, ◌/◌, ◌%◌, ◌≤◌, ◌<◌, leb, length, get_or, set};
ghost use Rattle.limits.specs.Limits.{capacity};
ghost use Rattle.chains.specs.Rings.{RingFits};
ghost use Rattle.chains.specs.Hash.{number_hash};
ghost use Rattle.chains.specs.Walk.{place_of};
ghost use Rattle.probe_ring.specs.Row.{one_more, packet_after, unanswered, after_reply, is_answered, known_of, number_of, ordinal_of, replies_of, words_of, held_probe_of};
ghost use Rattle.probe_ring.specs.Rooms.{rooms, outcome, slot_of, pushed, remembered, taken_out, moved, move_row, move_link, mended_link, mend_newest};

use call_types::PendingPacket;
use chains::{Ring, first, link, next, number_hash, place, push_slot};
use limits::CAPACITY;

// The lane of `links` that is the probes' own.
pub const LANE: usize = 4;

// `Probe` of the original, with its sequence and its train (document 02, Q-3). It is answered where it has replies.
#[derive(Clone, Copy)]
pub struct HeldProbe {
    pub sequence: u32,
    pub replies: u16,
    pub ordinal: Option<u32>,
    pub train: u32,
    pub packet: PendingPacket,
}

// What `remember` answers: the ring then, the slot of the probe, whether the oldest went for it, and whether that had no reply.
#[derive(Clone, Copy)]
pub struct Remembered {
    pub ring: Ring,
    pub slot: usize,
    pub evicted: bool,
    pub lost: bool,
}

fn wide(x: u32) -> u64
    ensures { (result ≡ x) × (result < 4294967296) }
{
    x as u64
}

fn low(word: u64) -> u32
    ensures { result ≡ word % 4294967296 }
{
    (word % 4294967296) as u32
}

fn narrow(n: usize) -> u16
    requires { n ≤ capacity }
    ensures { result ≡ n }
{
    n as u16
}

fn wide_count(x: u16) -> u64
    ensures { (result ≡ x) × (result < 65536) }
{
    x as u64
}

fn count_of(word: u64) -> u16
    ensures { result ≡ word / 4294967296 % 65536 }
{
    (word / 4294967296 % 65536) as u16
}

// One reply more; the count stays at its largest, as `saturating_add` does.
#[tactic(auto, unfolding(crate::specs::Row::one_more))]
fn one_more(replies: u16) -> u16
    ensures { result ≡ one_more replies }
{
    replies.saturating_add(1)
}

fn known_of(ordinal: Option<u32>) -> u64
    ensures { (result ≡ known_of ordinal) × (result < 2) }
{
    match ordinal {
        None => 0,
        Some(_) => 1,
    }
}

fn number_of(ordinal: Option<u32>) -> u64
    ensures { (result ≡ number_of ordinal) × (result < 4294967296) }
{
    match ordinal {
        None => 0,
        Some(n) => n as u64,
    }
}

fn ordinal_of(known: u64, number: u32) -> Option<u32>
    ensures { result ≡ ordinal_of known number }
{
    if known == 0 { None } else { Some(number) }
}

fn packet_after(pending: Option<PendingPacket>, stored: PendingPacket) -> PendingPacket
    ensures { result ≡ packet_after pending stored }
{
    pending.unwrap_or(stored)
}

impl HeldProbe {
    // A probe just remembered.
    pub fn unanswered(
        sequence: u32,
        packet: PendingPacket,
        ordinal: Option<u32>,
        train: u32,
    ) -> HeldProbe
        ensures { result ≡ unanswered sequence packet ordinal train }
    {
        HeldProbe {
            sequence,
            replies: 0,
            ordinal,
            train,
            packet,
        }
    }

    pub fn answered(self) -> bool
        ensures { result ≡ is_answered self }
    {
        self.replies > 0
    }

    // The probe after one more reply. A pending packet carries a corrected send time and replaces the stored one.
    #[tactic(auto, unfolding(crate::specs::Row::after_reply))]
    pub fn after_reply(self, pending: Option<PendingPacket>) -> HeldProbe
        ensures { result ≡ after_reply pending self }
    {
        HeldProbe {
            replies: one_more(self.replies),
            packet: packet_after(pending, self.packet),
            ..self
        }
    }

    // The row of a probe.
    pub fn words(self) -> [u64; 4]
        ensures { result ≡ words_of self }
    {
        let ordinal = self.ordinal;
        let first = wide(self.sequence)
            + (wide_count(self.replies) + known_of(ordinal) * 65536) * 4294967296;
        let second = number_of(ordinal) + wide(self.train) * 4294967296;
        [first, second, self.packet.time, self.packet.tag]
    }

    // The probe of a row, whatever its words.
    pub fn of_words(words: [u64; 4]) -> HeldProbe
        ensures { result ≡ held_probe_of words }
    {
        let sequence = low(words[0]);
        let replies = count_of(words[0]);
        let ordinal = ordinal_of(words[0] / 4294967296 / 65536, low(words[1]));
        let train = low(words[1] / 4294967296);
        let packet = PendingPacket {
            time: words[2],
            tag: words[3],
        };
        HeldProbe {
            sequence,
            replies,
            ordinal,
            train,
            packet,
        }
    }
}

// ---- taking a probe out of the middle

// A link after the probe at place `gone`, whose own link is `own`, was taken out. `lift` is 4,096 less the ring's head. Remainders and
// words of 16 bits, since up to 8,192 links are mended at a time: comparisons would take twice as long.
fn mended(lift: u16, gone: u16, own: u16, link: u16) -> u16
    requires { lift ≤ capacity }
    ensures { result ≡ mended_link capacity lift gone own link }
{
    let slot = link % 4096;
    let at = (slot + lift) % 4096;
    if gone < at {
        return (slot + 4095) % 4096;
    }
    if gone == at {
        return own;
    }
    link
}

// The links to the newest of each hash.
fn mend_newest(links: &mut [[u16; 8]], lift: u16, gone: u16, own: u16)
    requires { (length links.old ≡ capacity) × (lift ≤ capacity) }
    ensures { links.new ≡ mend_newest (mended_link capacity lift gone own) links.old }
{
    for row in links.iter_mut() {
        row[LANE] = mended(lift, gone, own, row[LANE]);
    }
}

// Rows `from` to `to` each take the next one, where that does not pass the end of the room.
fn slide_rows(rows: &mut [[u64; 4]], from: usize, to: usize)
    requires { (length rows.old ≡ capacity) × (from ≤ to) × (to < capacity) }
    ensures { rows.new ≡ moved capacity move_row from (to - from) rows.old }
{
    // An index: each row takes what the next one holds.
    for i in from..to {
        rows[i] = rows[i + 1];
    }
}

// Their links to the next older ones likewise, mended.
fn slide_links(links: &mut [[u16; 8]], from: usize, to: usize, lift: u16, gone: u16, own: u16)
    requires { (length links.old ≡ capacity) × (from ≤ to) × (to < capacity) × (lift ≤ capacity) }
    ensures { links.new ≡ moved capacity (move_link (mended_link capacity lift gone own)) from (to - from) links.old }
{
    for i in from..to {
        links[i][LANE + 1] = mended(lift, gone, own, links[i + 1][LANE + 1]);
    }
}

// `above` rows from `slot` on each take the next one, over the end of the room too.
fn move_rows(rows: &mut [[u64; 4]], slot: usize, above: usize)
    requires { (length rows.old ≡ capacity) × (slot < capacity) × (above < capacity) }
    ensures { rows.new ≡ moved capacity move_row slot above rows.old }
{
    let end = slot + above;
    if end < CAPACITY {
        slide_rows(rows, slot, end);
        return;
    }
    slide_rows(rows, slot, CAPACITY - 1);
    rows[CAPACITY - 1] = rows[0];
    slide_rows(rows, 0, end - CAPACITY);
}

// Their links to the next older ones likewise, mended.
fn move_links(links: &mut [[u16; 8]], slot: usize, above: usize, lift: u16, gone: u16, own: u16)
    requires { (length links.old ≡ capacity) × (slot < capacity) × (above < capacity) × (lift ≤ capacity) }
    ensures { links.new ≡ moved capacity (move_link (mended_link capacity lift gone own)) slot above links.old }
{
    let end = slot + above;
    if end < CAPACITY {
        slide_links(links, slot, end, lift, gone, own);
        return;
    }
    slide_links(links, slot, CAPACITY - 1, lift, gone, own);
    links[CAPACITY - 1][LANE + 1] = mended(lift, gone, own, links[0][LANE + 1]);
    slide_links(links, 0, end - CAPACITY, lift, gone, own);
}

// The probe in a slot is taken out: those above it move down by one place, and the links follow.
fn take_out(probes: &mut [[u64; 4]], links: &mut [[u16; 8]], ring: Ring, slot: usize) -> Ring
    requires { (length probes.old ≡ capacity) × (length links.old ≡ capacity) × RingFits capacity ring × (slot < capacity) × (place_of capacity ring.head slot < ring.len) }
    ensures { (rooms probes.new links.new result ≡ taken_out capacity (rooms probes.old links.old ring) slot) × RingFits capacity result }
{
    let head = ring.head;
    let len = ring.len;
    let gone = place(head, slot);
    let above = len - 1 - gone;
    let own = links[slot][LANE + 1];
    let lift = narrow(CAPACITY - head);
    let place = narrow(gone);
    mend_newest(links, lift, place, own);
    move_links(links, slot, above, lift, place, own);
    move_rows(probes, slot, above);
    Ring { head, len: len - 1 }
}

// ---- the calls

// The slot of the probe of a sequence; 4,096 where it is not held. Its chain only says where to look: the sequence itself is compared.
pub fn find(
    probes: &[[u64; 4]],
    links: &[[u16; 8]],
    ring: Ring,
    secret: [u32; 8],
    sequence: u32,
) -> usize
    requires { (length probes.now ≡ capacity) × (length links.now ≡ capacity) × RingFits capacity ring }
    ensures { result ≡ slot_of capacity (number_hash secret) (rooms probes.now links.now ring) sequence }
{
    // No index is counted: a chain is walked, by links.
    let head = ring.head;
    let hash = number_hash(secret, sequence);
    let mut bound = ring.len;
    let mut slot = first(links, LANE, hash);
    let mut at = place(head, slot);
    while at < bound {
        if sequence == low(probes[slot][0]) {
            return slot;
        }
        bound = at;
        slot = next(links, LANE, slot);
        at = place(head, slot);
    }
    CAPACITY
}

// The probe in a slot.
pub fn get(probes: &[[u64; 4]], slot: usize) -> HeldProbe
    requires { (length probes.now ≡ capacity) × (slot < capacity) }
    ensures { result ≡ held_probe_of (get_or probes.now slot []) }
{
    HeldProbe::of_words(probes[slot])
}

// Another row for a probe: after a reply, with the same sequence.
pub fn put(probes: &mut [[u64; 4]], slot: usize, probe: HeldProbe)
    requires { (length probes.old ≡ capacity) × (slot < capacity) }
    ensures { probes.new ≡ set probes.old slot (words_of probe) }
{
    probes[slot] = probe.words();
}

// A probe as the newest; `full` is whether 4,096 are held, and the oldest goes for it.
fn push_when(
    full: bool,
    probes: &mut [[u64; 4]],
    links: &mut [[u16; 8]],
    ring: Ring,
    secret: [u32; 8],
    probe: HeldProbe,
) -> Remembered
    requires { (full ≡ leb capacity ring.len) × (length probes.old ≡ capacity) × (length links.old ≡ capacity) × RingFits capacity ring }
    ensures { (outcome probes.new links.new result ≡ pushed capacity (number_hash secret) (rooms probes.old links.old ring) probe) × RingFits capacity result.ring × (result.slot < capacity) }
{
    let slot = push_slot(ring);
    let hash = number_hash(secret, probe.sequence);
    let before = count_of(probes[slot][0]);
    put(probes, slot, probe);
    link(links, LANE, hash, slot);
    let next = chains::pushed(ring);
    Remembered {
        ring: next,
        slot,
        evicted: full,
        lost: full & (before == 0),
    }
}

// A probe as the newest, of a sequence that is not held; where 4,096 are held, the oldest goes. That is asked once, for all that it bears on.
pub fn push(
    probes: &mut [[u64; 4]],
    links: &mut [[u16; 8]],
    ring: Ring,
    secret: [u32; 8],
    probe: HeldProbe,
) -> Remembered
    requires { (length probes.old ≡ capacity) × (length links.old ≡ capacity) × RingFits capacity ring }
    ensures { (outcome probes.new links.new result ≡ pushed capacity (number_hash secret) (rooms probes.old links.old ring) probe) × RingFits capacity result.ring × (result.slot < capacity) }
{
    if ring.len < CAPACITY {
        return push_when(false, probes, links, ring, secret, probe);
    }
    push_when(true, probes, links, ring, secret, probe)
}

// `remember` of the original: the probe of a sequence as the newest, unanswered. A held one is taken out first, and nothing is evicted for it.
pub fn remember(
    probes: &mut [[u64; 4]],
    links: &mut [[u16; 8]],
    ring: Ring,
    secret: [u32; 8],
    sequence: u32,
    packet: PendingPacket,
    ordinal: Option<u32>,
    train: u32,
) -> Remembered
    requires { (length probes.old ≡ capacity) × (length links.old ≡ capacity) × RingFits capacity ring }
    ensures { (outcome probes.new links.new result ≡ remembered capacity (number_hash secret) (rooms probes.old links.old ring) (unanswered sequence packet ordinal train)) × RingFits capacity result.ring × (result.slot < capacity) }
{
    let probe = HeldProbe::unanswered(sequence, packet, ordinal, train);
    let slot = find(probes, links, ring, secret, sequence);
    if slot < CAPACITY {
        let rest = take_out(probes, links, ring, slot);
        return push(probes, links, rest, secret, probe);
    }
    push(probes, links, ring, secret, probe)
}
