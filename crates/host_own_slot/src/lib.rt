// The ranges of refusal 1 and the own correlation slot of an observation, straight from the words that a host lends. Taken out of its words
// an observation has its estimates decoded, and its slot has them encoded again: that was a fifth of the instructions of a round trip's observe.
// Crate ranges has the range of each field.
ghost use Rattle.std.specs.Prelude.{◌≡◌, ◌+◌, ◌*◌, ◌^◌, ◌≤◌, ◌<◌, length};
ghost use Rattle.limits.specs.Limits.{capacity};
ghost use Rattle.chains.specs.Hash.{number_hash};
ghost use Rattle.chains.specs.Rings.{RingFits};
ghost use Rattle.correlation.specs.Words.{sender_wire, reflector_wire, time_word, record_flags, words_by, words_of, slot_of};
ghost use Rattle.correlation.specs.Slots.{next, raised};
ghost use Rattle.follow_ups.specs.Followed.{wires_of};
ghost use Rattle.key_ring.specs.Table.{hash_of};
ghost use Rattle.ledger_steps.specs.Observe.{record_from, unique_from, own_in};
ghost use Rattle.ranges.specs.Ranges.{in_range};
ghost use Rattle.record_parts.specs.Parts as parts;
ghost use Rattle.host_observation.specs.Observation.{flags_at, double, estimates_at, observation_at};

use chains::Ring;
use host_numbers::{both, flag};
use record_parts::flag_set;

// Whether a flag of the observation is set.
fn has(words: &[u32; 24], k: u8) -> bool
    requires { 0 < k }
    ensures { result ≡ parts.flag k (flags_at words.now) }
{
    let all = words[21];
    flag_set((all % 256) as u8, k)
}

// Whether no field is refused with 1. Estimates from the wire have a scale of six bits: there is nothing to test in them.
pub fn in_range(words: &[u32; 24]) -> bool
    ensures { result ≡ in_range (observation_at words.now) }
{
    let timed = has(words, 1);
    let t4 = record_parts::time_by(timed, both(words[4], words[5]));
    let reference = both(words[6], words[7]).cast_signed();
    let offset = words[19].cast_signed();
    ranges::time_fits(t4) & ranges::reference_within(reference) & ranges::offset_within(offset)
}

// Recorded, timed, PTP, estimated.
fn record_flags(words: &[u32; 24]) -> u64
    ensures { (result ≡ record_flags (record_from (observation_at words.now))) × (result < 16) }
{
    let timed = flag(has(words, 1));
    let ptp = flag(has(words, 64));
    let estimated = flag(has(words, 32));
    1 + 2 * timed + 4 * ptp + 8 * estimated
}

fn wide(number: u32) -> u64
    ensures { (result ≡ number) × (result < 4294967296) }
{
    number as u64
}

// Both estimates as on the wire, where the first word of a slot has them.
fn wires(words: &[u32; 24]) -> u64
    ensures { (result ≡ 2 ^ 32 * sender_wire (wires_of (estimates_at words.now)) + 2 ^ 48 * reflector_wire (wires_of (estimates_at words.now))) × (result + 2 ^ 32 ≤ 2 ^ 64) }
{
    if has(words, 32) {
        return wide(words[20]) * 4294967296;
    }
    0
}

fn received_word(words: &[u32; 24]) -> u64
    ensures { result ≡ time_word (parts.time_by (parts.flag 1 (flags_at words.now)) (double words.now 4)) }
{
    if has(words, 1) {
        return both(words[4], words[5]);
    }
    0
}

// The words of a slot that the observation is the first of.
fn record_words(words: &[u32; 24]) -> [u64; 3]
    ensures { result ≡ words_by 1 1 (Some (record_from (observation_at words.now))) }
{
    let kept = record_flags(words);
    let estimates = wires(words);
    [
        65537 + 262144 * kept + estimates,
        received_word(words),
        both(words[6], words[7]),
    ]
}

fn one_more(count: u64) -> u64
    requires { count < 65536 }
    ensures { (result ≡ next count) × (result < 65536) }
{
    if count < 65535 {
        return count + 1;
    }
    count
}

// The words of the own slot, of those that its slot held: of these only the count and whether it was corrected matter.
fn own_words(copies: u16, held: [u64; 3], words: &[u32; 24]) -> [u64; 3]
    ensures { result ≡ words_of (raised (slot_of held) (unique_from copies (observation_at words.now))) }
{
    let word = held[0];
    let count = word % 65536;
    if count == 0 {
        if correlation::is_withheld(copies, words[12], words[13]) {
            return [65537, 0, 0];
        }
        return record_words(words);
    }
    let corrected = flag((word >> 17) % 2 == 1);
    [one_more(count) + 65536 + 131072 * corrected, 0, 0]
}

// The own slot: that of the observation's reflector number, raised, in the row of the newest key, which is the observation's.
pub fn raise_own(
    copies: u16,
    keys: &[[u64; 2]],
    slots: &mut [[u64; 3]],
    links: &[[u16; 8]],
    ring: Ring,
    secret: [u32; 8],
    words: &[u32; 24],
)
    requires { (length keys.now ≡ capacity) × (length slots.old ≡ capacity) × (length links.now ≡ capacity) × RingFits capacity ring }
    ensures { slots.new ≡ own_in capacity (hash_of secret) (number_hash secret) copies ring keys.now slots.old links.now (observation_at words.now) }
{
    let at = key_ring::holder(keys, slots, links, ring, secret, words[13]);
    let held = key_ring::words(slots, at);
    key_ring::store(
        slots,
        key_ring::newest(ring),
        own_words(copies, held, words),
    );
}
