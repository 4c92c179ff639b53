// The class of a follow-up over the rooms of a host. What a matched one corrects is one bit of its slot's first word: it is set there, where the
// words are as a call leaves them. Any other slot is read and written whole.
ghost use Rattle.std.specs.Prelude.{◌≡◌, length};
ghost use Rattle.limits.specs.Limits.{capacity};
ghost use Rattle.chains.specs.Hash.{number_hash};
ghost use Rattle.chains.specs.Rings.{RingFits};
ghost use Rattle.correlation.specs.Words.{slot_by, slot_of, words_of};
ghost use Rattle.correlation.specs.Slots.{corrected_slot};
ghost use Rattle.key_ring.specs.Table.{hash_of, words_at};
ghost use Rattle.ledger_steps.specs.Observe.{corrected_at};
ghost use Rattle.host_follow_class.specs.Class.{class_outcome, class_with, class_in};
ghost use Rattle.host_follow_class.specs.Whole.{whole};

use call_types::FollowUpTelemetry;
use chains::Ring;
use correlation::Slot;
use correlation::follow::{Match, Miss};

fn is_whole(word: u64, slot: Slot) -> bool
    ensures { result ≡ whole word slot }
{
    let unique = slot.unique;
    let Some(reply) = unique else {
        return false;
    };
    let t4 = reply.t4;
    let Some(_) = t4 else {
        return false;
    };
    let quality = reply.quality;
    let Some((_, _)) = quality else {
        return false;
    };
    !slot.corrected & (word / 4194304 % 1024 == 0)
}

// The words of a slot that a follow-up matched, of those that it had.
fn corrected_words(word: u64, time: u64, reference: u64, slot: Slot) -> [u64; 3]
    requires { slot ≡ slot_by word time reference }
    ensures { result ≡ words_of (corrected_slot (slot_by word time reference)) }
{
    if is_whole(word, slot) {
        return [word + 131072, time, reference];
    }
    let corrected = correlation::correct(slot);
    corrected.words()
}

// A matched follow-up corrects the slot that stands at `at`.
fn correct_at(
    class: Result<Match, Miss>,
    slots: &mut [[u64; 3]],
    at: usize,
    held: [u64; 3],
    slot: Slot,
)
    requires { (length slots.old ≡ capacity) × (held ≡ words_at capacity slots.old at) × (slot ≡ slot_of held) }
    ensures { slots.new ≡ corrected_at class capacity slots.old at }
{
    if let Ok(_) = class {
        key_ring::store(slots, at, corrected_words(held[0], held[1], held[2], slot));
    }
}

// The class of a follow-up, of the slot that stands at `at`; a matched one corrects it. `own` is the reflector number of the reply that
// carries it, and `offset` that of its observation.
fn class_at(
    slots: &mut [[u64; 3]],
    at: usize,
    own: u32,
    offset: i32,
    telemetry: FollowUpTelemetry,
) -> Result<Match, Miss>
    requires { length slots.old ≡ capacity }
    ensures { class_outcome result slots.new ≡ class_with capacity slots.old at own offset telemetry }
{
    let held = key_ring::words(slots, at);
    let slot = Slot::of_words(held);
    let found = correlation::follow::look(
        telemetry.unknown,
        telemetry.timestamp,
        telemetry.sequence,
        own,
        slot,
    );
    let class = correlation::follow::class_of(found, telemetry.timestamp, offset);
    correct_at(class, slots, at, held, slot);
    class
}

// The class of a follow-up, of the slot of its number; a matched one corrects it.
pub fn class_of_follow_up(
    keys: &[[u64; 2]],
    slots: &mut [[u64; 3]],
    links: &[[u16; 8]],
    ring: Ring,
    secret: [u32; 8],
    own: u32,
    offset: i32,
    telemetry: FollowUpTelemetry,
) -> Result<Match, Miss>
    requires { (length keys.now ≡ capacity) × (length slots.old ≡ capacity) × (length links.now ≡ capacity) × RingFits capacity ring }
    ensures { class_outcome result slots.new ≡ class_in capacity (hash_of secret) (number_hash secret) ring keys.now slots.old links.now own offset telemetry }
{
    let number = telemetry.sequence;
    let at = key_ring::holder(keys, slots, links, ring, secret, number);
    class_at(slots, at, own, offset, telemetry)
}
