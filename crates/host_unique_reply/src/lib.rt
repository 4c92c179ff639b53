// The counts of a unique reply in the words of a ledger. Of fifteen an ordinary reply raises three or four, and what does not change is not stored.
// What they become is `after_unique` of crate replies.
ghost use Rattle.std.specs.Prelude.{◌≡◌, ◌+◌, ◌%◌, ◌^◌, ◌<◌, nat_le, slice_index};
ghost use Rattle.std.proofs.lemmas.List.Edits.{sets};
ghost use Rattle.limits.specs.Limits.{capacity, count_bound};
ghost use Rattle.replies.specs.Bounds.{AnswersIn, NumbersIn, EvictedIn, InBounds};
ghost use Rattle.replies.specs.Served.{answered_by, is_reordered, numbered_by, evicted_by, after_unique};
ghost use Rattle.host_ledger.specs.Parts.{reflector_of, replies_at};
ghost use Rattle.host_unique_reply.specs.Stored.{raised, answers_words, order_words, numbers_words, evicted_stored, replies_stored};
ghost use Rattle.host_ledger.specs.Places as place;

use host_ledger::{LEDGER_WORDS, places};
use host_numbers::{is_set, low};

// ---- one count

// One more in a word where the test holds.
fn raise_if(ledger: &mut [u64; LEDGER_WORDS], at: usize, test: bool)
    requires { (at < 80) × (slice_index ledger.old at < count_bound) }
    ensures { ledger.new ≡ raised ledger.old at test }
{
    if test {
        ledger[at] = ledger[at] + 1;
    }
}

// ---- the counts of answers

fn answer(ledger: &mut [u64; LEDGER_WORDS], before: u16, copies: u16, pending: bool)
    requires { AnswersIn (replies_at place.requested place.evicted_unanswered ledger.old).answers }
    ensures { ledger.new ≡ sets ledger.old place.answered (answers_words (answered_by before copies pending (replies_at place.requested place.evicted_unanswered ledger.old).answers)) }
{
    raise_if(ledger, 15, before == 0);
    raise_if(ledger, 16, 0 < before);
    raise_if(ledger, 17, (before == 0) & !pending);
    raise_if(ledger, 18, before < copies);
}

// ---- the reflector's number

// The word of a reflector number.
fn number_word(number: u32) -> u64
    ensures { result ≡ number + 2 ^ 32 }
{
    (number as u64) + 4294967296
}

// Whether a number is behind the highest, whose word this is.
fn is_behind(highest: u64, reflector: u32) -> bool
    ensures { result ≡ is_reordered (reflector_of highest) reflector }
{
    is_set(highest) & !(std::num::wrapping_sub_u32(reflector, low(highest)) < 2147483648)
}

// The last number, the highest, and how many were behind it. A number that is not behind the highest is the highest.
fn order(ledger: &mut [u64; LEDGER_WORDS], reflector: u32)
    requires { slice_index ledger.old place.reordered < count_bound }
    ensures { ledger.new ≡ sets ledger.old place.last (order_words ledger.old reflector) }
{
    let highest = ledger[places::HIGHEST];
    let reordered = ledger[places::REORDERED];
    ledger[places::LAST] = number_word(reflector);
    if is_behind(highest, reflector) {
        ledger[places::HIGHEST] = number_word(low(highest));
        ledger[places::REORDERED] = reordered + 1;
        return;
    }
    ledger[places::HIGHEST] = number_word(reflector);
}

fn number(ledger: &mut [u64; LEDGER_WORDS], sender: u32, reflector: u32)
    requires { NumbersIn (replies_at place.requested place.evicted_unanswered ledger.old).numbers }
    ensures { ledger.new ≡ sets ledger.old place.last (numbers_words (numbered_by sender reflector (replies_at place.requested place.evicted_unanswered ledger.old).numbers)) }
{
    order(ledger, reflector);
    raise_if(ledger, 22, !(reflector == sender));
}

// ---- what was evicted

fn evict(ledger: &mut [u64; LEDGER_WORDS], probe: bool, lost: bool, key: bool)
    requires { EvictedIn (replies_at place.requested place.evicted_unanswered ledger.old).evicted }
    ensures { ledger.new ≡ evicted_stored ledger.old (evicted_by probe lost key (replies_at place.requested place.evicted_unanswered ledger.old).evicted) }
{
    raise_if(ledger, 23, probe);
    raise_if(ledger, 24, key);
    raise_if(ledger, 72, lost);
}

// ---- all of them

// A unique reply whose probe had `before` replies; `probe`, `lost`: whether its own probe was remembered over another one, and over one without a
// reply. It evicts a key where the ring of keys is full: this is called before that ring is stored.
pub fn count(
    ledger: &mut [u64; LEDGER_WORDS],
    before: u16,
    pending: bool,
    sender: u32,
    reflector: u32,
    probe: bool,
    lost: bool,
)
    requires { InBounds (replies_at place.requested place.evicted_unanswered ledger.old) }
    ensures { ledger.new ≡ replies_stored ledger.old (after_unique before (slice_index ledger.old place.copies % 2 ^ 16) pending sender reflector probe lost (nat_le capacity (slice_index ledger.old place.keys_len)) (replies_at place.requested place.evicted_unanswered ledger.old)) }
{
    let copies = (ledger[places::COPIES] % 65536) as u16;
    let full = 4096 <= ledger[places::KEYS_LEN];
    let unique = ledger[places::UNIQUE];
    ledger[places::UNIQUE] = unique + 1;
    answer(ledger, before, copies, pending);
    number(ledger, sender, reflector);
    evict(ledger, probe, lost, full);
}
