// `observe` of src/sender/measurements.rs on the words and the rooms that a host lends: the refusals first, then one part of the ledger after the
// other is taken out of its words, counted and stored, in the original's order. It is no call of its own, since a crate that exports one cannot be
// what another call's object is made of.
ghost use Rattle.std.specs.Prelude.{◌≡◌, length};
ghost use Rattle.std.proofs.lemmas.List.Edits.{sets};
ghost use Rattle.limits.specs.Numbers.{number};
ghost use Rattle.limits.specs.Limits.{capacity};
ghost use Rattle.chains.specs.Hash.{number_hash};
ghost use Rattle.chains.specs.Rings.{RingFits};
ghost use Rattle.correlation.specs.Class.{MatchedInRange, delay_of, OffsetInRange};
ghost use Rattle.key_ring.specs.Table.{hash_of};
ghost use Rattle.delays.specs.Bounds as delays;
ghost use Rattle.delays.specs.Delays.{recorded_of};
ghost use Rattle.delays.specs.Sums.{nanoseconds_of};
ghost use Rattle.follow_ups.specs.Bounds as follow_ups;
ghost use Rattle.follow_ups.specs.Followed.{counted, followed};
ghost use Rattle.ledger_steps.specs.Refusals.{refusal_of_observe};
ghost use Rattle.ledger_checks.specs.Sound.{SoundObserve};
ghost use Rattle.host_observation.specs.Observation.{observation_at};
ghost use Rattle.ledger_steps.specs.Observe.{follow_in, observe_on};
ghost use Rattle.host_ledger.specs.Parts.{delays_at, delays_words, follow_at, follow_counts_words, follow_words};
ghost use Rattle.host_ledger.specs.Words.{ledger_at};
ghost use Rattle.host_ledger.specs.Left.{follow_stored};
ghost use Rattle.host_observe_words.specs.Observe.{follow_left, follow_leaves, left, served_leaves, observe_leaves};
ghost use Rattle.host_ledger.specs.Places as place;

use call_types::ReplyObservation;
use chains::Ring;
use correlation::follow::{Match, Miss};
use host_ledger::{LEDGER_WORDS, places};
use host_numbers::is_set;
use limits::{CAPACITY, Refusal};

// Why the call is refused. The key is read only in a room and a ring that fit.
fn refusal(
    ledger: &[u64; LEDGER_WORDS],
    keys: &[[u64; 2]],
    slots: usize,
    offsets: usize,
    links: usize,
    told: ReplyObservation,
    words: &[u32; 24],
) -> Option<Refusal>
    requires { told ≡ observation_at words.now }
    ensures { number result ≡ refusal_of_observe (ledger_at ledger.now) keys.now slots offsets links told }
{
    let placed = (keys.len() == CAPACITY)
        & (slots == CAPACITY)
        & (offsets == CAPACITY)
        & (links == CAPACITY)
        & host_ledger_checks::rings_fit(ledger);
    if !placed {
        return Some(Refusal::WrongRoom);
    }
    let ring = host_ledger_checks::keys_ring(ledger);
    let awaiting = is_set(ledger[places::AWAITS]) & key_ring::is_newest(keys, ring, told.key);
    let ranged = host_own_slot::in_range(words);
    let counted = host_ledger_checks::room_for_call(ledger);
    ledger_state::first_refusal(true, ranged, true, counted, awaiting, true)
}

// The delay of a matched follow-up.
fn count_delay(ledger: &mut [u64; LEDGER_WORDS], times: Match, offset: i32)
    requires { delays.Bounded (delays_at place.delay ledger.old) × MatchedInRange (Ok times) × OffsetInRange offset }
    ensures { ledger.new ≡ sets ledger.old place.delay (delays_words (recorded_of (delays_at place.delay ledger.old) (nanoseconds_of (delay_of times.t4 times.t3 offset)))) }
{
    let ns = correlation::follow::delay(times.t4, times.t3, offset);
    host_delay::count(ledger, ns);
}

// A matched follow-up changes all that there is of follow-ups: two counts, the delay and the clock quality.
fn count_matched(ledger: &mut [u64; LEDGER_WORDS], times: Match, offset: i32)
    requires { follow_ups.InBounds (follow_at place.follow_ups ledger.old) × MatchedInRange (Ok times) × OffsetInRange offset }
    ensures { ledger.new ≡ sets ledger.old place.follow_ups (follow_words (followed (follow_at place.follow_ups ledger.old) (Ok times) offset)) }
{
    let observations = ledger[places::FOLLOW_UPS];
    let matched = ledger[places::MATCHED];
    ledger[places::FOLLOW_UPS] = observations + 1;
    ledger[places::MATCHED] = matched + 1;
    count_delay(ledger, times, offset);
    let wires = times.quality;
    host_clock_sample::count(ledger, wires);
}

// Any other follow-up is only counted.
fn count_other(ledger: &mut [u64; LEDGER_WORDS], class: Result<Match, Miss>)
    requires { follow_ups.CountsIn (follow_at place.follow_ups ledger.old).counts }
    ensures { ledger.new ≡ sets ledger.old place.follow_ups (follow_counts_words (counted class (follow_at place.follow_ups ledger.old).counts)) }
{
    let before = host_ledger_parts::follow_counts_of(ledger);
    host_ledger_parts::store_follow_counts(ledger, follow_ups::count(class, before));
}

// A follow-up whose class is known.
fn count_class(ledger: &mut [u64; LEDGER_WORDS], class: Result<Match, Miss>, offset: i32)
    requires { follow_ups.InBounds (follow_at place.follow_ups ledger.old) × MatchedInRange class × OffsetInRange offset }
    ensures { ledger.new ≡ follow_stored ledger.old (followed (follow_at place.follow_ups ledger.old) class offset) }
{
    match class {
        Err(_) => count_other(ledger, class),
        Ok(times) => count_matched(ledger, times, offset),
    }
}

// The follow-up of the reply, where it has one.
fn count_follow_up(
    ledger: &mut [u64; LEDGER_WORDS],
    keys: &[[u64; 2]],
    slots: &mut [[u64; 3]],
    links: &[[u16; 8]],
    ring: Ring,
    secret: [u32; 8],
    told: ReplyObservation,
)
    requires { (length keys.now ≡ capacity) × (length slots.old ≡ capacity) × (length links.now ≡ capacity) × RingFits capacity ring × follow_ups.InBounds (follow_at place.follow_ups ledger.old) × OffsetInRange told.offset }
    ensures { follow_left ledger.new slots.new ≡ follow_leaves ledger.old (follow_in capacity (hash_of secret) (number_hash secret) (follow_at place.follow_ups ledger.old) ring keys.now slots.old links.now told) }
{
    let follow_up = told.follow;
    let key = told.key;
    match follow_up {
        None => {}
        Some(telemetry) => {
            let own = key.reflector;
            let class = host_follow_class::class_of_follow_up(
                keys,
                slots,
                links,
                ring,
                secret,
                own,
                told.offset,
                telemetry,
            );
            count_class(ledger, class, told.offset);
        }
    }
}

// An observation that is not refused: round trip, direct counters, follow-up, then the own correlation slot.
fn observed(
    ledger: &mut [u64; LEDGER_WORDS],
    keys: &[[u64; 2]],
    slots: &mut [[u64; 3]],
    offsets: &mut [u32],
    links: &mut [[u16; 8]],
    told: ReplyObservation,
    words: &[u32; 24],
)
    requires { SoundObserve (ledger_at ledger.old) keys.now (length slots.old) (length offsets.old) (length links.old) told × (told ≡ observation_at words.now) }
    ensures { left 0 ledger.new slots.new offsets.new links.new ≡ served_leaves told.counters ledger.old (observe_on (ledger_at ledger.old) keys.now slots.old offsets.old links.old told) }
{
    let secret = host_ledger_checks::secret_words(ledger);
    let ring = host_ledger_checks::keys_ring(ledger);
    let copies = (ledger[places::COPIES] % 65536) as u16;
    let calls = ledger[places::CALLS];
    ledger[places::CALLS] = calls + 1;
    ledger[places::AWAITS] = 0;
    host_round_trip::count(ledger, told.rtt);
    host_direct_loss::count(ledger, offsets, links, secret, told);
    count_follow_up(ledger, keys, slots, links, ring, secret, told);
    host_own_slot::raise_own(copies, keys, slots, links, ring, secret, words);
}

// The whole call: refused and nothing changed, or served. Why it was refused, where it was.
pub fn observe(
    ledger: &mut [u64; LEDGER_WORDS],
    keys: &[[u64; 2]],
    slots: &mut [[u64; 3]],
    offsets: &mut [u32],
    links: &mut [[u16; 8]],
    observation: &[u32; 24],
) -> Option<Refusal>
    ensures { left (number result) ledger.new slots.new offsets.new links.new ≡ observe_leaves ledger.old keys.now slots.old offsets.old links.old observation.now }
{
    let told = host_observation::observation_of(observation);
    let refused = refusal(
        ledger,
        keys,
        slots.len(),
        offsets.len(),
        links.len(),
        told,
        observation,
    );
    if refused.is_none() {
        observed(ledger, keys, slots, offsets, links, told, observation);
    }
    refused
}
