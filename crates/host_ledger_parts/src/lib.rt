// The parts of a ledger that `observe` changes, out of the host's words and back, one at a time: all of them at once would not stay in
// registers, and moving them to the stack and back was a third of an observe's time.
ghost use Rattle.std.specs.Prelude.{◌≡◌};
ghost use Rattle.std.proofs.lemmas.List.Edits.{sets};
ghost use Rattle.host_quality.specs.Words.{quality_at, quality_words, QualityKept};
ghost use Rattle.host_ledger.specs.Parts.{delays_at, delays_words, window_words, WindowKept, direct_words, DirectKept, follow_at, follow_counts_words};
ghost use Rattle.host_ledger_parts.specs.Last.{quality_without_last};
ghost use Rattle.host_ledger.specs.Places as place;

use clock_quality::ClockQuality;
use delays::Delays;
use direct::{Direct, Epoch};
use follow_ups::FollowCounts;
use host_ledger::parts::{delays_of, epoch_words, extreme_kind, extreme_magnitude};
use host_ledger::{LEDGER_WORDS, places};
use host_numbers::flag;

// ---- out of the words

pub fn rtt_of(state: &[u64; LEDGER_WORDS]) -> Delays
    ensures { result ≡ delays_at place.trips state.now }
{
    delays_of(
        state[places::TRIPS],
        state[places::TRIPS_SIGN],
        state[places::TRIPS_HIGH],
        state[places::TRIPS_LOW],
        state[places::TRIPS_MIN_KIND],
        state[places::TRIPS_MIN],
        state[places::TRIPS_MAX_KIND],
        state[places::TRIPS_MAX],
    )
}

pub fn follow_counts_of(state: &[u64; LEDGER_WORDS]) -> FollowCounts
    ensures { result ≡ (follow_at place.follow_ups state.now).counts }
{
    FollowCounts {
        observations: state[places::FOLLOW_UPS],
        matched: state[places::MATCHED],
        repeated: state[places::REPEATED],
        unmatched: state[places::UNMATCHED],
        ambiguous: state[places::AMBIGUOUS],
        unavailable: state[places::UNAVAILABLE],
    }
}

pub fn delay_of(state: &[u64; LEDGER_WORDS]) -> Delays
    ensures { result ≡ delays_at place.delay state.now }
{
    delays_of(
        state[places::DELAY],
        state[places::DELAY_SIGN],
        state[places::DELAY_HIGH],
        state[places::DELAY_LOW],
        state[places::DELAY_MIN_KIND],
        state[places::DELAY_MIN],
        state[places::DELAY_MAX_KIND],
        state[places::DELAY_MAX],
    )
}

// A sample replaces the last estimates, whatever they were, so they are not read for it.
pub fn quality_without_last(state: &[u64; LEDGER_WORDS]) -> ClockQuality
    ensures { result ≡ quality_without_last (quality_at place.quality state.now) }
{
    let largest = host_quality::largest_of(state[places::LARGEST_KNOWN], state[places::LARGEST]);
    ClockQuality {
        samples: state[places::QUALITY],
        both: state[places::BOTH_SYNCHRONIZED],
        unsynchronized: state[places::UNSYNCHRONIZED],
        invalid: state[places::INVALID],
        unknown: state[places::UNKNOWN_ESTIMATES],
        invalid_sender: state[places::INVALID_SENDER],
        invalid_reflector: state[places::INVALID_REFLECTOR],
        invalid_both: state[places::INVALID_BOTH],
        sender: None,
        reflector: None,
        largest,
    }
}

// ---- and back

pub fn store_rtt(state: &mut [u64; LEDGER_WORDS], delays: Delays)
    ensures { state.new ≡ sets state.old place.trips (delays_words delays) }
{
    let sum = delays.sum;
    let min = delays.min;
    let max = delays.max;
    state[places::TRIPS] = delays.count;
    state[places::TRIPS_SIGN] = flag(sum.negative);
    state[places::TRIPS_HIGH] = sum.high;
    state[places::TRIPS_LOW] = sum.low;
    state[places::TRIPS_MIN_KIND] = extreme_kind(min);
    state[places::TRIPS_MIN] = extreme_magnitude(min);
    state[places::TRIPS_MAX_KIND] = extreme_kind(max);
    state[places::TRIPS_MAX] = extreme_magnitude(max);
}

pub fn store_delay(state: &mut [u64; LEDGER_WORDS], delays: Delays)
    ensures { state.new ≡ sets state.old place.delay (delays_words delays) }
{
    let sum = delays.sum;
    let min = delays.min;
    let max = delays.max;
    state[places::DELAY] = delays.count;
    state[places::DELAY_SIGN] = flag(sum.negative);
    state[places::DELAY_HIGH] = sum.high;
    state[places::DELAY_LOW] = sum.low;
    state[places::DELAY_MIN_KIND] = extreme_kind(min);
    state[places::DELAY_MIN] = extreme_magnitude(min);
    state[places::DELAY_MAX_KIND] = extreme_kind(max);
    state[places::DELAY_MAX] = extreme_magnitude(max);
}

fn store_window(state: &mut [u64; LEDGER_WORDS], window: Option<Epoch>)
    ensures { (state.new ≡ sets state.old place.anchored (window_words window)) × WindowKept window }
{
    match window {
        None => {
            state[places::ANCHORED] = 0;
            state[places::ANCHOR] = 0;
            state[places::TRANSMITTED] = 0;
            state[places::LATEST] = 0;
            state[places::MAXIMA] = 0;
            state[places::SEEN] = 0;
        }
        Some(epoch) => {
            let words = epoch_words(epoch);
            state[places::ANCHORED] = 1;
            state[places::ANCHOR] = words.anchor;
            state[places::TRANSMITTED] = words.transmitted;
            state[places::LATEST] = words.latest;
            state[places::MAXIMA] = words.maxima;
            state[places::SEEN] = words.seen;
        }
    }
}

pub fn store_direct(state: &mut [u64; LEDGER_WORDS], direct: Direct)
    ensures { (state.new ≡ sets state.old place.direct (direct_words direct)) × DirectKept direct }
{
    let counts = direct.counts;
    let window = direct.window;
    state[places::DIRECT] = counts.observations;
    state[places::DIRECT_UNAVAILABLE] = counts.unavailable;
    state[places::DISCONTINUITIES] = counts.discontinuities;
    state[places::DIRECT_REORDERED] = counts.reordered;
    state[places::EXCEEDED] = flag(counts.exceeded);
    store_window(state, window);
}

pub fn store_quality(state: &mut [u64; LEDGER_WORDS], quality: ClockQuality)
    ensures { (state.new ≡ sets state.old place.quality (quality_words quality)) × QualityKept quality }
{
    let largest = quality.largest;
    let sender = quality.sender;
    let reflector = quality.reflector;
    let first = host_quality::last_words(sender);
    let second = host_quality::last_words(reflector);
    state[places::QUALITY] = quality.samples;
    state[places::BOTH_SYNCHRONIZED] = quality.both;
    state[places::UNSYNCHRONIZED] = quality.unsynchronized;
    state[places::INVALID] = quality.invalid;
    state[places::UNKNOWN_ESTIMATES] = quality.unknown;
    state[places::INVALID_SENDER] = quality.invalid_sender;
    state[places::INVALID_REFLECTOR] = quality.invalid_reflector;
    state[places::INVALID_BOTH] = quality.invalid_both;
    state[places::LARGEST_KNOWN] = host_quality::largest_word(largest);
    state[places::LARGEST] = host_quality::largest_bits(largest);
    state[places::SENDER] = first.word;
    state[places::SENDER_ERROR] = first.bits;
    state[places::REFLECTOR] = second.word;
    state[places::REFLECTOR_ERROR] = second.bits;
}

pub fn store_follow_counts(state: &mut [u64; LEDGER_WORDS], counts: FollowCounts)
    ensures { state.new ≡ sets state.old place.follow_ups (follow_counts_words counts) }
{
    state[places::FOLLOW_UPS] = counts.observations;
    state[places::MATCHED] = counts.matched;
    state[places::REPEATED] = counts.repeated;
    state[places::UNMATCHED] = counts.unmatched;
    state[places::AMBIGUOUS] = counts.ambiguous;
    state[places::UNAVAILABLE] = counts.unavailable;
}
