// What refusals 4 and 5 test of a ledger, and the words of its hash, in its words alone: a ledger that is taken out of its words for a test
// would stay in registers and on the stack, which is a quarter of a duplicate's time and a tenth of an observe's. `answered`, which takes it out
// for itself, has `rings_fit` of `ledger_state`.
#![tactic(auto, unfolding(host_quality::specs::Words::quality_at, host_ledger::specs::Parts::replies_at, host_ledger::specs::Parts::window_at, host_ledger::specs::Parts::direct_at, host_ledger::specs::Parts::follow_at, host_ledger::specs::Words::ledger_at))]

ghost use Rattle.std.specs.Prelude.{◌≡◌, true, ◌&&◌, leb};
ghost use Rattle.limits.specs.Numbers.{number};
ghost use Rattle.limits.specs.Limits.{capacity};
ghost use Rattle.replies.specs.Bounds.{replies_fit};
ghost use Rattle.delays.specs.Bounds as delays;
ghost use Rattle.clock_quality.specs.Bounds as clock_quality;
ghost use Rattle.direct.specs.Outcomes.{seen_in, counts_in_bounds};
ghost use Rattle.follow_ups.specs.Bounds as follow_ups;
ghost use Rattle.ledger_state.specs.State.{hash_words};
ghost use Rattle.ledger_state.specs.Refusal.{first_refusal, rings_fit, room_for_call};
ghost use Rattle.host_quality.specs.Words.{quality_at};
ghost use Rattle.host_ledger.specs.Parts.{replies_at, delays_at, window_at, direct_at, follow_at};
ghost use Rattle.host_ledger.specs.Words.{ledger_at};
ghost use Rattle.host_ledger.specs.Places as place;

use chains::Ring;
use host_ledger::{LEDGER_WORDS, places};
use host_numbers::{high, is_set, low};
use limits::{COUNT_BOUND, Refusal};

// ---- refusal 4

fn replies_fit(state: &[u64; LEDGER_WORDS]) -> bool
    ensures { result ≡ replies_fit (replies_at place.requested place.evicted_unanswered state.now) }
{
    let totals = (state[places::REQUESTED] < COUNT_BOUND)
        & (state[places::UNIQUE] < COUNT_BOUND)
        & (state[places::DUPLICATE] < COUNT_BOUND)
        & (state[places::UNKNOWN] < COUNT_BOUND);
    let answers = (state[places::ANSWERED] < COUNT_BOUND)
        & (state[places::ADDITIONAL] < COUNT_BOUND)
        & (state[places::LATE] < COUNT_BOUND)
        & (state[places::SATISFIED] < COUNT_BOUND);
    let numbers = (state[places::REORDERED] < COUNT_BOUND)
        & (state[places::INDEPENDENT] < COUNT_BOUND);
    let evicted = (state[places::PROBES_EVICTED] < COUNT_BOUND)
        & (state[places::REPLIES_EVICTED] < COUNT_BOUND)
        & (state[places::EVICTED_UNANSWERED] < COUNT_BOUND);
    totals & answers & numbers & evicted
}

fn round_trips_fit(state: &[u64; LEDGER_WORDS]) -> bool
    ensures { result ≡ delays.counts_fit (delays_at place.trips state.now) }
{
    let delays = host_ledger_parts::rtt_of(state);
    delays.counts_fit()
}

fn direct_fits(state: &[u64; LEDGER_WORDS]) -> bool
    ensures { result ≡ counts_in_bounds (direct_at place.direct state.now).counts }
{
    (state[places::DIRECT] < COUNT_BOUND)
        & (state[places::DIRECT_UNAVAILABLE] < COUNT_BOUND)
        & (state[places::DISCONTINUITIES] < COUNT_BOUND)
        & (state[places::DIRECT_REORDERED] < COUNT_BOUND)
}

fn delay_fits(state: &[u64; LEDGER_WORDS]) -> bool
    ensures { result ≡ delays.counts_fit (delays_at place.delay state.now) }
{
    let delays = host_ledger_parts::delay_of(state);
    delays.counts_fit()
}

fn quality_fits(state: &[u64; LEDGER_WORDS]) -> bool
    ensures { result ≡ clock_quality.counts_fit (quality_at place.quality state.now) }
{
    (state[places::QUALITY] < COUNT_BOUND)
        & (state[places::BOTH_SYNCHRONIZED] < COUNT_BOUND)
        & (state[places::UNSYNCHRONIZED] < COUNT_BOUND)
        & (state[places::INVALID] < COUNT_BOUND)
        & (state[places::UNKNOWN_ESTIMATES] < COUNT_BOUND)
        & (state[places::INVALID_SENDER] < COUNT_BOUND)
        & (state[places::INVALID_REFLECTOR] < COUNT_BOUND)
        & (state[places::INVALID_BOTH] < COUNT_BOUND)
}

fn follow_counts_fit(state: &[u64; LEDGER_WORDS]) -> bool
    ensures { result ≡ follow_ups.counts_fit (follow_at place.follow_ups state.now).counts }
{
    (state[places::FOLLOW_UPS] < COUNT_BOUND)
        & (state[places::MATCHED] < COUNT_BOUND)
        & (state[places::REPEATED] < COUNT_BOUND)
        & (state[places::UNMATCHED] < COUNT_BOUND)
        & (state[places::AMBIGUOUS] < COUNT_BOUND)
        & (state[places::UNAVAILABLE] < COUNT_BOUND)
}

// Of all counts one after the other the compiler makes one comparison; the two sums, which have another bound, would part them in two.
pub fn room_for_call(state: &[u64; LEDGER_WORDS]) -> bool
    ensures { result ≡ room_for_call (ledger_at state.now) }
{
    let counts = replies_fit(state)
        & direct_fits(state)
        & follow_counts_fit(state)
        & quality_fits(state);
    let delays = round_trips_fit(state) & delay_fits(state);
    counts & delays & (state[places::CALLS] < limits::MOST_CALLS)
}

// ---- refusal 5

pub fn keys_ring(state: &[u64; LEDGER_WORDS]) -> Ring
    ensures { result ≡ (ledger_at state.now).tables.keys }
{
    Ring {
        head: state[places::KEYS_HEAD] as usize,
        len: state[places::KEYS_LEN] as usize,
    }
}

pub fn probes_ring(state: &[u64; LEDGER_WORDS]) -> Ring
    ensures { result ≡ (ledger_at state.now).tables.probes }
{
    Ring {
        head: state[places::PROBES_HEAD] as usize,
        len: state[places::PROBES_LEN] as usize,
    }
}

fn seen_fits(state: &[u64; LEDGER_WORDS]) -> bool
    ensures { result ≡ leb (seen_in (window_at place.anchored state.now)) capacity }
{
    if is_set(state[places::ANCHORED]) {
        return state[places::SEEN] <= 4096;
    }
    true
}

// A test that fails ends it: two words are then compared in the place of a word, a flag and what joins the flags.
pub fn rings_fit(state: &[u64; LEDGER_WORDS]) -> bool
    ensures { result ≡ rings_fit (ledger_at state.now) }
{
    if !(state[places::KEYS_HEAD] < 4096) {
        return false;
    }
    if !(state[places::KEYS_LEN] <= 4096) {
        return false;
    }
    if !(state[places::PROBES_HEAD] < 4096) {
        return false;
    }
    if !(state[places::PROBES_LEN] <= 4096) {
        return false;
    }
    seen_fits(state)
}

// Refusals 5 and 4 of `sent` and of `accept`; `sized` is whether the rooms have their size.
pub fn refusal(state: &[u64; LEDGER_WORDS], sized: bool) -> Option<Refusal>
    ensures { number result ≡ first_refusal (sized && rings_fit (ledger_at state.now)) true true (room_for_call (ledger_at state.now)) true true }
{
    if !(sized && rings_fit(state)) {
        Some(Refusal::WrongRoom)
    } else if !room_for_call(state) {
        Some(Refusal::CountsFull)
    } else {
        None
    }
}

// ---- the hash

pub fn secret_words(state: &[u64; LEDGER_WORDS]) -> [u32; 8]
    ensures { result ≡ hash_words (ledger_at state.now) }
{
    [
        low(state[places::SECRET_1]),
        high(state[places::SECRET_1]),
        low(state[places::SECRET_2]),
        high(state[places::SECRET_2]),
        low(state[places::SECRET_3]),
        high(state[places::SECRET_3]),
        low(state[places::SECRET_4]),
        high(state[places::SECRET_4]),
    ]
}
