// The ledger in the words that a host lends (specs/Words.antt has their order): what any words say, and what each call stores.
// A call stores only the words that it changes: a store of all of them would cost more than a duplicate reply.
ghost use Rattle.std.specs.Prelude.{◌≡◌, length};
ghost use Rattle.std.proofs.lemmas.List.Edits.{sets};
ghost use Rattle.host_quality.specs.Words.{quality_at};
ghost use Rattle.host_ledger.specs.Parts.{secret_at, secret_words, SecretKept, replies_at, window_at, direct_at, follow_at};
ghost use Rattle.host_ledger.specs.Words.{tables_at, tables_words, ledger_at};
ghost use Rattle.host_ledger.specs.Left.{fresh_words, sent_words};
ghost use Rattle.host_ledger.specs.Places as place;

pub mod parts;
pub mod places;

use chains::Ring;
use clock_quality::ClockQuality;
use direct::{Direct, Epoch};
use follow_ups::{FollowCounts, FollowUps};
use host_numbers::{both, flag, high, is_set, low};
use ledger_state::{Counts, Ledger, Secret, Tables};
use parts::{delays_of, epoch_of, reflector_of};
use replies::{Answers, Evicted, Numbers, Replies, Totals};

// How many words there are. The last are not used yet: a count that comes needs no longer state.
pub const LEDGER_WORDS: usize = 80;

// That many are lent, said for the proof of a caller: the code of it is nothing.
pub fn counted(_words: [u64; LEDGER_WORDS])
    ensures { length _words ≡ 80 }
{}

// ---- the ledger out of its words

fn secret_of(state: &[u64; LEDGER_WORDS]) -> Secret
    ensures { result ≡ secret_at place.secret1 state.now }
{
    Secret {
        first: low(state[places::SECRET_1]),
        second: high(state[places::SECRET_1]),
        third: low(state[places::SECRET_2]),
        fourth: high(state[places::SECRET_2]),
        fifth: low(state[places::SECRET_3]),
        sixth: high(state[places::SECRET_3]),
        seventh: low(state[places::SECRET_4]),
        eighth: high(state[places::SECRET_4]),
    }
}

fn tables_of(state: &[u64; LEDGER_WORDS]) -> Tables
    ensures { result ≡ tables_at place.keys_head state.now }
{
    let awaits = is_set(state[places::AWAITS]);
    Tables {
        keys: Ring {
            head: state[places::KEYS_HEAD] as usize,
            len: state[places::KEYS_LEN] as usize,
        },
        probes: Ring {
            head: state[places::PROBES_HEAD] as usize,
            len: state[places::PROBES_LEN] as usize,
        },
        awaits,
    }
}

pub fn replies_of(state: &[u64; LEDGER_WORDS]) -> Replies
    ensures { result ≡ replies_at place.requested place.evicted_unanswered state.now }
{
    let last = reflector_of(state[places::LAST]);
    let highest = reflector_of(state[places::HIGHEST]);
    Replies {
        totals: Totals {
            requested: state[places::REQUESTED],
            unique: state[places::UNIQUE],
            duplicate: state[places::DUPLICATE],
            unknown: state[places::UNKNOWN],
        },
        answers: Answers {
            answered: state[places::ANSWERED],
            additional: state[places::ADDITIONAL],
            late: state[places::LATE],
            satisfied: state[places::SATISFIED],
        },
        numbers: Numbers {
            last,
            highest,
            reordered: state[places::REORDERED],
            independent: state[places::INDEPENDENT],
        },
        evicted: Evicted {
            probes: state[places::PROBES_EVICTED],
            replies: state[places::REPLIES_EVICTED],
            unanswered: state[places::EVICTED_UNANSWERED],
        },
    }
}

fn window_of(state: &[u64; LEDGER_WORDS]) -> Option<Epoch>
    ensures { result ≡ window_at place.anchored state.now }
{
    if is_set(state[places::ANCHORED]) {
        return Some(epoch_of(
            state[places::ANCHOR],
            state[places::TRANSMITTED],
            state[places::LATEST],
            state[places::MAXIMA],
            state[places::SEEN],
        ));
    }
    None
}

pub fn direct_of(state: &[u64; LEDGER_WORDS]) -> Direct
    ensures { result ≡ direct_at place.direct state.now }
{
    let window = window_of(state);
    Direct {
        counts: direct::Counts {
            observations: state[places::DIRECT],
            unavailable: state[places::DIRECT_UNAVAILABLE],
            discontinuities: state[places::DISCONTINUITIES],
            reordered: state[places::DIRECT_REORDERED],
            exceeded: is_set(state[places::EXCEEDED]),
        },
        window,
    }
}

pub fn quality_of(state: &[u64; LEDGER_WORDS]) -> ClockQuality
    ensures { result ≡ quality_at place.quality state.now }
{
    let largest = host_quality::largest_of(state[places::LARGEST_KNOWN], state[places::LARGEST]);
    let sender = host_quality::last_of(state[places::SENDER], state[places::SENDER_ERROR]);
    let reflector = host_quality::last_of(state[places::REFLECTOR], state[places::REFLECTOR_ERROR]);
    ClockQuality {
        samples: state[places::QUALITY],
        both: state[places::BOTH_SYNCHRONIZED],
        unsynchronized: state[places::UNSYNCHRONIZED],
        invalid: state[places::INVALID],
        unknown: state[places::UNKNOWN_ESTIMATES],
        invalid_sender: state[places::INVALID_SENDER],
        invalid_reflector: state[places::INVALID_REFLECTOR],
        invalid_both: state[places::INVALID_BOTH],
        sender,
        reflector,
        largest,
    }
}

fn follow_of(state: &[u64; LEDGER_WORDS]) -> FollowUps
    ensures { result ≡ follow_at place.follow_ups state.now }
{
    let delay = delays_of(
        state[places::DELAY],
        state[places::DELAY_SIGN],
        state[places::DELAY_HIGH],
        state[places::DELAY_LOW],
        state[places::DELAY_MIN_KIND],
        state[places::DELAY_MIN],
        state[places::DELAY_MAX_KIND],
        state[places::DELAY_MAX],
    );
    let quality = quality_of(state);
    FollowUps {
        counts: FollowCounts {
            observations: state[places::FOLLOW_UPS],
            matched: state[places::MATCHED],
            repeated: state[places::REPEATED],
            unmatched: state[places::UNMATCHED],
            ambiguous: state[places::AMBIGUOUS],
            unavailable: state[places::UNAVAILABLE],
        },
        delay,
        quality,
    }
}

pub fn load(state: &[u64; LEDGER_WORDS]) -> Ledger
    ensures { result ≡ ledger_at state.now }
{
    let secret = secret_of(state);
    let tables = tables_of(state);
    let replies = replies_of(state);
    let rtt = delays_of(
        state[places::TRIPS],
        state[places::TRIPS_SIGN],
        state[places::TRIPS_HIGH],
        state[places::TRIPS_LOW],
        state[places::TRIPS_MIN_KIND],
        state[places::TRIPS_MIN],
        state[places::TRIPS_MAX_KIND],
        state[places::TRIPS_MAX],
    );
    let direct = direct_of(state);
    let follow = follow_of(state);
    Ledger {
        copies: (state[places::COPIES] % 65536) as u16,
        secret,
        calls: state[places::CALLS],
        tables,
        counts: Counts {
            replies,
            rtt,
            direct,
            follow,
        },
    }
}

// ---- and back

fn store_secret(state: &mut [u64; LEDGER_WORDS], secret: Secret)
    ensures { (state.new ≡ sets state.old place.secret1 (secret_words secret)) × SecretKept secret }
{
    state[places::SECRET_1] = both(secret.first, secret.second);
    state[places::SECRET_2] = both(secret.third, secret.fourth);
    state[places::SECRET_3] = both(secret.fifth, secret.sixth);
    state[places::SECRET_4] = both(secret.seventh, secret.eighth);
}

pub fn store_tables(state: &mut [u64; LEDGER_WORDS], tables: Tables)
    ensures { state.new ≡ sets state.old place.keys_head (tables_words tables) }
{
    let keys = tables.keys;
    let probes = tables.probes;
    state[places::KEYS_HEAD] = keys.head as u64;
    state[places::KEYS_LEN] = keys.len as u64;
    state[places::PROBES_HEAD] = probes.head as u64;
    state[places::PROBES_LEN] = probes.len as u64;
    state[places::AWAITS] = flag(tables.awaits);
}

// ---- what each call stores

pub fn store_sent(state: &mut [u64; LEDGER_WORDS], next: Ledger)
    ensures { state.new ≡ sent_words state.old next }
{
    let tables = next.tables;
    let counts = next.counts;
    let replies = counts.replies;
    let totals = replies.totals;
    let evicted = replies.evicted;
    let probes = tables.probes;
    state[places::CALLS] = next.calls;
    state[places::PROBES_HEAD] = probes.head as u64;
    state[places::PROBES_LEN] = probes.len as u64;
    state[places::REQUESTED] = totals.requested;
    state[places::PROBES_EVICTED] = evicted.probes;
    state[places::EVICTED_UNANSWERED] = evicted.unanswered;
}

// Of a fresh ledger: every word, whatever stood there.
pub fn store_fresh(state: &mut [u64; LEDGER_WORDS], copies: u16, secret: Secret)
    ensures { (state.new ≡ fresh_words copies secret) × SecretKept secret }
{
    *state = [0; LEDGER_WORDS];
    state[places::COPIES] = copies as u64;
    store_secret(state, secret);
}
