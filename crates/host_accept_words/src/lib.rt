// The ledger's `accept` on the words and the rooms that a host lends: what a single call and a list of them have in common, with a monitor and
// without. It is no call of its own, since a crate that exports one cannot be what another call's object is made of. The refusals are tested in the
// words, the key and the probe are looked for once, and what is counted is stepped in its words (a unique reply: crate host_unique_reply): a whole
// ledger would stay in registers and on the stack over all of that, which was a fifth of a unique reply's time. Crate ledger_accept has what becomes
// of the probe of a unique reply.
ghost use Rattle.std.specs.Prelude.{◌≡◌, true, ◌&&◌, ◌≤◌, ◌<◌, length, get_or};
ghost use Rattle.limits.specs.Numbers.{number};
ghost use Rattle.limits.specs.Limits.{capacity, most_calls, count_bound};
ghost use Rattle.chains.specs.Hash.{number_hash};
ghost use Rattle.key_ring.specs.Table.{find as findKey, hash_of};
ghost use Rattle.probe_ring.specs.Rooms.{rooms, outcome};
ghost use Rattle.ledger_state.specs.State.{hash_words};
ghost use Rattle.ledger_state.specs.Refusal.{first_refusal, rings_fit, room_for_call};
ghost use Rattle.ledger_steps.specs.Accept.{readied, unique_in, accept_on};
ghost use Rattle.ledger_checks.specs.Sound.{SoundAccept};
ghost use Rattle.host_ledger.specs.Words.{ledger_at};
ghost use Rattle.host_accept_words.specs.Accept.{accept_left, rings_stored, duplicate_words, unknown_words, served_leaves};
ghost use Rattle.host_ledger.specs.Places as place;

use call_types::Reply;
use chains::Ring;
use host_ledger::{LEDGER_WORDS, places};
use ledger_state::Tables;
use limits::{CAPACITY, Refusal};
use probe_ring::Remembered;

// ---- what is counted

// One call and one duplicate more.
fn count_duplicate(ledger: &mut [u64; LEDGER_WORDS])
    requires { (get_or ledger.old place.calls 0 < most_calls) × (get_or ledger.old place.duplicate 0 < count_bound) }
    ensures { ledger.new ≡ duplicate_words ledger.old }
{
    let calls = ledger[places::CALLS];
    let duplicate = ledger[places::DUPLICATE];
    let unknown = ledger[places::UNKNOWN];
    ledger[places::CALLS] = calls + 1;
    ledger[places::DUPLICATE] = duplicate + 1;
    ledger[places::UNKNOWN] = unknown;
}

// One call and one unknown reply more.
fn count_unknown(ledger: &mut [u64; LEDGER_WORDS])
    requires { (get_or ledger.old place.calls 0 < most_calls) × (get_or ledger.old place.unknown 0 < count_bound) }
    ensures { ledger.new ≡ unknown_words ledger.old }
{
    let calls = ledger[places::CALLS];
    let duplicate = ledger[places::DUPLICATE];
    let unknown = ledger[places::UNKNOWN];
    ledger[places::CALLS] = calls + 1;
    ledger[places::DUPLICATE] = duplicate;
    ledger[places::UNKNOWN] = unknown + 1;
}

// One call more; both rings, and that the key of a unique reply awaits one observe.
fn store_rings(ledger: &mut [u64; LEDGER_WORDS], keys: Ring, probes: Ring)
    requires { get_or ledger.old place.calls 0 < most_calls }
    ensures { ledger.new ≡ rings_stored ledger.old keys probes }
{
    let calls = ledger[places::CALLS];
    ledger[places::CALLS] = calls + 1;
    host_ledger::store_tables(
        ledger,
        Tables {
            keys,
            probes,
            awaits: true,
        },
    );
}

// ---- by the class of the reply

// A unique reply whose probe is ready: the probe has one reply more, and the key is accepted. Answered and counted first: what both need
// would else lie on the stack while the key is accepted, a sixteenth of a unique reply's instructions.
fn unique_ready(
    ledger: &mut [u64; LEDGER_WORDS],
    keys: &mut [[u64; 2]],
    slots: &mut [[u64; 3]],
    probes: &mut [[u64; 4]],
    links: &mut [[u16; 8]],
    secret: [u32; 8],
    ready: Remembered,
    reply: Reply,
    answer: &mut [u64; 6],
)
    requires { SoundAccept (ledger_at ledger.old) (length keys.old) (length slots.old) (length probes.old) (length links.old) × (secret ≡ hash_words (ledger_at ledger.old)) × (ready.slot < capacity) }
    ensures { let words = ledger.old in
        let l = ledger_at words in
        let held = outcome probes.old links.old ready in
        let left = accept_left 0 ledger.new keys.new slots.new probes.new links.new answer.new in
        left ≡ served_leaves words (unique_in capacity (hash_of (hash_words l)) (number_hash (hash_words l)) l keys.old slots.old held reply) }
{
    let key = reply.key;
    let pending = reply.pending;
    let ring = host_ledger_checks::keys_ring(ledger);
    let held = ready.ring;
    let replied = ledger_accept::reply_to(probes, ready.slot, pending);
    let context = replied.context;
    *answer = host_calls::accepted_words(context);
    host_unique_reply::count(
        ledger,
        replied.before,
        ledger_accept::is_pending(pending),
        key.sender,
        key.reflector,
        ready.evicted,
        ready.lost,
    );
    let next = key_ring::accept_key(keys, slots, links, ring, secret, key);
    store_rings(ledger, next, held);
}

// A unique reply; `slot` is that of its probe.
fn unique(
    ledger: &mut [u64; LEDGER_WORDS],
    keys: &mut [[u64; 2]],
    slots: &mut [[u64; 3]],
    probes: &mut [[u64; 4]],
    links: &mut [[u16; 8]],
    secret: [u32; 8],
    slot: usize,
    reply: Reply,
    answer: &mut [u64; 6],
)
    requires { SoundAccept (ledger_at ledger.old) (length keys.old) (length slots.old) (length probes.old) (length links.old) × (secret ≡ hash_words (ledger_at ledger.old)) }
    ensures { let words = ledger.old in
        let l = ledger_at words in
        let by_key = hash_of (hash_words l) in
        let by_number = number_hash (hash_words l) in
        let held = rooms probes.old links.old l.tables.probes in
        let left = accept_left 0 ledger.new keys.new slots.new probes.new links.new answer.new in
        left ≡ served_leaves words (unique_in capacity by_key by_number l keys.old slots.old (readied capacity by_key by_number held slot reply.key reply.pending) reply) }
{
    let ring = host_ledger_checks::probes_ring(ledger);
    let ready = ledger_accept::ready_probe(probes, links, ring, secret, slot, reply);
    unique_ready(
        ledger, keys, slots, probes, links, secret, ready, reply, answer,
    );
}

// A reply whose key is not among the last accepted: unique where its probe is held or a packet is pending, else unknown.
fn other(
    ledger: &mut [u64; LEDGER_WORDS],
    keys: &mut [[u64; 2]],
    slots: &mut [[u64; 3]],
    probes: &mut [[u64; 4]],
    links: &mut [[u16; 8]],
    secret: [u32; 8],
    reply: Reply,
    answer: &mut [u64; 6],
)
    requires { SoundAccept (ledger_at ledger.old) (length keys.old) (length slots.old) (length probes.old) (length links.old) × (secret ≡ hash_words (ledger_at ledger.old)) × (capacity ≤ findKey (hash_words (ledger_at ledger.old)) keys.old links.old (ledger_at ledger.old).tables.keys reply.key) }
    ensures { let words = ledger.old in
        let left = accept_left 0 ledger.new keys.new slots.new probes.new links.new answer.new in
        left ≡ served_leaves words (accept_on (ledger_at words) keys.old slots.old probes.old links.old reply) }
{
    let pending = reply.pending;
    let ring = host_ledger_checks::probes_ring(ledger);
    let slot = probe_ring::find(probes, links, ring, secret, reply.key.sender);
    if (slot < CAPACITY) | ledger_accept::is_pending(pending) {
        unique(
            ledger, keys, slots, probes, links, secret, slot, reply, answer,
        );
        return;
    }
    *answer = [0, 0, 0, 0, 0, 0];
    count_unknown(ledger);
}

// A reply that is not refused. A duplicate is answered at once.
pub fn served(
    ledger: &mut [u64; LEDGER_WORDS],
    keys: &mut [[u64; 2]],
    slots: &mut [[u64; 3]],
    probes: &mut [[u64; 4]],
    links: &mut [[u16; 8]],
    reply: Reply,
    answer: &mut [u64; 6],
)
    requires { SoundAccept (ledger_at ledger.old) (length keys.old) (length slots.old) (length probes.old) (length links.old) }
    ensures { let words = ledger.old in
        let left = accept_left 0 ledger.new keys.new slots.new probes.new links.new answer.new in
        left ≡ served_leaves words (accept_on (ledger_at words) keys.old slots.old probes.old links.old reply) }
{
    let key = reply.key;
    let secret = host_ledger_checks::secret_words(ledger);
    let ring = host_ledger_checks::keys_ring(ledger);
    if key_ring::find(keys, links, ring, secret, key) < CAPACITY {
        *answer = [1, 0, 0, 0, 0, 0];
        count_duplicate(ledger);
        return;
    }
    other(ledger, keys, slots, probes, links, secret, reply, answer);
}

// ---- the refusals

// Why the ledger's own tests refuse; where a list of replies is sure that they don't, nothing is tested.
pub fn refusal_unless(sure: bool, ledger: &[u64; LEDGER_WORDS], sized: bool) -> Option<Refusal>
    requires { sure ≡ true → first_refusal (sized && rings_fit (ledger_at ledger.now)) true true (room_for_call (ledger_at ledger.now)) true true ≡ 0 }
    ensures { number result ≡ first_refusal (sized && rings_fit (ledger_at ledger.now)) true true (room_for_call (ledger_at ledger.now)) true true }
{
    if sure {
        None
    } else {
        host_ledger_checks::refusal(ledger, sized)
    }
}
