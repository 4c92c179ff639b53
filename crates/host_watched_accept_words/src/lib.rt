// The ledger's `accept` with a monitor, on the words and the rooms that a host lends: what a single call and a list of them have in common, and the
// ledger's part alone, which the player of a log makes too. It is no call of its own, since a crate that exports one cannot be what another call's
// object is made of. The ledger stays in its words (crate host_accept_words); the monitor is a small part, and is taken out, stepped by value and put
// back. What both do is `accept_to` of crate ledger_watched, which has the definitions of the calls with a monitor.
// What is lent the queue is a straight line of calls, so that the walk of it is short; what depends on a test is in the functions before it.
ghost use Rattle.std.specs.Prelude.{◌≡◌};
ghost use Rattle.limits.specs.Numbers.{number};
ghost use Rattle.monitor.specs.Refusals.{refusal_of};
ghost use Rattle.ledger_steps.specs.Calls as calls;
ghost use Rattle.ledger_watched.specs.Watched.{accept_to};
ghost use Rattle.host_ledger.specs.Words.{ledger_at};
ghost use Rattle.host_monitor_words.specs.Words.{monitor_at};
ghost use Rattle.host_accept_words.specs.Accept.{accept_left, accept_from};
ghost use Rattle.host_watched_parts.specs.Unless.{stored_unless};
ghost use Rattle.host_watched_accept_words.specs.Calls.{zeros, heard_in, left, ended};

use call_types::Reply;
use host_accept_words::served;
use host_ledger::LEDGER_WORDS;
use host_watched_parts::{first_of, store_unless};
use ledger_watched::sender_of;
use limits::{CAPACITY, Refusal};
use monitor::Monitor;
use probe_queue::QueuedProbe;

// What is told of a reply: the call's number, and the words of its answer, zeros where it was refused.
#[derive(Clone, Copy)]
pub struct ReplyAnswer {
    pub number: u8,
    pub words: [u64; 6],
}

// Why the monitor refuses.
fn refusal_of_monitor(monitor: &[u64; 12], room: usize) -> Option<Refusal>
    ensures { number result ≡ refusal_of (monitor_at monitor.now) room }
{
    host_monitor_words::load(monitor).refusal(room)
}

// The ledger's part, refused also where `other` is a refusal: that of the monitor, 0 where there is none.
pub fn accept_unless(
    other: u8,
    ledger: &mut [u64; LEDGER_WORDS],
    keys: &mut [[u64; 2]],
    slots: &mut [[u64; 3]],
    probes: &mut [[u64; 4]],
    links: &mut [[u16; 8]],
    reply: Reply,
) -> ReplyAnswer
    ensures { let words = ledger.old in
        let left = accept_left result.number ledger.new keys.new slots.new probes.new links.new result.words in
        left ≡ accept_from words zeros (calls.accept_to other (ledger_at words) keys.old slots.old probes.old links.old reply) }
{
    let sized = (keys.len() == CAPACITY)
        & (slots.len() == CAPACITY)
        & (probes.len() == CAPACITY)
        & (links.len() == CAPACITY);
    let own = limits::number(host_ledger_checks::refusal(ledger, sized));
    let number = first_of(own, other);
    let mut words = [0; 6];
    if number == 0 {
        served(ledger, keys, slots, probes, links, reply, &mut words);
    }
    ReplyAnswer { number, words }
}

// Whether the reply was unique: of one that was refused all words are 0.
pub fn was_unique(given: ReplyAnswer) -> bool
    ensures { result ≡ heard_in given.words }
{
    given.words[0] == 2
}

fn finish(monitor: &mut [u64; 12], given: ReplyAnswer, next: Monitor) -> ReplyAnswer
    ensures { (result ≡ given) × (monitor.new ≡ stored_unless given.number monitor.old next) }
{
    store_unless(given.number, monitor, next);
    given
}

// A unique reply goes to the monitor, and no other one. The monitor is taken out once for its refusal and once for its step: in between it would
// stay in registers and on the stack.
pub fn accept(
    ledger: &mut [u64; LEDGER_WORDS],
    monitor: &mut [u64; 12],
    keys: &mut [[u64; 2]],
    slots: &mut [[u64; 3]],
    probes: &mut [[u64; 4]],
    links: &mut [[u16; 8]],
    queue: &mut [QueuedProbe],
    reply: Reply,
) -> ReplyAnswer
    ensures { let words = ledger.old in
        let watch = monitor.old in
        let after = left result.number ledger.new monitor.new keys.new slots.new probes.new links.new queue.new result.words in
        after ≡ ended words watch zeros (accept_to (ledger_at words) (monitor_at watch) keys.old slots.old probes.old links.old queue.old reply) }
{
    let room = queue.len();
    let other = limits::number(refusal_of_monitor(monitor, room));
    let given = accept_unless(other, ledger, keys, slots, probes, links, reply);
    let go = was_unique(given);
    let sender = sender_of(reply);
    let watch = host_monitor_words::load(monitor);
    let next = watch.reply_if(go, queue, sender);
    finish(monitor, given, next)
}
