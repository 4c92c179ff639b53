// `accept` with a monitor for a host: the ledger and the monitor in their lent words, document 01's number back (0 where the call was served).
// A straight line of calls, so that the walk of it is short; crate host_watched_accept_words serves it, as it does each reply of a list.
ghost use Rattle.std.specs.Prelude.{◌≡◌};
ghost use Rattle.host_watched_accept_words.specs.Calls.{left, shown_in};
ghost use Rattle.host_watched_accept.specs.Calls.{watched_accept_to};

use host_calls::reply_of;
use host_ledger::LEDGER_WORDS;
use host_watched_accept_words::{ReplyAnswer, accept};
use probe_queue::QueuedProbe;

// The number of what `accept` gave. The answer's words change where the call was served, and not otherwise.
fn show(answer: &mut [u64; 6], given: ReplyAnswer) -> u8
    ensures { (result ≡ given.number) × (answer.new ≡ shown_in given.number given.words answer.old) }
{
    if given.number == 0 {
        let words = given.words;
        *answer = words;
    }
    given.number
}

// A reply came, on a link that a monitor watches.
#[unsafe(no_mangle)]
pub extern "C" fn ambrulicciu_watched_accept(
    ledger: &mut [u64; LEDGER_WORDS],
    monitor: &mut [u64; 12],
    keys: &mut [[u64; 2]],
    slots: &mut [[u64; 3]],
    probes: &mut [[u64; 4]],
    links: &mut [[u16; 8]],
    queue: &mut [QueuedProbe],
    sender: u32,
    reflector: u32,
    t3: u64,
    pending: u32,
    time: u64,
    tag: u64,
    answer: &mut [u64; 6],
) -> u8
    ensures { let after = left result ledger.new monitor.new keys.new slots.new probes.new links.new queue.new answer.new in
        after ≡ watched_accept_to ledger.old monitor.old keys.old slots.old probes.old links.old queue.old sender reflector t3 pending time tag answer.old }
{
    let reply = reply_of(sender, reflector, t3, pending, time, tag);
    let given = accept(ledger, monitor, keys, slots, probes, links, queue, reply);
    show(answer, given)
}
