// `sent` with a monitor for a host: the ledger and the monitor in their lent words, document 01's number back (0 where the call was served). The
// ledger stays in its words (crate host_sent_words); the monitor is a small part, and is taken out, stepped by value and put back. What both
// do is `sent_to` of crate ledger_watched, which has the definitions of the calls with a monitor.
// What is lent the queue is a straight line of calls, so that the walk of it is short; what depends on a test is in the functions before it.
ghost use Rattle.std.specs.Prelude.{◌≡◌};
ghost use Rattle.limits.specs.Numbers.{number};
ghost use Rattle.monitor.specs.Refusals.{refusal_of_sent};
ghost use Rattle.host_monitor_words.specs.Words.{monitor_at};
ghost use Rattle.host_watched_parts.specs.Unless.{stored_unless};
ghost use Rattle.host_watched_sent.specs.Calls.{left, watched_sent_to};

use host_calls::probe_of;
use host_ledger::LEDGER_WORDS;
use host_sent_words::sent_unless;
use host_watched_parts::store_unless;
use limits::Refusal;
use monitor::Monitor;
use probe_queue::QueuedProbe;

// Why the monitor refuses.
fn refusal_of_monitor(monitor: &[u64; 12], room: usize, time: u64) -> Option<Refusal>
    ensures { number result ≡ refusal_of_sent (monitor_at monitor.now) room time }
{
    host_monitor_words::load(monitor).refusal_of_sent(room, time)
}

fn finish(monitor: &mut [u64; 12], number: u8, next: Monitor) -> u8
    ensures { (result ≡ number) × (monitor.new ≡ stored_unless number monitor.old next) }
{
    store_unless(number, monitor, next);
    number
}

// A probe was sent, on a link that a monitor watches. The monitor is taken out once for its refusal and once for its step: in between it would stay
// in registers and on the stack.
#[unsafe(no_mangle)]
pub extern "C" fn ambrulicciu_watched_sent(
    ledger: &mut [u64; LEDGER_WORDS],
    monitor: &mut [u64; 12],
    probes: &mut [[u64; 4]],
    links: &mut [[u16; 8]],
    queue: &mut [QueuedProbe],
    sequence: u32,
    ordinal: u32,
    train: u32,
    time: u64,
    tag: u64,
) -> u8
    ensures { left result ledger.new monitor.new probes.new links.new queue.new ≡ watched_sent_to ledger.old monitor.old probes.old links.old queue.old sequence ordinal train time tag }
{
    let room = queue.len();
    let probe = probe_of(sequence, ordinal, train, time, tag);
    let other = limits::number(refusal_of_monitor(monitor, room, time));
    let number = sent_unless(other, ledger, probes, links, probe);
    let watch = host_monitor_words::load(monitor);
    let next = watch.sent_if(number == 0, queue, sequence, time);
    finish(monitor, number, next)
}
