// The monitor's calls for a host: the monitor in twelve lent words, the queue in a lent slice of probe records, document 01's number back (0 where the call was served).
// A call that is lent the queue is a straight line of calls; what depends on a test is in the functions that it calls.
#![tactic(auto, unfolding(crate::specs::Calls::fresh_to, crate::specs::Calls::sent_to, crate::specs::Calls::reply_to, crate::specs::Calls::advance_to, crate::specs::Calls::idle_to, crate::specs::Calls::deadline_to, crate::specs::Calls::summary_to))]

ghost use Rattle.std.specs.Prelude.{◌≡◌};
ghost use Rattle.host_monitor.specs.Calls.{told, left, shows, fresh_to, sent_to, reply_to, advance_to, idle_to, deadline_to, summary_to, answer_words};
ghost use Rattle.limits.specs.Numbers.{answer_number, numbered};

use host_monitor_words::{finish, load, state_number, store};
use limits::{Refusal, numbered};
use monitor::{Monitor, Summary};
use probe_queue::QueuedProbe;

// Makes a monitor fresh, whatever its words held. Threshold 0 counts as 1.
#[unsafe(no_mangle)]
pub extern "C" fn ambrulicciu_monitor_fresh(
    monitor: &mut [u64; 12],
    threshold: u16,
    timeout: u64,
) -> u8
    ensures { told result monitor.new ≡ fresh_to threshold timeout }
{
    store(monitor, Monitor::new(threshold, timeout));
    0
}

// A probe was sent.
#[unsafe(no_mangle)]
pub extern "C" fn ambrulicciu_monitor_sent(
    monitor: &mut [u64; 12],
    queue: &mut [QueuedProbe],
    sequence: u32,
    time: u64,
) -> u8
    ensures { left result monitor.new queue.new ≡ sent_to monitor.old queue.old sequence time }
{
    let before = load(monitor);
    let answer = before.sent(queue, sequence, time);
    finish(monitor, numbered(answer))
}

// A reply was heard.
#[unsafe(no_mangle)]
pub extern "C" fn ambrulicciu_monitor_reply(
    monitor: &mut [u64; 12],
    queue: &mut [QueuedProbe],
    sequence: u32,
) -> u8
    ensures { left result monitor.new queue.new ≡ reply_to monitor.old queue.old sequence }
{
    let before = load(monitor);
    let answer = before.reply(queue, sequence);
    finish(monitor, numbered(answer))
}

// It is `time` now: what is due by then is lost.
#[unsafe(no_mangle)]
pub extern "C" fn ambrulicciu_monitor_advance(
    monitor: &mut [u64; 12],
    queue: &mut [QueuedProbe],
    time: u64,
) -> u8
    ensures { left result monitor.new queue.new ≡ advance_to monitor.old queue.old time }
{
    let before = load(monitor);
    let answer = before.advance(queue, time);
    finish(monitor, numbered(answer))
}

// The session stops. It is lent no queue: none of its records is queued any more.
#[unsafe(no_mangle)]
pub extern "C" fn ambrulicciu_monitor_idle(monitor: &mut [u64; 12]) -> u8
    ensures { told result monitor.new ≡ idle_to monitor.old }
{
    let before = load(monitor);
    let answer = before.idle();
    finish(monitor, numbered(answer))
}

// The number of a deadline's answer; where it is served, its two words: 1 if there is one, and the deadline.
fn finish_deadline(answer: &mut [u64; 2], deadline: Result<Option<u64>, Refusal>) -> u8
    ensures { (result ≡ answer_number (numbered deadline)) × (answer.new ≡ answer_words answer.old (numbered deadline)) }
{
    match deadline {
        Ok(None) => {
            *answer = [0, 0];
            0
        }
        Ok(Some(time)) => {
            *answer = [1, time];
            0
        }
        Err(refusal) => u8::from(refusal),
    }
}

// The front probe's deadline, for a host that wants to know when to call `advance` next.
// Words of `answer`: 0 known, 1 deadline.
#[unsafe(no_mangle)]
pub extern "C" fn ambrulicciu_monitor_deadline(
    monitor: &[u64; 12],
    queue: &[QueuedProbe],
    answer: &mut [u64; 2],
) -> u8
    ensures { told result answer.new ≡ deadline_to monitor.now queue.now answer.old }
{
    let before = load(monitor);
    let deadline = before.deadline(queue);
    finish_deadline(answer, deadline)
}

fn summary_words(summary: Summary) -> [u64; 6]
    ensures { result ≡ shows summary }
{
    let state = summary.state;
    [
        state_number(state),
        summary.loss_threshold as u64,
        summary.consecutive_losses as u64,
        summary.active_notifications,
        summary.failed_notifications,
        summary.idle_notifications,
    ]
}

// What is shown of a monitor. It only reads; refused where the ring is out of place.
// Words of `shown`: 0 state, 1 threshold, 2 consecutive_losses, 3 active_notifications, 4 failed_notifications, 5 idle_notifications.
#[unsafe(no_mangle)]
pub extern "C" fn ambrulicciu_monitor_summary(monitor: &[u64; 12], shown: &mut [u64; 6]) -> u8
    ensures { told result shown.new ≡ summary_to monitor.now shown.old }
{
    let before = load(monitor);
    if before.out_of_place(limits::CAPACITY) {
        return u8::from(Refusal::WrongRoom);
    }
    let summary = before.summary();
    *shown = summary_words(summary);
    0
}
