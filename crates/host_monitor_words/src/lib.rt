// The monitor in twelve words that a host lends: what any words say, and the words of a monitor. Nothing is asked of what the words hold.
#![tactic(auto, unfolding(crate::specs::Words::summary_at, crate::specs::Words::monitor_at, crate::specs::Words::words_of))]

ghost use Rattle.std.specs.Prelude.{◌≡◌, ◌%◌, ◌^◌};
ghost use Rattle.limits.specs.Numbers.{answer_number};
ghost use Rattle.host_monitor_words.specs.Words.{state_at, state_number, summary_at, monitor_at, words_of, words_after};

use host_numbers::{flag, is_set, low};
use monitor::{Monitor, State, Summary};
use probe_queue::QueueRing;

fn state_at(word: u64) -> State
    ensures { result ≡ state_at word }
{
    if word == 0 {
        return State::Idle;
    }
    if word == 1 {
        return State::Active;
    }
    State::Failed
}

// 0 idle, 1 active, 2 failed.
pub fn state_number(state: State) -> u64
    ensures { result ≡ state_number state }
{
    match state {
        State::Idle => 0,
        State::Active => 1,
        State::Failed => 2,
    }
}

// A threshold is a u16: the low 16 bits.
fn low_16(word: u64) -> u16
    ensures { result ≡ word % 2 ^ 16 }
{
    (word % 65536) as u16
}

fn summary_at(words: &[u64; 12]) -> Summary
    ensures { result ≡ summary_at words.now }
{
    Summary {
        state: state_at(words[0]),
        loss_threshold: low_16(words[1]),
        consecutive_losses: low(words[2]),
        active_notifications: words[3],
        failed_notifications: words[4],
        idle_notifications: words[5],
    }
}

// The monitor that the words say.
pub fn load(words: &[u64; 12]) -> Monitor
    ensures { result ≡ monitor_at words.now }
{
    let summary = summary_at(words);
    Monitor {
        summary: summary,
        timeout: words[6],
        transmitting: is_set(words[7]),
        ring: QueueRing {
            head: words[8] as usize,
            len: words[9] as usize,
        },
        run: words[10] as usize,
        latest: low(words[11]),
    }
}

fn words_of(monitor: Monitor) -> [u64; 12]
    ensures { result ≡ words_of monitor }
{
    let summary = monitor.summary;
    let ring = monitor.ring;
    let state = summary.state;
    [
        state_number(state),
        summary.loss_threshold as u64,
        summary.consecutive_losses as u64,
        summary.active_notifications,
        summary.failed_notifications,
        summary.idle_notifications,
        monitor.timeout,
        flag(monitor.transmitting),
        ring.head as u64,
        ring.len as u64,
        monitor.run as u64,
        monitor.latest as u64,
    ]
}

// The words of a monitor, stored.
pub fn store(words: &mut [u64; 12], monitor: Monitor)
    ensures { words.new ≡ words_of monitor }
{
    *words = words_of(monitor);
}

// The number of an answer. The words change where the call was served, and not otherwise.
pub fn finish(words: &mut [u64; 12], answer: Result<Monitor, u8>) -> u8
    ensures { (result ≡ answer_number answer) × (words.new ≡ words_after words.old answer) }
{
    match answer {
        Ok(monitor) => {
            store(words, monitor);
            0
        }
        Err(number) => number,
    }
}
