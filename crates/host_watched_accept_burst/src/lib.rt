// `accept` with a monitor for a list of replies (document 02, Q-2). Crate host_watched_accept_words serves each, as it does the single call.
// Each function that is lent the queue is a straight line of calls, so that the walk of it is short; what depends on a test is in the functions that
// it calls.
ghost use Rattle.std.specs.Prelude.{◌≡◌, [], get_or, set};
ghost use Rattle.limits.specs.Numbers.{number};
ghost use Rattle.host_burst.specs.Burst.{left, listed, up_to};
ghost use Rattle.host_burst.specs.Entries.{row_after};
ghost use Rattle.host_watched_accept_burst.specs.Burst.{lent, accept_entry, watched_burst};

use host_burst::{put_row, refusal_of_list, reply_at, served_of_list};
use host_ledger::LEDGER_WORDS;
use host_watched_accept_words::{ReplyAnswer, accept};
use limits::Refusal;
use probe_queue::QueuedProbe;

// The row of entry i after a call that gave this.
fn put_given(answers: &mut [[u64; 7]], i: usize, given: ReplyAnswer)
    ensures { answers.new ≡ set answers.old i (row_after (get_or answers.old i []) given.number given.words) }
{
    let words = given.words;
    put_row(answers, i, given.number, words);
}

// The first `count` entries; the number of the list is handed back.
fn serve(
    ledger: &mut [u64; LEDGER_WORDS],
    monitor: &mut [u64; 12],
    keys: &mut [[u64; 2]],
    slots: &mut [[u64; 3]],
    probes: &mut [[u64; 4]],
    links: &mut [[u16; 8]],
    queue: &mut [QueuedProbe],
    entries: &[[u64; 5]],
    count: usize,
    answers: &mut [[u64; 7]],
    refused: Option<Refusal>,
) -> u8
    ensures { let before = lent ledger.old monitor.old keys.old slots.old probes.old links.old queue.old in
        let after = lent ledger.new monitor.new keys.new slots.new probes.new links.new queue.new in
        (left after answers.new ≡ up_to accept_entry entries.now (left before answers.old) count) × (result ≡ number refused) }
{
    for i in 0..count {
        let reply = reply_at(entries, i);
        let given = accept(ledger, monitor, keys, slots, probes, links, queue, reply);
        put_given(answers, i, given);
    }
    limits::number(refused)
}

// Words of `entries`: 0 t3, 1 sender (u32), reflector (u32), 2 pending, 3 time, 4 tag.
// Words of `answers`: 0 number, 1 accepted.class, 2 accepted.time, 3 accepted.tag, 4 accepted.ordinal_known, 5 accepted.ordinal, 6 accepted.train.
#[unsafe(no_mangle)]
pub extern "C" fn ambrulicciu_watched_accept_burst(
    ledger: &mut [u64; LEDGER_WORDS],
    monitor: &mut [u64; 12],
    keys: &mut [[u64; 2]],
    slots: &mut [[u64; 3]],
    probes: &mut [[u64; 4]],
    links: &mut [[u16; 8]],
    queue: &mut [QueuedProbe],
    entries: &[[u64; 5]],
    answers: &mut [[u64; 7]],
) -> u8
    ensures { let before = lent ledger.old monitor.old keys.old slots.old probes.old links.old queue.old in
        let after = lent ledger.new monitor.new keys.new slots.new probes.new links.new queue.new in
        listed result (left after answers.new) ≡ watched_burst before entries.now answers.old }
{
    let refused = refusal_of_list(entries.len(), answers.len());
    let count = served_of_list(limits::number(refused), entries.len());
    serve(
        ledger, monitor, keys, slots, probes, links, queue, entries, count, answers, refused,
    )
}
