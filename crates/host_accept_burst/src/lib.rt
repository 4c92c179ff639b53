// `ambrulicciu_accept_burst`: `accept` for a list of replies, on the words and the rooms that a host lends (document 02, Q-2).
// Whether any entry can be refused is looked at once a list (crate host_burst_bounds). The words of the hash are taken out of the ledger's at each entry:
// kept over the list they would lie on the stack, and each of their uses would fetch them from there.
ghost use Rattle.std.specs.Prelude.{◌≡◌, true, ◌&&◌, length};
ghost use Rattle.ledger_state.specs.Refusal.{first_refusal, sized as sizedRoom, rings_fit, room_for_call};
ghost use Rattle.host_ledger.specs.Words.{ledger_at};
ghost use Rattle.host_burst.specs.Burst.{left, listed, one_more, up_to};
ghost use Rattle.host_accept_burst.specs.Burst.{lent, accept_entry, accept_burst};

use host_accept_words::{refusal_unless, served};
use host_burst::{put_refused, put_served, refusal_of_list, reply_at, served_of_list};
use host_ledger::{LEDGER_WORDS, counted};
use limits::CAPACITY;

// Entry i; `sure` is whether it is known that the ledger refuses no entry that is left.
fn serve_entry(
    ledger: &mut [u64; LEDGER_WORDS],
    keys: &mut [[u64; 2]],
    slots: &mut [[u64; 3]],
    probes: &mut [[u64; 4]],
    links: &mut [[u16; 8]],
    sure: bool,
    entries: &[[u64; 5]],
    answers: &mut [[u64; 7]],
    i: usize,
)
    requires { sure ≡ true → first_refusal (sizedRoom (length keys.old) && sizedRoom (length slots.old) && sizedRoom (length probes.old) && sizedRoom (length links.old) && rings_fit (ledger_at ledger.old)) true true (room_for_call (ledger_at ledger.old)) true true ≡ 0 }
    ensures { let before = lent ledger.old keys.old slots.old probes.old links.old in
        let after = lent ledger.new keys.new slots.new probes.new links.new in
        left after answers.new ≡ one_more accept_entry entries.now (left before answers.old) i }
{
    let sized = (keys.len() == CAPACITY)
        & (slots.len() == CAPACITY)
        & (probes.len() == CAPACITY)
        & (links.len() == CAPACITY);
    match refusal_unless(sure, ledger, sized) {
        Some(refusal) => put_refused(answers, i, u8::from(refusal)),
        None => {
            let reply = reply_at(entries, i);
            let mut words = [0; 6];
            served(ledger, keys, slots, probes, links, reply, &mut words);
            put_served(answers, i, words);
        }
    }
}

// The first `count` entries.
fn serve(
    ledger: &mut [u64; LEDGER_WORDS],
    keys: &mut [[u64; 2]],
    slots: &mut [[u64; 3]],
    probes: &mut [[u64; 4]],
    links: &mut [[u16; 8]],
    entries: &[[u64; 5]],
    count: usize,
    answers: &mut [[u64; 7]],
)
    ensures { let before = lent ledger.old keys.old slots.old probes.old links.old in
        let after = lent ledger.new keys.new slots.new probes.new links.new in
        left after answers.new ≡ up_to accept_entry entries.now (left before answers.old) count }
{
    counted(*ledger);
    let sized = (keys.len() == CAPACITY)
        & (slots.len() == CAPACITY)
        & (probes.len() == CAPACITY)
        & (links.len() == CAPACITY);
    let sure = host_burst_bounds::lasts(ledger, sized, count);
    for i in 0..count {
        serve_entry(
            ledger, keys, slots, probes, links, sure, entries, answers, i,
        );
    }
}

// Words of `entries`: 0 t3, 1 sender (u32), reflector (u32), 2 pending, 3 time, 4 tag.
// Words of `answers`: 0 number, 1 accepted.class, 2 accepted.time, 3 accepted.tag, 4 accepted.ordinal_known, 5 accepted.ordinal, 6 accepted.train.
#[unsafe(no_mangle)]
pub extern "C" fn ambrulicciu_accept_burst(
    ledger: &mut [u64; LEDGER_WORDS],
    keys: &mut [[u64; 2]],
    slots: &mut [[u64; 3]],
    probes: &mut [[u64; 4]],
    links: &mut [[u16; 8]],
    entries: &[[u64; 5]],
    answers: &mut [[u64; 7]],
) -> u8
    ensures { let before = lent ledger.old keys.old slots.old probes.old links.old in
        let after = lent ledger.new keys.new slots.new probes.new links.new in
        listed result (left after answers.new) ≡ accept_burst before entries.now answers.old }
{
    let refusal = limits::number(refusal_of_list(entries.len(), answers.len()));
    let count = served_of_list(refusal, entries.len());
    serve(ledger, keys, slots, probes, links, entries, count, answers);
    refusal
}
