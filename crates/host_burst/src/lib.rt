// What the calls for a whole burst have in common, with a monitor and without: when a list is refused, and an entry and its row of the answers in a
// host's words.
#![tactic(auto)]

ghost use Rattle.std.specs.Prelude.{◌≡◌, cond, [], eqb, get_or, set};
ghost use Rattle.limits.specs.Numbers.{number};
ghost use Rattle.host_burst.specs.Burst.{burst_refusal};
ghost use Rattle.host_burst.specs.Entries.{reply_at, served_row, refused_row, row_after};

use call_types::Reply;
use limits::Refusal;

// Most entries of a list (document 02, Q-2).
pub const MOST_ENTRIES: usize = 256;

// ---- the list

// Of a list and a room for answers of these lengths.
pub fn refusal_of_list(entries: usize, rows: usize) -> Option<Refusal>
    ensures { number result ≡ burst_refusal entries rows }
{
    if rows == entries && entries <= MOST_ENTRIES {
        None
    } else {
        Some(Refusal::WrongRoom)
    }
}

// How many entries are served: none of a list that is refused.
pub fn served_of_list(refusal: u8, entries: usize) -> usize
    ensures { result ≡ cond (eqb refusal 0) entries 0 }
{
    if refusal == 0 { entries } else { 0 }
}

// ---- an entry

// Any word is a flag.
fn pending_of(word: u64) -> u32
    ensures { eqb result 0 ≡ eqb word 0 }
{
    if word == 0 {
        return 0;
    }
    1
}

fn reply_of_entry(entry: [u64; 5]) -> Reply
    ensures { result ≡ reply_at entry }
{
    let sender = host_numbers::low(entry[1]);
    let reflector = host_numbers::high(entry[1]);
    let pending = pending_of(entry[2]);
    host_calls::reply_of(sender, reflector, entry[0], pending, entry[3], entry[4])
}

// The reply of entry i; of an entry that is not there all words are 0.
pub fn reply_at(entries: &[[u64; 5]], i: usize) -> Reply
    ensures { result ≡ reply_at (get_or entries.now i []) }
{
    if i < entries.len() {
        return reply_of_entry(entries[i]);
    }
    host_calls::reply_of(0, 0, 0, 0, 0, 0)
}

fn served_row(words: [u64; 6]) -> [u64; 7]
    ensures { result ≡ served_row words }
{
    [
        0, words[0], words[1], words[2], words[3], words[4], words[5],
    ]
}

fn refused_row(row: [u64; 7], number: u8) -> [u64; 7]
    ensures { result ≡ refused_row row number }
{
    [
        number as u64,
        row[1],
        row[2],
        row[3],
        row[4],
        row[5],
        row[6],
    ]
}

// The row of entry i, which was served with these words of its answer; none is written where there is no such row.
pub fn put_served(rows: &mut [[u64; 7]], i: usize, words: [u64; 6])
    ensures { rows.new ≡ set rows.old i (served_row words) }
{
    if i < rows.len() {
        rows[i] = served_row(words);
    }
}

// The row of entry i, which was refused.
pub fn put_refused(rows: &mut [[u64; 7]], i: usize, number: u8)
    ensures { rows.new ≡ set rows.old i (refused_row (get_or rows.old i []) number) }
{
    if i < rows.len() {
        rows[i] = refused_row(rows[i], number);
    }
}

// The row of entry i after a call with this number and these words of its answer.
pub fn put_row(rows: &mut [[u64; 7]], i: usize, number: u8, words: [u64; 6])
    ensures { rows.new ≡ set rows.old i (row_after (get_or rows.old i []) number words) }
{
    if number == 0 {
        put_served(rows, i, words);
    } else {
        put_refused(rows, i, number);
    }
}
