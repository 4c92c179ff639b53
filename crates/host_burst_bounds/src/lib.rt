// That no reply of a list can be refused, asked once a list and not once a reply (document 02, Q-2): the tests of a single `accept` hold, and each
// count that a reply raises is so far below its bound that no list reaches it. No reply changes what the other tests look at.
ghost use Rattle.std.specs.Prelude.{◌≡◌, ◌&&◌, leb, ltb, get_or};
ghost use Rattle.host_burst_bounds.specs.Lasts.{far, low_totals, low_answers, low_others, lasts as lastsFor};

use host_ledger::{LEDGER_WORDS, places};

// Most replies of a list.
const MOST: usize = 256;

// A count that is below this is below its bound after any list.
const FAR: u64 = 4611686018427387904;

// The calls that are served before the last list that all can be served of.
const LAST_CALLS: u64 = 4294967039;

fn low_totals(state: &[u64; LEDGER_WORDS]) -> bool
    ensures { result ≡ low_totals state.now }
{
    (state[places::REQUESTED] < FAR)
        & (state[places::UNIQUE] < FAR)
        & (state[places::DUPLICATE] < FAR)
        & (state[places::UNKNOWN] < FAR)
}

fn low_answers(state: &[u64; LEDGER_WORDS]) -> bool
    ensures { result ≡ low_answers state.now }
{
    (state[places::ANSWERED] < FAR)
        & (state[places::ADDITIONAL] < FAR)
        & (state[places::LATE] < FAR)
        & (state[places::SATISFIED] < FAR)
}

fn low_others(state: &[u64; LEDGER_WORDS]) -> bool
    ensures { result ≡ low_others state.now }
{
    (state[places::REORDERED] < FAR)
        & (state[places::INDEPENDENT] < FAR)
        & (state[places::PROBES_EVICTED] < FAR)
        & (state[places::REPLIES_EVICTED] < FAR)
        & (state[places::EVICTED_UNANSWERED] < FAR)
}

// Of `count` replies; `sized` is whether the rooms have their size.
pub fn lasts(state: &[u64; LEDGER_WORDS], sized: bool, count: usize) -> bool
    ensures { result ≡ lastsFor sized count state.now }
{
    let refused = host_ledger_checks::refusal(state, sized);
    let totals = low_totals(state);
    let answers = low_answers(state);
    let others = low_others(state);
    let low = totals & answers & others & (state[places::CALLS] <= LAST_CALLS);
    refused.is_none() & (count <= MOST) & low
}
