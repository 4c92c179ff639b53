// Why a call of `Measurements` in src/sender/measurements.rs is refused. The original refuses nothing: document 01's table decides.
// The tests are made once, before a call changes anything; proofs/Sound.antt has what they show to the code that then runs.
#![tactic(auto, unfolding(ledger_steps::specs::Refusals::earlier, ledger_steps::specs::Refusals::refusal_of_answered))]

ghost use Rattle.std.specs.Prelude.{◌≡◌};
ghost use Rattle.limits.specs.Numbers.{number};
ghost use Rattle.ledger_steps.specs.Refusals.{line as line_of, earlier as earlierOf, refusal_of_answered};

use ledger_state::{Ledger, first_refusal, rings_fit};
use limits::{CAPACITY, Refusal};

// The line of a refusal in the table; no refusal comes after all of them.
fn line(number: u8) -> u8
    ensures { result ≡ line_of number }
{
    match number {
        limits::WRONG_ROOM => 0,
        limits::OUT_OF_RANGE => 1,
        limits::DEADLINE_PASSES => 2,
        limits::COUNTS_FULL => 3,
        limits::NOT_AWAITING => 4,
        limits::QUEUE_FULL => 5,
        _ => 6,
    }
}

// Of two refusals the one that stands first in the table.
pub fn earlier(first: u8, second: u8) -> u8
    ensures { result ≡ earlierOf first second }
{
    if line(first) <= line(second) {
        first
    } else {
        second
    }
}

// `answered`, lent rooms of these lengths.
pub fn refusal_of_answered(ledger: Ledger, probes: usize, links: usize) -> Option<Refusal>
    ensures { number result ≡ refusal_of_answered ledger probes links }
{
    let placed = probes == CAPACITY && links == CAPACITY && rings_fit(ledger);
    first_refusal(placed, true, true, true, true, true)
}
