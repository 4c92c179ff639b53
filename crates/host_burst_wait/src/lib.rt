// `needs_burst_wait` of src/sender/measurements.rs for a host.
#![tactic(auto, unfolding(crate::specs::BurstWait::burst_wait_leaves))]

ghost use Rattle.std.specs.Prelude.{◌≡◌};
ghost use Rattle.host_burst_wait.specs.BurstWait.{left, burst_wait_leaves};

use host_ledger::LEDGER_WORDS;
use limits::Refusal;

// `answer`: 1 if the host has to wait for more replies of a burst, else 0. Refused where a ring of the ledger is out of place, and then it stays.
#[unsafe(no_mangle)]
pub extern "C" fn ambrulicciu_needs_burst_wait(
    ledger: &[u64; LEDGER_WORDS],
    answer: &mut [u64; 1],
) -> u8
    ensures { left result answer.new ≡ burst_wait_leaves ledger.now answer.old }
{
    if !host_ledger_checks::rings_fit(ledger) {
        return u8::from(Refusal::WrongRoom);
    }
    let state = host_ledger::load(ledger);
    *answer = [host_numbers::flag(ledger_state::needs_burst_wait(state))];
    0
}
