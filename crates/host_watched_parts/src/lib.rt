// What `sent` and `accept` with a monitor have in common on the words that a host lends: which refusal of the two parts counts, and what is stored
// of the monitor.
#![tactic(auto, unfolding(ledger_steps::specs::Refusals::earlier))]

ghost use Rattle.std.specs.Prelude.{◌≡◌};
ghost use Rattle.ledger_steps.specs.Refusals.{earlier as earlierOf};
ghost use Rattle.host_watched_parts.specs.Unless.{stored_unless};

use ledger_checks::earlier;
use monitor::Monitor;

// Of the refusals of the ledger and of the monitor the one that stands first in the table. That neither refuses is seen at once: what follows then
// need not look at the table, nor at the monitor's tests again.
pub fn first_of(own: u8, other: u8) -> u8
    ensures { result ≡ earlierOf own other }
{
    if own == 0 && other == 0 {
        0
    } else {
        earlier(own, other)
    }
}

// The words of the next monitor; as they were where the call was refused.
pub fn store_unless(refused: u8, monitor: &mut [u64; 12], next: Monitor)
    ensures { monitor.new ≡ stored_unless refused monitor.old next }
{
    if refused == 0 {
        host_monitor_words::store(monitor, next);
    }
}
