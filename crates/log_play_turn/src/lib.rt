// What a record of a log does besides what its ledger and the queue do: an `idle` on the monitor, and the count of the records turned away.
ghost use Rattle.std.specs.Prelude.{◌≡◌, ◌^◌, ◌<◌, eqb};
ghost use Rattle.link_steps.specs.Steps.{one_if};
ghost use Rattle.log_play_turn.specs.Turn.{idled_if};

use monitor::Monitor;

// The monitor after a record of this kind, 5 for an `idle`. A refused `idle` leaves the monitor as it was.
pub fn idled(monitor: Monitor, kind: u8) -> Monitor
    ensures { result ≡ idled_if (eqb kind 5) monitor }
{
    if kind == 5 {
        match monitor.idle() {
            Ok(next) => next,
            Err(_) => monitor,
        }
    } else {
        monitor
    }
}

// A refused record, whose number is not 0, counts as turned away.
pub fn turned_by(refused: u8, turned: u64) -> u64
    requires { turned < 2 ^ 63 }
    ensures { result ≡ one_if refused turned }
{
    if refused == 0 {
        return turned;
    }
    turned + 1
}
