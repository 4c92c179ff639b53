// What one call of a log does to a link: to its ledger and, where it has one, its monitor. The definitions are in specs/.
use ledger_state::Ledger;
use monitor::Monitor;

// The states of a link, without its rooms.
#[derive(Clone, Copy)]
pub struct Link {
    pub ledger: Ledger,
    pub watch: Option<Monitor>,
}
