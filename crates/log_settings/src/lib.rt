// From a log to its link: why nothing is played, or the settings with which a link is made fresh. What the report of a log asks before it plays
// a record.
ghost use Rattle.std.specs.Prelude.{◌≡◌};
ghost use Rattle.log_settings.specs.Checks.{checked_by, settings_by, rooms_fit};
ghost use Rattle.ledger_state.specs.State.{fresh_ledger};
ghost use Rattle.host_ledger.specs.Words.{ledger_at};
ghost use Rattle.log_settings.specs.Fresh.{watch_by};

use host_ledger::LEDGER_WORDS;
use limits::{CAPACITY, Refusal};
use log_whole::{Fault, Settings};
use monitor::Monitor;

// ---- the check

pub fn rooms_fit(
    queue: usize,
    keys: usize,
    slots: usize,
    probes: usize,
    offsets: usize,
    links: usize,
    text: usize,
) -> bool
    ensures { result ≡ rooms_fit queue keys slots probes offsets links text }
{
    (queue == CAPACITY)
        & (keys == CAPACITY)
        & (slots == CAPACITY)
        & (probes == CAPACITY)
        & (offsets == CAPACITY)
        & (links == CAPACITY)
        & (text == report::REPORT_ROOM)
}

// Why nothing is played, or what the log's link is made of. A room of another size comes before what is wrong with the log.
pub fn checked_by(fit: bool, found: Result<Settings, Fault>) -> Result<Settings, Refusal>
    ensures { result ≡ checked_by fit found }
{
    if !fit {
        return Err(Refusal::WrongRoom);
    }
    Ok(found?)
}

// Those of a log with no record, where it is refused.
pub fn settings_of(checked: Result<Settings, Refusal>) -> Settings
    ensures { result ≡ settings_by checked }
{
    checked.unwrap_or(Settings {
        copies: 0,
        threshold: 0,
        timeout: 0,
        count: 0,
        start: 0,
    })
}

pub fn count_of(settings: Settings) -> u32
    ensures { result ≡ settings.count }
{
    settings.count
}

// ---- the link

fn watch_by(threshold: u16, timeout: u64) -> Option<Monitor>
    ensures { result ≡ watch_by threshold timeout }
{
    if threshold == 0 {
        return None;
    }
    let monitor = Monitor::new(threshold, timeout);
    Some(monitor)
}

// The monitor of a log's link, if its settings ask for one.
pub fn watch_of(settings: Settings) -> Option<Monitor>
    ensures { result ≡ watch_by settings.threshold settings.timeout }
{
    watch_by(settings.threshold, settings.timeout)
}

// The words of its ledger, fresh.
pub fn ledger_of(settings: Settings, secret: &[u32; 8]) -> [u64; LEDGER_WORDS]
    ensures { ledger_at result ≡ fresh_ledger settings.copies secret.now }
{
    let hash = *secret;
    let fresh = ledger_state::fresh(settings.copies, hash);
    let words = fresh.secret;
    let mut ledger = [0u64; LEDGER_WORDS];
    host_ledger::store_fresh(&mut ledger, fresh.copies, words);
    ledger
}
