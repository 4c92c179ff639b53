// The report of a link as it stands (document 01, 'Log and program'), for a host: the text that linkreport prints of a log, of the words that it lends.
ghost use Rattle.std.specs.Prelude.{◌≡◌};
ghost use Rattle.host_report_answer.specs.Told.{told};
ghost use Rattle.host_report_link.specs.LinkTold.{watch_at, out_of_place, report_link_to};
ghost use Rattle.host_ledger.specs.Words.{ledger_at};

use host_ledger::LEDGER_WORDS;
use limits::Refusal;
use link_steps::Link;
use monitor::Monitor;

fn watch_at(watched: u32, monitor: &[u64; 12]) -> Option<Monitor>
    ensures { result ≡ watch_at watched monitor.now }
{
    if watched == 0 {
        return None;
    }
    let watching = host_monitor_words::load(monitor);
    Some(watching)
}

// Whether a ring of the ledger or, where it is watched, of the monitor is not one that a call leaves.
fn out_of_place(ledger: &[u64; LEDGER_WORDS], watch: Option<Monitor>) -> bool
    ensures { result ≡ out_of_place (ledger_at ledger.now) watch }
{
    if !host_ledger_checks::rings_fit(ledger) {
        return true;
    }
    match watch {
        None => false,
        Some(monitor) => monitor.out_of_place(limits::CAPACITY),
    }
}

// The report of a ledger and, where `watched` is not 0, its monitor, at the start of `text`, and its length; 5 where a ring is out of place, or for a
// text of another size.
// `records` and `turned_away` are for the first line: the host alone knows how many calls it made, and how many of them were refused.
#[unsafe(no_mangle)]
pub extern "C" fn ambrulicciu_report_link(
    ledger: &[u64; LEDGER_WORDS],
    monitor: &[u64; 12],
    watched: u32,
    records: u64,
    turned_away: u64,
    text: &mut [u8],
    length: &mut [u64; 1],
) -> u8
    ensures { told result text.new length.new ≡ report_link_to ledger.now monitor.now watched records turned_away text.old length.old }
{
    let watch = watch_at(watched, monitor);
    if out_of_place(ledger, watch) {
        return u8::from(Refusal::WrongRoom);
    }
    let state = host_ledger::load(ledger);
    let link = Link {
        ledger: state,
        watch,
    };
    let figures = link_figures::figures_of(link, records, turned_away);
    let answer = report::report(text, figures);
    host_report_answer::tell(answer, length)
}
