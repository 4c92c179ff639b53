// The report of a log: its records played on a link that is made fresh, and its figures as text; or the number with which the log is refused.
// The link's ledger is made, lent to the records and read for its figures in its words. The queue is lent, so that `report_log` is a straight line of calls: of a log that is refused no record is played, and nothing is written.
ghost use Rattle.std.specs.Prelude.{◌≡◌};
ghost use Rattle.limits.specs.Numbers.{numbered};
ghost use Rattle.report.specs.Report.{outcome, report_of};
ghost use Rattle.link_figures.specs.Figures.{figures_of};
ghost use Rattle.log_play_parts.specs.Parts.{rooms_of};
ghost use Rattle.log_play.specs.Tally.{link_at};
ghost use Rattle.link_report.specs.LogReport.{outcome_by, empty_queue, reported, report_of_log};

use host_ledger::LEDGER_WORDS;
use limits::Refusal;
use link_steps::Link;
use log_play::Tally;
use log_whole::Settings;
use monitor::Monitor;
use probe_queue::QueuedProbe;

// ---- the text

// The link that the ledger's words say, with its monitor.
fn link_of(words: [u64; LEDGER_WORDS], watch: Option<Monitor>) -> Link
    ensures { result ≡ link_at words watch }
{
    let ledger = host_ledger::load(&words);
    Link { ledger, watch }
}

fn write_played(
    text: &mut [u8],
    ledger: [u64; LEDGER_WORDS],
    tally: Tally,
    count: u32,
) -> Result<usize, Refusal>
    ensures { outcome (numbered result) text.new ≡ report_of text.old (figures_of (link_at ledger tally.watch) count tally.turned) }
{
    let watch = tally.watch;
    let link = link_of(ledger, watch);
    let figures = link_figures::figures_of(link, count as u64, tally.turned);
    report::report(text, figures)
}

fn write_checked(
    text: &mut [u8],
    checked: Result<Settings, Refusal>,
    ledger: [u64; LEDGER_WORDS],
    tally: Tally,
) -> Result<usize, Refusal>
    ensures { outcome (numbered result) text.new ≡ outcome_by checked (link_at ledger tally.watch) tally.turned text.old }
{
    match checked {
        Ok(settings) => write_played(text, ledger, tally, settings.count),
        Err(refusal) => Err(refusal),
    }
}

// ---- the report

// The report of a log, at the start of the buffer. The rooms may hold anything; 5 where one has another size, then 9, 7 or 8 of the log itself,
// and nothing is changed.
pub fn report_log(
    log: &[u8],
    secret: &[u32; 8],
    keys: &mut [[u64; 2]],
    slots: &mut [[u64; 3]],
    probes: &mut [[u64; 4]],
    offsets: &mut [u32],
    links: &mut [[u16; 8]],
    queue: &mut [QueuedProbe],
    text: &mut [u8],
) -> Result<usize, Refusal>
    ensures { let before = rooms_of keys.old slots.old probes.old offsets.old links.old in
        let after = rooms_of keys.new slots.new probes.new offsets.new links.new in
        reported (outcome (numbered result) text.new) queue.new after ≡ report_of_log log.now secret.now queue.old before text.old }
{
    let fit = log_settings::rooms_fit(
        queue.len(),
        keys.len(),
        slots.len(),
        probes.len(),
        offsets.len(),
        links.len(),
        text.len(),
    );
    let found = log_whole::check(log);
    let checked = log_settings::checked_by(fit, found);
    let settings = log_settings::settings_of(checked);
    let start = log_settings::watch_of(settings);
    let mut ledger = log_settings::ledger_of(settings, secret);
    let count = log_settings::count_of(settings);
    let tally = log_play::play_records(
        start,
        log,
        count,
        &mut ledger,
        keys,
        slots,
        probes,
        offsets,
        links,
        queue,
    );
    write_checked(text, checked, ledger, tally)
}

fn empty_queue() -> [QueuedProbe; 4096]
    ensures { result ≡ empty_queue }
{
    [QueuedProbe {
        sequence: 0,
        deadline: 0,
        mark: 0,
    }; 4096]
}

// The same with a queue of its own, for programs: whoever calls it needs no walk.
pub fn report_log_alone(
    log: &[u8],
    secret: &[u32; 8],
    keys: &mut [[u64; 2]],
    slots: &mut [[u64; 3]],
    probes: &mut [[u64; 4]],
    offsets: &mut [u32],
    links: &mut [[u16; 8]],
    text: &mut [u8],
) -> Result<usize, Refusal>
    ensures { let before = rooms_of keys.old slots.old probes.old offsets.old links.old in
        let after = rooms_of keys.new slots.new probes.new offsets.new links.new in
        (outcome (numbered result) text.new ≡ (report_of_log log.now secret.now empty_queue before text.old).outcome) × (after ≡ (report_of_log log.now secret.now empty_queue before text.old).rooms) }
{
    let mut queue = empty_queue();
    report_log(
        log, secret, keys, slots, probes, offsets, links, &mut queue, text,
    )
}
