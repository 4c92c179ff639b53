// The records of a log, played one after the other on a link whose ledger's words, rooms and queue are lent: nothing of them is copied.
// A record is a straight line of calls: what depends on a test is in log_play_parts. Of the monitor's three calls at most one goes on, and one that does
// not go on changes nothing, so that none stands behind a branch.
ghost use Rattle.std.specs.Prelude.{◌≡◌, ◌^◌, ◌<◌, eqb};
ghost use Rattle.log_whole.specs.Logs.{call_at};
ghost use Rattle.link_steps.specs.Steps.{one_if};
ghost use Rattle.log_play_parts.specs.Parts.{rooms_of, kind_of, watch_after};
ghost use Rattle.log_play_turn.specs.Turn.{idled_if};
ghost use Rattle.log_play.specs.Tally.{link_at, standing_of, tally_of, tallied, Stepped};

use call_types::Call;
use host_ledger::LEDGER_WORDS;
use log_play_parts::Part;
use monitor::Monitor;
use probe_queue::QueuedProbe;

// The monitor after a record, if the link has one, and the number of the refusal or 0.
#[derive(Clone, Copy)]
pub struct Step {
    pub watch: Option<Monitor>,
    pub refused: u8,
}

// The monitor, and how many records were turned away so far.
#[derive(Clone, Copy)]
pub struct Tally {
    pub watch: Option<Monitor>,
    pub turned: u64,
}

fn step_of(watch: Option<Monitor>, read: Option<Call>, part: Part, monitor: Monitor) -> Step
    ensures { (result.watch ≡ watch_after watch (idled_if (eqb (kind_of read) 5) monitor)) × (result.refused ≡ part.refused) }
{
    let next = log_play_parts::watch_after(
        watch,
        log_play_turn::idled(monitor, log_play_parts::kind_of(read)),
    );
    Step {
        watch: next,
        refused: part.refused,
    }
}

fn watch_of(step: Step) -> Option<Monitor>
    ensures { result ≡ step.watch }
{
    step.watch
}

// A refused record counts as turned away.
fn count_refused(step: Step, turned: u64) -> u64
    requires { turned < 2 ^ 63 }
    ensures { result ≡ one_if step.refused turned }
{
    log_play_turn::turned_by(step.refused, turned)
}

fn tally_of(watch: Option<Monitor>, turned: u64) -> Tally
    ensures { (result.watch ≡ watch) × (result.turned ≡ turned) }
{
    Tally {
        watch: watch,
        turned: turned,
    }
}

// Record i; nothing where the log has no such record.
pub fn play_record(
    watch: Option<Monitor>,
    log: &[u8],
    i: u32,
    ledger: &mut [u64; LEDGER_WORDS],
    keys: &mut [[u64; 2]],
    slots: &mut [[u64; 3]],
    probes: &mut [[u64; 4]],
    offsets: &mut [u32],
    links: &mut [[u16; 8]],
    queue: &mut [QueuedProbe],
) -> Step
    ensures { let before = rooms_of keys.old slots.old probes.old offsets.old links.old in
        let after = rooms_of keys.new slots.new probes.new offsets.new links.new in
        Stepped (standing_of (link_at ledger.old watch) queue.old before) (call_at log.now i) result (standing_of (link_at ledger.new result.watch) queue.new after) }
{
    let read = log_play_parts::record_at(log, i);
    let room = queue.len();
    let other = limits::number(log_play_parts::refusal_of(watch, read, room));
    let part = log_play_parts::ledger_part(
        other, read, ledger, keys, slots, probes, offsets, links,
    );
    let monitor = log_play_parts::monitor_of(watch);
    let sends = log_play_parts::goes(1, watch, read, part);
    let hears = log_play_parts::goes(2, watch, read, part);
    let advances = log_play_parts::goes(4, watch, read, part);
    let sequence = log_play_parts::sequence_of(read);
    let time = log_play_parts::time_of(read);
    let first = monitor.sent_if(sends, queue, sequence, time);
    let second = first.reply_if(hears, queue, sequence);
    let third = second.advance_if(advances, queue, time);
    step_of(watch, read, part, third)
}

// The first `count` records of a log.
pub fn play_records(
    start: Option<Monitor>,
    log: &[u8],
    count: u32,
    ledger: &mut [u64; LEDGER_WORDS],
    keys: &mut [[u64; 2]],
    slots: &mut [[u64; 3]],
    probes: &mut [[u64; 4]],
    offsets: &mut [u32],
    links: &mut [[u16; 8]],
    queue: &mut [QueuedProbe],
) -> Tally
    ensures { let before = rooms_of keys.old slots.old probes.old offsets.old links.old in
        let after = rooms_of keys.new slots.new probes.new offsets.new links.new in
        tally_of (standing_of (link_at ledger.new result.watch) queue.new after) result.turned ≡ tallied log.now (tally_of (standing_of (link_at ledger.old start) queue.old before) 0) count }
{
    let mut watch = start;
    let mut turned = 0;
    let mut i = 0;
    while i < count {
        let step = play_record(
            watch, log, i, ledger, keys, slots, probes, offsets, links, queue,
        );
        turned = count_refused(step, turned);
        watch = watch_of(step);
        i = i + 1;
    }
    tally_of(watch, turned)
}
