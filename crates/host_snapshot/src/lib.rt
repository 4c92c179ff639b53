// `snapshot` of src/sender/measurements.rs for a host: `MeasurementSummary` and document 01's thousandths in 91 words.
// One part of the ledger after the other is taken out of its words, and what it shows is placed: all of them at once would not stay in registers,
// and moving them to the stack and back was a third of a snapshot's time.
ghost use Rattle.std.specs.Prelude.{◌≡◌, length};
ghost use Rattle.std.proofs.lemmas.List.Edits.{sets};
ghost use Rattle.delays.specs.Summary as delays;
ghost use Rattle.direct.specs.Shown as direct;
ghost use Rattle.ledger_snapshot.specs.Snapshot.{snapshot_of};
ghost use Rattle.host_quality.specs.Words.{quality_at};
ghost use Rattle.host_ledger.specs.Parts.{replies_at, delays_at, direct_at, follow_at};
ghost use Rattle.host_ledger.specs.Words.{ledger_at};
ghost use Rattle.host_snapshot_words.specs.Words.{replies_words, evicted_words, loss_words, delay_words, direct_words, follow_count_words, quality_words};
ghost use Rattle.host_snapshot.specs.Snapshot.{left, snapshot_leaves};
ghost use Rattle.host_ledger.specs.Places as place;

use host_ledger::LEDGER_WORDS;
use host_snapshot_words::SHOWN_WORDS;

fn show_replies(ledger: &[u64; LEDGER_WORDS], shown: &mut [u64; SHOWN_WORDS])
    ensures { (shown.new ≡ sets shown.old 0 (replies_words (replies_at place.requested place.evicted_unanswered ledger.now))) × (length shown.old ≡ 91) }
{
    let replies = host_ledger::replies_of(ledger);
    host_snapshot_words::place_replies(shown, replies);
}

fn show_loss(ledger: &[u64; LEDGER_WORDS], shown: &mut [u64; SHOWN_WORDS])
    ensures { shown.new ≡ sets shown.old 16 (loss_words (snapshot_of (ledger_at ledger.now))) }
{
    let replies = host_ledger::replies_of(ledger);
    let totals = replies.totals;
    let unobserved = replies.unobserved_replies();
    let thousandths = thousandths::thousandths_of(unobserved, totals.requested);
    host_snapshot_words::place_loss(shown, unobserved, thousandths);
}

fn show_round_trips(ledger: &[u64; LEDGER_WORDS], shown: &mut [u64; SHOWN_WORDS])
    ensures { shown.new ≡ sets shown.old 19 (delay_words (delays.summary_of (delays_at place.trips ledger.now))) }
{
    let rtt = host_ledger_parts::rtt_of(ledger);
    host_snapshot_words::place_delay(shown, 19, rtt.summary());
}

fn show_direct(ledger: &[u64; LEDGER_WORDS], shown: &mut [u64; SHOWN_WORDS])
    ensures { shown.new ≡ sets shown.old 26 (direct_words (direct.summary_of (direct_at place.direct ledger.now))) }
{
    let direct = host_ledger::direct_of(ledger);
    host_snapshot_words::place_direct(shown, direct::summary::summary_of(direct));
}

fn show_follow_counts(ledger: &[u64; LEDGER_WORDS], shown: &mut [u64; SHOWN_WORDS])
    ensures { shown.new ≡ sets shown.old 51 (follow_count_words (follow_at place.follow_ups ledger.now).counts) }
{
    let counts = host_ledger_parts::follow_counts_of(ledger);
    host_snapshot_words::place_follow_counts(shown, 51, counts);
}

fn show_delay(ledger: &[u64; LEDGER_WORDS], shown: &mut [u64; SHOWN_WORDS])
    ensures { shown.new ≡ sets shown.old 57 (delay_words (delays.summary_of (delays_at place.delay ledger.now))) }
{
    let delay = host_ledger_parts::delay_of(ledger);
    host_snapshot_words::place_delay(shown, 57, delay.summary());
}

fn show_quality(ledger: &[u64; LEDGER_WORDS], shown: &mut [u64; SHOWN_WORDS])
    ensures { shown.new ≡ sets shown.old 64 (quality_words (quality_at place.quality ledger.now)) }
{
    let quality = host_ledger::quality_of(ledger);
    host_snapshot_words::place_quality(shown, 64, quality);
}

fn show_evicted(ledger: &[u64; LEDGER_WORDS], shown: &mut [u64; SHOWN_WORDS])
    ensures { shown.new ≡ sets shown.old 90 (evicted_words (replies_at place.requested place.evicted_unanswered ledger.now)) }
{
    let replies = host_ledger::replies_of(ledger);
    host_snapshot_words::place_evicted(shown, replies);
}

// A word whose name ends in `known` or `seen` is 0 or 1; where it is 0, the words of the value are 0. Times are in ms.
// Words of `shown`: 0 requested, 1 unique, 2 duplicate, 3 unknown, 4 answered, 5 additional, 6 late, 7 satisfied, 8 last_known, 9 last,
// 10 highest_known, 11 highest, 12 reordered, 13 independent, 14 probes_evicted, 15 replies_evicted, 16 unobserved, 17 thousandths_known,
// 18 thousandths, 19 round_trip.samples, 20 round_trip.minimum_known, 21 round_trip.minimum (f64), 22 round_trip.average_known,
// 23 round_trip.average (f64), 24 round_trip.maximum_known, 25 round_trip.maximum (f64), 26 direct.observations, 27 direct.unavailable,
// 28 direct.discontinuities, 29 direct.reordered, 30 direct.exceeded, 31 direct.anchor.known, 32 direct.anchor.s_txc,
// 33 direct.anchor.r_rxc, 34 direct.anchor.r_txc, 35 direct.latest.known, 36 direct.latest.s_txc, 37 direct.latest.r_rxc,
// 38 direct.latest.r_txc, 39 direct.sent.known, 40 direct.sent.packets, 41 direct.received.known, 42 direct.received.packets,
// 43 direct.forward_missing.known, 44 direct.forward_missing.packets, 45 direct.transmitted.known, 46 direct.transmitted.packets,
// 47 direct.replies.known, 48 direct.replies.packets, 49 direct.reverse_missing.known, 50 direct.reverse_missing.packets,
// 51 follow_up.observations, 52 follow_up.matched, 53 follow_up.repeated, 54 follow_up.unmatched, 55 follow_up.ambiguous,
// 56 follow_up.unavailable, 57 follow_up.delay.samples, 58 follow_up.delay.minimum_known, 59 follow_up.delay.minimum (f64),
// 60 follow_up.delay.average_known, 61 follow_up.delay.average (f64), 62 follow_up.delay.maximum_known, 63 follow_up.delay.maximum (f64),
// 64 follow_up.quality.samples, 65 follow_up.quality.both, 66 follow_up.quality.unsynchronized, 67 follow_up.quality.invalid,
// 68 follow_up.quality.unknown, 69 follow_up.quality.invalid_sender, 70 follow_up.quality.invalid_reflector,
// 71 follow_up.quality.invalid_both, 72 follow_up.quality.sender.seen, 73 follow_up.quality.sender.synchronized,
// 74 follow_up.quality.sender.ptp, 75 follow_up.quality.sender.scale, 76 follow_up.quality.sender.multiplier,
// 77 follow_up.quality.sender.error_known, 78 follow_up.quality.sender.error (f64), 79 follow_up.quality.sender.received,
// 80 follow_up.quality.reflector.seen, 81 follow_up.quality.reflector.synchronized, 82 follow_up.quality.reflector.ptp,
// 83 follow_up.quality.reflector.scale, 84 follow_up.quality.reflector.multiplier, 85 follow_up.quality.reflector.error_known,
// 86 follow_up.quality.reflector.error (f64), 87 follow_up.quality.reflector.received, 88 follow_up.quality.largest_known,
// 89 follow_up.quality.largest (f64), 90 evicted_unanswered.
#[unsafe(no_mangle)]
pub extern "C" fn ambrulicciu_snapshot(
    ledger: &[u64; LEDGER_WORDS],
    shown: &mut [u64; SHOWN_WORDS],
) -> u8
    ensures { left result shown.new ≡ snapshot_leaves ledger.now }
{
    show_replies(ledger, shown);
    show_loss(ledger, shown);
    show_round_trips(ledger, shown);
    show_direct(ledger, shown);
    show_follow_counts(ledger, shown);
    show_delay(ledger, shown);
    show_quality(ledger, shown);
    show_evicted(ledger, shown);
    0
}
