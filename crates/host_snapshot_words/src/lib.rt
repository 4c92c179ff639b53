// What a snapshot shows, as words of a lent room: a flag is 0 or 1, a value that is absent is a flag 0 and zeros, an f64 is its bits.
ghost use Rattle.std.specs.Prelude.{◌≡◌, [], ◌∷◌, ◌+◌, ◌≤◌, length};
ghost use Rattle.std.proofs.lemmas.List.Edits.{sets};
ghost use Rattle.thousandths.specs.Thousandths.{known_of, value_of};
ghost use Rattle.host_snapshot_words.specs.Words.{point_words, replies_words, evicted_words, delay_words, direct_count_words, span_words, direct_words};
ghost use Rattle.host_snapshot_words.specs.Words.{follow_count_words, estimate_words, quality_count_words, largest_words, quality_words};

mod values;

use call_types::CounterPoint;
use clock_quality::{ClockEstimate, ClockQuality};
use delays::DelaySummary;
use direct::summary::{DirectSummary, Spans};
use follow_ups::FollowCounts;
use host_numbers::flag;
use host_quality::{largest_bits, largest_word};
use replies::Replies;
use values::{
    error_bits, error_known, error_received, ms_bits, ms_known, packets_known, packets_number,
    reflector_known, reflector_number, thousandths_known, thousandths_value,
};

// The words over those of the room from `at` on.
fn place(room: &mut [u64], at: usize, words: &[u64])
    requires { at + length words.now ≤ length room.old }
    ensures { room.new ≡ sets room.old at words.now }
{
    let mut i = 0;
    while i < words.len() {
        room[at + i] = words[i];
        i += 1;
    }
}

pub fn place_replies(room: &mut [u64], replies: Replies)
    requires { 16 ≤ length room.old }
    ensures { room.new ≡ sets room.old 0 (replies_words replies) }
{
    let totals = replies.totals;
    let answers = replies.answers;
    let numbers = replies.numbers;
    let evicted = replies.evicted;
    let last = numbers.last;
    let highest = numbers.highest;
    let words = [
        totals.requested,
        totals.unique,
        totals.duplicate,
        totals.unknown,
        answers.answered,
        answers.additional,
        answers.late,
        answers.satisfied,
        reflector_known(last),
        reflector_number(last),
        reflector_known(highest),
        reflector_number(highest),
        numbers.reordered,
        numbers.independent,
        evicted.probes,
        evicted.replies,
    ];
    place(room, 0, &words);
}

pub fn place_evicted(room: &mut [u64], replies: Replies)
    requires { 91 ≤ length room.old }
    ensures { room.new ≡ sets room.old 90 (evicted_words replies) }
{
    let evicted = replies.evicted;
    let words = [evicted.unanswered];
    place(room, 90, &words);
}

pub fn place_delay(room: &mut [u64], at: usize, delay: DelaySummary)
    requires { at + 7 ≤ length room.old }
    ensures { room.new ≡ sets room.old at (delay_words delay) }
{
    let min = delay.min;
    let average = delay.average;
    let max = delay.max;
    let words = [
        delay.samples,
        ms_known(min),
        ms_bits(min),
        ms_known(average),
        ms_bits(average),
        ms_known(max),
        ms_bits(max),
    ];
    place(room, at, &words);
}

fn place_point(room: &mut [u64], at: usize, counters: Option<CounterPoint>)
    requires { at + 4 ≤ length room.old }
    ensures { room.new ≡ sets room.old at (point_words counters) }
{
    match counters {
        None => {
            let words = [0, 0, 0, 0];
            place(room, at, &words);
        }
        Some(point) => {
            let sender = point.sender;
            let received = point.received;
            let transmitted = point.transmitted;
            let words = [1, sender.0 as u64, received.0 as u64, transmitted.0 as u64];
            place(room, at, &words);
        }
    }
}

fn place_spans(room: &mut [u64], at: usize, spans: Spans)
    requires { at + 12 ≤ length room.old }
    ensures { room.new ≡ sets room.old at (span_words spans) }
{
    let sent = spans.sent;
    let received = spans.received;
    let forward = spans.forward;
    let transmitted = spans.transmitted;
    let replies = spans.replies;
    let reverse = spans.reverse;
    let words = [
        packets_known(sent),
        packets_number(sent),
        packets_known(received),
        packets_number(received),
        packets_known(forward),
        packets_number(forward),
        packets_known(transmitted),
        packets_number(transmitted),
        packets_known(replies),
        packets_number(replies),
        packets_known(reverse),
        packets_number(reverse),
    ];
    place(room, at, &words);
}

fn place_direct_counts(room: &mut [u64], at: usize, counts: direct::Counts)
    requires { at + 5 ≤ length room.old }
    ensures { room.new ≡ sets room.old at (direct_count_words counts) }
{
    let words = [
        counts.observations,
        counts.unavailable,
        counts.discontinuities,
        counts.reordered,
        flag(counts.exceeded),
    ];
    place(room, at, &words);
}

pub fn place_direct(room: &mut [u64], summary: DirectSummary)
    requires { 51 ≤ length room.old }
    ensures { room.new ≡ sets room.old 26 (direct_words summary) }
{
    let counts = summary.counts;
    let anchor = summary.anchor;
    let latest = summary.latest;
    let spans = summary.spans;
    place_direct_counts(room, 26, counts);
    place_point(room, 31, anchor);
    place_point(room, 35, latest);
    place_spans(room, 39, spans);
}

pub fn place_follow_counts(room: &mut [u64], at: usize, counts: FollowCounts)
    requires { at + 6 ≤ length room.old }
    ensures { room.new ≡ sets room.old at (follow_count_words counts) }
{
    let words = [
        counts.observations,
        counts.matched,
        counts.repeated,
        counts.unmatched,
        counts.ambiguous,
        counts.unavailable,
    ];
    place(room, at, &words);
}

fn place_estimate(room: &mut [u64], at: usize, estimate: ClockEstimate)
    requires { at + 8 ≤ length room.old }
    ensures { room.new ≡ sets room.old at (estimate_words (Some estimate)) }
{
    let format = estimate.format;
    let error = estimate.error;
    let words = [
        1,
        flag(estimate.synchronized),
        flag(estimate::is_ptp(format)),
        estimate.scale as u64,
        estimate.multiplier as u64,
        error_known(error),
        error_bits(error),
        error_received(error),
    ];
    place(room, at, &words);
}

fn place_last(room: &mut [u64], at: usize, last: Option<ClockEstimate>)
    requires { at + 8 ≤ length room.old }
    ensures { room.new ≡ sets room.old at (estimate_words last) }
{
    match last {
        None => {
            let words = [0; 8];
            place(room, at, &words);
        }
        Some(estimate) => place_estimate(room, at, estimate),
    }
}

fn place_quality_counts(room: &mut [u64], at: usize, quality: ClockQuality)
    requires { at + 8 ≤ length room.old }
    ensures { room.new ≡ sets room.old at (quality_count_words quality) }
{
    let words = [
        quality.samples,
        quality.both,
        quality.unsynchronized,
        quality.invalid,
        quality.unknown,
        quality.invalid_sender,
        quality.invalid_reflector,
        quality.invalid_both,
    ];
    place(room, at, &words);
}

fn place_largest(room: &mut [u64], at: usize, largest: Option<f64>)
    requires { at + 2 ≤ length room.old }
    ensures { room.new ≡ sets room.old at (largest_words largest) }
{
    let words = [largest_word(largest), largest_bits(largest)];
    place(room, at, &words);
}

// Clock quality in 26 words.
pub fn place_quality(room: &mut [u64], at: usize, quality: ClockQuality)
    requires { at + 26 ≤ length room.old }
    ensures { room.new ≡ sets room.old at (quality_words quality) }
{
    let sender = quality.sender;
    let reflector = quality.reflector;
    let largest = quality.largest;
    place_quality_counts(room, at, quality);
    place_last(room, at + 8, sender);
    place_last(room, at + 16, reflector);
    place_largest(room, at + 24, largest);
}

// Unobserved, and document 01's thousandths.
pub fn place_loss(room: &mut [u64], unobserved: u64, thousandths: Option<u64>)
    requires { 19 ≤ length room.old }
    ensures { room.new ≡ sets room.old 16 (unobserved ∷ known_of thousandths ∷ value_of thousandths ∷ []) }
{
    let words = [
        unobserved,
        thousandths_known(thousandths),
        thousandths_value(thousandths),
    ];
    place(room, 16, &words);
}

// How many words a snapshot has.
pub const SHOWN_WORDS: usize = 91;
