// `DirectSummary` of src/sender/measurements.rs: what the direct measurement shows, from its counts and its window.
ghost use Rattle.std.specs.Prelude.{◌≡◌, ◌-◌};
ghost use Rattle.direct.specs.Shown.{less, no_spans, epoch_spans, spans_by, spans_of, anchor_of, latest_of, summary_of};

use crate::{Counts, Direct, Epoch};
use call_types::CounterPoint;

// `sender_packets`, `reflector_received`, `forward_missing`, `reflector_transmitted`, `replies_received`, `reverse_missing`.
#[derive(Clone, Copy)]
pub struct Spans {
    pub sent: Option<u64>,
    pub received: Option<u64>,
    pub forward: Option<u64>,
    pub transmitted: Option<u64>,
    pub replies: Option<u64>,
    pub reverse: Option<u64>,
}

// `DirectSummary`; `latest` is its `latest_transmit`.
#[derive(Clone, Copy)]
pub struct DirectSummary {
    pub counts: Counts,
    pub anchor: Option<CounterPoint>,
    pub latest: Option<CounterPoint>,
    pub spans: Spans,
}

// `checked_sub`: a less b, absent if negative.
fn less_than(a: u64, b: u64) -> Option<u64>
    ensures { result ≡ less a b }
{
    a.checked_sub(b)
}

// The seen offsets above 0.
fn replies_received(seen: usize) -> u64
    ensures { result ≡ seen - 1 }
{
    seen.saturating_sub(1) as u64
}

fn epoch_spans(epoch: Epoch) -> Spans
    ensures { result ≡ epoch_spans epoch }
{
    let anchor = epoch.anchor;
    let latest = epoch.latest;
    let sender = epoch.sender as u64;
    let received = epoch.received as u64;
    let highest = crate::transmit_offset(anchor, latest) as u64;
    let replies = replies_received(epoch.seen);
    Spans {
        sent: Some(sender),
        received: Some(received),
        forward: less_than(sender, received),
        transmitted: Some(highest),
        replies: Some(replies),
        reverse: less_than(highest, replies),
    }
}

fn no_spans() -> Spans
    ensures { result ≡ no_spans }
{
    Spans {
        sent: None,
        received: None,
        forward: None,
        transmitted: None,
        replies: None,
        reverse: None,
    }
}

fn spans_shown(window: Option<Epoch>) -> Spans
    ensures { result ≡ spans_of window }
{
    match window {
        None => no_spans(),
        Some(epoch) => {
            if epoch.seen > 1 {
                return epoch_spans(epoch);
            }
            no_spans()
        }
    }
}

fn anchor_shown(window: Option<Epoch>) -> Option<CounterPoint>
    ensures { result ≡ anchor_of window }
{
    match window {
        None => None,
        Some(epoch) => Some(epoch.anchor),
    }
}

fn latest_shown(window: Option<Epoch>) -> Option<CounterPoint>
    ensures { result ≡ latest_of window }
{
    match window {
        None => None,
        Some(epoch) => Some(epoch.latest),
    }
}

// What is shown.
pub fn summary_of(direct: Direct) -> DirectSummary
    ensures { result ≡ summary_of direct }
{
    DirectSummary {
        counts: direct.counts,
        anchor: anchor_shown(direct.window),
        latest: latest_shown(direct.window),
        spans: spans_shown(direct.window),
    }
}
