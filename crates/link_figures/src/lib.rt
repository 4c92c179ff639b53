// The figures of the report, taken from the states of a link.
ghost use Rattle.std.specs.Prelude.{◌≡◌};
ghost use Rattle.link_figures.specs.Figures.{value_of, figure_of, time_of, session_by, session_of, loss_of, followup_of, direct_of, missing_of, round_trip_of, figures_of};

use delays::{Delays, Nanoseconds};
use direct::summary::DirectSummary;
use follow_ups::FollowCounts;
use link_steps::Link;
use monitor::{Monitor, State};
use replies::Replies;
use report::figures;
use report::figures::{Figures, Session};

fn value_of(packets: Option<u64>) -> Option<u64>
    ensures { result ≡ value_of packets }
{
    match packets {
        None => None,
        Some(n) => Some(n),
    }
}

// With nothing requested there is no figure of loss.
fn figure_of(thousandths: Option<u64>) -> Option<u64>
    ensures { result ≡ figure_of thousandths }
{
    match thousandths {
        None => None,
        Some(n) => Some(n),
    }
}

// A round trip is not negative: its magnitude is all of it.
fn time_of(extreme: Option<Nanoseconds>) -> Option<u64>
    ensures { result ≡ time_of extreme }
{
    match extreme {
        None => None,
        Some(ns) => Some(ns.magnitude),
    }
}

fn session_by(state: State, losses: u32) -> Session
    ensures { result ≡ session_by state losses }
{
    match state {
        State::Idle => Session::Idle(losses),
        State::Active => Session::Active(losses),
        State::Failed => Session::Failed(losses),
    }
}

fn session_of(watch: Option<Monitor>) -> Session
    ensures { result ≡ session_of watch }
{
    match watch {
        None => Session::None,
        Some(monitor) => {
            let summary = monitor.summary;
            let state = summary.state;
            session_by(state, summary.consecutive_losses)
        }
    }
}

fn loss_of(replies: Replies) -> figures::Loss
    ensures { result ≡ loss_of replies }
{
    let totals = replies.totals;
    let unobserved = replies.unobserved_replies();
    let thousandths = thousandths::thousandths_of(unobserved, totals.requested);
    figures::Loss {
        requested: totals.requested,
        unobserved,
        thousandths: figure_of(thousandths),
    }
}

fn followup_of(counts: FollowCounts) -> figures::FollowUps
    ensures { result ≡ followup_of counts }
{
    figures::FollowUps {
        observations: counts.observations,
        matched: counts.matched,
        repeated: counts.repeated,
        unmatched: counts.unmatched,
        ambiguous: counts.ambiguous,
        unavailable: counts.unavailable,
    }
}

fn direct_of(counts: direct::Counts) -> figures::Direct
    ensures { result ≡ direct_of counts }
{
    figures::Direct {
        observations: counts.observations,
        unavailable: counts.unavailable,
        discontinuities: counts.discontinuities,
        reordered: counts.reordered,
    }
}

fn missing_of(summary: DirectSummary) -> figures::Missing
    ensures { result ≡ missing_of summary }
{
    let spans = summary.spans;
    let forward = spans.forward;
    let reverse = spans.reverse;
    figures::Missing {
        forward: value_of(forward),
        reverse: value_of(reverse),
    }
}

fn round_trip_of(rtt: Delays) -> figures::RoundTrip
    ensures { result ≡ round_trip_of rtt }
{
    let min = rtt.min;
    let max = rtt.max;
    figures::RoundTrip {
        samples: rtt.count,
        min: time_of(min),
        max: time_of(max),
    }
}

// All figures, of a link, the records played and those turned away.
pub fn figures_of(link: Link, records: u64, turned: u64) -> Figures
    ensures { result ≡ figures_of link records turned }
{
    let ledger = link.ledger;
    let watch = link.watch;
    let counts = ledger.counts;
    let replies = counts.replies;
    let direct = counts.direct;
    let follow = counts.follow;
    let rtt = counts.rtt;
    let totals = replies.totals;
    let answers = replies.answers;
    let numbers = replies.numbers;
    let evicted = replies.evicted;
    let losses = direct.counts;
    let classes = follow.counts;
    let summary = direct::summary::summary_of(direct);
    Figures {
        played: figures::PlayedRecords {
            records,
            turned_away: turned,
        },
        loss: loss_of(replies),
        replies: figures::Replies {
            unique: totals.unique,
            duplicate: totals.duplicate,
            unknown: totals.unknown,
        },
        probes: figures::Probes {
            answered: answers.answered,
            additional: answers.additional,
            late: answers.late,
        },
        order: figures::Order {
            reordered: numbers.reordered,
            independent: numbers.independent,
        },
        followup: followup_of(classes),
        direct: direct_of(losses),
        missing: missing_of(summary),
        session: session_of(watch),
        rtt: round_trip_of(rtt),
        evicted: figures::Evicted {
            unanswered: evicted.unanswered,
        },
    }
}
