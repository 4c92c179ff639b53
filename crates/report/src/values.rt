// What the report shows, one value for each place of its template.
ghost use Rattle.std.specs.Prelude.{◌≡◌};
ghost use Rattle.report.specs.Lines.{shown_of, state_of, losses_of, values_of};

use crate::figures::{Figures, Session};
use template::{PLACES, Shown};

fn shown_of(value: Option<u64>) -> Shown
    ensures { result ≡ shown_of value }
{
    match value {
        None => Shown::Absent,
        Some(n) => Shown::Number(n),
    }
}

fn state_of(session: Session) -> Shown
    ensures { result ≡ state_of session }
{
    match session {
        Session::None => Shown::None,
        Session::Idle(_) => Shown::Idle,
        Session::Active(_) => Shown::Active,
        Session::Failed(_) => Shown::Failed,
    }
}

fn losses_of(session: Session) -> u32
    ensures { result ≡ losses_of session }
{
    match session {
        Session::None => 0,
        Session::Idle(losses) => losses,
        Session::Active(losses) => losses,
        Session::Failed(losses) => losses,
    }
}

// The values in the report's order.
pub(crate) fn values_of(figures: Figures) -> [Shown; PLACES]
    ensures { result ≡ values_of figures }
{
    let loss = figures.loss;
    let thousandths = loss.thousandths;
    let thousandths = shown_of(thousandths);
    let missing = figures.missing;
    let forward = missing.forward;
    let forward = shown_of(forward);
    let reverse = missing.reverse;
    let reverse = shown_of(reverse);
    let session = figures.session;
    let state = state_of(session);
    let losses = losses_of(session);
    let rtt = figures.rtt;
    let min = rtt.min;
    let min = shown_of(min);
    let max = rtt.max;
    let max = shown_of(max);
    [
        Shown::Number(figures.played.records),
        Shown::Number(figures.played.turned_away),
        Shown::Number(figures.loss.requested),
        Shown::Number(figures.loss.unobserved),
        thousandths,
        Shown::Number(figures.replies.unique),
        Shown::Number(figures.replies.duplicate),
        Shown::Number(figures.replies.unknown),
        Shown::Number(figures.probes.answered),
        Shown::Number(figures.probes.additional),
        Shown::Number(figures.probes.late),
        Shown::Number(figures.order.reordered),
        Shown::Number(figures.order.independent),
        Shown::Number(figures.followup.observations),
        Shown::Number(figures.followup.matched),
        Shown::Number(figures.followup.repeated),
        Shown::Number(figures.followup.unmatched),
        Shown::Number(figures.followup.ambiguous),
        Shown::Number(figures.followup.unavailable),
        Shown::Number(figures.direct.observations),
        Shown::Number(figures.direct.unavailable),
        Shown::Number(figures.direct.discontinuities),
        Shown::Number(figures.direct.reordered),
        forward,
        reverse,
        state,
        Shown::Number(losses as u64),
        Shown::Number(figures.rtt.samples),
        min,
        max,
        Shown::Number(figures.evicted.unanswered),
    ]
}
