// `FollowUpSummary` and `follow_delay` of src/sender/measurements.rs by value: the count of a follow-up's class, and what the summary shows.
// Crate host_observe_words has all that `observe` does for a follow-up.
ghost use Rattle.std.specs.Prelude.{◌≡◌};
ghost use Rattle.follow_ups.specs.Followed.{estimates_of, counted, fresh_follow_ups};
ghost use Rattle.follow_ups.specs.Bounds.{CountsIn};

pub mod summary;

use clock_quality::ClockQuality;
use correlation::follow::{Match, Miss};
use delays::Delays;
use estimate::ErrorEstimate;

// The counts of `FollowUpSummary`.
#[derive(Clone, Copy)]
pub struct FollowCounts {
    pub observations: u64,
    pub matched: u64,
    pub repeated: u64,
    pub unmatched: u64,
    pub ambiguous: u64,
    pub unavailable: u64,
}

// The counts, `follow_delay`, and `clock_quality`.
#[derive(Clone, Copy)]
pub struct FollowUps {
    pub counts: FollowCounts,
    pub delay: Delays,
    pub quality: ClockQuality,
}

// The estimates that the wires of a record say.
pub fn estimates_of(wires: Option<(u16, u16)>) -> Option<(ErrorEstimate, ErrorEstimate)>
    ensures { result ≡ estimates_of wires }
{
    match wires {
        None => None,
        Some((sender, reflector)) => {
            let first = ErrorEstimate::from_wire(sender);
            let second = ErrorEstimate::from_wire(reflector);
            Some((first, second))
        }
    }
}

// One follow-up more, of a class.
pub fn count(class: Result<Match, Miss>, mut counts: FollowCounts) -> FollowCounts
    requires { CountsIn counts }
    ensures { result ≡ counted class counts }
{
    counts.observations += 1;
    match class {
        Err(Miss::Unavailable) => counts.unavailable += 1,
        Err(Miss::Ambiguous) => counts.ambiguous += 1,
        Err(Miss::Unmatched) => counts.unmatched += 1,
        Err(Miss::Repeated) => counts.repeated += 1,
        Ok(_) => counts.matched += 1,
    }
    counts
}

impl FollowUps {
    pub fn fresh() -> FollowUps
        ensures { result ≡ fresh_follow_ups }
    {
        FollowUps {
            counts: FollowCounts {
                observations: 0,
                matched: 0,
                repeated: 0,
                unmatched: 0,
                ambiguous: 0,
                unavailable: 0,
            },
            delay: Delays::new(),
            quality: ClockQuality::new(),
        }
    }
}
