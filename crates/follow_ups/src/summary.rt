// `FollowUpSummary` of src/sender/measurements.rs: what the follow-ups show (`summary_of`).
use crate::FollowCounts;
use clock_quality::ClockQuality;
use delays::DelaySummary;

#[derive(Clone, Copy)]
pub struct FollowUpSummary {
    pub counts: FollowCounts,
    pub delay: DelaySummary,
    pub quality: ClockQuality,
}
