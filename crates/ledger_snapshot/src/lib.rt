// What `snapshot` of src/sender/measurements.rs shows of a ledger's state (`snapshot_of`); crate host_snapshot writes it from the words.
use delays::DelaySummary;
use direct::summary::DirectSummary;
use follow_ups::summary::FollowUpSummary;
use replies::Replies;

// `MeasurementSummary`, with document 01's thousandths, which are absent when nothing was requested (document 02, Q-5).
#[derive(Clone, Copy)]
pub struct Snapshot {
    pub replies: Replies,
    pub unobserved: u64,
    pub thousandths: Option<u64>,
    pub rtt: DelaySummary,
    pub direct: DirectSummary,
    pub follow: FollowUpSummary,
}
