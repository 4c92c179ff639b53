// The figures of the report, a struct for each line, in the report's order. Counts are u64, as the ledger's are.

// `records`, `turned away`.
#[derive(Clone, Copy)]
pub struct PlayedRecords {
    pub records: u64,
    pub turned_away: u64,
}

// `requested`, `unobserved`, `thousandths`.
#[derive(Clone, Copy)]
pub struct Loss {
    pub requested: u64,
    pub unobserved: u64,
    pub thousandths: Option<u64>,
}

// `unique`, `duplicate`, `unknown`.
#[derive(Clone, Copy)]
pub struct Replies {
    pub unique: u64,
    pub duplicate: u64,
    pub unknown: u64,
}

// `answered`, `additional`, `late`.
#[derive(Clone, Copy)]
pub struct Probes {
    pub answered: u64,
    pub additional: u64,
    pub late: u64,
}

// `reordered`, `independent`.
#[derive(Clone, Copy)]
pub struct Order {
    pub reordered: u64,
    pub independent: u64,
}

// `followup`, which heads its observations, and its classes.
#[derive(Clone, Copy)]
pub struct FollowUps {
    pub observations: u64,
    pub matched: u64,
    pub repeated: u64,
    pub unmatched: u64,
    pub ambiguous: u64,
    pub unavailable: u64,
}

// `direct`, which heads its observations.
#[derive(Clone, Copy)]
pub struct Direct {
    pub observations: u64,
    pub unavailable: u64,
    pub discontinuities: u64,
    pub reordered: u64,
}

// `missing forward`, `reverse`.
#[derive(Clone, Copy)]
pub struct Missing {
    pub forward: Option<u64>,
    pub reverse: Option<u64>,
}

// `state` with its consecutive losses. Without a monitor there are none to be given: the report shows 0, and a word of its own, as for each state,
// so it is a fourth case beside them.
#[derive(Clone, Copy)]
pub enum Session {
    None,
    Idle(u32),
    Active(u32),
    Failed(u32),
}

// `rtt samples`, `min`, `max`, in ns: a round trip is not negative.
#[derive(Clone, Copy)]
pub struct RoundTrip {
    pub samples: u64,
    pub min: Option<u64>,
    pub max: Option<u64>,
}

// `evicted unanswered` (document 02, Q-3).
#[derive(Clone, Copy)]
pub struct Evicted {
    pub unanswered: u64,
}

// All that the report shows.
#[derive(Clone, Copy)]
pub struct Figures {
    pub played: PlayedRecords,
    pub loss: Loss,
    pub replies: Replies,
    pub probes: Probes,
    pub order: Order,
    pub followup: FollowUps,
    pub direct: Direct,
    pub missing: Missing,
    pub session: Session,
    pub rtt: RoundTrip,
    pub evicted: Evicted,
}
