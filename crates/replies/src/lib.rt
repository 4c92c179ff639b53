// The counts of `sent` and `accept` of src/sender/measurements.rs, and what `sent` makes of them, by value: what its rooms found is an argument.
// `accept` steps them in their words (host_accept_words, host_unique_reply).
ghost use Rattle.std.specs.Prelude.{◌≡◌, ◌^◌, ◌<◌};
ghost use Rattle.replies.specs.Served.{tally, evicted_by, requested_by, after_sent, unobserved, needs_burst_wait, fresh_replies};
ghost use Rattle.replies.specs.Bounds.{TotalsIn, EvictedIn, InBounds};

// `answered_probes`, `additional_replies`, `late_replies`, `satisfied`.
#[derive(Clone, Copy)]
pub struct Answers {
    pub answered: u64,
    pub additional: u64,
    pub late: u64,
    pub satisfied: u64,
}

// `last_reflector_sequence`, `highest_reflector`, `reordered_replies`, `independent_sequence_observations`.
#[derive(Clone, Copy)]
pub struct Numbers {
    pub last: Option<u32>,
    pub highest: Option<u32>,
    pub reordered: u64,
    pub independent: u64,
}

// `requested_replies`, `unique_replies`, `duplicate_replies`, `unknown_replies`.
#[derive(Clone, Copy)]
pub struct Totals {
    pub requested: u64,
    pub unique: u64,
    pub duplicate: u64,
    pub unknown: u64,
}

// `probes_evicted`, `replies_evicted`, and how many of the probes had no reply (document 02, Q-3).
#[derive(Clone, Copy)]
pub struct Evicted {
    pub probes: u64,
    pub replies: u64,
    pub unanswered: u64,
}

#[derive(Clone, Copy)]
pub struct Replies {
    pub totals: Totals,
    pub answers: Answers,
    pub numbers: Numbers,
    pub evicted: Evicted,
}

// What an accepted reply is.
#[derive(Clone, Copy)]
pub enum ReplyClass {
    Duplicate,
    Unknown,
    Unique,
}

fn one_more_if(test: bool, count: u64) -> u64
    requires { count < 2 ^ 63 }
    ensures { result ≡ tally test count }
{
    if test { count + 1 } else { count }
}

fn evict(probe: bool, lost: bool, key: bool, evicted: Evicted) -> Evicted
    requires { EvictedIn evicted }
    ensures { result ≡ evicted_by probe lost key evicted }
{
    Evicted {
        probes: one_more_if(probe, evicted.probes),
        replies: one_more_if(key, evicted.replies),
        unanswered: one_more_if(lost, evicted.unanswered),
    }
}

fn request(copies: u16, mut totals: Totals) -> Totals
    requires { TotalsIn totals }
    ensures { result ≡ requested_by copies totals }
{
    totals.requested += copies as u64;
    totals
}

impl Replies {
    pub fn fresh() -> Replies
        ensures { result ≡ fresh_replies }
    {
        Replies {
            totals: Totals {
                requested: 0,
                unique: 0,
                duplicate: 0,
                unknown: 0,
            },
            answers: Answers {
                answered: 0,
                additional: 0,
                late: 0,
                satisfied: 0,
            },
            numbers: Numbers {
                last: None,
                highest: None,
                reordered: 0,
                independent: 0,
            },
            evicted: Evicted {
                probes: 0,
                replies: 0,
                unanswered: 0,
            },
        }
    }

    // The counts of `sent`.
    #[tactic(auto, unfolding(crate::specs::Served::after_sent))]
    pub fn sent(self, copies: u16, probe: bool, lost: bool) -> Replies
        requires { InBounds self }
        ensures { result ≡ after_sent copies probe lost self }
    {
        Replies {
            totals: request(copies, self.totals),
            evicted: evict(probe, lost, false, self.evicted),
            ..self
        }
    }

    // `unobserved_requested_replies`.
    pub fn unobserved_replies(self) -> u64
        ensures { result ≡ unobserved self }
    {
        self.totals.requested.saturating_sub(self.answers.satisfied)
    }

    pub fn needs_burst_wait(self, copies: u16) -> bool
        ensures { result ≡ needs_burst_wait copies self }
    {
        copies > 1 && self.answers.satisfied < self.totals.requested
    }
}
