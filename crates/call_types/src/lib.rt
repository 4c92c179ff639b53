// What the host hands over, as values: the types that src/sender/measurements.rs takes. There a time is an i128 or a `Duration`; here it is in ns.
use estimate::{ClockFormat, ErrorEstimate};

// `PendingPacket` of src/sender.rs: the send time in ns, and a tag that is handed back untouched.
#[derive(Clone, Copy)]
pub struct PendingPacket {
    pub time: u64,
    pub tag: u64,
}

// `ReplyKey`: what tells two replies apart.
#[derive(Clone, Copy)]
pub struct ReplyKey {
    pub sender: u32,
    pub reflector: u32,
    pub t3: u64,
}

// S_TxC: how many packets the sender has transmitted.
#[derive(Clone, Copy)]
pub struct SenderTx(pub u32);

// R_RxC: how many packets the reflector has received.
#[derive(Clone, Copy)]
pub struct ReflectorRx(pub u32);

// R_TxC: how many packets the reflector has transmitted.
#[derive(Clone, Copy)]
pub struct ReflectorTx(pub u32);

// `DirectMeasurementTlv` and `CounterPoint`: the three counters of RFC 8972, section 4.5.
#[derive(Clone, Copy)]
pub struct CounterPoint {
    pub sender: SenderTx,
    pub received: ReflectorRx,
    pub transmitted: ReflectorTx,
}

// `FollowUpTelemetryTlv`, its timestamp as it came.
#[derive(Clone, Copy)]
pub struct FollowUpTelemetry {
    pub sequence: u32,
    pub timestamp: u64,
    pub unknown: bool,
}

// `ReplyObservation`: timing and telemetry of one accepted reply.
#[derive(Clone, Copy)]
pub struct ReplyObservation {
    pub key: ReplyKey,
    pub rtt: u64,
    pub t4: Option<i64>,
    pub format: ClockFormat,
    pub reference: i64,
    pub offset: i32,
    pub ordinal: Option<u32>,
    pub counters: Option<CounterPoint>,
    pub follow: Option<FollowUpTelemetry>,
    pub quality: Option<(ErrorEstimate, ErrorEstimate)>,
}

// What `sent` is told. Train 0 is none.
#[derive(Clone, Copy)]
pub struct SentProbe {
    pub sequence: u32,
    pub ordinal: u32,
    pub train: u32,
    pub packet: PendingPacket,
}

// What `accept` is told.
#[derive(Clone, Copy)]
pub struct Reply {
    pub key: ReplyKey,
    pub pending: Option<PendingPacket>,
}

// One call of the host that can change a count.
#[derive(Clone, Copy)]
pub enum Call {
    Sent(SentProbe),
    Accept(Reply),
    Observe(ReplyObservation),
    Advance(u64),
    Idle,
}
