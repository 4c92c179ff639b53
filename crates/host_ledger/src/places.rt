// The places of a ledger's words, by name. specs/Places.antt has the same for the definitions, and specs/Words.antt says what stands there.

// How many replies a probe asks for.
pub const COPIES: usize = 0;

// The words of the hash, two numbers a word.
pub const SECRET_1: usize = 1;

pub const SECRET_2: usize = 2;

pub const SECRET_3: usize = 3;

pub const SECRET_4: usize = 4;

// Calls that were served.
pub const CALLS: usize = 5;

// The ring of keys.
pub const KEYS_HEAD: usize = 6;

pub const KEYS_LEN: usize = 7;

// The ring of probes.
pub const PROBES_HEAD: usize = 8;

pub const PROBES_LEN: usize = 9;

// Whether the newest key awaits its observe.
pub const AWAITS: usize = 10;

// Counts of replies.
pub const REQUESTED: usize = 11;

pub const UNIQUE: usize = 12;

pub const DUPLICATE: usize = 13;

pub const UNKNOWN: usize = 14;

pub const ANSWERED: usize = 15;

pub const ADDITIONAL: usize = 16;

pub const LATE: usize = 17;

pub const SATISFIED: usize = 18;

// Reflector numbers.
pub const LAST: usize = 19;

pub const HIGHEST: usize = 20;

pub const REORDERED: usize = 21;

pub const INDEPENDENT: usize = 22;

// Evictions.
pub const PROBES_EVICTED: usize = 23;

pub const REPLIES_EVICTED: usize = 24;

// Round trips: their count, their sum, the smallest, the largest.
pub const TRIPS: usize = 25;

pub const TRIPS_SIGN: usize = 26;

pub const TRIPS_HIGH: usize = 27;

pub const TRIPS_LOW: usize = 28;

pub const TRIPS_MIN_KIND: usize = 29;

pub const TRIPS_MIN: usize = 30;

pub const TRIPS_MAX_KIND: usize = 31;

pub const TRIPS_MAX: usize = 32;

// Direct loss: observations and three counts more, whether the history was exceeded.
pub const DIRECT: usize = 33;

pub const DIRECT_UNAVAILABLE: usize = 34;

pub const DISCONTINUITIES: usize = 35;

pub const DIRECT_REORDERED: usize = 36;

pub const EXCEEDED: usize = 37;

// Its window: whether there is an anchor, and what is known since.
pub const ANCHORED: usize = 38;

pub const ANCHOR: usize = 39;

pub const TRANSMITTED: usize = 40;

pub const LATEST: usize = 41;

pub const MAXIMA: usize = 42;

pub const SEEN: usize = 43;

// Follow-ups: observations and their five classes.
pub const FOLLOW_UPS: usize = 44;

pub const MATCHED: usize = 45;

pub const REPEATED: usize = 46;

pub const UNMATCHED: usize = 47;

pub const AMBIGUOUS: usize = 48;

pub const UNAVAILABLE: usize = 49;

// Their delays, as the round trips.
pub const DELAY: usize = 50;

pub const DELAY_SIGN: usize = 51;

pub const DELAY_HIGH: usize = 52;

pub const DELAY_LOW: usize = 53;

pub const DELAY_MIN_KIND: usize = 54;

pub const DELAY_MIN: usize = 55;

pub const DELAY_MAX_KIND: usize = 56;

pub const DELAY_MAX: usize = 57;

// Clock quality: samples and seven counts more.
pub const QUALITY: usize = 58;

pub const BOTH_SYNCHRONIZED: usize = 59;

pub const UNSYNCHRONIZED: usize = 60;

pub const INVALID: usize = 61;

pub const UNKNOWN_ESTIMATES: usize = 62;

pub const INVALID_SENDER: usize = 63;

pub const INVALID_REFLECTOR: usize = 64;

pub const INVALID_BOTH: usize = 65;

// The largest error, and the last estimate of each end.
pub const LARGEST_KNOWN: usize = 66;

pub const LARGEST: usize = 67;

pub const SENDER: usize = 68;

pub const SENDER_ERROR: usize = 69;

pub const REFLECTOR: usize = 70;

pub const REFLECTOR_ERROR: usize = 71;

// The probes evicted without a reply.
pub const EVICTED_UNANSWERED: usize = 72;
