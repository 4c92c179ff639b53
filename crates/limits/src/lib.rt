// What every crate of the core shares: why a call is refused, by document 01's table and what document 02 adds to it, and how much is remembered.
// specs/Refusals.antt and specs/Limits.antt have the same names for contracts.
ghost use Rattle.std.specs.Prelude.{◌≡◌};
ghost use Rattle.limits.specs.Numbers.{number_of, number, numbered};

// Why a call is refused, with the number that the host is told.
#[derive(Clone, Copy, Debug, Drop, PartialEq, Eq)]
pub enum Refusal {
    // A scale, a time, a reference or an offset outside its range.
    OutOfRange = 1,
    // An observation of a key that is not awaiting one.
    NotAwaiting = 2,
    // A probe for which the monitor's queue has no room.
    QueueFull = 3,
    // Calls, a count or a sum at its bound.
    CountsFull = 4,
    // A room of the wrong size, or a state whose rings, minimum, maximum or buckets no call leaves.
    WrongRoom = 5,
    // A send time whose deadline would pass u64.
    DeadlinePasses = 6,
    // A log whose trailer is missing or wrong.
    BadTrailer = 7,
    // A log with a record that no writer makes.
    BadRecord = 8,
    // A log of more than 65,536 bytes, or of more records than these hold.
    TooLong = 9,
    // An extension area (RFC 8972, section 4) whose header or value passes the end.
    PassesEnd = 10,
    // An item of type 5 or 7 with another length than 12 or 16.
    WrongLength = 11,
    // A lent room that is too short for what is to be written.
    ShortRoom = 12,
    // A pattern text that is empty, has an odd number of digits or a character that is not hexadecimal.
    BadPattern = 13,
    // Padding above 65,535 bytes, or a sample of more bits than such padding has.
    TooMuchPadding = 14,
}

// The number that the host is told.
impl From<Refusal> for u8 {
    fn from(refusal: Refusal) -> u8
        ensures { result ≡ number_of refusal }
    {
        refusal as u8
    }
}

// The same of a test, and of a call: 0 where nothing is refused.
pub fn number(refused: Option<Refusal>) -> u8
    ensures { result ≡ number refused }
{
    match refused {
        None => 0,
        Some(refusal) => u8::from(refusal),
    }
}

// The same answer, with its refusal's number in place of the refusal.
pub fn numbered<A: Copy>(answer: Result<A, Refusal>) -> Result<A, u8>
    ensures { result ≡ numbered answer }
{
    match answer {
        Ok(value) => Ok(value),
        Err(refusal) => Err(u8::from(refusal)),
    }
}

// A room of the wrong size, or a state whose rings, minimum, maximum or buckets no call leaves.
pub const WRONG_ROOM: u8 = Refusal::WrongRoom as u8;
// A scale, a time, a reference or an offset outside its range.
pub const OUT_OF_RANGE: u8 = Refusal::OutOfRange as u8;
// A send time whose deadline would pass u64.
pub const DEADLINE_PASSES: u8 = Refusal::DeadlinePasses as u8;
// Calls, a count or a sum at its bound.
pub const COUNTS_FULL: u8 = Refusal::CountsFull as u8;
// An observation of a key that is not awaiting one.
pub const NOT_AWAITING: u8 = Refusal::NotAwaiting as u8;
// A probe for which the monitor's queue has no room.
pub const QUEUE_FULL: u8 = Refusal::QueueFull as u8;

// How many probes, accepted keys, seen offsets, queued probes and exact samples are held.
pub const CAPACITY: usize = 4096;
// How many sent, accept and observe calls are served.
pub const MOST_CALLS: u64 = 4294967295;
// A count at or beyond this is refused.
pub const COUNT_BOUND: u64 = 9223372036854775808;
