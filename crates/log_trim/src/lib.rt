// A log that was cut short on the way (document 02, Q-11): its records from byte 0 up to the first that is bad or incomplete, with a new trailer, over
// lent bytes. A log that the reader accepts, with no leading matter, is given back as it is.
ghost use Rattle.std.specs.Prelude.{◌≡◌, ◌++◌, ◌+◌, ◌*◌, ◌≤◌, length, take, drop};
ghost use Rattle.log_cut.specs.Cut.{kept_of, whole, trailer_of};
ghost use Rattle.log_trim.specs.Trimmed.{left, trim_to};

use limits::Refusal;

// What was kept of a log: how many records, the byte behind the last of them, and how many bytes were dropped from there on. The log that is written has
// `stop` + 24 bytes.
#[derive(Clone, Copy)]
pub struct Cut {
    pub kept: u32,
    pub stop: usize,
    pub dropped: usize,
}

// Whether the reader accepts the log, and its first record stands at byte 0.
fn is_whole(log: &[u8]) -> bool
    ensures { result ≡ whole log.now }
{
    log_whole::check(log).is_ok_and(|settings| settings.start == 0)
}

// Of a whole log every record is kept: the reader has looked at each.
fn kept_records(log: &[u8], all: bool) -> u32
    requires { (length log.now ≤ 65536) × (all ≡ whole log.now) }
    ensures { result ≡ kept_of log.now }
{
    let count = (log.len() / 96) as u32;
    if all {
        return count;
    }
    log_whole::first_bad(log, 0, count)
}

// The first `end` bytes, over those of the room.
fn copy(from: &[u8], end: usize, room: &mut [u8])
    requires { (end ≤ length from.now) × (end ≤ length room.old) }
    ensures { room.new ≡ take end from.now ++ drop end room.old }
{
    room[..end].copy_from_slice(&from[..end]);
}

// The first records of a log and a new trailer.
fn put_log(log: &[u8], count: u32, copies: u16, threshold: u16, timeout: u64, room: &mut [u8])
    requires { (count ≤ 682) × (96 * count ≤ length log.now) × (96 * count + 24 ≤ length room.old) }
    ensures { room.new ≡ (take (96 * count) log.now ++ trailer_of count copies threshold timeout) ++ drop (96 * count + 24) room.old }
{
    let stop = 96 * (count as usize);
    let end = stop + 24;
    copy(log, stop, room);
    // No trailer is refused: the room for it has 24 bytes, and there are few enough records.
    let _ = log_whole::trailer::write(&mut room[stop..end], count, copies, threshold, timeout);
}

// Refused: a log above 65,536 bytes, as too long, and then a room shorter than the log that is to be written. Else that log stands at the start of the
// room, and what is behind it is left as it was.
pub fn trim(
    log: &[u8],
    copies: u16,
    threshold: u16,
    timeout: u64,
    room: &mut [u8],
) -> Result<Cut, Refusal>
    ensures { left result room.new ≡ trim_to log.now copies threshold timeout room.old }
{
    if log_whole::MOST_BYTES < log.len() {
        return Err(Refusal::TooLong);
    }
    let all = is_whole(log);
    let kept = kept_records(log, all);
    let stop = 96 * (kept as usize);
    if room.len() < stop + 24 {
        return Err(Refusal::ShortRoom);
    }
    if all {
        copy(log, log.len(), room);
        return Ok(Cut {
            kept,
            stop,
            dropped: 0,
        });
    }
    put_log(log, kept, copies, threshold, timeout, room);
    Ok(Cut {
        kept,
        stop,
        dropped: log.len() - stop,
    })
}
