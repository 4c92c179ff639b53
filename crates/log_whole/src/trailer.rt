// The trailer of a log, written over 24 lent bytes.
ghost use Rattle.std.specs.Prelude.{◌≡◌, ◌≤◌, length};
ghost use Rattle.big_endian.specs.Fields.{written};
ghost use Rattle.log_record.specs.Records.{wrote};
ghost use Rattle.log_whole.specs.Logs.{trailer_table, trailer_to};

use big_endian::{put_u16, put_u32, put_u64};
use limits::Refusal;

fn put_trailer(bytes: &mut [u8], count: u32, copies: u16, threshold: u16, timeout: u64)
    requires { (length bytes.old ≡ 24) × (count ≤ 682) }
    ensures { bytes.new ≡ written (trailer_table count copies threshold timeout) bytes.old }
{
    put_u32(bytes, 0, 24 + 96 * count);
    put_u32(bytes, 4, count);
    put_u16(bytes, 8, copies);
    put_u16(bytes, 10, threshold);
    put_u64(bytes, 12, timeout);
    put_u32(bytes, 20, 0x53544c47);
}

// Writes the trailer of a log of `count` records. Refused: another number of bytes than 24, as a room of the wrong size, and more records than 65,536 bytes
// hold, as too long.
pub fn write(
    bytes: &mut [u8],
    count: u32,
    copies: u16,
    threshold: u16,
    timeout: u64,
) -> Result<(), Refusal>
    ensures { wrote result bytes.new ≡ trailer_to bytes.old count copies threshold timeout }
{
    if bytes.len() != 24 {
        return Err(Refusal::WrongRoom);
    }
    if 682 < count {
        return Err(Refusal::TooLong);
    }
    put_trailer(bytes, count, copies, threshold, timeout);
    Ok(())
}
