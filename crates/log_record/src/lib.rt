// One record of a log, 96 bytes (document 01, 'Log and program'): written, read and checked.
ghost use Rattle.std.specs.Prelude.{◌≡◌, length};
ghost use Rattle.log_record.specs.Records.{same_bytes, record_of, read_of, number_in, wrote, written_to, scales_fit};

mod putting;
mod reading;

use limits::Refusal;
use record_parts::Entry;

// Whether 96 bytes are the record of an entry.
fn is_record(bytes: &[u8], said: Entry) -> bool
    requires { length bytes.now ≡ 96 }
    ensures { result ≡ same_bytes bytes.now (record_of said) }
{
    let mut own = [0u8; 96];
    putting::put_entry(&mut own, said);
    bytes == &own[..]
}

// What a good record says: else it is a bad record, or, where a slice has not 96 bytes, a room of the wrong size.
pub fn read(bytes: &[u8]) -> Result<Entry, Refusal>
    ensures { result ≡ read_of bytes.now }
{
    if bytes.len() != 96 {
        return Err(Refusal::WrongRoom);
    }
    let said = reading::said(bytes);
    if is_record(bytes, said) {
        return Ok(said);
    }
    Err(Refusal::BadRecord)
}

fn scales_fit(said: Entry) -> bool
    ensures { result ≡ scales_fit said }
{
    match said {
        Entry::Sent(_) => true,
        Entry::Accept(_) => true,
        Entry::Observe(o, _) => {
            let quality = o.quality;
            ranges::estimates_fit(quality)
        }
        Entry::Advance(_) => true,
        Entry::Idle => true,
    }
}

// The number that a host is told: 0 where nothing is refused.
pub fn number_in(answer: Result<(), Refusal>) -> u8
    ensures { result ≡ number_in answer }
{
    match answer {
        Ok(()) => 0,
        Err(refusal) => u8::from(refusal),
    }
}

// Writes the record of an entry over 96 lent bytes. Refused: another number of bytes, as a room of the wrong size, and a scale above 63, as out of range.
pub fn write(bytes: &mut [u8], said: Entry) -> Result<(), Refusal>
    ensures { wrote result bytes.new ≡ written_to bytes.old said }
{
    if bytes.len() != 96 {
        return Err(Refusal::WrongRoom);
    }
    if !scales_fit(said) {
        return Err(Refusal::OutOfRange);
    }
    bytes.fill(0);
    putting::put_entry(bytes, said);
    Ok(())
}
