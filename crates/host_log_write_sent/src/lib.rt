// What a host calls to write the record of a `sent` (document 01, 'Log and program'). It stands alone, since the writer of records is compiled into a call only
// where it has one caller: then no entry goes through memory, and nothing is left of the other kinds.
ghost use Rattle.std.specs.Prelude.{◌≡◌};
ghost use Rattle.log_record.specs.Records.{told, told_of, written_to};
ghost use Rattle.host_log_write_sent.specs.Told.{sent_told};

use call_types::{PendingPacket, SentProbe};
use record_parts::Entry;

// The record of a `sent`, over 96 lent bytes; 5 for another number of bytes.
#[unsafe(no_mangle)]
pub extern "C" fn ambrulicciu_log_write_sent(
    bytes: &mut [u8],
    sequence: u32,
    ordinal: u32,
    train: u32,
    time: u64,
    tag: u64,
) -> u8
    ensures { told result bytes.new ≡ told_of (written_to bytes.old (sent_told sequence ordinal train time tag)) }
{
    let packet = PendingPacket { time, tag };
    let probe = SentProbe {
        sequence,
        ordinal,
        train,
        packet,
    };
    log_record::number_in(log_record::write(bytes, Entry::Sent(probe)))
}
