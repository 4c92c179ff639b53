// What a host hands over as numbers, as the ledger's `sent` and `accept` take it, and the words that tell it what an accepted reply is.
ghost use Rattle.std.specs.Prelude.{◌≡◌};
ghost use Rattle.host_calls.specs.Calls.{sent_probe_of, reply_of, accepted_words, ordinal_words};

use call_types::{PendingPacket, Reply, ReplyKey, SentProbe};
use ledger_steps::Accepted;

pub fn probe_of(sequence: u32, ordinal: u32, train: u32, time: u64, tag: u64) -> SentProbe
    ensures { result ≡ sent_probe_of sequence ordinal train time tag }
{
    SentProbe {
        sequence,
        ordinal,
        train,
        packet: PendingPacket { time, tag },
    }
}

// The packet counts where `pending` is not 0.
pub fn reply_of(sender: u32, reflector: u32, t3: u64, pending: u32, time: u64, tag: u64) -> Reply
    ensures { result ≡ reply_of sender reflector t3 pending time tag }
{
    let key = ReplyKey {
        sender,
        reflector,
        t3,
    };
    if pending == 0 {
        return Reply { key, pending: None };
    }
    Reply {
        key,
        pending: Some(PendingPacket { time, tag }),
    }
}

fn ordinal_words(packet: PendingPacket, ordinal: Option<u32>, train: u32) -> [u64; 6]
    ensures { result ≡ ordinal_words packet ordinal train }
{
    match ordinal {
        None => [2, packet.time, packet.tag, 0, 0, train as u64],
        Some(number) => [2, packet.time, packet.tag, 1, number as u64, train as u64],
    }
}

// Class (0 unknown, 1 duplicate, 2 unique); of a unique one the packet's time and tag, 1 if it has an ordinal, the ordinal, its train. All else is 0.
pub fn accepted_words(accepted: Accepted) -> [u64; 6]
    ensures { result ≡ accepted_words accepted }
{
    match accepted {
        Accepted::Duplicate => [1, 0, 0, 0, 0, 0],
        Accepted::Unknown => [0, 0, 0, 0, 0, 0],
        Accepted::Unique(packet, ordinal, train) => ordinal_words(packet, ordinal, train),
    }
}
