// `ambrulicciu_sent`: the ledger's `sent`, on the words and the rooms that a host lends. Its refusals are tested here, and crate host_sent_words
// serves it, as it does the call with a monitor.
ghost use Rattle.std.specs.Prelude.{◌≡◌};
ghost use Rattle.host_calls.specs.Calls.{sent_probe_of};
ghost use Rattle.host_sent_words.specs.Sent.{sent_left};
ghost use Rattle.host_sent.specs.Sent.{sent_of};

use host_ledger::LEDGER_WORDS;
use host_sent_words::served;
use limits::CAPACITY;

#[unsafe(no_mangle)]
pub extern "C" fn ambrulicciu_sent(
    ledger: &mut [u64; LEDGER_WORDS],
    probes: &mut [[u64; 4]],
    links: &mut [[u16; 8]],
    sequence: u32,
    ordinal: u32,
    train: u32,
    time: u64,
    tag: u64,
) -> u8
    ensures { sent_left result ledger.new probes.new links.new ≡ sent_of ledger.old probes.old links.old (sent_probe_of sequence ordinal train time tag) }
{
    let sized = (probes.len() == CAPACITY) & (links.len() == CAPACITY);
    match host_ledger_checks::refusal(ledger, sized) {
        Some(refusal) => u8::from(refusal),
        None => {
            let probe = host_calls::probe_of(sequence, ordinal, train, time, tag);
            served(ledger, probes, links, probe);
            0
        }
    }
}
