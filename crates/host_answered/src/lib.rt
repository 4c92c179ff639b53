// `answered` of src/sender/measurements.rs for a host: whether the probe of a sequence is held and has a reply.
ghost use Rattle.std.specs.Prelude.{◌≡◌};
ghost use Rattle.host_answered.specs.Answered.{left, answered_leaves};

use host_ledger::LEDGER_WORDS;

// `answer`: 1 if it is answered, else 0.
#[unsafe(no_mangle)]
pub extern "C" fn ambrulicciu_answered(
    ledger: &[u64; LEDGER_WORDS],
    probes: &[[u64; 4]],
    links: &[[u16; 8]],
    sequence: u32,
    answer: &mut [u64; 1],
) -> u8
    ensures { left result answer.new ≡ answered_leaves ledger.now probes.now links.now sequence answer.old }
{
    let state = host_ledger::load(ledger);
    match ledger_sent::answered(state, probes, links, sequence) {
        Err(refusal) => u8::from(refusal),
        Ok(answered) => {
            *answer = [host_numbers::flag(answered)];
            0
        }
    }
}
