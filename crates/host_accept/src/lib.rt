// `ambrulicciu_accept`: the ledger's `accept`, on the words and the rooms that a host lends. Its refusals are
// tested here, and crate host_accept_words serves it: a list of replies has the same served call with tests of its own.
ghost use Rattle.std.specs.Prelude.{◌≡◌};
ghost use Rattle.host_calls.specs.Calls.{reply_of};
ghost use Rattle.host_accept_words.specs.Accept.{accept_left, accept_of};

use host_accept_words::served;
use host_ledger::LEDGER_WORDS;
use limits::CAPACITY;

// Words of `answer`: 0 class, 1 time, 2 tag, 3 ordinal_known, 4 ordinal, 5 train.
#[unsafe(no_mangle)]
pub extern "C" fn ambrulicciu_accept(
    ledger: &mut [u64; LEDGER_WORDS],
    keys: &mut [[u64; 2]],
    slots: &mut [[u64; 3]],
    probes: &mut [[u64; 4]],
    links: &mut [[u16; 8]],
    sender: u32,
    reflector: u32,
    t3: u64,
    pending: u32,
    time: u64,
    tag: u64,
    answer: &mut [u64; 6],
) -> u8
    ensures { let left = accept_left result ledger.new keys.new slots.new probes.new links.new answer.new in
        let reply = reply_of sender reflector t3 pending time tag in
        left ≡ accept_of ledger.old keys.old slots.old probes.old links.old answer.old reply }
{
    let sized = (keys.len() == CAPACITY)
        & (slots.len() == CAPACITY)
        & (probes.len() == CAPACITY)
        & (links.len() == CAPACITY);
    match host_ledger_checks::refusal(ledger, sized) {
        Some(refusal) => u8::from(refusal),
        None => {
            let reply = host_calls::reply_of(sender, reflector, t3, pending, time, tag);
            served(ledger, keys, slots, probes, links, reply, answer);
            0
        }
    }
}
