// The ledger's `sent` on the words and the rooms that a host lends: what the calls with a monitor and without, and the player of a log, have in common.
// It is no call of its own, since a crate that exports one cannot be what another call's object is made of. Refusals are tested in the words before a
// probe is served: of the ledger that is then taken out it needs a few words alone, and the others are not read.
ghost use Rattle.std.specs.Prelude.{◌≡◌, length};
ghost use Rattle.ledger_steps.specs.Calls.{sent_to};
ghost use Rattle.ledger_steps.specs.Sent.{sent_on};
ghost use Rattle.ledger_checks.specs.Sound.{SoundSent};
ghost use Rattle.host_ledger.specs.Words.{ledger_at};
ghost use Rattle.host_sent_words.specs.Sent.{sent_left, sent_from, served_leaves};

use call_types::SentProbe;
use host_ledger::LEDGER_WORDS;
use host_watched_parts::first_of;
use limits::CAPACITY;

// A `sent` that is not refused.
pub fn served(
    ledger: &mut [u64; LEDGER_WORDS],
    probes: &mut [[u64; 4]],
    links: &mut [[u16; 8]],
    probe: SentProbe,
)
    requires { SoundSent (ledger_at ledger.old) (length probes.old) (length links.old) }
    ensures { sent_left 0 ledger.new probes.new links.new ≡ served_leaves ledger.old (sent_on (ledger_at ledger.old) probes.old links.old probe) }
{
    let state = host_ledger::load(ledger);
    let next = ledger_sent::served(state, probes, links, probe);
    host_ledger::store_sent(ledger, next);
}

// The number of `sent`, 0 where it was served. It is refused also where `other` is a refusal: that of the monitor, 0 where there is none.
pub fn sent_unless(
    other: u8,
    ledger: &mut [u64; LEDGER_WORDS],
    probes: &mut [[u64; 4]],
    links: &mut [[u16; 8]],
    probe: SentProbe,
) -> u8
    ensures { sent_left result ledger.new probes.new links.new ≡ sent_from ledger.old (sent_to other (ledger_at ledger.old) probes.old links.old probe) }
{
    let sized = (probes.len() == CAPACITY) & (links.len() == CAPACITY);
    let own = limits::number(host_ledger_checks::refusal(ledger, sized));
    let number = first_of(own, other);
    if number == 0 {
        served(ledger, probes, links, probe);
    }
    number
}
