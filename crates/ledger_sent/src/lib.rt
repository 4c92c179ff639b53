// `sent` once no test has refused it, and `answered`, of src/sender/measurements.rs, over the lent rooms of the held probes and of the links.
#![tactic(auto, unfolding(chains::specs::Hash::number_hash, ledger_steps::specs::Calls::answered_to))]

ghost use Rattle.std.specs.Prelude.{◌≡◌, length};
ghost use Rattle.limits.specs.Limits.{capacity};
ghost use Rattle.limits.specs.Numbers.{numbered};
ghost use Rattle.chains.specs.Rings.{RingFits};
ghost use Rattle.chains.specs.Hash.{number_hash};
ghost use Rattle.key_ring.specs.Table.{hash_of};
ghost use Rattle.probe_ring.specs.Rooms.{rooms, slot_of};
ghost use Rattle.ledger_checks.specs.Sound.{SoundSent};
ghost use Rattle.ledger_steps.specs.Sent.{sent_on};
ghost use Rattle.ledger_steps.specs.Readers.{answered_at};
ghost use Rattle.ledger_steps.specs.Calls.{answered_to};
ghost use Rattle.ledger_sent.specs.Left.{left};

use call_types::SentProbe;
use chains::Ring;
use ledger_checks::refusal_of_answered;
use ledger_state::{Counts, Ledger, Tables};
use limits::{CAPACITY, Refusal};

// Remembers the probe, and counts: a `sent` that no test has refused.
pub fn served(
    ledger: Ledger,
    probes: &mut [[u64; 4]],
    links: &mut [[u16; 8]],
    probe: SentProbe,
) -> Ledger
    requires { SoundSent ledger (length probes.old) (length links.old) }
    ensures { left result probes.new links.new ≡ sent_on ledger probes.old links.old probe }
{
    let kept = probe_ring::remember(
        probes,
        links,
        ledger.tables.probes,
        ledger.secret.words(),
        probe.sequence,
        probe.packet,
        Some(probe.ordinal),
        probe.train,
    );
    Ledger {
        calls: ledger.calls + 1,
        tables: Tables {
            probes: kept.ring,
            ..ledger.tables
        },
        counts: Counts {
            replies: ledger
                .counts
                .replies
                .sent(ledger.copies, kept.evicted, kept.lost),
            ..ledger.counts
        },
        ..ledger
    }
}

fn is_answered(
    probes: &[[u64; 4]],
    links: &[[u16; 8]],
    ring: Ring,
    secret: [u32; 8],
    sequence: u32,
) -> bool
    requires { (length probes.now ≡ capacity) × (length links.now ≡ capacity) × RingFits capacity ring }
    ensures { result ≡ answered_at capacity (hash_of secret) (number_hash secret) probes.now (slot_of capacity (number_hash secret) (rooms probes.now links.now ring) sequence) }
{
    let slot = probe_ring::find(probes, links, ring, secret, sequence);
    slot < CAPACITY && probe_ring::get(probes, slot).answered()
}

// `answered`: whether the probe of a sequence is held and has a reply.
pub fn answered(
    ledger: Ledger,
    probes: &[[u64; 4]],
    links: &[[u16; 8]],
    sequence: u32,
) -> Result<bool, Refusal>
    ensures { numbered result ≡ answered_to ledger probes.now links.now sequence }
{
    match refusal_of_answered(ledger, probes.len(), links.len()) {
        Some(refusal) => Err(refusal),
        None => Ok(is_answered(
            probes,
            links,
            ledger.tables.probes,
            ledger.secret.words(),
            sequence,
        )),
    }
}
