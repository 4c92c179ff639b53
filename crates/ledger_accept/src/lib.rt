// What `Measurements::accept` of src/sender/measurements.rs does with the probe of a unique reply, in the lent rooms of the probes and the links.
// Crate host_accept_words has the call.
ghost use Rattle.std.specs.Prelude.{◌≡◌, ◌<◌, length};
ghost use Rattle.limits.specs.Limits.{capacity};
ghost use Rattle.chains.specs.Rings.{RingFits};
ghost use Rattle.chains.specs.Hash.{number_hash};
ghost use Rattle.key_ring.specs.Table.{hash_of};
ghost use Rattle.probe_ring.specs.Row.{packet_after, after_reply};
ghost use Rattle.probe_ring.specs.Rooms.{rooms, outcome};
ghost use Rattle.ledger_steps.specs.Accept.{is_pending, no_packet, probe_at, replied_rows, context_of, readied};

use call_types::{PendingPacket, Reply};
use chains::Ring;
use ledger_steps::Accepted;
use limits::CAPACITY;
use probe_ring::{HeldProbe, Remembered};

pub fn is_pending(pending: Option<PendingPacket>) -> bool
    ensures { result ≡ is_pending pending }
{
    match pending {
        None => false,
        Some(_) => true,
    }
}

// The packet of a probe that is remembered for it.
fn packet_of(pending: Option<PendingPacket>) -> PendingPacket
    ensures { result ≡ packet_after pending no_packet }
{
    match pending {
        None => PendingPacket { time: 0, tag: 0 },
        Some(packet) => packet,
    }
}

// The slot of the reply's probe: a held one stays as it is, another is remembered without an ordinal.
pub fn ready_probe(
    probes: &mut [[u64; 4]],
    links: &mut [[u16; 8]],
    ring: Ring,
    secret: [u32; 8],
    slot: usize,
    reply: Reply,
) -> Remembered
    requires { (length probes.old ≡ capacity) × (length links.old ≡ capacity) × RingFits capacity ring }
    ensures { (outcome probes.new links.new result ≡ readied capacity (hash_of secret) (number_hash secret) (rooms probes.old links.old ring) slot reply.key reply.pending) × RingFits capacity result.ring × (result.slot < capacity) }
{
    if slot < CAPACITY {
        return Remembered {
            ring,
            slot,
            evicted: false,
            lost: false,
        };
    }
    let pending = reply.pending;
    let packet = packet_of(pending);
    let probe = HeldProbe::unanswered(reply.key.sender, packet, None, 0);
    probe_ring::push(probes, links, ring, secret, probe)
}

// What a reply was to its probe: how many came before it, and the answer.
#[derive(Clone, Copy)]
pub struct Replied {
    pub before: u16,
    pub context: Accepted,
}

// One reply more for the probe of a slot.
pub fn reply_to(probes: &mut [[u64; 4]], slot: usize, pending: Option<PendingPacket>) -> Replied
    requires { (length probes.old ≡ capacity) × (slot < capacity) }
    ensures { (result.before ≡ (probe_at probes.old slot).replies) × (result.context ≡ context_of (after_reply pending (probe_at probes.old slot))) × (probes.new ≡ replied_rows probes.old slot pending) }
{
    let probe = probe_ring::get(probes, slot);
    let after = probe.after_reply(pending);
    probe_ring::put(probes, slot, after);
    let packet = after.packet;
    let ordinal = after.ordinal;
    Replied {
        before: probe.replies,
        context: Accepted::Unique(packet, ordinal, after.train),
    }
}
