// The direct counters of a reply in the words of a ledger. Counters that go on in order, the usual case, change one count and what is known
// since the anchor: these are stored alone. With the whole of direct loss taken out of its words and put back they took a thirteenth of an
// observe's instructions more. Any others go that way still, through crate ledger_direct, which has the same definition by value.
ghost use Rattle.std.specs.Prelude.{◌≡◌, ◌+◌, ◌^◌, ◌≤◌, ◌<◌, max, get_or, length, set};
ghost use Rattle.std.proofs.lemmas.List.Edits.{sets};
ghost use Rattle.limits.specs.Limits.{capacity};
ghost use Rattle.chains.specs.Hash.{number_hash};
ghost use Rattle.direct.specs.Outcomes.{InBounds, above, seen_in};
ghost use Rattle.ledger_steps.specs.Observe.{direct_in};
ghost use Rattle.host_ledger.specs.Parts.{direct_at, epoch_words};
ghost use Rattle.host_direct_loss.specs.Left.{direct_left, direct_leaves, told_leaves};
ghost use Rattle.host_direct_loss.specs.Order.{opened, epoch_in, goes_on};
ghost use Rattle.host_ledger.specs.Places as place;

use call_types::{CounterPoint, ReplyObservation};
use direct::Epoch;
use host_ledger::parts::{epoch_of, epoch_words};
use host_ledger::{LEDGER_WORDS, places};
use limits::CAPACITY;

fn is_open(ledger: &[u64; LEDGER_WORDS]) -> bool
    ensures { result ≡ opened ledger.now }
{
    (ledger[places::EXCEEDED] < 2) & (ledger[places::ANCHORED] == 1)
}

fn epoch_in(ledger: &[u64; LEDGER_WORDS]) -> Epoch
    ensures { result ≡ epoch_in ledger.now }
{
    epoch_of(
        ledger[places::ANCHOR],
        ledger[places::TRANSMITTED],
        ledger[places::LATEST],
        ledger[places::MAXIMA],
        ledger[places::SEEN],
    )
}

fn goes_on(epoch: Epoch, point: CounterPoint, ordinal: Option<u32>) -> bool
    ensures { result ≡ goes_on epoch point ordinal }
{
    let Some(number) = ordinal else {
        return false;
    };
    let anchor = epoch.anchor;
    let latest = epoch.latest;
    let anchor_sender = anchor.sender;
    let anchor_received = anchor.received;
    let point_sender = point.sender;
    let point_received = point.received;
    let transmitted = direct::transmit_offset(anchor, point);
    let sender = direct::sender_since(anchor_sender, point_sender);
    let received = direct::received_since(anchor_received, point_received);
    let highest = direct::transmit_offset(anchor, latest);
    (point_sender.0 == number)
        & (transmitted < 2147483648)
        & (sender < 2147483648)
        & (received < 2147483648)
        & (epoch.seen < CAPACITY)
        & (highest <= transmitted)
}

fn larger(a: u32, b: u32) -> u32
    ensures { result ≡ max a b }
{
    if a < b { b } else { a }
}

// What is known since the anchor with a point more, whose transmit offset is not below the highest.
fn moved(epoch: Epoch, point: CounterPoint) -> Epoch
    requires { epoch.seen ≤ 4096 }
    ensures { result ≡ above epoch point }
{
    let anchor = epoch.anchor;
    let anchor_sender = anchor.sender;
    let anchor_received = anchor.received;
    let point_sender = point.sender;
    let point_received = point.received;
    let sender = larger(
        epoch.sender,
        direct::sender_since(anchor_sender, point_sender),
    );
    let received = larger(
        epoch.received,
        direct::received_since(anchor_received, point_received),
    );
    Epoch {
        anchor,
        latest: point,
        sender,
        received,
        seen: epoch.seen + 1,
    }
}

// One observation more, and what is then known since the anchor.
fn store(ledger: &mut [u64; LEDGER_WORDS], epoch: Epoch)
    requires { get_or ledger.old place.direct 0 < 2 ^ 63 }
    ensures { ledger.new ≡ sets (set ledger.old place.direct (get_or ledger.old place.direct 0 + 1)) 39 (epoch_words epoch) }
{
    let words = epoch_words(epoch);
    let observations = ledger[places::DIRECT];
    ledger[places::DIRECT] = observations + 1;
    ledger[places::ANCHOR] = words.anchor;
    ledger[places::TRANSMITTED] = words.transmitted;
    ledger[places::LATEST] = words.latest;
    ledger[places::MAXIMA] = words.maxima;
    ledger[places::SEEN] = words.seen;
}

// Counters of any kind.
fn count_any(
    ledger: &mut [u64; LEDGER_WORDS],
    offsets: &mut [u32],
    links: &mut [[u16; 8]],
    secret: [u32; 8],
    told: ReplyObservation,
)
    requires { (length offsets.old ≡ capacity) × (length links.old ≡ capacity) × InBounds (direct_at place.direct ledger.old).counts × (seen_in (direct_at place.direct ledger.old).window ≤ 4096) }
    ensures { direct_left ledger.new offsets.new links.new ≡ told_leaves ledger.old (direct_in capacity (number_hash secret) (direct_at place.direct ledger.old) offsets.old links.old told) }
{
    let before = host_ledger::direct_of(ledger);
    let after = ledger_direct::count_direct(before, offsets, links, secret, told);
    host_ledger_parts::store_direct(ledger, after);
}

// The counters that were told.
fn count_point(
    ledger: &mut [u64; LEDGER_WORDS],
    offsets: &mut [u32],
    links: &mut [[u16; 8]],
    secret: [u32; 8],
    told: ReplyObservation,
    point: CounterPoint,
)
    requires { (length offsets.old ≡ capacity) × (length links.old ≡ capacity) × InBounds (direct_at place.direct ledger.old).counts × (seen_in (direct_at place.direct ledger.old).window ≤ 4096) × (told.counters ≡ Some point) }
    ensures { direct_left ledger.new offsets.new links.new ≡ told_leaves ledger.old (direct_in capacity (number_hash secret) (direct_at place.direct ledger.old) offsets.old links.old told) }
{
    let epoch = epoch_in(ledger);
    let ordinal = told.ordinal;
    if is_open(ledger) & goes_on(epoch, point, ordinal) {
        let anchor = epoch.anchor;
        let offset = direct::transmit_offset(anchor, point);
        let count = epoch.seen;
        if !offset_set::contains(offsets, links, count, secret, offset) {
            store(ledger, moved(epoch, point));
            offset_set::add(offsets, links, count, secret, offset);
            return;
        }
    }
    count_any(ledger, offsets, links, secret, told);
}

// The direct counters of a reply, where it has them; for a caller that has tested the counts and the rooms.
pub fn count(
    ledger: &mut [u64; LEDGER_WORDS],
    offsets: &mut [u32],
    links: &mut [[u16; 8]],
    secret: [u32; 8],
    told: ReplyObservation,
)
    requires { (length offsets.old ≡ capacity) × (length links.old ≡ capacity) × InBounds (direct_at place.direct ledger.old).counts × (seen_in (direct_at place.direct ledger.old).window ≤ 4096) }
    ensures { direct_left ledger.new offsets.new links.new ≡ direct_leaves told.counters ledger.old (direct_in capacity (number_hash secret) (direct_at place.direct ledger.old) offsets.old links.old told) }
{
    let counters = told.counters;
    match counters {
        None => {}
        Some(point) => count_point(ledger, offsets, links, secret, told, point),
    }
}
