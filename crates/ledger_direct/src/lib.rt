// `direct.record` in `observe` of src/sender/measurements.rs, over the lent rooms of the seen offsets: the direct counters of a reply.
ghost use Rattle.std.specs.Prelude.{◌≡◌, ◌≤◌, length};
ghost use Rattle.limits.specs.Limits.{capacity};
ghost use Rattle.chains.specs.Hash.{number_hash};
ghost use Rattle.direct.specs.Outcomes.{InBounds, seen_in};
ghost use Rattle.offset_set.specs.Offsets.{offset_set};
ghost use Rattle.ledger_steps.specs.Observe.{offsets_after, direct_outcome, direct_by, direct_in};

use call_types::{CounterPoint, ReplyObservation};
use direct::{Direct, Offsets};

// What becomes of the seen offsets, of which there are `count`. They are cleared by their count alone, which the window holds.
fn keep(offsets: &mut [u32], links: &mut [[u16; 8]], count: usize, secret: [u32; 8], after: Offsets)
    requires { (length offsets.old ≡ capacity) × (length links.old ≡ capacity) × (count ≤ capacity) }
    ensures { (offsets.new ≡ (offsets_after capacity (number_hash secret) after (offset_set offsets.old links.old count)).offsets) × (links.new ≡ (offsets_after capacity (number_hash secret) after (offset_set offsets.old links.old count)).links) }
{
    match after {
        Offsets::Kept => {}
        Offsets::Begun => {
            offset_set::add(offsets, links, 0, secret, 0);
        }
        Offsets::Added(offset) => {
            offset_set::add(offsets, links, count, secret, offset);
        }
        Offsets::Cleared => {}
    }
}

// The counters of a reply: whether their transmit offset was seen, then the outcome.
fn measure(
    direct: Direct,
    offsets: &mut [u32],
    links: &mut [[u16; 8]],
    secret: [u32; 8],
    point: CounterPoint,
    ordinal: Option<u32>,
) -> Direct
    requires { (length offsets.old ≡ capacity) × (length links.old ≡ capacity) × InBounds direct.counts × (seen_in direct.window ≤ 4096) }
    ensures { direct_outcome result offsets.new links.new ≡ direct_by capacity (number_hash secret) (Some point) direct (offset_set offsets.old links.old (seen_in direct.window)) ordinal }
{
    let window = direct.window;
    let count = direct::seen_in(window);
    let sought = direct::sought(window, point);
    let again = offset_set::contains(offsets, links, count, secret, sought);
    let step = direct::record_point(direct, point, ordinal, again);
    let after = step.offsets;
    keep(offsets, links, count, secret, after);
    step.direct
}

// The direct counters of an observation, where it has them.
pub fn count_direct(
    direct: Direct,
    offsets: &mut [u32],
    links: &mut [[u16; 8]],
    secret: [u32; 8],
    observation: ReplyObservation,
) -> Direct
    requires { (length offsets.old ≡ capacity) × (length links.old ≡ capacity) × InBounds direct.counts × (seen_in direct.window ≤ 4096) }
    ensures { direct_outcome result offsets.new links.new ≡ direct_in capacity (number_hash secret) direct offsets.old links.old observation }
{
    let counters = observation.counters;
    let ordinal = observation.ordinal;
    match counters {
        None => direct,
        Some(point) => measure(direct, offsets, links, secret, point, ordinal),
    }
}
