// What a reply's extension area tells `observe`: `direct_measurement` and `follow_up` of `TlvTelemetry` (src/sender/telemetry.rs), by its
// rule "U skips, M stops the remainder, and I blocks values", in one walk over the lent bytes.
#![tactic(auto)]

ghost use Rattle.std.specs.Prelude.{◌≡◌, ◌+◌, ◌≤◌, length};
ghost use Rattle.area_items.specs.Items.{area};
ghost use Rattle.area_observation.specs.Told.{unknown_mode, counters_from, sighted_from, told};
ghost use Rattle.area_observation.specs.Walk.{chosen_of, noted_of, fresh, walked, Inside, SafeWalk};

use call_types::CounterPoint;
use limits::Refusal;

// A follow-up as `observe` is told it: the reflector's sequence, the timestamp as it came, and whether its mode is unknown.
#[derive(Clone, Copy)]
pub struct Sighting {
    pub sequence: u32,
    pub timestamp: u64,
    pub unknown: bool,
}

// What is told: the counters and the follow-up.
#[derive(Clone, Copy)]
pub struct Told {
    pub counters: Option<CounterPoint>,
    pub follow: Option<Sighting>,
}

// What a walk has found: whether integrity failed, whether an item was malformed, and where the values begin, 0 for nowhere.
#[derive(Clone, Copy)]
pub struct Found {
    pub failed: bool,
    pub stopped: bool,
    pub counters: usize,
    pub follow: usize,
}

fn chosen(first: usize, taken: bool, place: usize) -> usize
    ensures { result ≡ chosen_of first taken place }
{
    if first != 0 {
        return first;
    }
    if taken {
        return place;
    }
    0
}

fn noted(found: Found, flags: u8, kind: u8, place: usize) -> Found
    ensures { result ≡ noted_of found flags kind place }
{
    let failed = found.failed | (flags / 32 % 2 == 1);
    let stopped = found.stopped | (flags / 64 % 2 == 1);
    let passed = stopped | (flags / 128 % 2 == 1);
    let counters = chosen(found.counters, !passed & (kind == 5), place);
    let follow = chosen(found.follow, !passed & (kind == 7), place);
    Found {
        failed,
        stopped,
        counters,
        follow,
    }
}

fn find(bytes: &[u8]) -> Result<Found, Refusal>
    ensures { (result ≡ walked fresh (area bytes.now)) × SafeWalk bytes.now result }
{
    let mut found = Found {
        failed: false,
        stopped: false,
        counters: 0,
        follow: 0,
    };
    let mut at: usize = 0;
    // A place that moves by the length that each item's header says, as in `area_read::check`: no range or iterator of the library steps so, and
    // a walk for both, which took its step as a closure, would need the step's relation in each contract.
    while at < bytes.len() {
        area_items::verdict(bytes, at)?;
        found = noted(found, bytes[at], bytes[at + 1], at + 4);
        at = area_items::end_of(bytes, at);
    }
    Ok(found)
}

fn counters_from(bytes: &[u8], at: usize) -> Option<CounterPoint>
    requires { Inside 12 bytes.now at }
    ensures { result ≡ counters_from bytes.now at }
{
    if at == 0 {
        return None;
    }
    Some(area_fields::counters_at(bytes, at))
}

fn unknown_mode(mode: u8) -> bool
    ensures { result ≡ unknown_mode mode }
{
    (mode == 0) | (mode > 3)
}

fn sighted_from(bytes: &[u8], at: usize) -> Option<Sighting>
    requires { Inside 16 bytes.now at }
    ensures { result ≡ sighted_from bytes.now at }
{
    if at == 0 {
        return None;
    }
    let item = area_fields::follow_up_at(bytes, at);
    let unknown = unknown_mode(item.mode);
    Some(Sighting {
        sequence: item.sequence,
        timestamp: item.timestamp,
        unknown,
    })
}

// Refused as a reading is.
pub fn told_of(bytes: &[u8]) -> Result<Told, Refusal>
    ensures { result ≡ told bytes.now }
{
    let found = find(bytes)?;
    if found.failed {
        return Ok(Told {
            counters: None,
            follow: None,
        });
    }
    Ok(Told {
        counters: counters_from(bytes, found.counters),
        follow: sighted_from(bytes, found.follow),
    })
}
