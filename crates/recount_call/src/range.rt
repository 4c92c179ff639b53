// Refusal 1 of document 01, tested here anew: a second count does not lean on the test that the ledger makes.
ghost use Rattle.std.specs.Prelude.{◌≡◌};
ghost use Rattle.ranges.specs.Ranges.{reference_within, offset_within, time_within, time_fits, estimates_fit, in_range};

use call_types::ReplyObservation;
use estimate::ErrorEstimate;

fn time_within(ns: i64) -> bool
    ensures { result ≡ time_within ns }
{
    (-4000000000000000000 <= ns) & (ns <= 4000000000000000000)
}

fn time_fits(t4: Option<i64>) -> bool
    ensures { result ≡ time_fits t4 }
{
    match t4 {
        None => true,
        Some(ns) => time_within(ns),
    }
}

fn reference_fits(seconds: i64) -> bool
    ensures { result ≡ reference_within seconds }
{
    (-4000000000 <= seconds) & (seconds <= 4000000000)
}

fn offset_fits(seconds: i32) -> bool
    ensures { result ≡ offset_within seconds }
{
    (-86400 <= seconds) & (seconds <= 86400)
}

fn scales_fit(quality: Option<(ErrorEstimate, ErrorEstimate)>) -> bool
    ensures { result ≡ estimates_fit quality }
{
    match quality {
        None => true,
        Some((sender, reflector)) => (sender.scale <= 63) & (reflector.scale <= 63),
    }
}

// Whether T4, reference, offset and both scales are in range; absent fields are not tested.
pub fn in_range(o: ReplyObservation) -> bool
    ensures { result ≡ in_range o }
{
    let t4 = o.t4;
    let quality = o.quality;
    time_fits(t4) & reference_fits(o.reference) & offset_fits(o.offset) & scales_fit(quality)
}
