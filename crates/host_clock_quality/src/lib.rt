// The host's calls of crate clock_quality that change a quality, which is lent words (crate host_clock_quality_words).
ghost use Rattle.std.specs.Prelude.{◌≡◌};
ghost use Rattle.host_clock_quality.specs.Calls.{left, estimates_from, fresh_to, record_to};

use estimate::ErrorEstimate;
use host_clock_quality_words::QUALITY_WORDS;

fn estimates_from(
    estimated: u32,
    sender: u16,
    reflector: u16,
) -> Option<(ErrorEstimate, ErrorEstimate)>
    ensures { result ≡ estimates_from estimated sender reflector }
{
    if estimated != 0 {
        let first = ErrorEstimate::from_wire(sender);
        let second = ErrorEstimate::from_wire(reflector);
        return Some((first, second));
    }
    None
}

// No sample yet: counts of 0, and nothing that is there.
#[unsafe(no_mangle)]
pub extern "C" fn ambrulicciu_clock_quality_fresh(quality: &mut [u64; QUALITY_WORDS]) -> u8
    ensures { left result quality.new ≡ fresh_to quality.old }
{
    quality[0] = 0;
    quality[1] = 0;
    quality[2] = 0;
    quality[3] = 0;
    quality[4] = 0;
    quality[5] = 0;
    quality[6] = 0;
    quality[7] = 0;
    quality[8] = 0;
    quality[9] = 0;
    quality[10] = 0;
    quality[11] = 0;
    quality[12] = 0;
    quality[13] = 0;
    0
}

// One sample more: the two estimates as on the wire, or none where `estimated` is 0. Refused where a count is at its bound.
#[unsafe(no_mangle)]
pub extern "C" fn ambrulicciu_clock_quality_record(
    quality: &mut [u64; QUALITY_WORDS],
    estimated: u32,
    sender: u16,
    reflector: u16,
) -> u8
    ensures { left result quality.new ≡ record_to quality.old estimated sender reflector }
{
    let state = host_clock_quality_words::load(quality);
    let estimates = estimates_from(estimated, sender, reflector);
    let answer = state.record(estimates);
    match answer {
        Ok(next) => {
            host_clock_quality_words::store(quality, next);
            0
        }
        Err(why) => u8::from(why),
    }
}
