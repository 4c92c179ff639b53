// The estimates of a matched follow-up, one sample more of the clock quality, in the words of a ledger. Where both errors are known, which is the
// ordinary case, only the words that change are stored, and an estimate's word is made of its 16 bits: with the whole quality taken out of its
// words and put back it was a tenth of an observe's instructions. Any other sample goes that way still.
ghost use Rattle.std.specs.Prelude.{◌≡◌, ◌+◌, ◌*◌};
ghost use Rattle.std.proofs.lemmas.List.Edits.{sets};
ghost use Rattle.estimate.specs.declared.Reading.TheVariants.{Known};
ghost use Rattle.estimate.specs.Error.{reading_of};
ghost use Rattle.estimate.specs.Wire.{estimate_of};
ghost use Rattle.clock_quality.specs.Bounds.{Bounded};
ghost use Rattle.clock_quality.specs.Quality.{larger_of, recorded_of};
ghost use Rattle.follow_ups.specs.Followed.{estimates_of};
ghost use Rattle.host_numbers.specs.Numbers.{flag_word};
ghost use Rattle.host_quality.specs.Words.{quality_at, quality_words};
ghost use Rattle.host_ledger.specs.Places as place;

use clock_quality::larger;
use estimate::{ErrorEstimate, Reading};
use host_ledger::{LEDGER_WORDS, places};
use host_numbers::{bits_of, flag};

// The first word of a last estimate whose error is known.
fn known_word(estimate: ErrorEstimate) -> u64
    ensures { result ≡ 9 + flag_word estimate.synchronized * 2 + flag_word estimate.ptp * 4 + estimate.scale * 256 + estimate.multiplier * 65536 }
{
    9 + flag(estimate.synchronized) * 2
        + flag(estimate.ptp) * 4
        + (estimate.scale as u64) * 256
        + (estimate.multiplier as u64) * 65536
}

// A sample of any kind.
fn count_any(ledger: &mut [u64; LEDGER_WORDS], wires: Option<(u16, u16)>)
    requires { Bounded (quality_at place.quality ledger.old) }
    ensures { ledger.new ≡ sets ledger.old place.quality (quality_words (recorded_of (quality_at place.quality ledger.old) (estimates_of wires))) }
{
    let before = host_ledger_parts::quality_without_last(ledger);
    let after = before.recorded(follow_ups::estimates_of(wires));
    host_ledger_parts::store_quality(ledger, after);
}

// Both errors are known: x and y, in ms.
fn count_known(ledger: &mut [u64; LEDGER_WORDS], sender: u16, reflector: u16, x: f64, y: f64)
    requires { Bounded (quality_at place.quality ledger.old) × (reading_of (estimate_of sender) ≡ Known x) × (reading_of (estimate_of reflector) ≡ Known y) }
    ensures { ledger.new ≡ sets ledger.old place.quality (quality_words (recorded_of (quality_at place.quality ledger.old) (estimates_of (Some (sender, reflector))))) }
{
    let first = ErrorEstimate::from_wire(sender);
    let second = ErrorEstimate::from_wire(reflector);
    let synchronized = flag(first.synchronized & second.synchronized);
    let samples = ledger[places::QUALITY];
    let both = ledger[places::BOTH_SYNCHRONIZED];
    let unsynchronized = ledger[places::UNSYNCHRONIZED];
    let before = host_quality::largest_of(ledger[places::LARGEST_KNOWN], ledger[places::LARGEST]);
    let largest = larger(before, x + y);
    ledger[places::QUALITY] = samples + 1;
    ledger[places::BOTH_SYNCHRONIZED] = both + synchronized;
    ledger[places::UNSYNCHRONIZED] = unsynchronized + (1 - synchronized);
    ledger[places::LARGEST_KNOWN] = 1;
    ledger[places::LARGEST] = host_quality::largest_bits(largest);
    ledger[places::SENDER] = known_word(first);
    ledger[places::SENDER_ERROR] = bits_of(x);
    ledger[places::REFLECTOR] = known_word(second);
    ledger[places::REFLECTOR_ERROR] = bits_of(y);
}

fn count_pair(ledger: &mut [u64; LEDGER_WORDS], sender: u16, reflector: u16)
    requires { Bounded (quality_at place.quality ledger.old) }
    ensures { ledger.new ≡ sets ledger.old place.quality (quality_words (recorded_of (quality_at place.quality ledger.old) (estimates_of (Some (sender, reflector))))) }
{
    let first = ErrorEstimate::from_wire(sender).reading();
    let second = ErrorEstimate::from_wire(reflector).reading();
    let Reading::Known(x) = first else {
        count_any(ledger, Some((sender, reflector)));
        return;
    };
    let Reading::Known(y) = second else {
        count_any(ledger, Some((sender, reflector)));
        return;
    };
    count_known(ledger, sender, reflector, x, y);
}

// One sample more, for a caller that has tested the counts.
pub fn count(ledger: &mut [u64; LEDGER_WORDS], wires: Option<(u16, u16)>)
    requires { Bounded (quality_at place.quality ledger.old) }
    ensures { ledger.new ≡ sets ledger.old place.quality (quality_words (recorded_of (quality_at place.quality ledger.old) (estimates_of wires))) }
{
    match wires {
        None => count_any(ledger, None),
        Some((sender, reflector)) => count_pair(ledger, sender, reflector),
    }
}
