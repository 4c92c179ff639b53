// The host's calls of crate estimate. An estimate crosses as the 16 bits of the wire; a flag as a number, 0 for no and anything else for yes.
ghost use Rattle.std.specs.Prelude.{◌≡◌};
ghost use Rattle.host_estimate.specs.Calls.{left, new_to, unsynchronized_to, parts_to, Seconds, ReadingLeft};

use estimate::{ErrorEstimate, Reading, format_of};

// Makes an estimate: its 16 bits. A scale above 63 is refused.
#[unsafe(no_mangle)]
pub extern "C" fn ambrulicciu_estimate_new(
    synchronized: u32,
    ptp: u32,
    scale: u8,
    multiplier: u8,
    wire: &mut [u16; 1],
) -> u8
    ensures { left result wire.new ≡ new_to synchronized ptp scale multiplier wire.old }
{
    let made = ErrorEstimate::new(synchronized != 0, ptp != 0, scale, multiplier);
    match made {
        Ok(estimate) => {
            wire[0] = estimate.to_wire();
            0
        }
        Err(why) => u8::from(why),
    }
}

// The estimate of a clock that is not synchronized: the smallest error that is not invalid.
#[unsafe(no_mangle)]
pub extern "C" fn ambrulicciu_estimate_unsynchronized(ptp: u32, wire: &mut [u16; 1]) -> u8
    ensures { left result wire.new ≡ unsynchronized_to ptp wire.old }
{
    let estimate = ErrorEstimate::unsynchronized_with_format(format_of(ptp != 0));
    wire[0] = estimate.to_wire();
    0
}

// The parts that 16 bits say; a flag is 1 or 0. Words of `parts`: 0 synchronized, 1 ptp, 2 scale, 3 multiplier.
#[unsafe(no_mangle)]
pub extern "C" fn ambrulicciu_estimate_parts(wire: u16, parts: &mut [u64; 4]) -> u8
    ensures { left result parts.new ≡ parts_to wire parts.old }
{
    let estimate = ErrorEstimate::from_wire(wire);
    parts[0] = host_numbers::flag(estimate.synchronized);
    parts[1] = host_numbers::flag(estimate.ptp);
    parts[2] = estimate.scale as u64;
    parts[3] = estimate.multiplier as u64;
    0
}

// The error in seconds.
#[unsafe(no_mangle)]
pub extern "C" fn ambrulicciu_estimate_seconds(wire: u16, seconds: &mut [f64; 1]) -> u8
    ensures { Seconds wire seconds.old result seconds.new }
{
    let estimate = ErrorEstimate::from_wire(wire);
    seconds[0] = estimate.error_seconds();
    0
}

// The reading: the error in ms where it is known, else the 16 bits as received. What is not there is 0.
#[unsafe(no_mangle)]
pub extern "C" fn ambrulicciu_estimate_error(
    wire: u16,
    known: &mut [u64; 1],
    milliseconds: &mut [f64; 1],
    received: &mut [u16; 1],
) -> u8
    ensures { ReadingLeft wire known.old milliseconds.old received.old result known.new milliseconds.new received.new }
{
    let estimate = ErrorEstimate::from_wire(wire);
    let error = estimate.reading();
    match error {
        Reading::Known(ms) => {
            known[0] = 1;
            milliseconds[0] = ms;
            received[0] = 0;
        }
        Reading::Invalid(bits) => {
            known[0] = 0;
            milliseconds[0] = 0.0;
            received[0] = bits;
        }
    }
    0
}
