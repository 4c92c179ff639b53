// Bits and runs of ones among them: what `xor_popcount_and_max_burst` of src/ber.rs carries from byte to byte, and its table.
ghost use Rattle.std.specs.Prelude.{◌≡◌, ◌+◌, ◌<◌, ◌^◌, max};
ghost use Rattle.bit_runs.specs.Bits.{bits_of, ending_run, longest};
ghost use Rattle.bit_runs.specs.Tally.{after, Room};

mod runs;

// What is carried from bit to bit: how many were wrong, the run of wrong bits that reaches up to here, and the longest run.
#[derive(Clone, Copy)]
pub struct Tally {
    pub errors: u32,
    pub run: u32,
    pub longest: u32,
}

fn run_after_byte(run: u32, byte: u8) -> u32
    requires { run + 8 < 2 ^ 32 }
    ensures { result ≡ ending_run run (bits_of 8 byte) }
{
    if byte == 255 {
        return run + 8;
    }
    u8::trailing_zeros(!byte)
}

// The longest run known, or one inside the byte that is longer.
fn with_run_in_byte(byte: u8, known: u32) -> u32
    ensures { result ≡ max known (longest (bits_of 8 byte)) }
{
    if known < 8 {
        return known.max(runs::longest_in_byte(byte));
    }
    known
}

pub fn after_byte(t: Tally, byte: u8) -> Tally
    requires { Room 8 t }
    ensures { result ≡ after (bits_of 8 byte) t }
{
    if byte == 0 {
        return Tally {
            errors: t.errors,
            run: 0,
            longest: t.longest,
        };
    }
    let reached = t.longest.max(t.run + u8::leading_zeros(!byte));
    Tally {
        errors: t.errors + u8::count_ones(byte),
        run: run_after_byte(t.run, byte),
        longest: with_run_in_byte(byte, reached),
    }
}
