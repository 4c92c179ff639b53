// The tally behind 64 bits at once: `after_byte` of `bit_runs` for a whole word. It stands apart from `bit_errors`, which walks over the bytes:
// here are words alone.
ghost use Rattle.std.specs.Prelude.{◌≡◌, ◌/◌, ◌≤◌, ◌<◌, ◌^◌, max};
ghost use Rattle.std.specs.Int.Bits.{bit_and};
ghost use Rattle.bit_runs.specs.Bits.{bits_of, longest};
ghost use Rattle.bit_runs.specs.Tally.{after, Room};

use bit_runs::Tally;

const ALL_ONES: u64 = 18446744073709551615;

// The ones of a word that have a one `by` places above them.
fn shared(word: u64, by: u32) -> u64
    requires { by < 64 }
    ensures { result ≡ bit_and word (word / 2 ^ by) }
{
    word & (word >> by)
}

// What is left of the word's runs that are longer than `known`: nothing, where there is none. Each step leaves the ones that
// begin twice as many ones in a row.
fn longer_runs(word: u64, known: u32) -> u64
    ensures { result ≡ 0 → longest (bits_of 64 word) ≤ known }
{
    if known < 1 {
        return word;
    }
    let two = shared(word, 1);
    if known < 3 {
        return shared(two, known - 1);
    }
    let four = shared(two, 2);
    if known < 7 {
        return shared(four, known - 3);
    }
    let eight = shared(four, 4);
    if known < 15 {
        return shared(eight, known - 7);
    }
    let sixteen = shared(eight, 8);
    if known < 31 {
        return shared(sixteen, known - 15);
    }
    shared(sixteen, 16)
}

// The longest run in a word, byte by byte.
fn longest_in_word(word: u64) -> u32
    ensures { result ≡ longest (bits_of 64 word) }
{
    let mut t = Tally {
        errors: 0,
        run: 0,
        longest: 0,
    };
    let mut below: u32 = 64;
    // No range of the library steps down by eight with less to write, and the bytes of a word are not kept in a row.
    while below > 0 {
        below -= 8;
        let byte = (word >> below) % 256;
        t = bit_runs::after_byte(t, byte as u8);
    }
    t.longest
}

// The longest run known, or one inside the word that is longer.
fn with_runs_inside(word: u64, known: u32) -> u32
    ensures { result ≡ max known (longest (bits_of 64 word)) }
{
    if longer_runs(word, known) == 0 {
        return known;
    }
    known.max(longest_in_word(word))
}

// Most words are equal to the pattern, and a run that is longer than all before is rare.
pub fn after_word(t: Tally, word: u64) -> Tally
    requires { Room 64 t }
    ensures { result ≡ after (bits_of 64 word) t }
{
    if word == 0 {
        return Tally {
            errors: t.errors,
            run: 0,
            longest: t.longest,
        };
    }
    if word == ALL_ONES {
        let run = t.run + 64;
        return Tally {
            errors: t.errors + 64,
            run,
            longest: t.longest.max(run),
        };
    }
    let reached = t.longest.max(t.run + u64::leading_zeros(!word));
    Tally {
        errors: t.errors + u64::count_ones(word),
        run: u64::trailing_zeros(!word),
        longest: with_runs_inside(word, reached),
    }
}
