// A clock quality in the words that a host lends: out of its words, and back. The first fourteen are those of crate host_quality; the last two are
// not used. A crate of its own, so that the library of each call has one caller of `load`, which is then compiled into it.
ghost use Rattle.std.specs.Prelude.{◌≡◌};
ghost use Rattle.std.proofs.lemmas.List.Edits.{sets};
ghost use Rattle.host_quality.specs.Words.{quality_at, quality_words};

use clock_quality::ClockQuality;

// How many words there are.
pub const QUALITY_WORDS: usize = 16;

// The quality that the words say.
pub fn load(words: &[u64; QUALITY_WORDS]) -> ClockQuality
    ensures { result ≡ quality_at 0 words.now }
{
    ClockQuality {
        samples: words[0],
        both: words[1],
        unsynchronized: words[2],
        invalid: words[3],
        unknown: words[4],
        invalid_sender: words[5],
        invalid_reflector: words[6],
        invalid_both: words[7],
        sender: host_quality::last_of(words[10], words[11]),
        reflector: host_quality::last_of(words[12], words[13]),
        largest: host_quality::largest_of(words[8], words[9]),
    }
}

// The last two words stay.
pub fn store(words: &mut [u64; QUALITY_WORDS], quality: ClockQuality)
    ensures { words.new ≡ sets words.old 0 (quality_words quality) }
{
    let sender = host_quality::last_words(quality.sender);
    let reflector = host_quality::last_words(quality.reflector);
    words[0] = quality.samples;
    words[1] = quality.both;
    words[2] = quality.unsynchronized;
    words[3] = quality.invalid;
    words[4] = quality.unknown;
    words[5] = quality.invalid_sender;
    words[6] = quality.invalid_reflector;
    words[7] = quality.invalid_both;
    words[8] = host_quality::largest_word(quality.largest);
    words[9] = host_quality::largest_bits(quality.largest);
    words[10] = sender.word;
    words[11] = sender.bits;
    words[12] = reflector.word;
    words[13] = reflector.bits;
}
