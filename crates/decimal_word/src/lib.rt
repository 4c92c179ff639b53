// A number that a word of a command line says: digits and nothing else, at least one, and not above what its type holds.
ghost use Rattle.std.specs.Prelude.{◌≡◌, true};
ghost use Rattle.decimal_word.specs.Words.{all_digits, within, word_of, small_of};

fn all_digits(word: &[u8]) -> bool
    ensures { result ≡ all_digits word.now }
{
    for byte in word {
        if *byte < b'0' {
            return false;
        }
        if *byte > b'9' {
            return false;
        }
    }
    true
}

// The number that the digits say, where it is not above `most`. It stops at the first digit that would pass it.
fn value_within(word: &[u8], most: u64) -> Option<u64>
    requires { all_digits word.now ≡ true }
    ensures { result ≡ within word.now most }
{
    let mut value: u64 = 0;
    for byte in word {
        let digit = (*byte - b'0') as u64;
        if value > most / 10 {
            return None;
        }
        let tens = value * 10;
        if most - tens < digit {
            return None;
        }
        value = tens + digit;
    }
    Some(value)
}

// The number of a word, where it is not above `most`.
pub fn u64_of(word: &[u8], most: u64) -> Option<u64>
    ensures { result ≡ word_of word.now most }
{
    if word.len() == 0 {
        return None;
    }
    if all_digits(word) {
        return value_within(word, most);
    }
    None
}

// The same up to 65,535.
pub fn u16_of(word: &[u8]) -> Option<u16>
    ensures { result ≡ small_of word.now }
{
    let n = u64_of(word, 65535)?;
    Some(n as u16)
}
