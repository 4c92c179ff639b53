// `parse_pattern` of src/ber.rs: a pattern in hexadecimal digits, with or without one leading `0x`, to its bytes in a lent room. Its
// `hex::decode` takes digits of either case.
ghost use Rattle.std.specs.Prelude.{◌≡◌, true, ◌++◌, ◌+◌, ◌*◌, ◌/◌, ◌%◌, ◌≤◌, ◌<◌, length, drop};
ghost use Rattle.bit_pattern.specs.Pattern.{digit_of, after_prefix, all_digits, bytes_of, outcome, decoded, parsed};

use limits::Refusal;

// The value of a digit; 16 for any other byte.
fn digit_of(byte: u8) -> u8
    ensures { result ≡ digit_of byte }
{
    if byte < 48 {
        return 16;
    }
    if byte < 58 {
        return byte - 48;
    }
    if byte < 65 {
        return 16;
    }
    if byte < 71 {
        return byte - 55;
    }
    if byte < 97 {
        return 16;
    }
    if byte < 103 {
        return byte - 87;
    }
    16
}

// How many bytes the prefix `0x` takes.
fn prefix_length(text: &[u8]) -> usize
    ensures { (result ≤ length text.now) × (drop result text.now ≡ after_prefix text.now) }
{
    if text.len() < 2 {
        return 0;
    }
    if text[0] == 48 {
        if text[1] == 120 {
            return 2;
        }
    }
    0
}

fn all_digits(text: &[u8]) -> bool
    ensures { result ≡ all_digits text.now }
{
    for byte in text {
        if digit_of(*byte) == 16 {
            return false;
        }
    }
    true
}

// Two digits to a byte, the first the higher.
fn byte_of(first: u8, second: u8) -> u8
    requires { (digit_of first < 16) × (digit_of second < 16) }
    ensures { result ≡ digit_of first * 16 + digit_of second }
{
    digit_of(first) * 16 + digit_of(second)
}

// The bytes of the digits, at the start of the room.
fn put_bytes(digits: &[u8], room: &mut [u8])
    requires { (all_digits digits.now ≡ true) × (length digits.now % 2 ≡ 0) × (length digits.now / 2 ≤ length room.old) }
    ensures { room.new ≡ bytes_of digits.now ++ drop (length digits.now / 2) room.old }
{
    for at in 0..digits.len() / 2 {
        room[at] = byte_of(digits[2 * at], digits[2 * at + 1]);
    }
}

// The digits of a text to bytes, once the prefix is off.
fn decode(digits: &[u8], room: &mut [u8]) -> Result<usize, Refusal>
    ensures { outcome result room.new ≡ decoded digits.now room.old }
{
    if digits.len() == 0 {
        return Err(Refusal::BadPattern);
    }
    if digits.len() % 2 == 1 {
        return Err(Refusal::BadPattern);
    }
    if all_digits(digits) {
        let count = digits.len() / 2;
        if room.len() < count {
            return Err(Refusal::ShortRoom);
        }
        put_bytes(digits, room);
        return Ok(count);
    }
    Err(Refusal::BadPattern)
}

// Refused for a text that is empty behind the prefix, has an odd number of digits or a character that is not hexadecimal; then for a room
// shorter than its bytes. Else the bytes stand at the start of the room, and the answer says how many they are.
pub fn parse_pattern(text: &[u8], room: &mut [u8]) -> Result<usize, Refusal>
    ensures { outcome result room.new ≡ parsed text.now room.old }
{
    let start = prefix_length(text);
    decode(&text[start..], room)
}
