// f64 steps whose results are stated over whole numbers: what Rust's `as f64` of an i128, `powi` of 2.0 and `round` are.
// A power of two, an integer of a sign and two words as the nearest f64, and an f64 as the nearest whole number.
ghost use Rattle.std.specs.Prelude.{◌≡◌, ◌+◌, ◌*◌, ◌^◌, ◌<◌, ◌≤◌, min, pos};
ghost use Rattle.std.specs.Float.{binary64};
ghost use Rattle.std.specs.Float.Ieee.{of_int};
ghost use Rattle.floats.specs.Exact.{Exactly};
ghost use Rattle.floats.specs.Whole.{magnitude, signed};
ghost use Rattle.floats.specs.Half.{round_to};

// 2 ^ (field - 1023), by its bit pattern: the exponent's field is as given, and the digits' field 0.
pub fn power_of_two(field: u64) -> f64
    requires { (0 < field) × (field < 2047) }
    ensures { Exactly result (2 ^ field) (2 ^ 1023) }
{
    f64::from_bits(field << 52)
}

// The f64 nearest to digits * 2 ^ exponent. Each half of the digits is a float exactly, and so is its
// product with a power of two, so only the sum rounds.
fn nearest_scaled(digits: u64, exponent: u32) -> f64
    requires { exponent ≤ 64 }
    ensures { result ≡ of_int binary64 (pos (digits * 2 ^ exponent)) }
{
    let field = exponent as u64;
    let upper = power_of_two(field + 32 + 1023);
    let lower = power_of_two(field + 1023);
    ((digits >> 32) as f64) * upper + ((digits % 0x1_0000_0000) as f64) * lower
}

// The f64 nearest to leading * 2 ^ exponent + rest. Of the 64 leading digits the format keeps 53, so of
// the rest it matters only whether it is 0, which the lowest leading digit can say.
fn nearest_leading(leading: u64, exponent: u32, rest: u64) -> f64
    requires { (2 ^ 63 ≤ leading) × (exponent ≤ 64) × (rest < 2 ^ exponent) }
    ensures { result ≡ of_int binary64 (pos (leading * 2 ^ exponent + rest)) }
{
    if rest == 0 {
        return nearest_scaled(leading, exponent);
    }
    nearest_scaled(leading / 2 * 2 + 1, exponent)
}

// The f64 nearest to n. Below 2^53 it is n itself, and the machine's own step finds it; the two halves of the kit's take three times as long.
pub fn nearest(n: u64) -> f64
    ensures { result ≡ of_int binary64 (pos n) }
{
    if n < 9007199254740992 {
        return n as f64;
    }
    std::num::nearest_u64_to_f64(n)
}

// The shift that brings the top bit of v to bit 63.
fn normalizing_shift(v: u64) -> u32
    requires { 0 < v }
    ensures { (result < 64) × (2 ^ 63 ≤ v * 2 ^ result) × (v * 2 ^ result < 2 ^ 64) }
{
    u64::leading_zeros(v)
}

// The f64 nearest to high * 2 ^ 64 + low, ties to even.
pub fn nearest_magnitude(high: u64, low: u64) -> f64
    ensures { result ≡ of_int binary64 (pos (magnitude high low)) }
{
    if high == 0 {
        return nearest(low);
    }
    let shift = normalizing_shift(high);
    if shift == 0 {
        return nearest_leading(high, 64, low);
    }
    let exponent = 64 - shift;
    let unit = 1u64 << exponent;
    nearest_leading((high << shift) + low / unit, exponent, low % unit)
}

// The f64 nearest to the integer of a sign and a magnitude, ties to even. Zero is +0, whatever its sign.
pub fn nearest_signed(negative: bool, high: u64, low: u64) -> f64
    ensures { result ≡ of_int binary64 (signed negative (magnitude high low)) }
{
    let nearest = nearest_magnitude(high, low);
    if negative {
        if high == 0 {
            if low == 0 {
                return nearest;
            }
        }
        return -nearest;
    }
    nearest
}

fn least(a: u64, b: u64) -> u64
    ensures { result ≡ min a b }
{
    if a < b { a } else { b }
}

// x to the nearest whole number, a half away from zero, from 0 to last. Twice x is exact, and half of its
// whole part, rounded up, is x rounded. From 2^63 on an f64 has no fraction.
pub fn round_half_away(x: f64, last: u64) -> u64
    ensures { result ≡ round_to last x }
{
    if x > 0.0 {
        if x < 9223372036854775808.0 {
            let twice = std::num::truncating_f64_to_u64(x + x);
            return least(twice / 2 + twice % 2, last);
        }
        if x < 18446744073709551616.0 {
            let whole = std::num::truncating_f64_to_u64(x);
            return least(whole, last);
        }
        return last;
    }
    0
}
