// A number's decimal digits, the most significant first, written over bytes from a place on.
ghost use Rattle.std.specs.Prelude.{◌≡◌, ◌+◌, ◌≤◌, length};
ghost use Rattle.decimal.specs.Decimal.{decimal, most_digits};
ghost use Rattle.decimal.specs.Writing.{Stands, over};

// How many digits n has.
fn digits_of(n: u64) -> usize
    ensures { result ≡ length (decimal n) }
{
    let mut digits: usize = 1;
    let mut rest = n;
    // What is left of the number decides when it ends: there is no row to go over.
    while rest >= 10 {
        rest = rest / 10;
        digits = digits + 1;
    }
    digits
}

// The digits from the last to the first: each is the rest of a division by ten, so the last is found first.
fn put_digits(bytes: &mut [u8], at: usize, n: u64, digits: usize)
    requires { (digits ≡ length (decimal n)) × (at + digits ≤ length bytes.old) }
    ensures { bytes.new ≡ over bytes.old at (decimal n) }
{
    let mut place = at + digits - 1;
    let mut rest = n;
    // The rest and the place go down together, and the rest decides when it ends.
    while rest >= 10 {
        bytes[place] = 48 + (rest % 10) as u8;
        rest = rest / 10;
        place = place - 1;
    }
    bytes[place] = 48 + rest as u8;
}

// Writes n at a place, and answers the place behind it.
pub fn put_decimal(bytes: &mut [u8], at: usize, n: u64) -> usize
    requires { at + most_digits ≤ length bytes.old }
    ensures { Stands most_digits (decimal n) bytes.old at bytes.new result }
{
    let digits = digits_of(n);
    put_digits(bytes, at, n, digits);
    at + digits
}
