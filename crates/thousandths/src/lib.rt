// Document 01's thousandths, absent when nothing was requested (document 02, Q-5). The product by 1,000 of a count near 2^64 fits no word: there
// the quotient is found as on paper, three decimal places, each from ten times the rest of the one before. Below, which is every count that a
// link has, it is one division: thirty steps one after the other were half of a snapshot's time.
ghost use Rattle.std.specs.Prelude.{◌≡◌, ◌*◌, ◌/◌, ◌%◌, ◌<◌, ◌≤◌};
ghost use Rattle.thousandths.specs.Thousandths.{thousandths_of};

#[derive(Clone, Copy)]
pub struct Division {
    pub whole: u64,
    pub rest: u64,
}

// Ten times a rest, divided: ten additions, each with the divisor taken off where it is reached. No sum passes the divisor.
fn tenfold(rest: u64, divisor: u64) -> Division
    requires { rest < divisor }
    ensures { (result.whole ≡ 10 * rest / divisor) × (result.rest ≡ 10 * rest % divisor) × (result.whole ≤ 10) × (result.rest < divisor) }
{
    let left = divisor - rest;
    let mut whole: u64 = 0;
    let mut sum: u64 = 0;
    for _turn in 0..10u64 {
        if sum < left {
            sum = sum + rest;
        } else {
            sum = sum - left;
            whole = whole + 1;
        }
    }
    Division { whole, rest: sum }
}

pub fn thousandths_of(unobserved: u64, requested: u64) -> Option<u64>
    requires { unobserved ≤ requested }
    ensures { result ≡ thousandths_of unobserved requested }
{
    if requested == 0 {
        return None;
    }
    if requested < 18446744073709551 {
        return Some(1000 * unobserved / requested);
    }
    let tenths = tenfold(unobserved % requested, requested);
    let hundredths = tenfold(tenths.rest, requested);
    let thousandths = tenfold(hundredths.rest, requested);
    let figure = 1000 * (unobserved / requested)
        + 100 * tenths.whole
        + 10 * hundredths.whole
        + thousandths.whole;
    Some(figure)
}
