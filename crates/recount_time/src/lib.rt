// Whether a raw 64-bit timestamp says a time near a reference second (document 02, Q-9), by trying eras one by one: the era in which its
// count began, the one before and the one after. In any other no time is in range.
ghost use Rattle.std.specs.Prelude.{◌≡◌, ◌<◌, ◌≤◌, nat_abs, ◌+ℤ◌};
ghost use Rattle.estimate.specs.declared.ClockFormat.TheVariants.{NTP, PTP};
ghost use Rattle.timestamps.specs.Conversion.{billion};
ghost use Rattle.recount_time.specs.Eras.{fits, in_some_era, says_time};

use estimate::ClockFormat;

// Whether this second lies from r - 2^31 up to but not including r + 2^31, with r = reference + offset, and its time is in range. The
// reference may be any: it is compared, and nothing is added to it.
fn fits(second: i64, ns: u32, reference: i64, offset: i32) -> bool
    requires { (nat_abs second ≤ 8589934592) × (ns < billion) }
    ensures { result ≡ fits (reference +ℤ offset) second ns }
{
    let middle = second - (offset as i64);
    let time = second * 1000000000 + (ns as i64);
    (reference <= middle + 2147483648)
        & (middle - 2147483648 < reference)
        & (-4000000000000000000 <= time)
        & (time <= 4000000000000000000)
}

fn in_some_era(second: i64, ns: u32, reference: i64, offset: i32) -> bool
    requires { (nat_abs second ≤ 4294967296) × (ns < billion) }
    ensures { result ≡ in_some_era (reference +ℤ offset) second ns }
{
    let before = fits(second - 4294967296, ns, reference, offset);
    let same = fits(second, ns, reference, offset);
    let after = fits(second + 4294967296, ns, reference, offset);
    before | same | after
}

// NTP: seconds since 1900, and a fraction of 2^32 parts.
fn says_ntp(timestamp: u64, reference: i64, offset: i32) -> bool
    ensures { result ≡ says_time NTP timestamp (reference +ℤ offset) }
{
    let second = ((timestamp / 4294967296) as i64) - 2208988800;
    let ns = (timestamp % 4294967296) * 1000000000 / 4294967296;
    in_some_era(second, ns as u32, reference, offset)
}

// PTP, truncated: seconds since 1970, and ns.
fn says_ptp(timestamp: u64, reference: i64, offset: i32) -> bool
    ensures { result ≡ says_time PTP timestamp (reference +ℤ offset) }
{
    let second = (timestamp / 4294967296) as i64;
    let ns = timestamp % 4294967296;
    if ns < 1000000000 {
        return in_some_era(second, ns as u32, reference, offset);
    }
    false
}

// Whether it says one.
pub fn says_time(format: ClockFormat, timestamp: u64, reference: i64, offset: i32) -> bool
    ensures { result ≡ says_time format timestamp (reference +ℤ offset) }
{
    match format {
        ClockFormat::NTP => says_ntp(timestamp, reference, offset),
        ClockFormat::PTP => says_ptp(timestamp, reference, offset),
    }
}
