// Values that may be absent: whether they are known, and the value, 0 where they are not.
ghost use Rattle.std.specs.Prelude.{◌≡◌};
ghost use Rattle.host_snapshot_words.specs.Words.{reflector_known, reflector_number, packets_known, packets_number, ms_known, ms_bits};
ghost use Rattle.thousandths.specs.Thousandths.{known_of, value_of};
ghost use Rattle.host_snapshot_words.specs.Words.{error_known, shown_error, received_bits};

use estimate::Reading;
use host_numbers::bits_of;

pub fn reflector_known(reflector: Option<u32>) -> u64
    ensures { result ≡ reflector_known reflector }
{
    match reflector {
        None => 0,
        Some(_) => 1,
    }
}

pub fn reflector_number(reflector: Option<u32>) -> u64
    ensures { result ≡ reflector_number reflector }
{
    match reflector {
        None => 0,
        Some(n) => n as u64,
    }
}

pub fn packets_known(packets: Option<u64>) -> u64
    ensures { result ≡ packets_known packets }
{
    match packets {
        None => 0,
        Some(_) => 1,
    }
}

pub fn packets_number(packets: Option<u64>) -> u64
    ensures { result ≡ packets_number packets }
{
    match packets {
        None => 0,
        Some(n) => n,
    }
}

pub fn thousandths_known(thousandths: Option<u64>) -> u64
    ensures { result ≡ known_of thousandths }
{
    match thousandths {
        None => 0,
        Some(_) => 1,
    }
}

pub fn thousandths_value(thousandths: Option<u64>) -> u64
    ensures { result ≡ value_of thousandths }
{
    match thousandths {
        None => 0,
        Some(n) => n,
    }
}

pub fn ms_known(ms: Option<f64>) -> u64
    ensures { result ≡ ms_known ms }
{
    match ms {
        None => 0,
        Some(_) => 1,
    }
}

pub fn ms_bits(ms: Option<f64>) -> u64
    ensures { result ≡ ms_bits ms }
{
    match ms {
        None => 0,
        Some(x) => bits_of(x),
    }
}

pub fn error_known(error: Reading) -> u64
    ensures { result ≡ error_known error }
{
    match error {
        Reading::Invalid(_) => 0,
        Reading::Known(_) => 1,
    }
}

pub fn error_bits(error: Reading) -> u64
    ensures { result ≡ shown_error error }
{
    match error {
        Reading::Invalid(_) => 0,
        Reading::Known(x) => bits_of(x),
    }
}

pub fn error_received(error: Reading) -> u64
    ensures { result ≡ received_bits error }
{
    match error {
        Reading::Invalid(wire) => wire as u64,
        Reading::Known(_) => 0,
    }
}
