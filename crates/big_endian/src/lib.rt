// Unsigned numbers in bytes, the most significant first: read from a slice, and written over one. Each reader and writer is two calls of the
// next smaller one, so those of the four sizes share no code: a trait with four impls would have the same bodies.
ghost use Rattle.std.specs.Prelude.{◌≡◌, ◌+◌, ◌≤◌, length};
ghost use Rattle.big_endian.specs.Numbers.{number_at, put};

pub fn u8_at(bytes: &[u8], at: usize) -> u8
    requires { at + 1 ≤ length bytes.now }
    ensures { result ≡ number_at 0 bytes.now at }
{
    bytes[at]
}

pub fn u16_at(bytes: &[u8], at: usize) -> u16
    requires { at + 2 ≤ length bytes.now }
    ensures { result ≡ number_at 1 bytes.now at }
{
    let high = u8_at(bytes, at);
    let low = u8_at(bytes, at + 1);
    (high as u16) * 256 + (low as u16)
}

pub fn u32_at(bytes: &[u8], at: usize) -> u32
    requires { at + 4 ≤ length bytes.now }
    ensures { result ≡ number_at 2 bytes.now at }
{
    let high = u16_at(bytes, at);
    let low = u16_at(bytes, at + 2);
    (high as u32) * 65536 + (low as u32)
}

pub fn u64_at(bytes: &[u8], at: usize) -> u64
    requires { at + 8 ≤ length bytes.now }
    ensures { result ≡ number_at 3 bytes.now at }
{
    let high = u32_at(bytes, at);
    let low = u32_at(bytes, at + 4);
    (high as u64) * 4294967296 + (low as u64)
}

pub fn put_u8(bytes: &mut [u8], at: usize, v: u8)
    requires { at + 1 ≤ length bytes.old }
    ensures { bytes.new ≡ put 0 bytes.old at v }
{
    bytes[at] = v;
}

pub fn put_u16(bytes: &mut [u8], at: usize, v: u16)
    requires { at + 2 ≤ length bytes.old }
    ensures { bytes.new ≡ put 1 bytes.old at v }
{
    put_u8(bytes, at, (v / 256) as u8);
    put_u8(bytes, at + 1, (v % 256) as u8);
}

pub fn put_u32(bytes: &mut [u8], at: usize, v: u32)
    requires { at + 4 ≤ length bytes.old }
    ensures { bytes.new ≡ put 2 bytes.old at v }
{
    put_u16(bytes, at, (v / 65536) as u16);
    put_u16(bytes, at + 2, (v % 65536) as u16);
}

pub fn put_u64(bytes: &mut [u8], at: usize, v: u64)
    requires { at + 8 ≤ length bytes.old }
    ensures { bytes.new ≡ put 3 bytes.old at v }
{
    put_u32(bytes, at, (v / 4294967296) as u32);
    put_u32(bytes, at + 4, (v % 4294967296) as u32);
}
