// The limits that document 02 adds to those of document 01, which are in crate `limits`. A crate of its own: the whole core stands on `limits`,
// and only what a request adds stands on this one. specs/Refusals.antt has the same names for contracts.

// The longest padding, in bytes and in bits.
pub const MOST_PADDING: usize = 65535;

pub const MOST_BITS: u64 = 524280;
