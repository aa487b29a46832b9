//! An address of a client.

/// An address: of IPv4 by its 32 bits, of IPv6 by its 128 bits, the first bit the highest.
#[derive(Clone, Copy, Debug, PartialEq, Eq)]
pub enum Address {
    V4(u32),
    V6(u128),
}
