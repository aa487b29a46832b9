//! A boundary.

use crate::SiteName;

/// Which clients are at a place: by their address, or by their site. A boundary that is sound has at most 32 bits in
/// `Subnet` and 128 in `Prefix6`, no bit 1 in its net behind these, and `from` at most `to`.
#[derive(Clone, Copy, PartialEq, Eq)]
pub enum Boundary {
    /// The IPv4 addresses whose first `bits` bits are those of `net`.
    Subnet { net: u32, bits: u8 },
    /// The clients of a site.
    Site { name: SiteName },
    /// The IPv6 addresses whose first `bits` bits are those of `net`.
    Prefix6 { net: u128, bits: u8 },
    /// The IPv4 addresses from one to another, both among them.
    Range4 { from: u32, to: u32 },
    /// The IPv6 addresses from one to another, both among them.
    Range6 { from: u128, to: u128 },
}
