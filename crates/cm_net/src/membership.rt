//! Whether a boundary holds a client.
ghost use Rattle.std.specs.Prelude.{◌≡◌, ◌-◌, ◌≤◌, ◌<◌};
ghost use Rattle.std.specs.Option.{option_copied};
ghost use Rattle.cm_net.specs.Boundaries.{holds_site, is_inside, IsSound, same_first_bits};

use crate::{Address, Boundary, SiteName};

/// Whether the first `bits` bits of two numbers of 32 bits are equal.
pub fn same_first_bits4(net: u32, address: u32, bits: u8) -> bool
    requires { bits ≤ 32 }
    ensures { result ≡ same_first_bits 32 bits net address }
{
    let behind = 32 - u32::from(bits);
    u64::from(net) >> behind == u64::from(address) >> behind
}

/// Whether the first `bits` bits of two numbers of 128 bits are equal.
pub fn same_first_bits6(net: u128, address: u128, bits: u8) -> bool
    requires { bits ≤ 128 }
    ensures { result ≡ same_first_bits 128 bits net address }
{
    if bits == 0 {
        return true;
    }
    let behind = 128 - u32::from(bits);
    net >> behind == address >> behind
}

/// Whether the boundary holds a client with this address, of this site.
pub fn inside(boundary: &Boundary, address: Address, site: Option<&SiteName>) -> bool
    requires { IsSound boundary.now }
    ensures { result ≡ is_inside boundary.now address (option_copied site.entry) }
{
    match (boundary, address) {
        (Boundary::Subnet { net, bits }, Address::V4(address)) => same_first_bits4(
            *net, address, *bits,
        ),
        (Boundary::Prefix6 { net, bits }, Address::V6(address)) => same_first_bits6(
            *net, address, *bits,
        ),
        (Boundary::Range4 { from, to }, Address::V4(address)) => *from <= address && address <= *to,
        (Boundary::Range6 { from, to }, Address::V6(address)) => *from <= address && address <= *to,
        (Boundary::Site { name }, _) => is_of_site(name, site),
        _ => false,
    }
}

/// Whether the site is the one of that name.
fn is_of_site(name: &SiteName, site: Option<&SiteName>) -> bool
    ensures { result ≡ holds_site (Boundary.Site name.now) (option_copied site.entry) }
{
    match site {
        Some(site) => *site == *name,
        None => false,
    }
}
