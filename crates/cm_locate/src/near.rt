//! What is near a client.
ghost use Rattle.std.specs.Prelude.{◌≡◌};
ghost use Rattle.cm_locate.specs.Asks.{IsPrefix, is_asking, is_near, is_of_site, same_subnet};

use crate::Ask;
use cm_base::ServerName;
use cm_net::{Address, SiteName, same_first_bits4, same_first_bits6};

/// Whether two addresses are of one family, and their first bits are equal.
fn same_subnet(bits: u8, address: Address, other: Address) -> bool
    requires { IsPrefix address bits }
    ensures { result ≡ same_subnet bits address other }
{
    match (address, other) {
        (Address::V4(number), Address::V4(other)) => same_first_bits4(number, other, bits),
        (Address::V6(number), Address::V6(other)) => same_first_bits6(number, other, bits),
        _ => false,
    }
}

/// Whether the address is in the client's subnet.
pub(crate) fn is_near(ask: &Ask, address: Address) -> bool
    requires { IsPrefix ask.now.address ask.now.prefix }
    ensures { result ≡ is_near ask.now address }
{
    same_subnet(ask.prefix, ask.address, address)
}

/// Whether the site is the client's.
pub(crate) fn is_of_site(ask: &Ask, site: &Option<SiteName>) -> bool
    ensures { result ≡ is_of_site ask.now site.now }
{
    match (ask.site, *site) {
        (Some(own), Some(other)) => own == other,
        _ => false,
    }
}

/// Whether the client is the computer of that name.
pub(crate) fn is_asking(ask: &Ask, name: &ServerName) -> bool
    ensures { result ≡ is_asking ask.now name.now }
{
    match ask.computer {
        Some(computer) => computer == *name,
        None => false,
    }
}
