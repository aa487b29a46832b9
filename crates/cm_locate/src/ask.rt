//! What a client asks.
use cm_base::{PackageId, ServerName, Version};
use cm_net::{Address, SiteName};

/// What a client asks: where it can get a version of a package.
#[derive(Clone, Copy, PartialEq, Eq)]
pub struct Ask {
    /// The client's own name, where it is a point or a peer itself.
    pub computer: Option<ServerName>,
    pub address: Address,
    /// How many first bits the addresses of the client's subnet share: at most 32 for IPv4, and 128 for IPv6.
    pub prefix: u8,
    /// The site that the client is in, where it knows one.
    pub site: Option<SiteName>,
    pub package: PackageId,
    pub version: Version,
    /// How many minutes ago it asked first.
    pub elapsed: u32,
    /// Whether it may fall back to neighbours.
    pub neighbours: bool,
    /// Whether it may fall back to the default group.
    pub default_group: bool,
}
