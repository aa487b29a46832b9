//! A computer that gives packages to those beside it.
use cm_base::{Hash, List, PackageId, ServerName, Version};
use cm_net::{Address, SiteName};

/// A computer that gives packages to those beside it.
#[derive(Clone, Copy, PartialEq, Eq)]
pub struct Peer {
    pub name: ServerName,
    pub address: Address,
    /// The site that it is in, where it is in one.
    pub site: Option<SiteName>,
    /// How many connections it serves at once.
    pub connections: u16,
}

/// A version that a peer has cached, by the SHA-256 of its manifest.
#[derive(Clone, Copy, PartialEq, Eq)]
pub struct Cached {
    pub package: PackageId,
    pub version: Version,
    pub hash: Hash,
}

/// How a peer stands.
#[derive(Drop)]
pub struct PeerState {
    /// Whether it runs on a battery that is low.
    pub low_battery: bool,
    /// How busy its processor is, in percent.
    pub load: u8,
    /// How many requests wait for its disk.
    pub queue: u16,
    /// How many connections it serves now.
    pub used: u16,
    /// What it has cached, in the order in which it was told.
    pub cached: List<Cached>,
}
