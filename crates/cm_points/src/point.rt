//! Distribution points and groups of them.
use cm_base::{Label, List, ServerName};
use cm_net::{Address, SiteName};

/// A source of a pull point. One of a lesser priority stands before one of a greater.
#[derive(Clone, Copy, PartialEq, Eq)]
pub struct PullSource {
    pub point: ServerName,
    pub priority: u8,
}

/// A distribution point. One with sources is a pull point.
#[derive(Drop)]
pub struct Point {
    pub name: ServerName,
    pub address: Address,
    /// The site that it is in, where it is in one.
    pub site: Option<SiteName>,
    pub sources: List<PullSource>,
}

/// A group of distribution points.
#[derive(Drop)]
pub struct PointGroup {
    pub name: Label,
    pub members: List<ServerName>,
}
