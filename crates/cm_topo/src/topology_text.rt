//! A topology as its text has it, by names.

use cm_base::{Label, List, ServerName};
use cm_groups::{GroupText, SiteCode};
use cm_net::Boundary;
use cm_peer::Peer;
use cm_points::{Point, PointGroup};

/// What a text says of the site, its boundaries and its groups.
#[derive(Drop)]
pub(crate) struct GroupsText {
    pub code: SiteCode,
    pub boundaries: List<(Label, Boundary)>,
    pub groups: List<GroupText>,
}

/// What a text says of points and peers.
#[derive(Drop)]
pub(crate) struct ServersText {
    pub points: List<Point>,
    pub point_groups: List<PointGroup>,
    pub peers: List<Peer>,
    /// The points of the default group.
    pub default_points: List<ServerName>,
}

/// What a text says, by names.
#[derive(Drop)]
pub(crate) struct TopologyText {
    pub sites: GroupsText,
    pub servers: ServersText,
}
