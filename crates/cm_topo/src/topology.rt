//! The topology of a site.

use cm_base::List;
use cm_groups::{Groups, SiteCode};
use cm_peer::Peer;
use cm_points::{Point, PointGroup};

/// The topology of a site: who is where, and who gives content to whom.
#[derive(Drop)]
pub struct Topology {
    pub code: SiteCode,
    /// How many boundaries the text has.
    pub boundary_count: usize,
    /// How many groups the text has; the default group is not counted.
    pub group_count: usize,
    /// The boundary groups, with the default group as number 0.
    pub groups: Groups,
    pub points: List<Point>,
    pub point_groups: List<PointGroup>,
    pub peers: List<Peer>,
}
