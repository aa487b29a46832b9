//! The names that a text has.
ghost use Rattle.std.specs.Prelude.{◌≡◌, IfOk, map};
ghost use Rattle.cm_topo.specs.SecondPass.{known_of};

use crate::topology_text::TopologyText;
use cm_base::{Label, Memory, ServerName};
use cm_groups::{Names, names_of_boundaries, names_of_groups};
use cm_peer::Peer;
use cm_points::{Point, PointGroup};
use std::alloc::{AllocError, Global};

/// The names of each part, in order. Those of the groups begin with the default group.
#[derive(Drop)]
pub(crate) struct Known {
    pub boundaries: Names<Label>,
    pub groups: Names<Label>,
    pub points: Names<ServerName>,
    pub point_groups: Names<Label>,
    pub peers: Names<ServerName>,
}

/// The names of these points.
fn names_of_points(alloc: Global, points: &[Point]) -> Result<Vec<ServerName>, AllocError>
    ensures { IfOk result (λ names. names.items ≡ map (λ point. point.name) points.now) }
{
    points.iter().map(|point| point.name).collect(alloc)
}

/// The names of these point groups.
fn names_of_point_groups(alloc: Global, groups: &[PointGroup]) -> Result<Vec<Label>, AllocError>
    ensures { IfOk result (λ names. names.items ≡ map (λ group. group.name) groups.now) }
{
    groups.iter().map(|group| group.name).collect(alloc)
}

/// The names of these peers.
fn names_of_peers(alloc: Global, peers: &[Peer]) -> Result<Vec<ServerName>, AllocError>
    ensures { IfOk result (λ names. names.items ≡ map (λ peer. peer.name) peers.now) }
{
    peers.iter().map(|peer| peer.name).collect(alloc)
}

impl Known {
    /// The names of a text.
    pub(crate) fn of(alloc: Global, text: &TopologyText) -> Result<Known, Memory>
        ensures { IfOk result (λ known. known ≡ known_of text.now) }
    {
        let sites = &text.sites;
        let servers = &text.servers;
        let boundaries = names_of_boundaries(alloc, sites.boundaries.items())?;
        let groups = names_of_groups(alloc, sites.code, sites.groups.items())?;
        let points = names_of_points(alloc, servers.points.items())?;
        let point_groups = names_of_point_groups(alloc, servers.point_groups.items())?;
        let peers = names_of_peers(alloc, servers.peers.items())?;
        Ok(Known {
            boundaries,
            groups,
            points: Names::of(alloc, points)?,
            point_groups: Names::of(alloc, point_groups)?,
            peers: Names::of(alloc, peers)?,
        })
    }
}
