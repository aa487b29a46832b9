//! The ranks of points and peers.
ghost use Rattle.std.specs.Prelude.{◌≡◌, Some};
ghost use Rattle.cm_locate.specs.Answers.{source_of_peer, source_of_point};
ghost use Rattle.cm_locate.specs.Clients.{IsClient};
ghost use Rattle.cm_locate.specs.Ranks.{rank_of, rank_of_current, rank_of_peer};

use crate::client::Client;
use crate::in_groups::is_in;
use crate::near::{is_asking, is_near, is_of_site};
use cm_peer::Peer;
use cm_points::Point;

/// The point is the computer that asks.
const ASKING: u8 = 1;

/// In the client's subnet: peers, or points where a current group prefers them.
const NEAR: u8 = 2;

/// In the client's subnet: the others.
const NEAR_BEHIND: u8 = 3;

const PEER_OF_SITE: u8 = 4;

const POINT_OF_SITE: u8 = 5;

const PEER: u8 = 6;

const POINT: u8 = 7;

/// A point of a neighbour that is reached.
const NEIGHBOUR: u8 = 8;

/// A point of the default group, where that is reached.
const DEFAULT: u8 = 9;

/// The rank of a point of a current group.
fn rank_of_current(is_asking: bool, is_near: bool, is_of_site: bool, prefers_points: bool) -> u8
    ensures { result ≡ rank_of_current is_asking is_near is_of_site prefers_points }
{
    if is_asking {
        ASKING
    } else if is_near && prefers_points {
        NEAR
    } else if is_near {
        NEAR_BEHIND
    } else if is_of_site {
        POINT_OF_SITE
    } else {
        POINT
    }
}

/// The rank of a peer.
fn rank_of_peer(is_near: bool, is_of_site: bool, prefers_points: bool) -> u8
    ensures { result ≡ rank_of_peer is_near is_of_site prefers_points }
{
    if is_near && prefers_points {
        NEAR_BEHIND
    } else if is_near {
        NEAR
    } else if is_of_site {
        PEER_OF_SITE
    } else {
        PEER
    }
}

impl Client<'_> {
    /// The rank of a point. None: it is in no current or reached group.
    pub(crate) fn point_rank(&self, point: &Point) -> Option<u8>
        requires { IsClient self.now.groups.now self.now.ask.now self.now }
        ensures { result ≡ rank_of self.now.groups.now self.now.ask.now (source_of_point point.now) }
    {
        if is_in(self.groups, &self.current, &point.name) {
            return Some(rank_of_current(
                is_asking(self.ask, &point.name),
                is_near(self.ask, point.address),
                is_of_site(self.ask, &point.site),
                self.prefers_points,
            ));
        }
        if is_in(self.groups, &self.neighbours, &point.name) {
            return Some(NEIGHBOUR);
        }
        if is_in(self.groups, &self.default_group, &point.name) {
            return Some(DEFAULT);
        }
        None
    }

    /// The rank of a peer that may serve the client.
    pub(crate) fn peer_rank(&self, peer: &Peer) -> u8
        requires { IsClient self.now.groups.now self.now.ask.now self.now }
        ensures { rank_of self.now.groups.now self.now.ask.now (source_of_peer peer.now) ≡ Some result }
    {
        rank_of_peer(
            is_near(self.ask, peer.address),
            is_of_site(self.ask, &peer.site),
            self.prefers_points,
        )
    }
}
