//! Which peers may serve a client.
ghost use Rattle.std.specs.Prelude.{◌≡◌};
ghost use Rattle.std.specs.List.{list_any};
ghost use Rattle.cm_groups.specs.Reach.{some_current};
ghost use Rattle.cm_locate.specs.Eligible.{current_of, has_cached, is_eligible_peer, is_of_version, lets};
ghost use Rattle.cm_locate.specs.Clients.{AreMarksOf, IsClient, allowed};

use crate::Ask;
use crate::client::Client;
use crate::near::{is_asking, is_near};
use cm_groups::Marks;
use cm_peer::{Cached, Peer, PeerState};

/// Whether the cached row is of the version that is asked for.
fn is_of_version(ask: &Ask, row: &Cached) -> bool
    ensures { result ≡ is_of_version ask.now row.now }
{
    row.package == ask.package && row.version == ask.version
}

/// Whether the peer has the version cached that is asked for.
fn has_cached(ask: &Ask, state: &PeerState) -> bool
    ensures { result ≡ has_cached ask.now state.now }
{
    state
        .cached
        .items()
        .iter()
        .any(|row| is_of_version(ask, row))
}

impl Client<'_> {
    /// The marks of the current groups that let a peer serve which is in the client's subnet, or is not.
    fn marks(&self, is_near: bool) -> &Marks
        requires { IsClient self.now.groups.now self.now.ask.now self.now }
        ensures { AreMarksOf (allowed self.now.groups.now is_near (current_of self.now.groups.now self.now.ask.now)) result.now }
    {
        if is_near { &self.near } else { &self.far }
    }

    /// Whether one of the client's current groups lets the peer serve it.
    fn is_let(&self, peer: &Peer) -> bool
        requires { IsClient self.now.groups.now self.now.ask.now self.now }
        ensures { result ≡ some_current (lets self.now.ask.now peer.now) self.now.groups.now (current_of self.now.groups.now self.now.ask.now) }
    {
        let marks = self.marks(is_near(self.ask, peer.address));
        self.groups
            .some_holds(peer.address, peer.site.as_ref(), marks)
    }

    /// Whether the peer may serve the client. What it has cached is looked through last, since that is the most.
    pub(crate) fn is_eligible_peer(&self, peer: &Peer, state: &PeerState) -> bool
        requires { IsClient self.now.groups.now self.now.ask.now self.now }
        ensures { result ≡ is_eligible_peer self.now.groups.now self.now.ask.now peer.now state.now }
    {
        if is_asking(self.ask, &peer.name) || !self.is_let(peer) {
            return false;
        }
        has_cached(self.ask, state)
    }
}
