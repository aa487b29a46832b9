//! The rows of points and peers.
ghost use Rattle.std.specs.Prelude.{◌≡◌, ◌++◌, IfOk, OnOk, length};
ghost use Rattle.std.specs.Option.{option_to_list};
ghost use Rattle.cm_points.specs.Installs.{is_installed};
ghost use Rattle.cm_locate.specs.Answers.{peer_row, peer_rows, point_row, point_rows};
ghost use Rattle.cm_locate.specs.Clients.{IsClient};

use crate::client::Client;
use cm_base::Memory;
use cm_peer::{Kind, Peer, PeerState, SourceRow};
use cm_points::{Installed, Point};
use std::alloc::Global;

/// Adds a row, where there is one.
fn add(rows: &mut Vec<SourceRow>, row: Option<SourceRow>) -> Result<(), Memory>
    ensures { OnOk result (rows.new.items ≡ rows.old.items ++ option_to_list row) }
{
    if let Some(row) = row {
        rows.push(row)?;
    }
    Ok(())
}

impl Client<'_> {
    /// Whether the point has the version that is asked for.
    fn is_installed(&self, installed: &Installed, point: &Point) -> bool
        ensures { result ≡ is_installed installed.now point.now.name self.now.ask.now.package self.now.ask.now.version }
    {
        installed.has(&point.name, self.ask.package, self.ask.version)
    }

    /// The row of a point, where it is eligible.
    fn point_row(&self, installed: &Installed, point: &Point) -> Option<SourceRow>
        requires { IsClient self.now.groups.now self.now.ask.now self.now }
        ensures { result ≡ point_row self.now.groups.now installed.now self.now.ask.now point.now }
    {
        if !self.is_installed(installed, point) {
            return None;
        }
        match self.point_rank(point) {
            Some(rank) => Some(SourceRow {
                rank,
                kind: Kind::Point,
                name: point.name,
            }),
            None => None,
        }
    }

    /// The row of a peer, where it is eligible.
    fn peer_row(&self, peer: &Peer, state: &PeerState) -> Option<SourceRow>
        requires { IsClient self.now.groups.now self.now.ask.now self.now }
        ensures { result ≡ peer_row self.now.groups.now self.now.ask.now (peer.now, state.now) }
    {
        if !self.is_eligible_peer(peer, state) {
            return None;
        }
        Some(SourceRow {
            rank: self.peer_rank(peer),
            kind: Kind::Peer,
            name: peer.name,
        })
    }

    /// The rows of the eligible points.
    pub(crate) fn point_rows(
        &self,
        alloc: Global,
        installed: &Installed,
        points: &[Point],
    ) -> Result<Vec<SourceRow>, Memory>
        requires { IsClient self.now.groups.now self.now.ask.now self.now }
        ensures { IfOk result (λ rows. rows.items ≡ point_rows self.now.groups.now installed.now self.now.ask.now points.now) }
    {
        let mut rows = Vec::new(alloc);
        for point in points {
            add(&mut rows, self.point_row(installed, point))?;
        }
        Ok(rows)
    }

    /// Adds the rows of the eligible peers.
    pub(crate) fn add_peers(
        &self,
        rows: &mut Vec<SourceRow>,
        peers: &[Peer],
        states: &[PeerState],
    ) -> Result<(), Memory>
        requires client { IsClient self.now.groups.now self.now.ask.now self.now }
        requires states { length states.now ≡ length peers.now }
        ensures { OnOk result (rows.new.items ≡ rows.old.items ++ peer_rows self.now.groups.now self.now.ask.now peers.now states.now) }
    {
        for (number, peer) in peers.iter().enumerate() {
            add(rows, self.peer_row(peer, &states[number]))?;
        }
        Ok(())
    }
}
