//! The ranked answer.
ghost use Rattle.std.specs.Prelude.{◌≡◌, IfOk, length};
ghost use Rattle.std.specs.List.Sorted.{IsPermutation, IsSorted};
ghost use Rattle.cm_locate.specs.Answers.{IsAnswer, row_cmp};
ghost use Rattle.cm_locate.specs.Asks.{IsPrefix};

use crate::Ask;
use crate::client::Client;
use cm_base::Memory;
use cm_groups::Groups;
use cm_peer::{Peer, PeerState, SourceRow};
use cm_points::{Installed, Point};
use std::alloc::Global;

/// The rows by rank, and of one rank by name.
fn in_order(rows: Vec<SourceRow>) -> Vec<SourceRow>
    ensures each { IsPermutation rows.items result.items }
    ensures sorted { IsSorted row_cmp result.items }
{
    let mut rows = rows;
    rows.sort_unstable_by_key(|row| (row.rank, row.name));
    rows
}

/// The points and peers that may serve the client the version that it asks for, each once with its rank, by rank and then by
/// name. `states` has how each peer stands, in the order of the peers. Points and peers never share a rank.
///
/// A point may serve where it has the version installed and is in a current or reached group. A peer may where it has the
/// version cached, is not the asking computer itself, and some current group holds it, allows peers and, where it allows those
/// in one subnet alone, the peer is in the client's.
///
/// The rank is the first of these that fits: 1 a point of a current group that is the asking computer; 2 a peer in the client's
/// subnet; 3 a point of a current group there; 4 a peer of the client's site; 5 a point of a current group of that site; 6 any
/// other peer; 7 any other point of a current group; 8 a point of a neighbour that is reached; 9 a point of the default group,
/// where it is reached. Where a current group prefers points, 2 and 3 change places.
pub fn locate(
    alloc: Global,
    groups: &Groups,
    points: &[Point],
    peers: &[Peer],
    states: &[PeerState],
    installed: &Installed,
    ask: &Ask,
) -> Result<Vec<SourceRow>, Memory>
    requires states { length states.now ≡ length peers.now }
    requires prefix { IsPrefix ask.now.address ask.now.prefix }
    ensures { IfOk result (λ rows. IsAnswer groups.now points.now peers.now states.now installed.now ask.now rows.items) }
{
    let client = Client::new(alloc, groups, ask)?;
    let mut rows = client.point_rows(alloc, installed, points)?;
    client.add_peers(&mut rows, peers, states)?;
    Ok(in_order(rows))
}
