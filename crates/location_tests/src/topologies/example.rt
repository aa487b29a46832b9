//! The example topology, value by value.
ghost use Rattle.std.specs.Prelude.{All, IfOk};
ghost use Rattle.cm_groups.specs.Current.{IsThere};

use cm_base::{List, ServerName};
use cm_groups::{Groups, Options};
use cm_net::{Address, SiteName};
use cm_peer::Peer;
use cm_points::{Point, PointGroup, PullSource};
use cm_topo::{Topology, read_topology};
use std::alloc::Global;
use std::test::Fail;

const FRANCE: &str = r#"
code = "PS1"
[[boundary]]
name = "paris-lan"
at = "subnet:10.1.2.0/24"
[[boundary]]
name = "paris-site"
at = "site:Paris"
[[boundary]]
name = "lyon-range"
at = "range:10.2.0.10-10.2.0.20"
[[boundary]]
name = "lyon-v6"
at = "prefix:2001:db8:1::/48"
[[group]]
name = "Paris"
boundaries = ["paris-lan", "paris-site"]
points = ["dp1", "dp2"]
[[group.relation]]
to = "Lyon"
minutes = 30
[[group]]
name = "Floor3"
boundaries = ["paris-lan"]
points = ["dp3"]
prefer_points = true
[[group]]
name = "Lyon"
boundaries = ["lyon-range", "lyon-v6"]
points = ["dp4"]
[[group.relation]]
to = "Default-Site-Boundary-Group<PS1>"
minutes = 10
[default]
points = ["dp5"]
[[point]]
name = "dp1"
address = "10.1.2.10"
site = "Paris"
[[point]]
name = "dp2"
address = "10.1.9.10"
site = "Paris"
[[point]]
name = "dp3"
address = "10.1.8.10"
[[point]]
name = "dp4"
address = "10.2.0.10"
site = "Lyon"
[[point]]
name = "dp5"
address = "10.9.0.10"
sources = [{ from = "dp4", priority = 1 }, { from = "dp1", priority = 1 }]
[[point_group]]
name = "all-france"
members = ["dp1", "dp4"]
[[peer]]
name = "pc7"
address = "10.1.2.77"
site = "Paris"
connections = 10
[[peer]]
name = "pc8"
address = "10.1.7.8"
site = "Paris"
connections = 10
[[peer]]
name = "pc9"
address = "10.2.0.15"
site = "Lyon"
connections = 4
"#;

/// A client's address and site, and its current groups.
type Client = (&'static str, &'static str, &'static [u16]);

/// A client's address and site, the minutes, and the further groups that it reaches.
type Reached = (&'static str, &'static str, u32, &'static [u16]);

const CLIENTS: [Client; 13] = [
    ("10.1.2.0", "", &[1, 2]),
    ("10.1.2.255", "", &[1, 2]),
    ("10.1.1.255", "", &[]),
    ("10.1.3.0", "", &[]),
    ("10.9.0.1", "Paris", &[1]),
    ("10.9.0.1", "Lyon", &[]),
    ("10.2.0.9", "", &[]),
    ("10.2.0.10", "", &[3]),
    ("10.2.0.20", "", &[3]),
    ("10.2.0.21", "", &[]),
    ("2001:db8:1::", "", &[3]),
    ("2001:db8:1:ffff:ffff:ffff:ffff:ffff", "", &[3]),
    ("2001:db8:2::", "", &[]),
];

const REACHED: [Reached; 8] = [
    ("10.9.0.1", "paris", 29, &[]),
    ("10.9.0.1", "paris", 30, &[3]),
    ("10.9.0.1", "paris", 119, &[3]),
    ("10.9.0.1", "paris", 120, &[0, 3]),
    ("10.2.0.20", "", 9, &[]),
    ("10.2.0.20", "", 10, &[0]),
    ("10.2.0.20", "", 10000, &[0]),
    ("10.9.0.1", "", 0, &[0]),
];

/// The points: name, address, site and sources.
const POINTS: [(&str, &str, &str, &[&str]); 5] = [
    ("dp1", "10.1.2.10", "paris", &[]),
    ("dp2", "10.1.9.10", "paris", &[]),
    ("dp3", "10.1.8.10", "", &[]),
    ("dp4", "10.2.0.10", "lyon", &[]),
    ("dp5", "10.9.0.10", "", &["dp4", "dp1"]),
];

/// The peers: name, address, site and connections.
const PEERS: [(&str, &str, &str, u16); 3] = [
    ("pc7", "10.1.2.77", "paris", 10),
    ("pc8", "10.1.7.8", "paris", 10),
    ("pc9", "10.2.0.15", "lyon", 4),
];

fn topology(alloc: Global) -> Result<Topology, Fail> {
    match read_topology(alloc, FRANCE.as_bytes()) {
        Ok(topology) => Ok(topology),
        Err(_) => Err(Fail::new("no topology")),
    }
}

fn address(text: &str) -> Result<Address, Fail> {
    match Address::read(text.as_bytes()) {
        Ok(address) => Ok(address),
        Err(_) => Err(Fail::new("no address")),
    }
}

/// Whether the site is the one of that name, or none where the name is empty.
fn is_site(site: &Option<SiteName>, text: &str) -> bool {
    match site {
        Some(site) => site.as_bytes() == text.as_bytes(),
        None => text.is_empty(),
    }
}

fn are_names(names: &[ServerName], texts: &[&str]) -> bool {
    names.len() == texts.len()
        && names
            .iter()
            .zip(texts)
            .all(|(name, text)| name.as_bytes() == text.as_bytes())
}

/// Whether the sources are those, each with priority 1.
fn are_sources(sources: &List<PullSource>, texts: &[&str]) -> bool {
    let sources = sources.items();
    sources.len() == texts.len()
        && sources.iter().zip(texts).all(|(source, text)| source.priority == 1
            && source.point.as_bytes() == text.as_bytes())
}

/// The points of a group of the example.
fn points_of(number: u16) -> &'static [&'static str] {
    match number {
        0 => &["dp5"],
        1 => &["dp1", "dp2"],
        2 => &["dp3"],
        3 => &["dp4"],
        _ => &[],
    }
}

/// The options of a group of the example.
fn options_of(number: u16) -> Options {
    Options {
        peers: true,
        same_subnet_only: false,
        prefer_points: number == 2,
    }
}

/// Whether each of the groups is there, with the options and the points of the example.
fn are_as_written(groups: &Groups, numbers: &[u16]) -> bool {
    numbers.iter().all(|number| {
        usize::from(*number) < groups.len()
            && groups.options(*number) == options_of(*number)
            && are_names(groups.points(*number), points_of(*number))
    })
}

/// The current groups of a client.
fn current_of(alloc: Global, groups: &Groups, at: &str, site: &str) -> Result<Vec<u16>, Fail>
    ensures { IfOk result (λ current. All (IsThere groups.now) current.items) }
{
    let site = SiteName::read(site.as_bytes());
    match groups.current(alloc, address(at)?, site.as_ref()) {
        Ok(current) => Ok(current),
        Err(_) => Err(Fail::new("no memory")),
    }
}

fn has_groups(alloc: Global, groups: &Groups, client: &Client) -> Result<bool, Fail> {
    let (at, site, wanted) = *client;
    let current = current_of(alloc, groups, at, site)?;
    Ok(current.as_slice() == wanted && are_as_written(groups, &current))
}

fn reaches(alloc: Global, groups: &Groups, reached: &Reached) -> Result<bool, Fail> {
    let (at, site, minutes, wanted) = *reached;
    let current = current_of(alloc, groups, at, site)?;
    match groups.reach(alloc, &current, minutes, true, true) {
        Ok(further) => Ok(further.as_slice() == wanted && are_as_written(groups, &further)),
        Err(_) => Err(Fail::new("no memory")),
    }
}

fn is_point(point: &Point, written: &(&str, &str, &str, &[&str])) -> Result<bool, Fail> {
    let (name, at, site, sources) = *written;
    let is_there = point.address == address(at)? && is_site(&point.site, site);
    Ok(is_there && point.name.as_bytes() == name.as_bytes() && are_sources(&point.sources, sources))
}

fn is_peer(peer: &Peer, written: &(&str, &str, &str, u16)) -> Result<bool, Fail> {
    let (name, at, site, connections) = *written;
    let is_there = peer.address == address(at)? && is_site(&peer.site, site);
    Ok(is_there && peer.name.as_bytes() == name.as_bytes() && peer.connections == connections)
}

fn are_points(points: &[Point]) -> Result<bool, Fail> {
    for (point, written) in points.iter().zip(POINTS.as_slice()) {
        if !is_point(point, written)? {
            return Ok(false);
        }
    }
    Ok(points.len() == POINTS.len())
}

fn are_peers(peers: &[Peer]) -> Result<bool, Fail> {
    for (peer, written) in peers.iter().zip(PEERS.as_slice()) {
        if !is_peer(peer, written)? {
            return Ok(false);
        }
    }
    Ok(peers.len() == PEERS.len())
}

fn are_point_groups(groups: &[PointGroup]) -> bool {
    match groups {
        [group] => {
            group.name.as_bytes() == b"all-france".as_slice()
                && are_names(group.members.items(), &["dp1", "dp4"])
        }
        _ => false,
    }
}

#[test]
fn clients_have_their_groups(rt: HostRuntime) -> Result<(), Fail> {
    let topology = topology(rt.alloc())?;
    assert!(rt; topology.code.as_bytes() == b"PS1".as_slice());
    assert!(rt; topology.boundary_count == 4 && topology.group_count == 3);
    for client in CLIENTS.iter() {
        assert!(rt; has_groups(rt.alloc(), &topology.groups, client)?);
    }
    for reached in REACHED.iter() {
        assert!(rt; reaches(rt.alloc(), &topology.groups, reached)?);
    }
    Ok(())
}

#[test]
fn points_point_groups_and_peers_are_as_written(rt: HostRuntime) -> Result<(), Fail> {
    let topology = topology(rt.alloc())?;
    assert!(rt; are_points(topology.points.items())?);
    assert!(rt; are_peers(topology.peers.items())?);
    assert!(rt; are_point_groups(topology.point_groups.items()));
    Ok(())
}
