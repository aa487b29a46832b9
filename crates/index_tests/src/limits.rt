//! A topology as large as it may be, against a plain filter and sort of its numbers.
//!
//! Group `g` of 500 has the boundaries 4 g to 4 g + 3. Every 500th boundary is a site, and boundary `b` else a range of
//! 2,048 addresses from 4 b on. So many groups hold each computer.
ghost use Rattle.std.specs.Prelude.{◌<◌, All, IfOk};
ghost use Rattle.cm_net.specs.Boundaries.{IsSound};
ghost use Rattle.cm_locate.specs.Asks.{IsPrefix};

use cm_base::{Hash, Label, List, PackageId, ServerName, Version};
use cm_groups::{Fallback, GroupText, Groups, Options, SiteCode};
use cm_locate::{Ask, locate};
use cm_net::{Address, Boundary, SiteName};
use cm_peer::{Cached, Kind, Peer, PeerState, SourceRow};
use cm_points::{Installed, Point};
use std::alloc::Global;
use std::process::Abort;
use std::test::Fail;

/// The address from which on addresses are counted.
const BASE: u32 = 0x0a00_0000;

/// The package that is asked for, of 6,250 on each point and of 80 at each peer.
const ASKED: u32 = 79;

fn label(alloc: Global, letter: &str, number: u32) -> Result<Label, Fail> {
    let text = format!(in alloc; "{letter}{number}")?;
    Ok(Label::read(text.as_bytes()).ok_or("label")?)
}

fn server(alloc: Global, letter: &str, number: u32) -> Result<ServerName, Fail> {
    let text = format!(in alloc; "{letter}{number}")?;
    Ok(ServerName::read(text.as_bytes()).ok_or("name")?)
}

fn site(alloc: Global, number: u32) -> Result<SiteName, Fail> {
    let text = format!(in alloc; "s{number}")?;
    Ok(SiteName::read(text.as_bytes()).ok_or("site")?)
}

fn package(alloc: Global, number: u32) -> Result<PackageId, Fail> {
    let text = format!(in alloc; "PS1{number:05}")?;
    Ok(PackageId::read(text.as_bytes()).ok_or("package")?)
}

fn version(number: u32) -> Result<Version, Fail> {
    Ok(Version::new(number).ok_or("version")?)
}

// What the numbers of groups, points and peers mean, here and below.

/// The options of a group.
fn options_of(group: u32) -> Options {
    Options {
        peers: group % 4 != 0,
        same_subnet_only: group % 3 != 0,
        prefer_points: group == 450,
    }
}

fn has_point(group: u32, point: u32) -> bool {
    (group % 8 == 0 && group / 8 == point) || (group % 100 == 50 && point == 40)
}

fn has_default_point(point: u32) -> bool {
    point == 63 || point == 40
}

/// The group to which a relation of a group leads.
fn target_of(group: u32, relation: u32) -> u32
    ensures { result < 500 }
{
    let target = (u64::from(group) + 436 + u64::from(relation)) % 500;
    target as u32
}

/// The minutes of a relation.
fn minutes_of(relation: u32) -> u32
    ensures { result < 6400 }
{
    (relation % 64) * 100
}

fn site_of_point(point: u32) -> u32 {
    point % 5
}

fn site_of_peer(peer: u32) -> u32 {
    peer % 7
}

fn address_of_point(point: u32) -> u32 {
    (point % 64) * 160
}

fn address_of_peer(peer: u32) -> u32 {
    (peer % 5_000) * 2
}

fn is_installed(point: u32, package: u32) -> bool {
    point % 11 != 4 || package != ASKED
}

fn is_cached(peer: u32, package: u32) -> bool {
    peer % 3 != 0 || package != ASKED
}

/// Who asks.
#[derive(Clone, Copy)]
struct Client {
    address: u32,
    site: u32,
    peer: u32,
    elapsed: u32,
}

/// Whether the boundary of that number among those of the group holds a computer.
fn is_held(group: u32, each: u32, address: u32, site: u32) -> bool {
    let boundary = u64::from(group) * 4 + u64::from(each);
    if boundary % 500 == 499 {
        return boundary / 500 == u64::from(site);
    }
    let first = boundary * 4;
    first <= u64::from(address) && u64::from(address) < first + 2_048
}

fn is_in_group(group: u32, address: u32, site: u32) -> bool {
    (0..4).any(|each| is_held(group, each, address, site))
}

/// The groups that hold the client.
fn current_of(alloc: Global, client: Client) -> Result<Vec<u32>, Fail> {
    let mut current = Vec::new(alloc);
    for group in 0..500 {
        if is_in_group(group, client.address, client.site) {
            current.push(group)?;
        }
    }
    Ok(current)
}

fn leads_to(from: u32, group: u32, elapsed: u32) -> bool {
    (0..64).any(|relation| target_of(from, relation) == group && minutes_of(relation) <= elapsed)
}

fn is_neighbour(group: u32, current: &[u32], elapsed: u32) -> bool {
    !current.contains(&group) && current.iter().any(|from| leads_to(*from, group, elapsed))
}

/// Whether two addresses are in one subnet of 22 bits.
fn is_near(address: u32, client: Client) -> bool {
    address / 1_024 == client.address / 1_024
}

fn lets(group: u32, peer: u32, is_near: bool) -> bool {
    let options = options_of(group);
    options.peers
        && (is_near || !options.same_subnet_only)
        && is_in_group(group, address_of_peer(peer), site_of_peer(peer))
}

fn rank_of_peer(peer: u32, client: Client, current: &[u32], prefers: bool) -> Option<u8> {
    let near = is_near(address_of_peer(peer), client);
    let is_let = current.iter().any(|group| lets(*group, peer, near));
    if !is_cached(peer, ASKED) || peer == client.peer || !is_let {
        return None;
    }
    if near {
        return Some(if prefers { 3 } else { 2 });
    }
    Some(if site_of_peer(peer) == client.site {
        4
    } else {
        6
    })
}

/// The rank of a point of a current group.
fn rank_of_current(point: u32, client: Client, prefers: bool) -> u8 {
    if is_near(address_of_point(point), client) {
        return if prefers { 2 } else { 3 };
    }
    if site_of_point(point) == client.site {
        5
    } else {
        7
    }
}

fn rank_of_point(point: u32, client: Client, current: &[u32], prefers: bool) -> Option<u8> {
    if !is_installed(point, ASKED) {
        return None;
    }
    if current.iter().any(|group| has_point(*group, point)) {
        return Some(rank_of_current(point, client, prefers));
    }
    if (0..500).any(|group| has_point(group, point)
        && is_neighbour(group, current, client.elapsed))
    {
        return Some(8);
    }
    if has_default_point(point) && client.elapsed >= 120 {
        return Some(9);
    }
    None
}

/// What is wanted: those that may serve, sorted.
fn wanted(alloc: Global, client: Client) -> Result<Vec<SourceRow>, Fail> {
    let current = current_of(alloc, client)?;
    let prefers = current.iter().any(|group| options_of(*group).prefer_points);
    let mut rows = Vec::new(alloc);
    for peer in 0..5_000 {
        if let Some(rank) = rank_of_peer(peer, client, &current, prefers) {
            let name = server(alloc, "pc", peer)?;
            let kind = Kind::Peer;
            rows.push(SourceRow { rank, kind, name })?;
        }
    }
    for point in 0..64 {
        if let Some(rank) = rank_of_point(point, client, &current, prefers) {
            let name = server(alloc, "dp", point)?;
            let kind = Kind::Point;
            rows.push(SourceRow { rank, kind, name })?;
        }
    }
    rows.sort_unstable_by_key(|row| (row.rank, row.name));
    Ok(rows)
}

fn range_from(first: u32) -> Boundary
    requires { first < 8000 }
    ensures { IsSound result }
{
    Boundary::Range4 {
        from: BASE + first,
        to: BASE + first + 2_047,
    }
}

fn boundary(alloc: Global, number: u32) -> Result<Boundary, Fail>
    requires { number < 2000 }
    ensures { IfOk result (λ boundary. IsSound boundary) }
{
    if number % 500 == 499 {
        let name = site(alloc, number / 500)?;
        return Ok(Boundary::Site { name });
    }
    Ok(range_from(number * 4))
}

fn add_boundary(alloc: Global, rows: &mut Vec<(Label, Boundary)>, number: u32) -> Result<(), Fail>
    requires number { number < 2000 }
    requires sound { All (λ row. IsSound row.1) rows.old.items }
    ensures { All (λ row. IsSound row.1) rows.new.items }
{
    let row = (label(alloc, "b", number)?, boundary(alloc, number)?);
    rows.push(row)?;
    Ok(())
}

fn boundaries(alloc: Global) -> Result<Vec<(Label, Boundary)>, Fail>
    ensures { IfOk result (λ rows. All (λ row. IsSound row.1) rows.items) }
{
    let mut rows = Vec::new(alloc);
    for number in 0..2_000 {
        add_boundary(alloc, &mut rows, number)?;
    }
    Ok(rows)
}

fn points_where(alloc: Global, group: Option<u32>) -> Result<Vec<ServerName>, Fail> {
    let mut names = Vec::new(alloc);
    for point in 0..64 {
        let has = match group {
            Some(group) => has_point(group, point),
            None => has_default_point(point),
        };
        if has {
            names.push(server(alloc, "dp", point)?)?;
        }
    }
    Ok(names)
}

fn relations(alloc: Global, group: u32) -> Result<Vec<(Label, Fallback)>, Fail> {
    let mut leads = Vec::new(alloc);
    for relation in 0..64 {
        let to = label(alloc, "g", target_of(group, relation))?;
        leads.push((to, Fallback::After(minutes_of(relation) as u16)))?;
    }
    Ok(leads)
}

fn held_by(alloc: Global, group: u32) -> Result<Vec<Label>, Fail>
    requires { group < 500 }
{
    let mut names = Vec::new(alloc);
    for each in 0..4 {
        names.push(label(alloc, "b", group * 4 + each)?)?;
    }
    Ok(names)
}

fn group(alloc: Global, number: u32) -> Result<GroupText, Fail>
    requires { number < 500 }
{
    Ok(GroupText {
        name: label(alloc, "g", number)?,
        options: options_of(number),
        boundaries: List::of(held_by(alloc, number)?),
        points: List::of(points_where(alloc, Some(number))?),
        relations: List::of(relations(alloc, number)?),
    })
}

fn groups(alloc: Global) -> Result<Groups, Fail> {
    let rows = boundaries(alloc)?;
    let mut texts = Vec::new(alloc);
    for number in 0..500 {
        texts.push(group(alloc, number)?)?;
    }
    let code = SiteCode::read(b"PS1").ok_or("code")?;
    let default_points = points_where(alloc, None)?;
    Ok(Groups::build(alloc, code, rows, texts, default_points)?)
}

fn points(alloc: Global) -> Result<Vec<Point>, Fail> {
    let mut points = Vec::new(alloc);
    for number in 0..64 {
        points.push(Point {
            name: server(alloc, "dp", number)?,
            address: Address::V4(BASE.wrapping_add(address_of_point(number))),
            site: Some(site(alloc, site_of_point(number))?),
            sources: List::of(Vec::new(alloc)),
        })?;
    }
    Ok(points)
}

fn peers(alloc: Global) -> Result<Vec<Peer>, Fail> {
    let mut peers = Vec::new(alloc);
    for number in 0..5_000 {
        peers.push(Peer {
            name: server(alloc, "pc", number)?,
            address: Address::V4(BASE.wrapping_add(address_of_peer(number))),
            site: Some(site(alloc, site_of_peer(number))?),
            connections: 10,
        })?;
    }
    Ok(peers)
}

/// The version that a package has where it is there, and another one.
fn version_of(is_there: bool) -> Result<Version, Fail> {
    version(if is_there { 1 } else { 2 })
}

fn state(alloc: Global, peer: u32, packages: &[PackageId]) -> Result<PeerState, Fail> {
    let mut cached = Vec::new(alloc);
    for (number, package) in (0..80).zip(packages) {
        cached.push(Cached {
            package: *package,
            version: version_of(is_cached(peer, number))?,
            hash: Hash([7; 32]),
        })?;
    }
    let mut state = PeerState::new(alloc);
    state.cached = List::of(cached);
    Ok(state)
}

fn states(alloc: Global, packages: &[PackageId]) -> Result<Vec<PeerState>, Fail> {
    let mut states = Vec::new(alloc);
    for peer in 0..5_000 {
        states.push(state(alloc, peer, packages)?)?;
    }
    Ok(states)
}

fn packages(alloc: Global) -> Result<Vec<PackageId>, Fail> {
    let mut packages = Vec::new(alloc);
    for number in 0..6_250 {
        packages.push(package(alloc, number)?)?;
    }
    Ok(packages)
}

/// 400,000 rows.
fn installed(alloc: Global, packages: &[PackageId]) -> Result<Installed, Fail> {
    let mut rows = Vec::new(alloc);
    for point in 0..64 {
        let name = server(alloc, "dp", point)?;
        for (number, package) in (0..6_250).zip(packages) {
            rows.push((name, *package, version_of(is_installed(point, number))?))?;
        }
    }
    Ok(Installed::build(alloc, &rows)?)
}

fn ask_of(alloc: Global, client: Client) -> Result<Ask, Fail>
    ensures { IfOk result (λ ask. IsPrefix ask.address ask.prefix) }
{
    Ok(Ask {
        computer: Some(server(alloc, "pc", client.peer)?),
        address: Address::V4(BASE.wrapping_add(client.address)),
        prefix: 22,
        site: Some(site(alloc, client.site)?),
        package: package(alloc, ASKED)?,
        version: version(1)?,
        elapsed: client.elapsed,
        neighbours: true,
        default_group: true,
    })
}

#[test]
fn the_answer_is_a_plain_filter_and_sort(rt: HostRuntime) -> Result<(), Fail> {
    let alloc = rt.alloc();
    let packages = packages(alloc)?;
    let groups = groups(alloc)?;
    let points = points(alloc)?;
    let peers = peers(alloc)?;
    let states = states(alloc, &packages)?;
    let installed = installed(alloc, &packages)?;
    assert!(&rt; states.len() == peers.len());
    // a current group of the second client prefers points, and one that the third reaches
    let clients = [
        (5_000, 2, 2_501, 3_000, 1_652),
        (7_300, 3, 3_501, 119, 1_365),
        (9_990, 3, 4_996, 6_300, 686),
    ];
    for (address, site, peer, elapsed, count) in clients {
        let client = Client {
            address,
            site,
            peer,
            elapsed,
        };
        let ask = ask_of(alloc, client)?;
        let rows = locate(alloc, &groups, &points, &peers, &states, &installed, &ask)?;
        let wanted = wanted(alloc, client)?;
        assert_eq!(&rt; wanted.len(), count);
        assert!(&rt; rows.as_slice() == wanted.as_slice());
    }
    Ok(())
}
