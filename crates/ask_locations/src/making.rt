//! Groups, points, peers and rows, as many as there may be.
ghost use Rattle.cm_locate.specs.Asks.{IsPrefix};
ghost use Rattle.cm_net.specs.Boundaries.{IsSound};
ghost use Rattle.std.specs.Prelude.{◌<◌, All, IfOk, IfSome, OnOk};

use crate::cases::{Case, address_of_peer, site};
use cm_base::{Hash, Label, List, Memory, PackageId, ServerName, Version};
use cm_groups::{Fallback, GroupText, Groups, Options, SiteCode};
use cm_locate::Ask;
use cm_net::{Address, Boundary};
use cm_peer::{Cached, Peer, PeerState};
use cm_points::{Installed, Point};
use std::alloc::Global;

/// A group, as a plain scan goes through it.
#[derive(Drop)]
pub(crate) struct Plain {
    pub options: Options,
    pub boundaries: Vec<Boundary>,
    pub points: Vec<ServerName>,
    /// The groups to which its clients fall back, by their numbers, and after how many minutes.
    pub relations: Vec<(u32, u32)>,
}

/// All that is asked.
#[derive(Drop)]
pub(crate) struct Made {
    pub groups: Groups,
    pub plain: Vec<Plain>,
    pub points: Vec<Point>,
    pub peers: Vec<Peer>,
    pub states: Vec<PeerState>,
    pub installed: Installed,
    pub rows: Vec<(ServerName, PackageId, Version)>,
}

fn named(alloc: Global, letters: &str, number: u32) -> Result<ServerName, Memory> {
    let text = format!(in alloc; "{letters}{number}")?;
    ServerName::read(text.as_bytes()).ok_or(Memory)
}

fn label(alloc: Global, letter: &str, number: u32) -> Result<Label, Memory> {
    let text = format!(in alloc; "{letter}{number}")?;
    Label::read(text.as_bytes()).ok_or(Memory)
}

fn package(alloc: Global, number: u32) -> Result<PackageId, Memory> {
    let text = format!(in alloc; "PS1{number:05}")?;
    PackageId::read(text.as_bytes()).ok_or(Memory)
}

fn version(number: u32) -> Result<Version, Memory> {
    Version::new(number).ok_or(Memory)
}

fn add_boundary(
    alloc: Global,
    rows: &mut Vec<(Label, Boundary)>,
    case: Case,
    number: u32,
) -> Result<(), Memory>
    requires number { number < 2000 }
    requires sound { All (λ row. IsSound row.1) rows.old.items }
    ensures { All (λ row. IsSound row.1) rows.new.items }
{
    let boundary = case.boundary(alloc, number).ok_or(Memory)?;
    rows.push((label(alloc, "b", number)?, boundary))?;
    Ok(())
}

fn boundaries(alloc: Global, case: Case) -> Result<Vec<(Label, Boundary)>, Memory>
    ensures { IfOk result (λ rows. All (λ row. IsSound row.1) rows.items) }
{
    let mut rows = Vec::new(alloc);
    for number in 0..2_000 {
        add_boundary(alloc, &mut rows, case, number)?;
    }
    Ok(rows)
}

// The points that a group names.
fn points_of(alloc: Global, case: Case, group: u32) -> Result<Vec<ServerName>, Memory> {
    let mut names = Vec::new(alloc);
    for number in 0..case.points_named() {
        names.push(named(alloc, "dp", group.wrapping_add(number) % 64)?)?;
    }
    Ok(names)
}

// The groups to which a group leads.
fn relations_of(alloc: Global, group: u32) -> Result<Vec<(u32, u32)>, Memory> {
    let mut leads = Vec::new(alloc);
    for relation in 0..64u32 {
        leads.push((
            group.wrapping_add(relation).wrapping_add(1) % 500,
            relation * 100,
        ))?;
    }
    Ok(leads)
}

fn plain_group(
    alloc: Global,
    case: Case,
    rows: &[(Label, Boundary)],
    number: u32,
) -> Result<Plain, Memory> {
    Ok(Plain {
        options: case.options(number),
        boundaries: rows
            .iter()
            .skip((number % 500) as usize * 4)
            .take(4)
            .map(|row| row.1)
            .collect(alloc)?,
        points: points_of(alloc, case, number)?,
        relations: relations_of(alloc, number)?,
    })
}

fn leads_of(alloc: Global, plain: &Plain) -> Result<Vec<(Label, Fallback)>, Memory> {
    let mut leads = Vec::new(alloc);
    for (to, minutes) in &plain.relations {
        let after = Fallback::After((*minutes % 10_001) as u16);
        leads.push((label(alloc, "g", *to)?, after))?;
    }
    Ok(leads)
}

fn text_of(
    alloc: Global,
    rows: &[(Label, Boundary)],
    plain: &Plain,
    number: u32,
) -> Result<GroupText, Memory> {
    let held: Vec<Label> = rows
        .iter()
        .skip((number % 500) as usize * 4)
        .take(4)
        .map(|row| row.0)
        .collect(alloc)?;
    Ok(GroupText {
        name: label(alloc, "g", number)?,
        options: plain.options,
        boundaries: List::of(held),
        points: List::of(Vec::from_slice(alloc, &plain.points)?),
        relations: List::of(leads_of(alloc, plain)?),
    })
}

fn texts(
    alloc: Global,
    case: Case,
    rows: &[(Label, Boundary)],
) -> Result<(Vec<Plain>, Vec<GroupText>), Memory> {
    let mut plain = Vec::new(alloc);
    let mut texts = Vec::new(alloc);
    for number in 0..500 {
        let group = plain_group(alloc, case, rows, number)?;
        texts.push(text_of(alloc, rows, &group, number)?)?;
        plain.push(group)?;
    }
    Ok((plain, texts))
}

fn groups(alloc: Global, case: Case) -> Result<(Groups, Vec<Plain>), Memory> {
    let rows = boundaries(alloc, case)?;
    let (plain, texts) = texts(alloc, case, &rows)?;
    let code = SiteCode::read(b"PS1").ok_or(Memory)?;
    let mut default_points = Vec::new(alloc);
    default_points.push(named(alloc, "dp", 63)?)?;
    match Groups::build(alloc, code, rows, texts, default_points) {
        Ok(groups) => Ok((groups, plain)),
        Err(_) => Err(Memory),
    }
}

fn points(alloc: Global) -> Result<Vec<Point>, Memory> {
    let mut points = Vec::new(alloc);
    for number in 0..64 {
        points.push(Point {
            name: named(alloc, "dp", number)?,
            address: address_of_peer(number * 50),
            site: site(alloc, number % 5),
            sources: List::of(Vec::new(alloc)),
        })?;
    }
    Ok(points)
}

fn peers(alloc: Global) -> Result<Vec<Peer>, Memory> {
    let mut peers = Vec::new(alloc);
    for number in 0..5_000 {
        peers.push(Peer {
            name: named(alloc, "pc", number * 2_741 % 5_000)?,
            address: address_of_peer(number),
            site: site(alloc, number % 2_000),
            connections: 10,
        })?;
    }
    Ok(peers)
}

// 80 rows: the package that is asked for stands last.
fn state(alloc: Global, packages: &[PackageId]) -> Result<PeerState, Memory> {
    let mut cached = Vec::new(alloc);
    for package in packages.iter().take(80) {
        cached.push(Cached {
            package: *package,
            version: version(1)?,
            hash: Hash([7; 32]),
        })?;
    }
    let mut state = PeerState::new(alloc);
    state.cached = List::of(cached);
    Ok(state)
}

fn states(alloc: Global, packages: &[PackageId]) -> Result<Vec<PeerState>, Memory> {
    let mut states = Vec::new(alloc);
    for _ in 0..5_000 {
        states.push(state(alloc, packages)?)?;
    }
    Ok(states)
}

fn packages(alloc: Global) -> Result<Vec<PackageId>, Memory> {
    let mut packages = Vec::new(alloc);
    for number in 0..6_250 {
        packages.push(package(alloc, number)?)?;
    }
    Ok(packages)
}

// 400,000 rows.
fn rows(
    alloc: Global,
    packages: &[PackageId],
) -> Result<Vec<(ServerName, PackageId, Version)>, Memory> {
    let mut rows = Vec::new(alloc);
    for point in 0..64 {
        let name = named(alloc, "dp", point)?;
        for package in packages {
            rows.push((name, *package, version(1)?))?;
        }
    }
    Ok(rows)
}

/// All that is asked in a case.
pub(crate) fn make(alloc: Global, case: Case) -> Result<Made, Memory> {
    let packages = packages(alloc)?;
    let rows = rows(alloc, &packages)?;
    let installed = Installed::build(alloc, &rows)?;
    let (groups, plain) = groups(alloc, case)?;
    Ok(Made {
        groups,
        plain,
        points: points(alloc)?,
        peers: peers(alloc)?,
        states: states(alloc, &packages)?,
        installed,
        rows,
    })
}

/// What the client asks: the package that each cached list has last, long after it asked first.
pub(crate) fn question(alloc: Global, case: Case) -> Result<Ask, Memory>
    ensures { IfOk result (λ ask. IsPrefix ask.address ask.prefix) }
{
    Ok(Ask {
        computer: Some(named(alloc, "pc", 7)?),
        address: case.address(),
        prefix: 24,
        site: site(alloc, 28),
        package: package(alloc, 79)?,
        version: version(1)?,
        elapsed: 3_000,
        neighbours: true,
        default_group: true,
    })
}
