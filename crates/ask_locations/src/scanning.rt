//! The answer by a plain scan: each point and each peer against each group.
use crate::making::{Made, Plain};
use cm_base::{Memory, ServerName};
use cm_locate::Ask;
use cm_net::{Address, Boundary, SiteName};
use cm_peer::{Kind, Peer, PeerState, SourceRow};
use cm_points::Point;
use std::alloc::Global;

fn holds_one(boundary: &Boundary, address: Address, site: &Option<SiteName>) -> bool {
    match (boundary, address) {
        (Boundary::Range4 { from, to }, Address::V4(number)) => *from <= number && number <= *to,
        (Boundary::Site { name }, _) => *site == Some(*name),
        _ => false,
    }
}

fn holds(group: &Plain, address: Address, site: &Option<SiteName>) -> bool {
    group
        .boundaries
        .iter()
        .any(|boundary| holds_one(boundary, address, site))
}

/// The first so many bits of an IPv4 address.
fn subnet(address: Address, bits: u8) -> u64 {
    match address {
        Address::V4(number) => u64::from(number) >> (32 - u32::from(bits.min(32))),
        Address::V6(_) => 0,
    }
}

fn is_near(ask: &Ask, address: Address) -> bool {
    subnet(ask.address, ask.prefix) == subnet(address, ask.prefix)
}

fn is_of_site(ask: &Ask, site: &Option<SiteName>) -> bool {
    ask.site.is_some() && ask.site == *site
}

/// The numbers of the groups that hold the client.
fn current(alloc: Global, made: &Made, ask: &Ask) -> Result<Vec<u32>, Memory> {
    let mut numbers = Vec::new(alloc);
    for (number, group) in (0..500u32).zip(&made.plain) {
        if holds(group, ask.address, &ask.site) {
            numbers.push(number)?;
        }
    }
    Ok(numbers)
}

fn group(made: &Made, number: u32) -> Option<&Plain> {
    made.plain.get(number as usize)
}

fn leads(made: &Made, from: u32, to: u32, elapsed: u32) -> bool {
    match group(made, from) {
        Some(group) => group
            .relations
            .iter()
            .any(|relation| relation.0 == to && relation.1 <= elapsed),
        None => false,
    }
}

/// The numbers of the neighbours that are reached.
fn reached(alloc: Global, made: &Made, ask: &Ask, own: &[u32]) -> Result<Vec<u32>, Memory> {
    let mut numbers = Vec::new(alloc);
    for to in 0..500u32 {
        if !own.contains(&to) && own.iter().any(|from| leads(made, *from, to, ask.elapsed)) {
            numbers.push(to)?;
        }
    }
    Ok(numbers)
}

fn lets(made: &Made, number: u32, peer: &Peer) -> bool {
    match group(made, number) {
        Some(group) => group.options.peers && holds(group, peer.address, &peer.site),
        None => false,
    }
}

fn has_cached(ask: &Ask, state: &PeerState) -> bool {
    state.cached.items().iter().any(|row| row.package == ask.package && row.version == ask.version)
}

fn peer_rank(made: &Made, ask: &Ask, own: &[u32], peer: &Peer, state: &PeerState) -> Option<u8> {
    if !has_cached(ask, state) || ask.computer == Some(peer.name) {
        return None;
    }
    if !own.iter().any(|number| lets(made, *number, peer)) {
        return None;
    }
    if is_near(ask, peer.address) {
        return Some(2);
    }
    Some(if is_of_site(ask, &peer.site) { 4 } else { 6 })
}

fn is_in(made: &Made, number: u32, name: &ServerName) -> bool {
    match group(made, number) {
        Some(group) => group.points.contains(name),
        None => false,
    }
}

fn is_installed(made: &Made, ask: &Ask, point: &Point) -> bool {
    made.rows.iter().any(|row| row.1 == ask.package && row.2 == ask.version && row.0 == point.name)
}

fn point_rank(made: &Made, ask: &Ask, own: &[u32], others: &[u32], point: &Point) -> Option<u8> {
    if !is_installed(made, ask, point) {
        return None;
    }
    if own.iter().any(|number| is_in(made, *number, &point.name)) {
        if is_near(ask, point.address) {
            return Some(3);
        }
        return Some(if is_of_site(ask, &point.site) { 5 } else { 7 });
    }
    if others
        .iter()
        .any(|number| is_in(made, *number, &point.name))
    {
        return Some(8);
    }
    if point.name.as_bytes() == b"dp63".as_slice() {
        return Some(9);
    }
    None
}

/// The rows of an answer.
pub(crate) fn scanned(alloc: Global, made: &Made, ask: &Ask) -> Result<Vec<SourceRow>, Memory> {
    let own = current(alloc, made, ask)?;
    let others = reached(alloc, made, ask, &own)?;
    let mut rows = Vec::new(alloc);
    for point in &made.points {
        if let Some(rank) = point_rank(made, ask, &own, &others, point) {
            let kind = Kind::Point;
            rows.push(SourceRow {
                rank,
                kind,
                name: point.name,
            })?;
        }
    }
    for (peer, state) in made.peers.iter().zip(&made.states) {
        if let Some(rank) = peer_rank(made, ask, &own, peer, state) {
            let kind = Kind::Peer;
            rows.push(SourceRow {
                rank,
                kind,
                name: peer.name,
            })?;
        }
    }
    rows.sort_unstable_by_key(|row| (row.rank, row.name));
    Ok(rows)
}
