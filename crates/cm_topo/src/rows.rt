//! What tables say, their keys in order.
ghost use Rattle.std.specs.Prelude.{◌≡◌, ◌≢◌, IfErr, IfOk, Some, None, Ok, Err, codes};
ghost use Rattle.cm_net.specs.Boundaries.{IsSound};
ghost use Rattle.toml.specs.Data.{as_table, get_member};
ghost use Rattle.toml.specs.View.{table_view, view};
ghost use Rattle.cm_topo.specs.Rows.{boundary_row, default_row, group_row, options_row, peer_row, point_group_row, point_row, relation_row, relations_row, source_row, sources_said, table_said};
ghost use Rattle.cm_topo.specs.declared.trouble.Trouble.TheVariants.{Memory, Shape};

use crate::entries::{Said, list_at, needed_at, otherwise_at, perhaps_at, value_at};
use crate::keys::is_reserved;
use crate::rules::{BAD_NAME, MOST_RELATIONS, NO_PULL_SOURCE};
use crate::trouble::Trouble;
use cm_base::{Label, List, ServerName};
use cm_groups::{Fallback, GroupText, Options};
use cm_net::{Address, Boundary, SiteName};
use cm_peer::Peer;
use cm_points::{Point, PointGroup, PullSource};
use std::alloc::Global;
use toml::{Table, Value};

/// The table that a value is.
fn table_in(value: &Value) -> Result<&Table, Trouble>
    ensures table { IfOk result (λ table. as_table (view value.now) ≡ Some (table_view table.now)) }
    ensures none { IfErr result (λ trouble. (trouble ≡ Shape) × (as_table (view value.now) ≡ None)) }
{
    match value.as_table() {
        Some(table) => Ok(table),
        None => Err(Trouble::Shape),
    }
}

impl Said for (Label, Boundary) {
    ghost said = { table_said boundary_row };

    ghost IsFit = { λ row. IsSound row.1 };

    fn read(alloc: Global, value: &Value) -> Result<(Label, Boundary), Trouble> {
        let table = table_in(value)?;
        let name = needed_at::<Label>(alloc, table, "name")?;
        let boundary = needed_at::<Boundary>(alloc, table, "at")?;
        Ok((name, boundary))
    }
}

/// The options of a group.
fn options_of(alloc: Global, table: &Table) -> Result<Options, Trouble>
    ensures said { IfOk result (λ options. options_row (table_view table.now) ≡ Ok options) }
    ensures wrong { IfErr result (λ trouble. trouble ≢ Memory → options_row (table_view table.now) ≡ Err trouble) }
{
    let peers = otherwise_at(alloc, table, "peers", true)?;
    let same_subnet_only = otherwise_at(alloc, table, "same_subnet_only", false)?;
    let prefer_points = otherwise_at(alloc, table, "prefer_points", false)?;
    Ok(Options {
        peers,
        same_subnet_only,
        prefer_points,
    })
}

/// A group, without its relations.
impl Said for GroupText {
    ghost said = { table_said group_row };

    fn read(alloc: Global, value: &Value) -> Result<GroupText, Trouble> {
        let table = table_in(value)?;
        let name = needed_at::<Label>(alloc, table, "name")?;
        let boundaries = list_at::<Label>(alloc, None, table, "boundaries")?;
        let points = list_at::<ServerName>(alloc, None, table, "points")?;
        let options = options_of(alloc, table)?;
        Ok(GroupText {
            name,
            options,
            boundaries,
            points,
            relations: List::of(Vec::new(alloc)),
        })
    }
}

impl Said for (Label, Fallback) {
    ghost said = { table_said relation_row };

    fn read(alloc: Global, value: &Value) -> Result<(Label, Fallback), Trouble> {
        let table = table_in(value)?;
        let to = needed_at::<Label>(alloc, table, "to")?;
        let minutes = otherwise_at(alloc, table, "minutes", Fallback::After(120))?;
        Ok((to, minutes))
    }
}

/// The relations of a group.
impl Said for List<(Label, Fallback)> {
    ghost said = { table_said relations_row };

    fn read(alloc: Global, value: &Value) -> Result<List<(Label, Fallback)>, Trouble> {
        let table = table_in(value)?;
        list_at(alloc, Some(MOST_RELATIONS), table, "relation")
    }
}

impl Said for PullSource {
    ghost said = { table_said source_row };

    fn read(alloc: Global, value: &Value) -> Result<PullSource, Trouble> {
        let table = table_in(value)?;
        let point = needed_at::<ServerName>(alloc, table, "from")?;
        let priority = needed_at::<u8>(alloc, table, "priority")?;
        Ok(PullSource { point, priority })
    }
}

/// The sources of a point: at least one where they are there.
fn sources_of(alloc: Global, table: &Table) -> Result<List<PullSource>, Trouble>
    ensures said { IfOk result (λ sources. sources_said (get_member (codes "sources") (table_view table.now)) ≡ Ok sources) }
    ensures wrong { IfErr result (λ trouble. trouble ≢ Memory → sources_said (get_member (codes "sources") (table_view table.now)) ≡ Err trouble) }
{
    if value_at(table, "sources").is_none() {
        return Ok(List::of(Vec::new(alloc)));
    }
    let sources = list_at::<PullSource>(alloc, None, table, "sources")?;
    if sources.items().is_empty() {
        return Err(Trouble::Broken(NO_PULL_SOURCE));
    }
    Ok(sources)
}

impl Said for Point {
    ghost said = { table_said point_row };

    fn read(alloc: Global, value: &Value) -> Result<Point, Trouble> {
        let table = table_in(value)?;
        let name = needed_at::<ServerName>(alloc, table, "name")?;
        if is_reserved(&name) {
            return Err(Trouble::Broken(BAD_NAME));
        }
        let address = needed_at::<Address>(alloc, table, "address")?;
        let site = perhaps_at::<SiteName>(alloc, table, "site")?;
        let sources = sources_of(alloc, table)?;
        Ok(Point {
            name,
            address,
            site,
            sources,
        })
    }
}

impl Said for PointGroup {
    ghost said = { table_said point_group_row };

    fn read(alloc: Global, value: &Value) -> Result<PointGroup, Trouble> {
        let table = table_in(value)?;
        let name = needed_at::<Label>(alloc, table, "name")?;
        let members = list_at::<ServerName>(alloc, None, table, "members")?;
        Ok(PointGroup { name, members })
    }
}

impl Said for Peer {
    ghost said = { table_said peer_row };

    fn read(alloc: Global, value: &Value) -> Result<Peer, Trouble> {
        let table = table_in(value)?;
        let name = needed_at::<ServerName>(alloc, table, "name")?;
        let address = needed_at::<Address>(alloc, table, "address")?;
        let site = perhaps_at::<SiteName>(alloc, table, "site")?;
        let connections = needed_at::<u16>(alloc, table, "connections")?;
        Ok(Peer {
            name,
            address,
            site,
            connections,
        })
    }
}

/// The default points.
impl Said for List<ServerName> {
    ghost said = { table_said default_row };

    fn read(alloc: Global, value: &Value) -> Result<List<ServerName>, Trouble> {
        let table = table_in(value)?;
        list_at(alloc, None, table, "points")
    }
}
