//! Reading the text of a topology.
ghost use Rattle.std.specs.Prelude.{◌≡◌, ◌≢◌, All, IfErr, IfOk, Ok, Err, map};
ghost use Rattle.std.specs.List.{zip};
ghost use Rattle.cm_groups.specs.Groups.{held_by};
ghost use Rattle.cm_net.specs.Boundaries.{IsSound};
ghost use Rattle.toml.specs.View.{table_view};
ghost use Rattle.cm_topo.specs.Outcomes.{both_passes, checked, topology_in, topology_of};
ghost use Rattle.cm_topo.specs.Rows.{alone, groups_read, servers_read, with_relations};
ghost use Rattle.cm_topo.specs.SecondPass.{AreFewGroups, AreFewServers, known_of};
ghost use Rattle.cm_topo.specs.declared.trouble.Trouble.TheVariants.{Memory};

use crate::entries::{needed_at, otherwise_at, part_of};
use crate::known::Known;
use crate::rules::{MOST_BOUNDARIES, MOST_GROUPS, MOST_PEERS, MOST_POINT_GROUPS, MOST_POINTS};
use crate::second_pass::second_pass_fault;
use crate::topology_text::{GroupsText, ServersText, TopologyText};
use crate::trouble::{Placed, Trouble};
use crate::{TopoFault, Topology};
use cm_base::{Label, List, Memory as NoMemory, ServerName};
use cm_groups::{Fallback, GroupText, Groups, SiteCode, held_by_groups};
use cm_net::Boundary;
use cm_peer::Peer;
use cm_points::{Point, PointGroup};
use std::alloc::Global;
use toml::Table;

/// The groups with their relations.
fn texts_of(
    alloc: Global,
    groups: Vec<GroupText>,
    relations: Vec<List<(Label, Fallback)>>,
) -> Result<Vec<GroupText>, NoMemory>
    ensures { IfOk result (λ texts. texts.items ≡ map (λ row. with_relations row.0 row.1) (zip groups.items relations.items)) }
{
    Ok(
        groups
            .into_iter()
            .zip(relations)
            .map(|(text, relations)| GroupText {
                name: text.name,
                options: text.options,
                boundaries: text.boundaries,
                points: text.points,
                relations,
            })
            .collect(alloc)?,
    )
}

/// What a value says that stands in no entry of a part.
fn alone<R: Drop>(part: u8, said: Result<R, Trouble>) -> Result<R, Placed>
    ensures { result ≡ alone part said }
{
    match said {
        Ok(row) => Ok(row),
        Err(trouble) => Err(trouble.at(part, 0)),
    }
}

/// Parts 0 to 3 of a document.
fn groups_of(alloc: Global, table: &Table) -> Result<GroupsText, Placed>
    ensures said { IfOk result (λ text. groups_read (table_view table.now) ≡ Ok text) }
    ensures few { IfOk result AreFewGroups }
    ensures sound { IfOk result (λ text. All (λ row. IsSound row.1) text.boundaries) }
    ensures wrong { IfErr result (λ placed. placed.trouble ≢ Memory → groups_read (table_view table.now) ≡ Err placed) }
{
    let code = alone(0, needed_at::<SiteCode>(alloc, table, "code"))?;
    let boundaries = part_of::<(Label, Boundary)>(alloc, table, 1, "boundary", MOST_BOUNDARIES)?;
    let groups = part_of::<GroupText>(alloc, table, 2, "group", MOST_GROUPS)?;
    let relations = part_of::<List<(Label, Fallback)>>(alloc, table, 3, "group", MOST_GROUPS)?;
    let groups = texts_of(alloc, groups, relations)?;
    Ok(GroupsText {
        code,
        boundaries: List::of(boundaries),
        groups: List::of(groups),
    })
}

/// Parts 4 to 7 of a document.
fn servers_of(alloc: Global, table: &Table) -> Result<ServersText, Placed>
    ensures said { IfOk result (λ text. servers_read (table_view table.now) ≡ Ok text) }
    ensures few { IfOk result AreFewServers }
    ensures wrong { IfErr result (λ placed. placed.trouble ≢ Memory → servers_read (table_view table.now) ≡ Err placed) }
{
    let points = part_of::<Point>(alloc, table, 4, "point", MOST_POINTS)?;
    let point_groups = part_of::<PointGroup>(alloc, table, 5, "point_group", MOST_POINT_GROUPS)?;
    let peers = part_of::<Peer>(alloc, table, 6, "peer", MOST_PEERS)?;
    let none = List::of(Vec::new(alloc));
    let default_points = alone(7, otherwise_at(alloc, table, "default", none))?;
    Ok(ServersText {
        points: List::of(points),
        point_groups: List::of(point_groups),
        peers: List::of(peers),
        default_points,
    })
}

/// The topology of rows, by the names that there are and the boundaries that were found for each group. A name that is not there
/// is left out.
fn topology_of(
    alloc: Global,
    known: &Known,
    text: TopologyText,
    held: Vec<List<Boundary>>,
) -> Result<Topology, NoMemory>
    requires known { known.now ≡ known_of text }
    requires held { held.items ≡ map (λ each. held_by text.sites.boundaries each) text.sites.groups }
    requires few { AreFewGroups text.sites }
    requires sound { All (λ row. IsSound row.1) text.sites.boundaries }
    ensures { IfOk result (λ topology. topology ≡ topology_of text) }
{
    let TopologyText { sites, servers } = text;
    let GroupsText {
        code,
        boundaries,
        groups,
    } = sites;
    let rows = boundaries.items();
    let boundary_count = rows.len();
    let group_count = groups.items().len();
    let groups = Groups::of_names(
        alloc,
        code,
        rows,
        &known.groups,
        groups.into_items(),
        held,
        servers.default_points.into_items(),
    )?;
    Ok(Topology {
        code,
        boundary_count,
        group_count,
        groups,
        points: servers.points,
        point_groups: servers.point_groups,
        peers: servers.peers,
    })
}

/// The topology of rows, or the first fault of their names.
fn checked(alloc: Global, text: TopologyText) -> Result<Topology, Placed>
    requires few { AreFewGroups text.sites × AreFewServers text.servers }
    requires sound { All (λ row. IsSound row.1) text.sites.boundaries }
    ensures said { IfOk result (λ topology. checked text ≡ Ok topology) }
    ensures wrong { IfErr result (λ placed. placed.trouble ≢ Memory → checked text ≡ Err placed) }
{
    let known = Known::of(alloc, &text)?;
    let sites = &text.sites;
    let held = held_by_groups(
        alloc,
        &known.boundaries,
        sites.boundaries.items(),
        sites.groups.items(),
    )?;
    if let Some(fault) = second_pass_fault(&known, &text, &held) {
        return Err(fault);
    }
    Ok(topology_of(alloc, &known, text, held)?)
}

/// The topology of a document, or its first fault. The memory of the document is there again for the topology.
fn both_passes(alloc: Global, table: Table) -> Result<Topology, Placed>
    ensures said { IfOk result (λ topology. both_passes (table_view table) ≡ Ok topology) }
    ensures wrong { IfErr result (λ placed. placed.trouble ≢ Memory → both_passes (table_view table) ≡ Err placed) }
{
    let sites = groups_of(alloc, &table)?;
    let servers = servers_of(alloc, &table)?;
    drop(table);
    checked(alloc, TopologyText { sites, servers })
}

/// The topology that a text in TOML says, or its first fault: `NotToml` exactly where `toml` refuses the text, and not for want of
/// memory; else the first pass goes through the parts in order, each entry by itself: its limit, then its keys; and the second one
/// looks at the names that refer to others, in the same order. `Memory` may be answered at any time.
pub fn read_topology(alloc: Global, bytes: &[u8]) -> Result<Topology, TopoFault>
    ensures ok { IfOk result (λ topology. topology_in bytes.now ≡ Ok topology) }
    ensures fault { IfErr result (λ fault. fault ≢ TopoFault.Memory → topology_in bytes.now ≡ Err fault) }
{
    let table = match toml::table_from_slice(alloc, bytes) {
        Ok(table) => table,
        Err(error) => {
            if error.is_memory() {
                return Err(TopoFault::Memory);
            }
            return Err(TopoFault::NotToml);
        }
    };
    match both_passes(alloc, table) {
        Ok(topology) => Ok(topology),
        Err(placed) => Err(placed.fault()),
    }
}
