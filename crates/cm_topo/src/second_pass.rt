//! The second pass: the names that refer to others.
ghost use Rattle.std.specs.Prelude.{◌≡◌, ◌≤◌, ℕ, List, length, map};
ghost use Rattle.std.specs.List.{flat_map};
ghost use Rattle.cm_groups.specs.Groups.{held_by};
ghost use Rattle.cm_groups.specs.Texts.{names_of_rows};
ghost use Rattle.cm_topo.specs.SecondPass.{AreFewGroups, AreFewServers, boundary_refers, group_refers, group_relations_refer, groups_refer, known_of, lacks, peer_refers, point_group_refers, point_refers, refers, relation_refers, relations_refer, servers_refer, source_refers};
ghost use Rattle.cm_topo.specs.Troubles.{broken_if, each_entry, first};
ghost use Rattle.cm_topo.specs.declared.known.Known.{Known};
ghost use Rattle.cm_topo.specs.declared.trouble.Trouble.{Trouble};

use crate::known::Known;
use crate::rules::{
    NO_SUCH_BOUNDARY, NO_SUCH_GROUP, NO_SUCH_POINT, PULL_FROM_ITSELF, SAME_NAME, SAME_RELATION,
    SELF_RELATION,
};
use crate::topology_text::{GroupsText, ServersText, TopologyText};
use crate::trouble::{Placed, Trouble};
use cm_base::{Label, List, ServerName};
use cm_groups::{Fallback, GroupText, Names, lacks_one, lead_to};
use cm_net::Boundary;
use cm_peer::Peer;
use cm_points::{Point, PointGroup, PullSource};

/// A row of a part, with names that refer to others.
trait Refers: Drop {
    /// What is wrong with the row of that number, by the names that there are.
    ghost refers: { Known → ℕ → Self → List Trouble };

    /// The first that is wrong with the row of that number.
    fn trouble(&self, known: &Known, entry: usize) -> Option<Trouble>
        requires { entry ≤ 5000 }
        ensures { first (refers known.now entry self.now) ≡ result };
}

/// The first fault of the rows of a part.
fn part_fault<R: Refers>(known: &Known, part: u8, rows: &[R]) -> Option<Placed>
    requires { length rows.now ≤ 5000 }
    ensures { first (each_entry part (R.refers known.now) 0 rows.now) ≡ result }
{
    for (entry, row) in rows.iter().enumerate() {
        if let Some(trouble) = row.trouble(known, entry) {
            return Some(trouble.at(part, entry as u16));
        }
    }
    None
}

/// What is wrong where a rule is broken.
fn broken_if(test: bool, rule: u8) -> Option<Trouble>
    ensures { first (broken_if test rule) ≡ result }
{
    if test {
        Some(Trouble::Broken(rule))
    } else {
        None
    }
}

/// Whether one of the wanted points is not there.
fn lack(points: &Names<ServerName>, wanted: &[ServerName]) -> bool
    ensures { result ≡ lacks points.now wanted.now }
{
    wanted.iter().any(|name| !points.has(name))
}

impl Refers for (Label, Boundary) {
    ghost refers = { boundary_refers };

    fn trouble(&self, known: &Known, entry: usize) -> Option<Trouble> {
        broken_if(known.boundaries.has_before(entry, &self.0), SAME_NAME)
    }
}

/// What is wrong with the group of that number, for which these boundaries were found.
fn group_trouble(
    known: &Known,
    rows: &[(Label, Boundary)],
    entry: usize,
    text: &GroupText,
    held: &List<Boundary>,
) -> Option<Trouble>
    requires names { known.now.boundaries ≡ names_of_rows rows.now }
    requires held { held.now ≡ held_by rows.now text.now }
    requires few { entry ≤ 5000 }
    ensures { first (group_refers known.now entry text.now) ≡ result }
{
    // The default group stands before the others.
    if known.groups.has_before(entry + 1, &text.name) {
        return Some(Trouble::Broken(SAME_NAME));
    }
    if lacks_one(rows, text, held) {
        return Some(Trouble::Broken(NO_SUCH_BOUNDARY));
    }
    broken_if(lack(&known.points, text.points.items()), NO_SUCH_POINT)
}

/// The first fault of the groups, for which these boundaries were found.
fn group_faults(
    known: &Known,
    rows: &[(Label, Boundary)],
    texts: &[GroupText],
    held: &[List<Boundary>],
) -> Option<Placed>
    requires names { known.now.boundaries ≡ names_of_rows rows.now }
    requires held { held.now ≡ map (λ text. held_by rows.now text) texts.now }
    requires few { length texts.now ≤ 500 }
    ensures { first (each_entry 2 (group_refers known.now) 0 texts.now) ≡ result }
{
    for (entry, text) in texts.iter().enumerate() {
        if let Some(trouble) = group_trouble(known, rows, entry, text, &held[entry]) {
            return Some(trouble.at(2, entry as u16));
        }
    }
    None
}

/// What is wrong with a relation to that group, behind others of a group of that name.
fn relation_trouble(
    known: &Known,
    name: &Label,
    before: &[(Label, Fallback)],
    to: &Label,
) -> Option<Trouble>
    ensures { first (relation_refers known.now name.now before.now to.now) ≡ result }
{
    if !known.groups.has(to) {
        return Some(Trouble::Broken(NO_SUCH_GROUP));
    }
    if *to == *name {
        return Some(Trouble::Broken(SELF_RELATION));
    }
    broken_if(lead_to(before, to), SAME_RELATION)
}

/// What is wrong with the first relation that has a fault, in a group of that name.
fn relations_trouble(
    known: &Known,
    name: &Label,
    relations: &[(Label, Fallback)],
) -> Option<Trouble>
    ensures { first (relations_refer known.now name.now relations.now) ≡ result }
{
    for (number, relation) in relations.iter().enumerate() {
        let before = &relations[..number];
        if let Some(trouble) = relation_trouble(known, name, before, &relation.0) {
            return Some(trouble);
        }
    }
    None
}

/// The first fault of the relations of groups.
fn relations_fault(known: &Known, texts: &[GroupText]) -> Option<Placed>
    requires { length texts.now ≤ 500 }
    ensures { first (each_entry 3 (group_relations_refer known.now) 0 texts.now) ≡ result }
{
    for (entry, text) in texts.iter().enumerate() {
        if let Some(trouble) = relations_trouble(known, &text.name, text.relations.items()) {
            return Some(trouble.at(3, entry as u16));
        }
    }
    None
}

/// What is wrong with a source of a point of that name.
fn source_trouble(known: &Known, name: &ServerName, source: &PullSource) -> Option<Trouble>
    ensures { first (source_refers known.now name.now source.now) ≡ result }
{
    if !known.points.has(&source.point) {
        return Some(Trouble::Broken(NO_SUCH_POINT));
    }
    broken_if(source.point == *name, PULL_FROM_ITSELF)
}

/// What is wrong with the first source that has a fault, in a point of that name.
fn sources_trouble(known: &Known, name: &ServerName, sources: &[PullSource]) -> Option<Trouble>
    ensures { first (flat_map (source_refers known.now name.now) sources.now) ≡ result }
{
    for source in sources {
        if let Some(trouble) = source_trouble(known, name, source) {
            return Some(trouble);
        }
    }
    None
}

impl Refers for Point {
    ghost refers = { point_refers };

    fn trouble(&self, known: &Known, entry: usize) -> Option<Trouble> {
        if known.points.has_before(entry, &self.name) {
            return Some(Trouble::Broken(SAME_NAME));
        }
        sources_trouble(known, &self.name, self.sources.items())
    }
}

impl Refers for PointGroup {
    ghost refers = { point_group_refers };

    fn trouble(&self, known: &Known, entry: usize) -> Option<Trouble> {
        if known.point_groups.has_before(entry, &self.name) {
            return Some(Trouble::Broken(SAME_NAME));
        }
        broken_if(lack(&known.points, self.members.items()), NO_SUCH_POINT)
    }
}

impl Refers for Peer {
    ghost refers = { peer_refers };

    fn trouble(&self, known: &Known, entry: usize) -> Option<Trouble> {
        broken_if(known.peers.has_before(entry, &self.name), SAME_NAME)
    }
}

/// The first fault of the names in boundaries, groups and relations.
fn groups_fault(known: &Known, text: &GroupsText, held: &[List<Boundary>]) -> Option<Placed>
    requires names { known.now.boundaries ≡ names_of_rows text.now.boundaries }
    requires held { held.now ≡ map (λ each. held_by text.now.boundaries each) text.now.groups }
    requires few { AreFewGroups text.now }
    ensures { first (groups_refer known.now text.now) ≡ result }
{
    let rows = text.boundaries.items();
    if let Some(fault) = part_fault(known, 1, rows) {
        return Some(fault);
    }
    if let Some(fault) = group_faults(known, rows, text.groups.items(), held) {
        return Some(fault);
    }
    relations_fault(known, text.groups.items())
}

/// The first fault of the names in points, point groups, peers and the default points.
fn servers_fault(known: &Known, text: &ServersText) -> Option<Placed>
    requires { AreFewServers text.now }
    ensures { first (servers_refer known.now text.now) ≡ result }
{
    if let Some(fault) = part_fault(known, 4, text.points.items()) {
        return Some(fault);
    }
    if let Some(fault) = part_fault(known, 5, text.point_groups.items()) {
        return Some(fault);
    }
    if let Some(fault) = part_fault(known, 6, text.peers.items()) {
        return Some(fault);
    }
    let trouble = broken_if(
        lack(&known.points, text.default_points.items()),
        NO_SUCH_POINT,
    )?;
    Some(trouble.at(7, 0))
}

/// The first fault of the second pass, by the names that there are and the boundaries that were found for each group.
pub(crate) fn second_pass_fault(
    known: &Known,
    text: &TopologyText,
    held: &[List<Boundary>],
) -> Option<Placed>
    requires known { known.now ≡ known_of text.now }
    requires held { held.now ≡ map (λ each. held_by text.now.sites.boundaries each) text.now.sites.groups }
    requires sites { AreFewGroups text.now.sites }
    requires servers { AreFewServers text.now.servers }
    ensures { first (refers known.now text.now) ≡ result }
{
    if let Some(fault) = groups_fault(known, &text.sites, held) {
        return Some(fault);
    }
    servers_fault(known, &text.servers)
}
