//! Groups from their texts, once these have no fault.
ghost use Rattle.std.specs.Prelude.{◌≡◌, ◌≤◌, ◌∷◌, IfOk, length, map};
ghost use Rattle.std.specs.List.{filter_map, range_with_len, zip};
ghost use Rattle.cm_groups.specs.Groups.{boundary_of, default_group, group_of, group_with, held_by, leads_by, relation_of};
ghost use Rattle.cm_groups.specs.Texts.{names_of_rows};

use crate::group::Group;
use crate::names::Names;
use crate::{Fallback, GroupText, Options};
use cm_base::{Label, List, Memory, ServerName};
use cm_net::Boundary;
use std::alloc::{AllocError, Global};

/// The boundary of that name, looked for at the likely place: after it, that is the one behind.
fn boundary_of(
    names: &Names<Label>,
    rows: &[(Label, Boundary)],
    likely: &mut usize,
    name: &Label,
) -> Option<Boundary>
    requires { names.now ≡ names_of_rows rows.now }
    ensures { result ≡ boundary_of rows.now name.now }
{
    match names.place_near(*likely, name) {
        Some(place) => {
            *likely = place + 1;
            Some(rows[place].1)
        }
        None => None,
    }
}

/// The boundaries of these names, which mostly stand in the order of the rows.
fn boundaries_of(
    alloc: Global,
    names: &Names<Label>,
    rows: &[(Label, Boundary)],
    wanted: &[Label],
) -> Result<Vec<Boundary>, AllocError>
    requires { names.now ≡ names_of_rows rows.now }
    ensures { IfOk result (λ found. found.items ≡ filter_map (λ name. boundary_of rows.now name) wanted.now) }
{
    let mut found = Vec::new(alloc);
    found.reserve(wanted.len())?;
    let mut likely = 0;
    for name in wanted {
        if let Some(boundary) = boundary_of(names, rows, &mut likely, name) {
            found.push(boundary)?;
        }
    }
    Ok(found)
}

/// The relation by the number of the group.
fn relation_of(groups: &Names<Label>, relation: &(Label, Fallback)) -> Option<(u16, Fallback)>
    requires { length groups.now ≤ 501 }
    ensures { result ≡ relation_of groups.now relation.now }
{
    match groups.place(&relation.0) {
        Some(number) => Some((number as u16, relation.1)),
        None => None,
    }
}

/// The relations by the numbers of groups.
fn relations_of(
    alloc: Global,
    groups: &Names<Label>,
    relations: &[(Label, Fallback)],
) -> Result<Vec<(u16, Fallback)>, AllocError>
    requires { length groups.now ≤ 501 }
    ensures { IfOk result (λ found. found.items ≡ filter_map (λ relation. relation_of groups.now relation) relations.now) }
{
    relations
        .iter()
        .filter_map(|relation| relation_of(groups, relation))
        .collect(alloc)
}

/// For each group the boundaries that it names, each looked up once. A name of none is left out.
pub fn held_by_groups(
    alloc: Global,
    names: &Names<Label>,
    rows: &[(Label, Boundary)],
    texts: &[GroupText],
) -> Result<Vec<List<Boundary>>, Memory>
    requires { names.now ≡ names_of_rows rows.now }
    ensures { IfOk result (λ held. held.items ≡ map (λ text. held_by rows.now text) texts.now) }
{
    let mut held = Vec::new(alloc);
    for text in texts {
        let own = boundaries_of(alloc, names, rows, text.boundaries.items())?;
        held.push(List::of(own))?;
    }
    Ok(held)
}

/// For each group its relations by the numbers of groups.
fn leads_of_groups(
    alloc: Global,
    groups: &Names<Label>,
    texts: &[GroupText],
) -> Result<Vec<List<(u16, Fallback)>>, Memory>
    requires { length groups.now ≤ 501 }
    ensures { IfOk result (λ leads. leads.items ≡ map (λ text. leads_by groups.now text) texts.now) }
{
    let mut leads = Vec::new(alloc);
    for text in texts {
        let own = relations_of(alloc, groups, text.relations.items())?;
        leads.push(List::of(own))?;
    }
    Ok(leads)
}

/// The numbers of so many groups. The default group, number 0, is not among them.
pub(crate) fn numbers_of(alloc: Global, count: u16) -> Result<Vec<u16>, AllocError>
    requires { count ≤ 500 }
    ensures { IfOk result (λ numbers. numbers.items ≡ range_with_len 1 count) }
{
    (1..count + 1).collect(alloc)
}

/// The lists of groups, each with the number of its group.
pub(crate) fn numbered(
    alloc: Global,
    held: Vec<List<Boundary>>,
    numbers: Vec<u16>,
) -> Result<Vec<(List<Boundary>, u16)>, AllocError>
    ensures { IfOk result (λ lists. lists.items ≡ zip held.items numbers.items) }
{
    held.into_iter().zip(numbers).collect(alloc)
}

/// The groups of texts, with the boundaries that each holds and the groups to which it leads.
fn joined(
    alloc: Global,
    texts: Vec<GroupText>,
    lists: Vec<(List<Boundary>, u16)>,
    leads: Vec<List<(u16, Fallback)>>,
) -> Result<Vec<Group>, AllocError>
    ensures { IfOk result (λ made. made.items ≡ map (λ row. group_with row.0.0 row.0.1.0 row.1) (zip (zip texts.items lists.items) leads.items)) }
{
    texts
        .into_iter()
        .zip(lists)
        .zip(leads)
        .map(|((text, (held, _)), leads)| Group {
            options: text.options,
            boundaries: held,
            points: text.points,
            relations: leads,
        })
        .collect(alloc)
}

/// The default group.
fn default_group(alloc: Global, points: Vec<ServerName>) -> Group
    ensures { result ≡ default_group points.items }
{
    Group {
        options: Options::default(),
        boundaries: List::of(Vec::new(alloc)),
        points: List::of(points),
        relations: List::of(Vec::new(alloc)),
    }
}

/// All groups by their numbers, with the boundaries that were found for each, which stand beside their numbers.
pub(crate) fn groups_with(
    alloc: Global,
    rows: &[(Label, Boundary)],
    groups: &Names<Label>,
    texts: Vec<GroupText>,
    lists: Vec<(List<Boundary>, u16)>,
    default_points: Vec<ServerName>,
) -> Result<Vec<Group>, Memory>
    requires held { map (λ list. list.0) lists.items ≡ map (λ text. held_by rows.now text) texts.items }
    requires few { length groups.now ≤ 501 }
    ensures { IfOk result (λ made. made.items ≡ default_group default_points.items ∷ map (λ text. group_of groups.now rows.now text) texts.items) }
{
    // The contract alone speaks of the boundaries.
    let _rows = rows;
    let leads = leads_of_groups(alloc, groups, &texts)?;
    let mut made = joined(alloc, texts, lists, leads)?;
    made.insert(0, default_group(alloc, default_points))?;
    Ok(made)
}
