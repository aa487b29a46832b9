//! What is wrong with the texts of groups.
ghost use Rattle.std.specs.Prelude.{◌≡◌, ◌≢◌, ◌||◌, ◌==◌, ◌≤◌, IfNone, length, map};
ghost use Rattle.std.specs.List.{list_any};
ghost use Rattle.std.specs.Option.{option_or};
ghost use Rattle.std.specs.Str.{bytes_eq};
ghost use Rattle.cm_groups.specs.Faults.{boundary_fault, boundary_faults, group_fault, group_faults, has_too_long, is_taken, is_too_many, lacks_boundary, leads_nowhere, leads_to_itself};
ghost use Rattle.cm_groups.specs.Groups.{held_by};
ghost use Rattle.cm_groups.specs.Texts.{has_repeat, is_too_long, names_of_rows};

use crate::names::Names;
use crate::{Fallback, GroupText, GroupsFault};
use cm_base::{Label, List};
use cm_net::Boundary;

/// The part of the boundaries.
const BOUNDARIES: u8 = 0;

/// The part of the groups.
const GROUPS: u8 = 1;

const MOST_BOUNDARIES: u16 = 2000;

const MOST_GROUPS: u16 = 500;

const MOST_RELATIONS: usize = 64;

const MOST_MINUTES: u16 = 10_000;

/// What is wrong with a boundary.
fn boundary_fault(names: &Names<Label>, entry: u16, name: &Label) -> Option<GroupsFault>
    ensures { result ≡ boundary_fault names.now entry name.now }
{
    let part = BOUNDARIES;
    if names.has_before(usize::from(entry), name) {
        return Some(GroupsFault::SameName { part, entry });
    }
    if entry == MOST_BOUNDARIES {
        return Some(GroupsFault::TooMany { part, entry });
    }
    None
}

/// What is wrong with the first boundary that has a fault.
fn boundary_faults(names: &Names<Label>) -> Option<GroupsFault>
    ensures first { result ≡ boundary_faults names.now }
    ensures few { IfNone result (length names.now ≤ 2000) }
{
    for (entry, name) in names.all().iter().enumerate() {
        if let Some(fault) = boundary_fault(names, entry as u16, name) {
            return Some(fault);
        }
    }
    None
}

/// Whether a group of a lower number has the name of the group.
fn is_taken(groups: &Names<Label>, entry: u16, text: &GroupText) -> bool
    ensures { result ≡ is_taken groups.now entry text.now }
{
    groups.has_before(usize::from(entry) + 1, &text.name)
}

/// Whether a relation leads to a name that no group has.
fn leads_nowhere(groups: &Names<Label>, text: &GroupText) -> bool
    ensures { result ≡ leads_nowhere groups.now text.now }
{
    text.relations
        .items()
        .iter()
        .any(|relation| !groups.has(&relation.0))
}

/// Whether a name of a boundary is that of none.
fn lacks_boundary(boundaries: &Names<Label>, text: &GroupText) -> bool
    ensures { result ≡ lacks_boundary boundaries.now text.now }
{
    text.boundaries
        .items()
        .iter()
        .any(|name| !boundaries.has(name))
}

/// Whether a name of a boundary is that of none: then fewer were found for the group than it names.
pub fn lacks_one(rows: &[(Label, Boundary)], text: &GroupText, held: &List<Boundary>) -> bool
    requires { held.now ≡ held_by rows.now text.now }
    ensures { result ≡ lacks_boundary (names_of_rows rows.now) text.now }
{
    // The contract alone speaks of all boundaries.
    let _rows = rows;
    held.items().len() < text.boundaries.items().len()
}

/// Whether one of the relations leads to the group of that name.
pub fn lead_to(relations: &[(Label, Fallback)], name: &Label) -> bool
    ensures { result ≡ list_any (λ relation. bytes_eq relation.0 name.now) relations.now }
{
    relations.iter().any(|relation| relation.0 == *name)
}

/// Whether a relation leads to the group itself.
fn leads_to_itself(text: &GroupText) -> bool
    ensures { result ≡ leads_to_itself text.now }
{
    lead_to(text.relations.items(), &text.name)
}

/// Whether two of the relations lead to one group.
fn lead_twice(relations: &[(Label, Fallback)]) -> bool
    ensures { result ≡ has_repeat (map (λ relation. relation.0) relations.now) }
{
    for (i, relation) in relations.iter().enumerate() {
        if lead_to(&relations[i + 1..], &relation.0) {
            return true;
        }
    }
    false
}

/// Whether it has more minutes than there may be.
fn is_too_long(fallback: Fallback) -> bool
    ensures { result ≡ is_too_long fallback }
{
    match fallback {
        Fallback::Never => false,
        Fallback::After(minutes) => minutes > MOST_MINUTES,
    }
}

/// Whether a relation has more minutes than there may be.
fn has_too_long(text: &GroupText) -> bool
    ensures { result ≡ has_too_long text.now }
{
    text.relations
        .items()
        .iter()
        .any(|relation| is_too_long(relation.1))
}

/// Whether there are too many groups, or the group has too many relations.
fn is_too_many(entry: u16, text: &GroupText) -> bool
    ensures { result ≡ is_too_many entry text.now }
{
    entry == MOST_GROUPS || text.relations.items().len() > MOST_RELATIONS
}

/// What is wrong with a group.
fn group_fault(
    boundaries: &Names<Label>,
    groups: &Names<Label>,
    entry: u16,
    text: &GroupText,
) -> Option<GroupsFault>
    ensures fault { result ≡ group_fault boundaries.now groups.now entry text.now }
    ensures few { IfNone result (entry ≢ 500) }
{
    let part = GROUPS;
    if is_taken(groups, entry, text) {
        return Some(GroupsFault::SameName { part, entry });
    }
    if leads_nowhere(groups, text) {
        return Some(GroupsFault::NoSuchGroup { part, entry });
    }
    if lacks_boundary(boundaries, text) {
        return Some(GroupsFault::NoSuchBoundary { part, entry });
    }
    if leads_to_itself(text) {
        return Some(GroupsFault::SelfRelation { part, entry });
    }
    if lead_twice(text.relations.items()) {
        return Some(GroupsFault::SameRelation { part, entry });
    }
    if has_too_long(text) {
        return Some(GroupsFault::TooLongFallback { part, entry });
    }
    if is_too_many(entry, text) {
        return Some(GroupsFault::TooMany { part, entry });
    }
    None
}

/// What is wrong with the first group that has a fault.
fn group_faults(
    boundaries: &Names<Label>,
    groups: &Names<Label>,
    texts: &[GroupText],
) -> Option<GroupsFault>
    ensures first { result ≡ group_faults boundaries.now groups.now texts.now }
    ensures few { IfNone result (length texts.now ≤ 500) }
{
    for (entry, text) in texts.iter().enumerate() {
        if let Some(fault) = group_fault(boundaries, groups, entry as u16, text) {
            return Some(fault);
        }
    }
    None
}

/// What is wrong with the first entry that has a fault, by the names of the boundaries and of all groups.
pub(crate) fn first_fault(
    boundaries: &Names<Label>,
    groups: &Names<Label>,
    texts: &[GroupText],
) -> Option<GroupsFault>
    ensures first { result ≡ option_or (boundary_faults boundaries.now) (group_faults boundaries.now groups.now texts.now) }
    ensures few { IfNone result (length texts.now ≤ 500) }
{
    match boundary_faults(boundaries) {
        Some(fault) => Some(fault),
        None => group_faults(boundaries, groups, texts),
    }
}
