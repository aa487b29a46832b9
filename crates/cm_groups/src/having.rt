//! The groups that have a point.
ghost use Rattle.std.specs.Prelude.{◌≡◌, ◌≤◌, ◌==◌, ◌||◌, ◌&&◌, ℕ, List, IfOk, OnOk, length};
ghost use Rattle.std.specs.List.{list_any};
ghost use Rattle.std.specs.Str.{bytes_eq};
ghost use Rattle.cm_groups.specs.Having.{HasGroups, has_group};
ghost use Rattle.cm_groups.specs.Names.{is_among};

use crate::group::Group;
use cm_base::{Memory, ServerName};
use std::alloc::{AllocError, Global};
use std::collections::BTreeMap;

/// Adds the number, where it is not the last one already: a group may name a point many times.
fn add_once(numbers: &mut Vec<u16>, number: u16) -> Result<(), AllocError>
    ensures { OnOk result ((other : ℕ) → list_any (λ each. each == other) numbers.new.items
        ≡ (list_any (λ each. each == other) numbers.old.items || number == other)) }
{
    if numbers.last() == Some(&number) {
        return Ok(());
    }
    numbers.push(number)?;
    Ok(())
}

/// Adds the group of that number to those that have the point.
fn add_group(
    alloc: Global,
    having: &mut BTreeMap<ServerName, Vec<u16>>,
    point: &ServerName,
    number: u16,
) -> Result<(), AllocError>
    ensures { OnOk result ((name : List ℕ) (other : ℕ) → has_group having.new name other
        ≡ (has_group having.old name other || (bytes_eq point.now name && number == other))) }
{
    if let Some(numbers) = having.get_mut(point) {
        add_once(numbers, number)?;
        return Ok(());
    }
    having.insert(*point, Vec::from_slice(alloc, &[number])?)?;
    Ok(())
}

/// Adds the group of that number to those that have one of its points.
fn add_points(
    alloc: Global,
    having: &mut BTreeMap<ServerName, Vec<u16>>,
    points: &[ServerName],
    number: u16,
) -> Result<(), AllocError>
    ensures { OnOk result ((name : List ℕ) (other : ℕ) → has_group having.new name other
        ≡ (has_group having.old name other || (is_among points.now name && number == other))) }
{
    for point in points {
        add_group(alloc, having, point, number)?;
    }
    Ok(())
}

/// For each point the numbers of the groups that have it.
pub(crate) fn having_of(
    alloc: Global,
    groups: &[Group],
) -> Result<BTreeMap<ServerName, Vec<u16>>, Memory>
    requires { length groups.now ≤ 501 }
    ensures { IfOk result (λ having. HasGroups groups.now having) }
{
    let mut having = BTreeMap::new(alloc);
    for (number, group) in groups.iter().enumerate() {
        add_points(alloc, &mut having, group.points.items(), number as u16)?;
    }
    Ok(having)
}
