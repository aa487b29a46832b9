//! Looking a client up among the groups.
ghost use Rattle.std.specs.Prelude.{◌≡◌, ◌<◌, ◌==◌, All, IfOk, length};
ghost use Rattle.cm_groups.specs.Current.{IsThere};
ghost use Rattle.cm_locate.specs.Asks.{IsPrefix};
ghost use Rattle.cm_locate.specs.Clients.{AreMarksOf, IsClient, allowed};
ghost use Rattle.cm_locate.specs.Eligible.{current_of, reached_of};
ghost use Rattle.cm_locate.specs.Ranks.{default_of, neighbours_of};

use crate::Ask;
use crate::allowing::allowed;
use crate::client::Client;
use crate::in_groups::some_prefers;
use cm_base::Memory;
use cm_groups::{Groups, Marks};
use std::alloc::Global;

/// The numbers of the client's current groups.
fn current_groups(alloc: Global, groups: &Groups, ask: &Ask) -> Result<Vec<u16>, Memory>
    ensures are { IfOk result (λ numbers. numbers.items ≡ current_of groups.now ask.now) }
    ensures there { IfOk result (λ numbers. All (IsThere groups.now) numbers.items) }
    ensures below { IfOk result (λ numbers. All (λ number. number < length groups.now) numbers.items) }
{
    let numbers = groups.current(alloc, ask.address, ask.site.as_ref())?;
    Ok(numbers)
}

/// The numbers of the further groups that the client reaches.
fn reached_groups(
    alloc: Global,
    groups: &Groups,
    ask: &Ask,
    current: &[u16],
) -> Result<Vec<u16>, Memory>
    requires are { current.now ≡ current_of groups.now ask.now }
    requires there { All (IsThere groups.now) current.now }
    ensures are { IfOk result (λ numbers. numbers.items ≡ reached_of groups.now ask.now) }
    ensures there { IfOk result (λ numbers. All (λ number. number < length groups.now) numbers.items) }
{
    let numbers = groups.reach(
        alloc,
        current,
        ask.elapsed,
        ask.neighbours,
        ask.default_group,
    )?;
    Ok(numbers)
}

/// The neighbours among these groups.
fn neighbours_of(alloc: Global, numbers: &[u16]) -> Result<Vec<u16>, Memory>
    ensures { IfOk result (λ found. found.items ≡ neighbours_of numbers.now) }
{
    Ok(
        numbers
            .iter()
            .copied()
            .filter(|number| *number != 0)
            .collect(alloc)?,
    )
}

/// The default group, where it is among these groups.
fn default_of(alloc: Global, numbers: &[u16]) -> Result<Vec<u16>, Memory>
    ensures { IfOk result (λ found. found.items ≡ default_of numbers.now) }
{
    Ok(
        numbers
            .iter()
            .copied()
            .filter(|number| *number == 0)
            .collect(alloc)?,
    )
}

/// Marks of these groups.
fn marks_of(alloc: Global, groups: &Groups, numbers: &[u16]) -> Result<Marks, Memory>
    requires { All (λ number. number < length groups.now) numbers.now }
    ensures { IfOk result (λ marks. AreMarksOf numbers.now marks) }
{
    Marks::of(alloc, groups.len(), numbers)
}

/// Marks of those of the groups that let a peer serve which is in the client's subnet, or is not.
fn marks_allowed(
    alloc: Global,
    groups: &Groups,
    numbers: &[u16],
    is_near: bool,
) -> Result<Marks, Memory>
    requires { All (λ number. number < length groups.now) numbers.now }
    ensures { IfOk result (λ marks. AreMarksOf (allowed groups.now is_near numbers.now) marks) }
{
    let found = allowed(alloc, groups, numbers, is_near)?;
    marks_of(alloc, groups, &found)
}

/// Marks of the neighbours among these groups.
fn marks_of_neighbours(alloc: Global, groups: &Groups, numbers: &[u16]) -> Result<Marks, Memory>
    requires { All (λ number. number < length groups.now) numbers.now }
    ensures { IfOk result (λ marks. AreMarksOf (neighbours_of numbers.now) marks) }
{
    let found = neighbours_of(alloc, numbers)?;
    marks_of(alloc, groups, &found)
}

/// Marks of the default group, where it is among these groups.
fn marks_of_default(alloc: Global, groups: &Groups, numbers: &[u16]) -> Result<Marks, Memory>
    requires { All (λ number. number < length groups.now) numbers.now }
    ensures { IfOk result (λ marks. AreMarksOf (default_of numbers.now) marks) }
{
    let found = default_of(alloc, numbers)?;
    marks_of(alloc, groups, &found)
}

impl<'a> Client<'a> {
    /// The client that asks so, among these groups.
    pub(crate) fn new(alloc: Global, groups: &'a Groups, ask: &'a Ask) -> Result<Client<'a>, Memory>
        requires { IsPrefix ask.now.address ask.now.prefix }
        ensures { IfOk result (λ client. IsClient groups.now ask.now client) }
    {
        let own = current_groups(alloc, groups, ask)?;
        let reached = reached_groups(alloc, groups, ask, &own)?;
        let current = marks_of(alloc, groups, &own)?;
        let near = marks_allowed(alloc, groups, &own, true)?;
        let far = marks_allowed(alloc, groups, &own, false)?;
        let neighbours = marks_of_neighbours(alloc, groups, &reached)?;
        let default_group = marks_of_default(alloc, groups, &reached)?;
        let prefers_points = some_prefers(groups, &own);
        Ok(Client {
            groups,
            ask,
            current,
            near,
            far,
            neighbours,
            default_group,
            prefers_points,
        })
    }
}
