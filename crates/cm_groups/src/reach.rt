//! The further groups that a client reaches.
ghost use Rattle.std.specs.Prelude.{◌≡◌, ℕ, ◌<◌, ◌≤◌, ◌||◌, All, IfOk, filter, length};
ghost use Rattle.std.specs.List.{range_with_len};
ghost use Rattle.cm_groups.specs.Current.{AreThose, IsThere, passes};
ghost use Rattle.cm_groups.specs.Marked.{is_marked};
ghost use Rattle.cm_groups.specs.Reach.{counts, has_relation, is_default_reached, is_reached, leads_to, leads_to_default, some_current};
ghost use Rattle.cm_groups.specs.Rows.{LeadsWithin};
ghost use Rattle.cm_groups.specs.Targets.{is_marked_reached};

use crate::group::Group;
use crate::{Fallback, Groups, Marks};
use cm_base::Memory;
use std::alloc::{AllocError, Global};

/// The minutes of a relation to the default group that no text names.
const DEFAULT_MINUTES: u32 = 120;

/// Whether the relation counts after so many minutes.
fn counts(elapsed: u32, fallback: Fallback) -> bool
    ensures { result ≡ counts elapsed fallback }
{
    match fallback {
        Fallback::Never => false,
        Fallback::After(minutes) => u32::from(minutes) <= elapsed,
    }
}

/// Whether the group has a relation to that one.
fn has_relation(number: u16, group: &Group) -> bool
    ensures { result ≡ has_relation number group.now }
{
    group
        .relations
        .items()
        .iter()
        .any(|relation| relation.0 == number)
}

/// Whether the group has a relation to that one which counts.
fn leads_to(elapsed: u32, number: u16, group: &Group) -> bool
    ensures { result ≡ leads_to elapsed number group.now }
{
    group.relations.items().iter().any(|relation| relation.0 == number
        && counts(elapsed, relation.1))
}

/// Whether the group's relation to the default group counts: its own one, or else the one of 120 minutes.
fn leads_to_default(elapsed: u32, group: &Group) -> bool
    ensures { result ≡ leads_to_default elapsed group.now }
{
    if has_relation(0, group) {
        leads_to(elapsed, 0, group)
    } else {
        elapsed >= DEFAULT_MINUTES
    }
}

/// Whether the relation of the group of that number to the default group counts.
fn passes_default(groups: &[Group], number: u16, elapsed: u32) -> bool
    requires { number < length groups.now }
    ensures { result ≡ passes (leads_to_default elapsed) groups.now number }
{
    leads_to_default(elapsed, &groups[usize::from(number)])
}

/// Whether the relation of a current group to the default group counts.
fn some_passes(groups: &[Group], current: &[u16], elapsed: u32) -> bool
    requires { All (λ number. number < length groups.now) current.now }
    ensures { result ≡ some_current (leads_to_default elapsed) groups.now current.now }
{
    current
        .iter()
        .any(|number| passes_default(groups, *number, elapsed))
}

/// Whether the default group is reached.
fn is_default_reached(groups: &[Group], current: &[u16], elapsed: u32, allowed: bool) -> bool
    requires { All (λ number. number < length groups.now) current.now }
    ensures { result ≡ is_default_reached groups.now current.now elapsed allowed }
{
    allowed && (current.is_empty() || some_passes(groups, current, elapsed))
}

/// Marks the groups to which the group leads.
fn mark_targets(marks: &mut Marks, group: &Group, elapsed: u32)
    requires { LeadsWithin (length marks.now) group.now }
    ensures count { length marks.new ≡ length marks.old }
    ensures marked { (number : ℕ) → is_marked marks.new number ≡ (is_marked marks.old number || leads_to elapsed number group.now) }
{
    for relation in group.relations.items() {
        if counts(elapsed, relation.1) {
            marks.add(relation.0);
        }
    }
}

/// Marks of the groups to which current groups lead.
fn targets_of(
    alloc: Global,
    groups: &[Group],
    current: &[u16],
    elapsed: u32,
) -> Result<Marks, Memory>
    requires within { All (LeadsWithin (length groups.now)) groups.now }
    requires there { All (λ number. number < length groups.now) current.now }
    ensures { IfOk result (λ marks. (number : ℕ) → is_marked marks number ≡ some_current (leads_to elapsed number) groups.now current.now) }
{
    let mut marks = Marks::none(alloc, groups.len())?;
    for number in current {
        mark_targets(&mut marks, &groups[usize::from(*number)], elapsed);
    }
    Ok(marks)
}

/// Whether the group is reached, by the marks of the current groups and of those to which they lead.
fn is_reached(number: u16, own: &Marks, targets: &Marks, neighbours: bool, default: bool) -> bool
    ensures { result ≡ is_marked_reached own.now targets.now neighbours default number }
{
    if number == 0 {
        return default;
    }
    neighbours && !own.has(number) && targets.has(number)
}

/// The groups that are reached, by the same marks.
fn numbers_reached(
    alloc: Global,
    count: usize,
    own: &Marks,
    targets: &Marks,
    neighbours: bool,
    default: bool,
) -> Result<Vec<u16>, AllocError>
    requires { count ≤ 501 }
    ensures { IfOk result (λ numbers. numbers.items ≡ filter (is_marked_reached own.now targets.now neighbours default) (range_with_len 0 count)) }
{
    (0..count as u16)
        .filter(|number| is_reached(*number, own, targets, neighbours, default))
        .collect(alloc)
}

impl Groups {
    /// The numbers of the further groups that a client of these current groups reaches, `elapsed` minutes after it first
    /// asked, rising, each once. A neighbour is reached where neighbours are allowed, it is not current, and a current
    /// group has a relation to it that counts: one of so many minutes counts from that minute on, and `Never` at no time.
    /// The default group is reached where it is allowed and no group is current, or the relation of one to it counts: its
    /// own one, or else one of 120 minutes.
    pub fn reach(
        &self,
        alloc: Global,
        current: &[u16],
        elapsed: u32,
        neighbours: bool,
        default_group: bool,
    ) -> Result<Vec<u16>, Memory>
        requires { All (IsThere self.now) current.now }
        ensures those { IfOk result (λ numbers. AreThose (is_reached self.now current.now elapsed neighbours default_group) numbers.items) }
        ensures there { IfOk result (λ numbers. All (λ number. number < length self.now) numbers.items) }
    {
        let default = is_default_reached(&self.groups, current, elapsed, default_group);
        let own = Marks::of(alloc, self.groups.len(), current)?;
        let targets = targets_of(alloc, &self.groups, current, elapsed)?;
        Ok(numbers_reached(
            alloc,
            self.groups.len(),
            &own,
            &targets,
            neighbours,
            default,
        )?)
    }
}
