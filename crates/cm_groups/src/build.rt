//! Groups from texts.
ghost use Rattle.std.specs.Prelude.{◌≡◌, None, All, IfErr, IfOk, OnOk};
ghost use Rattle.cm_net.specs.Boundaries.{IsSound};
ghost use Rattle.cm_groups.specs.Faults.{IsFirst, first_fault};
ghost use Rattle.cm_groups.specs.Groups.{groups_of};

use crate::checks::first_fault;
use crate::making::held_by_groups;
use crate::names::{names_of_boundaries, names_of_groups};
use crate::{GroupText, Groups, GroupsFault, SiteCode};
use cm_base::{Label, ServerName};
use cm_net::Boundary;
use std::alloc::Global;

impl Groups {
    /// The groups that the texts describe: the default group with these points has number 0, the others follow in order.
    /// The boundaries are gone through first, then the groups, and the fault of the first entry that has one is answered.
    /// `Memory` may be answered at any time.
    pub fn build(
        alloc: Global,
        code: SiteCode,
        boundaries: Vec<(Label, Boundary)>,
        groups: Vec<GroupText>,
        default_points: Vec<ServerName>,
    ) -> Result<Groups, GroupsFault>
        requires { All (λ row. IsSound row.1) boundaries.items }
        ensures groups { IfOk result (λ built. built ≡ groups_of code boundaries.items groups.items default_points.items) }
        ensures faultless { OnOk result (first_fault code boundaries.items groups.items ≡ None) }
        ensures fault { IfErr result (IsFirst (first_fault code boundaries.items groups.items)) }
    {
        let rows = boundaries;
        let names = names_of_boundaries(alloc, &rows)?;
        let group_names = names_of_groups(alloc, code, &groups)?;
        if let Some(fault) = first_fault(&names, &group_names, &groups) {
            return Err(fault);
        }
        let held = held_by_groups(alloc, &names, &rows, &groups)?;
        let made = Groups::of_names(
            alloc,
            code,
            &rows,
            &group_names,
            groups,
            held,
            default_points,
        )?;
        Ok(made)
    }
}
