//! Groups by names that were found before.
ghost use Rattle.std.specs.Prelude.{◌≡◌, ◌≤◌, All, IfOk, length, map};
ghost use Rattle.cm_net.specs.Boundaries.{IsSound};
ghost use Rattle.cm_groups.specs.Groups.{groups_of, held_by};
ghost use Rattle.cm_groups.specs.Texts.{group_names};

use crate::having::having_of;
use crate::making::{groups_with, numbered, numbers_of};
use crate::{GroupText, Groups, Names, SiteCode};
use cm_base::{Label, List, Memory, ServerName};
use cm_net::{Boundary, Index};
use std::alloc::Global;

impl Groups {
    /// The groups that the texts describe, by the names of groups, and by the boundaries that `held_by_groups` found for each: as
    /// `build` makes them, for texts that were looked through before. A name of a boundary or of a group that is not there is left
    /// out.
    pub fn of_names(
        alloc: Global,
        code: SiteCode,
        rows: &[(Label, Boundary)],
        groups: &Names<Label>,
        texts: Vec<GroupText>,
        held: Vec<List<Boundary>>,
        default_points: Vec<ServerName>,
    ) -> Result<Groups, Memory>
        requires sound { All (λ row. IsSound row.1) rows.now }
        requires held { held.items ≡ map (λ text. held_by rows.now text) texts.items }
        requires groups { groups.now ≡ group_names code texts.items }
        requires few { length texts.items ≤ 500 }
        ensures { IfOk result (λ made. made ≡ groups_of code rows.now texts.items default_points.items) }
    {
        let _code = code;
        let numbers = numbers_of(alloc, held.len() as u16)?;
        let lists = List::of(numbered(alloc, held, numbers)?);
        let index = Index::of_lists(alloc, &lists)?;
        let lists = lists.into_items();
        let made = groups_with(alloc, rows, groups, texts, lists, default_points)?;
        let having = having_of(alloc, &made)?;
        Ok(Groups {
            groups: made,
            index,
            having,
        })
    }
}
