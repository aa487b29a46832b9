//! The groups of a site.
ghost use Rattle.std.specs.Prelude.{◌≡◌, ◌<◌, Some, length, option_map};
ghost use Rattle.std.specs.List.{slice_get};

use crate::Options;
use crate::group::Group;
use cm_base::ServerName;
use cm_net::Index;
use std::collections::BTreeMap;
use std::marker::Model;

/// The groups of a site by their numbers: 0 is the default group. Contracts see the list of them, each with its options,
/// boundaries, points and relations.
#[derive(Drop)]
pub struct Groups {
    pub(crate) groups: Vec<Group>,
    pub(crate) index: Index,
    /// For each point the numbers of the groups that have it.
    pub(crate) having: BTreeMap<ServerName, Vec<u16>>,
}

impl Model for Groups {
    ghost use Rattle.std.specs.Prelude.{List};
    ghost use Rattle.cm_groups.specs.declared.group.Group.{Group};
    ghost use Rattle.cm_groups.specs.Rows.{AreKept};

    ghost Value = { List Group };

    ghost view = { λ groups. groups.groups.items };

    ghost invariant = { λ groups. AreKept groups.groups.items groups.index groups.having };
}

impl Groups {
    /// The options of a group.
    pub fn options(&self, group: u16) -> Options
        requires { group < length self.now }
        ensures { option_map (λ each. each.options) (slice_get self.now group) ≡ Some result }
    {
        self.groups[usize::from(group)].options
    }

    /// The points of a group, in the order of its text.
    pub fn points(&self, group: u16) -> &[ServerName]
        requires { group < length self.now }
        ensures { option_map (λ each. each.points) (slice_get self.now group) ≡ Some result.now }
    {
        self.groups[usize::from(group)].points.items()
    }
}
