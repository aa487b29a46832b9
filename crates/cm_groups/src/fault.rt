//! What is wrong with the texts of groups.

use cm_base::Memory as NoMemory;
use std::alloc::{AllocError, AllocFailed};

/// What is wrong with the texts of groups, at an entry of a part: part 0 are the boundaries, part 1 the groups, and the
/// entries of each count from 0. Of the faults of one entry the one that stands first here is answered.
#[derive(Clone, Copy, Debug, PartialEq, Eq)]
pub enum GroupsFault {
    /// The name is that of an entry before it in its part, or a group has the name of the default group.
    SameName { part: u8, entry: u16 },
    /// A relation leads to a name that no group has.
    NoSuchGroup { part: u8, entry: u16 },
    /// A name of a boundary is that of none.
    NoSuchBoundary { part: u8, entry: u16 },
    /// A relation leads to its own group.
    SelfRelation { part: u8, entry: u16 },
    /// Two relations of the group lead to one group.
    SameRelation { part: u8, entry: u16 },
    /// A relation has more than 10,000 minutes.
    TooLongFallback { part: u8, entry: u16 },
    /// 2,000 boundaries or 500 groups stand before the entry, or the group has more than 64 relations.
    TooMany { part: u8, entry: u16 },
    /// There was no memory.
    Memory,
}

impl From<NoMemory> for GroupsFault {
    ghost use Rattle.std.specs.Prelude.{◌≡◌};
    ghost use Rattle.cm_groups.specs.declared.fault.GroupsFault.TheVariants.{Memory};

    ghost from_gives = { λ _ fault. fault ≡ Memory };

    fn from(_error: NoMemory) -> GroupsFault {
        GroupsFault::Memory
    }
}
