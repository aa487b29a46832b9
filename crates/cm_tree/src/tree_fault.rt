//! Why bytes are no manifest.
ghost use Rattle.std.specs.Prelude.{◌≡◌};
ghost use Rattle.cm_tree.specs.declared.tree_fault.TreeFault.TheVariants.{Memory as out_of_memory};

use std::alloc::{AllocError, AllocFailed};

/// Why bytes are no manifest: the first fault. The header is looked at first, then the number of entries, then each entry in
/// order (its form, its path, the order, the same path), then that no byte follows.
#[derive(Clone, Copy, Debug, PartialEq, Eq)]
pub enum TreeFault {
    /// The field that begins at this place has a wrong value, or the bytes end at this place inside a field.
    BadForm { at: u32 },
    /// The path of this entry is not of its form.
    BadPath { entry: u32 },
    /// The path of this entry does not stand behind the one before.
    Unsorted { entry: u32 },
    /// The path of this entry is the same as an earlier one after folding A to Z.
    SamePath { entry: u32 },
    /// There are more than 20,000 entries.
    TooManyFiles,
    /// There was no memory.
    Memory,
}

impl From<AllocError> for TreeFault {
    ghost from_gives = { λ _ e. e ≡ out_of_memory };

    fn from(_error: AllocError) -> TreeFault {
        TreeFault::Memory
    }
}

impl<T: Drop> From<AllocFailed<T>> for TreeFault {
    ghost from_gives = { λ _ e. e ≡ out_of_memory };

    fn from(_error: AllocFailed<T>) -> TreeFault {
        TreeFault::Memory
    }
}

impl From<cm_base::Memory> for TreeFault {
    ghost from_gives = { λ _ e. e ≡ out_of_memory };

    fn from(_error: cm_base::Memory) -> TreeFault {
        TreeFault::Memory
    }
}
