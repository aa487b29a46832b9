//! The paths that were taken already.
ghost use Rattle.std.specs.Prelude.{◌≡◌, ℕ, [], ◌∷◌, ◌++◌, List, map, not, true, IfOk};

use crate::FilePath;
use cm_base::{Memory, ShortText};
use std::alloc::Global;
use std::collections::BTreeSet;

/// The folded paths that were taken already.
#[derive(Drop)]
pub(crate) struct Taken {
    folded: BTreeSet<ShortText<240>>,
}

impl Taken {
    ghost use Rattle.cm_tree.specs.Paths.{folded_path, has_path};
    ghost use Rattle.cm_tree.specs.Taking.{HasTaken};

    /// No path is taken.
    pub(crate) fn new(alloc: Global) -> Taken
        ensures { HasTaken result [] }
    {
        Taken {
            folded: BTreeSet::new(alloc),
        }
    }

    /// Takes a path. False where one is taken that is the same after folding; then nothing changes.
    pub(crate) fn take(&mut self, path: &FilePath) -> Result<bool, Memory>
        ensures fresh { IfOk result (λ fresh. (paths : List (List ℕ)) → HasTaken self.old paths → fresh ≡ not (has_path (map folded_path paths) (folded_path path.now))) }
        ensures more { IfOk result (λ fresh. (paths : List (List ℕ)) → HasTaken self.old paths → fresh ≡ true → HasTaken self.new (paths ++ path.now ∷ [])) }
    {
        Ok(self.folded.insert(path.folded())?)
    }
}
