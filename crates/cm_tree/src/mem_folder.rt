//! A folder in memory.
ghost use Rattle.std.specs.Prelude.{◌≡◌, true, map};
ghost use Rattle.cm_tree.specs.Paths.{is_rising};

use crate::mem_file::MemFile;

/// A folder in memory. The calls with listed numbers fail.
#[derive(Drop)]
pub struct MemFolder {
    pub(crate) files: Vec<MemFile>,
    pub(crate) fail: Vec<u64>,
    pub(crate) number: u64,
    pub(crate) faults: u64,
    ghost rising: { is_rising (map (λ file. file.path.items) files.items) ≡ true },
}
