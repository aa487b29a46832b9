//! One file of a manifest.
use crate::FilePath;
use cm_base::Hash;

/// One file of a manifest.
#[derive(Clone, Copy)]
pub struct Entry {
    /// Where the file stands in the tree.
    pub path: FilePath,
    /// How many bytes it has.
    pub size: u32,
    /// The SHA-256 of its bytes.
    pub hash: Hash,
}
