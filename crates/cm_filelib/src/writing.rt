//! Where the writing of a file stands.
ghost use Rattle.std.specs.Prelude.{◌≡◌, ◌≤◌};
ghost use Rattle.cm_base.specs.Fed.{count_of};

use cm_base::{FileHasher, Hash};

/// A file that is being written: its hash, its size, where the next piece goes, and a hasher of the bytes put so far.
#[derive(Drop)]
pub struct Writing {
    pub(crate) hash: Hash,
    pub(crate) size: u32,
    pub(crate) next: u64,
    pub(crate) hasher: FileHasher,
    // A put has failed, so what stands at the place is not known.
    pub(crate) spent: bool,
    ghost next_is: { count_of hasher ≡ next },
    ghost within: { next ≤ size },
}

impl Writing {
    ghost use Rattle.cm_filelib.specs.Writings.{hash_of, size_of, next_of};

    /// The SHA-256 that the file is to have.
    pub fn hash(&self) -> Hash
        ensures { result ≡ hash_of self.now }
    {
        self.hash
    }

    /// The size that the file is to have, in bytes.
    pub fn size(&self) -> u32
        ensures { result ≡ size_of self.now }
    {
        self.size
    }

    /// Where the next piece goes: how many bytes were put so far.
    pub fn next(&self) -> u64
        ensures { result ≡ next_of self.now }
    {
        self.next
    }
}
