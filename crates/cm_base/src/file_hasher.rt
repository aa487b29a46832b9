//! A hasher that counts.
ghost use Rattle.std.specs.Prelude.{◌≡◌, ◌+◌, ◌^◌, ◌<◌, ℕ, List, [], ◌++◌, length};
ghost use Rattle.sha2.specs.Sha256.{sha256};
ghost use Rattle.cm_base.specs.Fed.{WasFed, count_of};

use crate::Hash;
use sha2::{Digest, Sha256};

/// Gives the SHA-256 of the bytes that it is fed, and their number. How they are cut into pieces does not matter.
#[derive(Drop)]
pub struct FileHasher {
    hasher: Sha256,
    count: u64,
}

impl FileHasher {
    /// A hasher that was fed nothing.
    pub fn new() -> FileHasher
        ensures fed { WasFed result [] }
        ensures count { count_of result ≡ 0 }
    {
        FileHasher {
            hasher: Sha256::new(),
            count: 0,
        }
    }

    /// Takes a further piece. Fewer than 2^60 bytes are fed in all.
    pub fn feed(&mut self, bytes: &[u8])
        requires { count_of self.old + length bytes.now < 2 ^ 60 }
        ensures fed { (before : List ℕ) → WasFed self.old before → WasFed self.new (before ++ bytes.now) }
        ensures count { count_of self.new ≡ count_of self.old + length bytes.now }
    {
        self.hasher.update(bytes);
        self.count += bytes.len() as u64;
    }

    /// The number of bytes fed, and their SHA-256.
    pub fn done(self) -> (u64, Hash)
        ensures count { result.0 ≡ count_of self }
        ensures hash { (fed : List ℕ) → WasFed self fed → (result.0 ≡ length fed) × (result.1.0 ≡ sha256 fed) }
    {
        (self.count, Hash(self.hasher.finalize()))
    }
}
