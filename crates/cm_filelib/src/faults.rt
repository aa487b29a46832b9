//! What the calls on a file refuse.
ghost use Rattle.std.specs.Prelude.{◌≡◌};

use cm_base::Hash;
use cm_disk::DiskFault;

/// Why a piece was not put.
#[derive(Clone, Copy, Debug, PartialEq, Eq)]
pub enum FileFault {
    /// The piece does not begin where the bytes put so far end, at `expected`.
    WrongOffset { expected: u64 },
    /// The piece would pass the size of the file.
    TooLong { size: u32 },
    /// The disk failed. Only `start` goes on.
    Disk,
}

/// Why a file was not sealed.
#[derive(Clone, Copy, Debug, PartialEq, Eq)]
pub enum SealFault {
    /// The file was to have the SHA-256 `named` and `size` bytes; `put` bytes were put, and their SHA-256 is `got`.
    WrongBytes {
        named: Hash,
        size: u32,
        got: Hash,
        put: u32,
    },
    /// The disk failed.
    Disk,
}

impl From<DiskFault> for SealFault {
    ghost use Rattle.cm_filelib.specs.declared.faults.SealFault.{SealFault};

    ghost from_gives = { λ _ fault. fault ≡ SealFault.Disk };

    fn from(_: DiskFault) -> Self {
        SealFault::Disk
    }
}
