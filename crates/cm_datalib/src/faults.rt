//! What the calls on a manifest refuse.
ghost use Rattle.std.specs.Prelude.{◌≡◌};

use cm_base::Hash;
use cm_disk::DiskFault;
use cm_tree::TreeFault;
use std::alloc::AllocError;

/// Why a stored manifest was not loaded: the first cause that holds.
#[derive(Clone, Copy, Debug, PartialEq, Eq)]
pub enum DataFault {
    /// The disk failed.
    Disk,
    /// There is no file at the place of the version.
    NotHere,
    /// The file was to have the SHA-256 `named` and `size` bytes; its SHA-256 is `got`, and it has `found` bytes.
    OtherBytes {
        named: Hash,
        got: Hash,
        size: u32,
        found: u64,
    },
    /// The bytes are those that were named, and spell no manifest.
    BadManifest {
        fault: TreeFault,
    },
    /// There was no memory.
    Memory,
}

impl From<DiskFault> for DataFault {
    ghost use Rattle.cm_datalib.specs.declared.faults.DataFault.{DataFault};

    ghost from_gives = { λ _ fault. fault ≡ DataFault.Disk };

    fn from(_: DiskFault) -> Self {
        DataFault::Disk
    }
}

impl From<AllocError> for DataFault {
    ghost use Rattle.cm_datalib.specs.declared.faults.DataFault.{DataFault};

    ghost from_gives = { λ _ fault. fault ≡ DataFault.Memory };

    fn from(_: AllocError) -> Self {
        DataFault::Memory
    }
}
