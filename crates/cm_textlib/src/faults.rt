//! Why a text was not loaded.
ghost use Rattle.std.specs.Prelude.{◌≡◌};

use cm_disk::DiskFault;
use std::alloc::AllocError;

/// Why it is not known what text stands at a place.
#[derive(Clone, Copy, Debug, PartialEq, Eq)]
pub enum TextFault {
    /// The disk failed.
    Disk,
    /// There was no memory.
    Memory,
}

impl From<DiskFault> for TextFault {
    ghost use Rattle.cm_textlib.specs.declared.faults.TextFault.{TextFault};

    ghost from_gives = { λ _ fault. fault ≡ TextFault.Disk };

    fn from(_: DiskFault) -> Self {
        TextFault::Disk
    }
}

impl From<AllocError> for TextFault {
    ghost use Rattle.cm_textlib.specs.declared.faults.TextFault.{TextFault};

    ghost from_gives = { λ _ fault. fault ≡ TextFault.Memory };

    fn from(_: AllocError) -> Self {
        TextFault::Memory
    }
}
