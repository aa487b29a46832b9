//! Why a folder gives no tree.
ghost use Rattle.std.specs.Prelude.{◌≡◌};
ghost use Rattle.cm_tree.specs.declared.scan_fault.ScanFault.TheVariants.{Folder as of_folder, Memory as out_of_memory};

use crate::FolderFault;
use std::alloc::{AllocError, AllocFailed};

/// Why a folder gives no tree: the first fault. The path that is one too many is asked for first. Then the files are taken in
/// order: the form of the path, the same path, the length.
#[derive(Clone, Copy, Debug, PartialEq, Eq)]
pub enum ScanFault {
    /// The folder failed, and counted it.
    Folder,
    /// There are more files than the most that are taken.
    TooManyFiles,
    /// The path of this file, from 0, is not of the form of a path.
    BadPath { entry: u32 },
    /// The path of this file is the same as an earlier one after folding A to Z.
    SamePath { entry: u32 },
    /// More bytes of this file came than the most that are taken.
    FileTooLong { entry: u32 },
    /// There was no memory.
    Memory,
}

impl From<FolderFault> for ScanFault {
    ghost from_gives = { λ _ e. e ≡ of_folder };

    fn from(_fault: FolderFault) -> ScanFault {
        ScanFault::Folder
    }
}

impl From<AllocError> for ScanFault {
    ghost from_gives = { λ _ e. e ≡ out_of_memory };

    fn from(_error: AllocError) -> ScanFault {
        ScanFault::Memory
    }
}

impl<T: Drop> From<AllocFailed<T>> for ScanFault {
    ghost from_gives = { λ _ e. e ≡ out_of_memory };

    fn from(_error: AllocFailed<T>) -> ScanFault {
        ScanFault::Memory
    }
}

impl From<cm_base::Memory> for ScanFault {
    ghost from_gives = { λ _ e. e ≡ out_of_memory };

    fn from(_error: cm_base::Memory) -> ScanFault {
        ScanFault::Memory
    }
}
