//! What the calls on a log refuse.
ghost use Rattle.std.specs.Prelude.{◌≡◌};

use cm_base::Place;
use cm_disk::DiskFault;

/// Why no log was made.
#[derive(Clone, Copy, Debug, PartialEq, Eq)]
pub enum CreateFault {
    /// `ready` is there.
    AlreadyThere,
    /// The disk failed.
    Disk,
}

/// Why a log was not read.
#[derive(Clone, Copy, PartialEq, Eq)]
pub enum LogFault {
    /// The disk failed.
    Disk,
    /// `ready` is absent.
    NoLibrary,
    /// The file at this place is off the log's form, and its first bad byte is number `at`.
    Unreadable { place: Place, at: u64 },
}

/// Why a record was not added.
#[derive(Clone, Copy, Debug, PartialEq, Eq)]
pub enum AppendFault {
    /// The body has more than 65,536 bytes.
    TooLong { len: usize },
    /// The log would pass 2^40 bytes.
    Full,
    /// The disk failed. The record is there or not, until `settle` tells.
    Disk,
}

impl From<DiskFault> for CreateFault {
    ghost use Rattle.cm_log.specs.declared.faults.CreateFault.{CreateFault};

    ghost from_gives = { λ _ fault. fault ≡ CreateFault.Disk };

    fn from(_: DiskFault) -> Self {
        CreateFault::Disk
    }
}

impl From<DiskFault> for LogFault {
    ghost use Rattle.cm_log.specs.declared.faults.LogFault.{LogFault};

    ghost from_gives = { λ _ fault. fault ≡ LogFault.Disk };

    fn from(_: DiskFault) -> Self {
        LogFault::Disk
    }
}

impl From<DiskFault> for AppendFault {
    ghost use Rattle.cm_log.specs.declared.faults.AppendFault.{AppendFault};

    ghost from_gives = { λ _ fault. fault ≡ AppendFault.Disk };

    fn from(_: DiskFault) -> Self {
        AppendFault::Disk
    }
}
