//! What the calls of a library refuse.
ghost use Rattle.std.specs.Prelude.{◌≡◌};

use cm_base::{Hash, JobId, Memory, Place};
use cm_disk::DiskFault;
use std::alloc::AllocError;

/// Why a library was not opened.
#[derive(Clone, Copy, PartialEq, Eq)]
pub enum OpenFault {
    /// The disk failed.
    Disk,
    /// There is no library.
    NoLibrary,
    /// What is there is no library, at this place from this byte on: a log at the place where it is off its form, a record
    /// that is off the grammar or refused by the rows at its gate, a log without room for the ends of its jobs and versions at
    /// its closed gate, a stored manifest that is absent or not what its record names at 0.
    Unreadable { place: Place, at: u64 },
    /// There was no memory.
    Memory,
}

/// Why a call refuses: the first cause that holds, in this order.
#[derive(Clone, Copy, Debug, PartialEq, Eq)]
pub enum LibFault {
    /// The job is not unfinished.
    NoJob,
    /// The version is not there.
    NoVersion,
    /// The version is there.
    VersionThere,
    /// That unfinished job has this package and version.
    JobThere {
        job: JobId,
    },
    /// Versions and unfinished jobs are 8,192.
    TooManyVersions,
    /// Their entries would pass 400,000.
    TooManyEntries,
    /// 256 jobs are unfinished.
    TooManyJobs,
    /// The hash is not in the job's manifest.
    Unwanted {
        hash: Hash,
    },
    /// The hash is sealed.
    Stored {
        hash: Hash,
    },
    /// That other unfinished job has started this hash, and has neither sealed it nor given it up.
    HeldBy {
        hash: Hash,
        job: JobId,
    },
    /// The job has no started file.
    NotStarted,
    /// The bytes do not go where the next ones go, which is there.
    WrongOffset {
        expected: u64,
    },
    /// The file would have more than this size, in bytes.
    TooLong {
        size: u32,
    },
    /// The file was to have this hash and size, and so many bytes with another hash or size were put.
    WrongBytes {
        named: Hash,
        size: u32,
        got: Hash,
        put: u32,
    },
    /// This is the first hash of the manifest that is not sealed, or is sealed with another size than its entry's.
    NotStored {
        hash: Hash,
    },
    /// The manifest has no such entry.
    NoEntry {
        entry: u32,
    },
    /// There is no file at the place of that hash.
    Gone {
        hash: Hash,
    },
    /// The next job number is 2^64 - 1, or the log's end is past 2^40 - 1,048,576.
    Spent,
    /// There was no memory.
    Memory,
    /// The disk failed.
    Disk,
}

impl From<DiskFault> for OpenFault {
    ghost use Rattle.cm_state.specs.declared.fault.OpenFault.{OpenFault};

    ghost from_gives = { λ _ fault. fault ≡ OpenFault.Disk };

    fn from(_: DiskFault) -> Self {
        OpenFault::Disk
    }
}

impl From<Memory> for OpenFault {
    ghost use Rattle.cm_state.specs.declared.fault.OpenFault.{OpenFault};

    ghost from_gives = { λ _ fault. fault ≡ OpenFault.Memory };

    fn from(_: Memory) -> Self {
        OpenFault::Memory
    }
}

impl From<AllocError> for OpenFault {
    ghost use Rattle.cm_state.specs.declared.fault.OpenFault.{OpenFault};

    ghost from_gives = { λ _ fault. fault ≡ OpenFault.Memory };

    fn from(_: AllocError) -> Self {
        OpenFault::Memory
    }
}

impl From<DiskFault> for LibFault {
    ghost use Rattle.cm_state.specs.declared.fault.LibFault.{LibFault};

    ghost from_gives = { λ _ fault. fault ≡ LibFault.Disk };

    fn from(_: DiskFault) -> Self {
        LibFault::Disk
    }
}

impl From<Memory> for LibFault {
    ghost use Rattle.cm_state.specs.declared.fault.LibFault.{LibFault};

    ghost from_gives = { λ _ fault. fault ≡ LibFault.Memory };

    fn from(_: Memory) -> Self {
        LibFault::Memory
    }
}

impl From<AllocError> for LibFault {
    ghost use Rattle.cm_state.specs.declared.fault.LibFault.{LibFault};

    ghost from_gives = { λ _ fault. fault ≡ LibFault.Memory };

    fn from(_: AllocError) -> Self {
        LibFault::Memory
    }
}
