//! Why a folder is not taken in.
use cm_base::Hash;
use cm_tree::FilePath;

/// Why a folder is not taken in as a version. Entries are numbered from 0.
#[derive(Clone, Copy)]
pub enum IntakeFault {
    /// The folder failed. Where it failed as a file was read again, the job that had begun was dropped.
    Folder,
    /// The folder has more than 20,000 files.
    TooManyFiles,
    /// This path of the folder is off the grammar of paths.
    BadPath {
        entry: u32,
    },
    /// This path of the folder equals an earlier one but for the case of letters.
    SamePath {
        entry: u32,
    },
    /// This file of the folder has more than 4,294,967,295 bytes.
    FileTooLong {
        entry: u32,
    },
    /// The library has as many versions and unfinished jobs as it may.
    TooManyVersions,
    /// The library's entries would pass their limit.
    TooManyEntries,
    /// The library has as many unfinished jobs as it may.
    TooManyJobs,
    /// The library's job numbers are used up, or its log has no room for a job.
    Spent,
    /// A file had other bytes when it was read again, up to the size that it had first. The job that had begun was dropped.
    Changed {
        path: FilePath,
        first: Hash,
        first_size: u32,
        second: Hash,
        second_size: u32,
    },
    /// The library's disk failed.
    Disk,
    /// There was no memory.
    Memory,
}
