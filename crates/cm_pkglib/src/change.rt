//! What a record of a library's log says.
use cm_base::{Hash, JobId, PackageId, Version};

/// A change of a library's rows.
#[derive(Clone, Copy)]
pub enum Change {
    /// A job begins for a version, whose manifest has this many entries, and this size in bytes and SHA-256 when encoded.
    Opened {
        job: JobId,
        package: PackageId,
        version: Version,
        entries: u32,
        size: u32,
        hash: Hash,
    },
    /// The version of a job is there.
    Done {
        job: JobId,
    },
    /// A job is given up.
    Dropped {
        job: JobId,
    },
    /// A version is removed.
    Removed {
        package: PackageId,
        version: Version,
    },
}
