//! The rows that a library tells.
use cm_base::{Hash, JobId, PackageId, Version};

/// A version that is there: its number of files, their bytes together, and the SHA-256 of its encoded manifest.
#[derive(Clone, Copy)]
pub struct VersionRow {
    pub package: PackageId,
    pub version: Version,
    pub entries: u32,
    pub bytes: u64,
    pub hash: Hash,
}

/// An unfinished job, and the version that it is to make.
#[derive(Clone, Copy)]
pub struct JobRow {
    pub job: JobId,
    pub package: PackageId,
    pub version: Version,
    pub entries: u32,
    pub bytes: u64,
    pub hash: Hash,
}
