//! A version or an unfinished job as the log's records name it.
use cm_base::{Hash, PackageId, Version};

/// A version of a package, and its stored manifest by the number of its entries, and by the size in bytes and the SHA-256 of
/// its encoded form.
#[derive(Clone, Copy)]
pub struct PkgRow {
    pub package: PackageId,
    pub version: Version,
    pub entries: u32,
    pub size: u32,
    pub hash: Hash,
}
