//! Why a library is not looked at.

/// Why a library is not looked at.
#[derive(Clone, Copy, Debug, PartialEq, Eq)]
pub enum CheckFault {
    /// The version is not there.
    NoVersion,
    /// The library's disk failed.
    Disk,
    /// There was no memory.
    Memory,
}
