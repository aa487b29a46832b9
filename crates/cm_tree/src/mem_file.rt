//! A file of a folder in memory.

/// A file of a folder in memory.
#[derive(Drop)]
pub struct MemFile {
    pub path: Vec<u8>,
    pub bytes: Vec<u8>,
    pub later: Option<Vec<u8>>,
}
