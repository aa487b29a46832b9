//! What was taken in.

/// How many files were taken in, and how many bytes they have together.
#[derive(Clone, Copy, Debug, PartialEq, Eq)]
pub struct Taken {
    pub files: u32,
    pub bytes: u64,
}
