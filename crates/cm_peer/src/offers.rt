//! What a source is asked for, and what it answers.
use cm_base::{Hash, PackageId, Version};

/// What a client wants: a version whose manifest has this SHA-256.
#[derive(Clone, Copy, PartialEq, Eq)]
pub struct Want {
    pub package: PackageId,
    pub version: Version,
    pub hash: Hash,
}

/// What a source answers.
#[derive(Clone, Copy, Debug, PartialEq, Eq)]
pub enum Answer {
    /// It serves the version, whose manifest has this SHA-256.
    Serve { hash: Hash },
    /// It refuses.
    Refused(Cause),
}

/// Why a source refuses. Where several causes apply it says the first of them in this order.
#[derive(Clone, Copy, Debug, PartialEq, Eq)]
pub enum Cause {
    /// It runs on a battery that is low.
    LowBattery,
    /// Its processor is busy for more than 80 percent, for so many.
    Processor { load: u8 },
    /// More than 10 requests wait for its disk, so many.
    DiskQueue { length: u16 },
    /// It serves as many connections as it may, or more.
    NoConnection { limit: u16 },
    /// It does not have the version.
    NotCached,
}
