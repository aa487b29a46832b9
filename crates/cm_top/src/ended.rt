//! How a run ends.
use crate::{Reply, WordsFault};

/// How a run ends: the words are refused, or a command replied.
#[derive(Drop)]
pub enum Ended {
    Usage { fault: WordsFault },
    Replied { reply: Reply },
}
