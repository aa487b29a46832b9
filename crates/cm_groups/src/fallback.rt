//! When a client falls back to another group.

/// When the clients of a group fall back to another group.
#[derive(Clone, Copy, Debug, PartialEq, Eq)]
pub enum Fallback {
    /// At no time.
    Never,
    /// From this minute on, where the client asked first at minute 0.
    After(u16),
}
