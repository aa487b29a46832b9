//! The sources of a client, and what a walk over them gives.
use crate::Cause;
use cm_base::{Hash, List, ServerName};

/// What a source is.
#[derive(Clone, Copy, Debug, PartialEq, Eq)]
pub enum Kind {
    /// A distribution point.
    Point,
    /// A peer.
    Peer,
}

/// A source, with its rank among those of a client.
#[derive(Clone, Copy, PartialEq, Eq)]
pub struct SourceRow {
    pub rank: u8,
    pub kind: Kind,
    pub name: ServerName,
}

/// Why a walk went on behind a source.
#[derive(Clone, Copy, Debug, PartialEq, Eq)]
pub enum Why {
    /// The source refused.
    Cause(Cause),
    /// The link failed.
    Link,
    /// The source serves another manifest, of this SHA-256.
    OtherManifest { got: Hash },
}

/// A source that did not serve what was wanted, by its number from 0.
#[derive(Clone, Copy, PartialEq, Eq)]
pub struct Refused {
    pub source: u32,
    pub why: Why,
}

/// What a walk gives.
#[derive(Drop)]
pub struct Walk {
    /// The number of the source that serves what is wanted. None: no source does.
    pub got: Option<u32>,
    /// The sources before that one, in their order.
    pub refusals: List<Refused>,
}
