//! Peers, why they refuse, and the walk of a client over its sources.
#![tactic(auto)]

mod answering;
mod asking;
mod link;
mod mem_link;
mod mem_link_calls;
mod offers;
mod peer;
mod sources;
mod walking;

pub use link::{Link, LinkFault};
pub use mem_link::MemLink;
pub use offers::{Answer, Cause, Want};
pub use peer::{Cached, Peer, PeerState};
pub use sources::{Kind, Refused, SourceRow, Walk, Why};
pub use walking::walk;
