//! The log of a shelf, in which one byte decides. A record is made durable behind the closed gate; then the gate is
//! opened by a write of one byte, and synced. `ready` is made last, and all three places are synced before they are
//! read. See docs/crash.md.
#![tactic(auto)]

mod block;
mod commit;
mod faults;
mod head;
mod laws;
mod log;
mod making;
mod opening;
mod position;
mod prefix;
mod reading;
mod shelf;
mod state;
mod whole;

pub use faults::{AppendFault, CreateFault, LogFault};
pub use laws::{records_are_read, rests_in_each_image};
pub use making::create;
pub use position::LogReader;
pub use shelf::Shelf;
pub use state::Log;
