//! Files under their hashes: each is written in pieces and sealed, salvaged, read, walked and erased.
#![tactic(auto)]

mod erasing;
mod faults;
pub mod laws;
mod places;
mod putting;
mod reading;
mod salvaging;
mod walking;
mod writing;

pub use erasing::erase;
pub use faults::{FileFault, SealFault};
pub use places::hash_at;
pub use putting::{put, seal, start};
pub use reading::{file_size, read_at};
pub use salvaging::salvage;
pub use walking::next;
pub use writing::Writing;
