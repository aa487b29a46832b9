//! Stored manifests: each is stored at the place of its version, loaded, walked and erased.
#![tactic(auto)]

mod erasing;
mod faults;
pub mod laws;
mod loading;
mod places;
mod putting;
mod spelling;
mod storing;
mod syncing;
mod walking;

pub use erasing::erase;
pub use faults::DataFault;
pub use loading::load;
pub use places::version_at;
pub use storing::store;
pub use syncing::sync;
pub use walking::next;
