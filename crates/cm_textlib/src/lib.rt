//! The texts of topologies: each is stored under its number, made durable and loaded.
#![tactic(auto)]

mod faults;
mod laws;
mod loading;
mod places;
mod storing;

pub use faults::TextFault;
pub use laws::numbers_have_their_own_places;
pub use loading::load;
pub use places::text_at;
pub use storing::store;
