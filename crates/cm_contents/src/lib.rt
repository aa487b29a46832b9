//! What a library keeps in memory: the versions and the unfinished jobs with their manifests, and the rows that are told.
#![tactic(auto)]

mod contents;
mod counting;
mod told;
mod wants;

pub use contents::{Contents, Manifests};
pub use counting::{count_all, count_taken, make, not_stored, seal, uncount_taken};
pub use wants::Wants;
