//! A library is looked at: which files of a version are not what its manifest says, and which places no state needs.
#![tactic(auto)]

mod calls;
mod fault;
mod finding;
mod hashing;
mod listing;
mod validating;

pub use fault::CheckFault;
pub use finding::{Finding, FindingKind};
pub use listing::what_if;
pub use validating::validate;
