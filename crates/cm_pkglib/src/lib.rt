//! The changes of a library as records, and the rows that they make.
#![tactic(auto)]

mod change;
mod counts;
mod decode;
mod encode;
mod fault;
mod laws;
mod moves;
mod row;
mod rows;
mod search;

pub use change::Change;
pub use counts::{Counts, Seal};
pub use fault::RowFault;
pub use laws::{
    records_are_read, replay_goes_in_parts, replay_stays_valid, sealed_are_named, spellings_are_own,
};
pub use row::PkgRow;
pub use rows::Rows;
