//! A value that counts, handed from seat to seat by the turnstile: what each turn of it promises, and the tests of `cm_turn`.
//!
//! The tests of a crate stand in a crate of their own, since a crate with tests is proved twice.
#![tactic(auto)]

mod tally;
#[cfg(test)]
mod tests;
mod turns;
mod workers;

pub use tally::{Add, At, Entry, Tally};
pub use turns::{add, at};
pub use workers::{Worker, dismissed, hired, run, work_all};
