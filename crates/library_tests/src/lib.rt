//! The versions and jobs of a library: what the calls on them answer, what settling finds after a fault, and what a crash leaves.
//!
//! The tests of a crate stand in a crate of their own, since a crate with tests is proved twice.
#![tactic(auto)]

#[cfg(test)]
mod answers;
#[cfg(test)]
mod faults;
#[cfg(test)]
mod seals;
#[cfg(test)]
mod stops;
