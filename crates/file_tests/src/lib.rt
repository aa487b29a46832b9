//! The files of a library's jobs: what the calls on them answer, and what a crash leaves of them.
//!
//! The tests of a crate stand in a crate of their own, since a crate with tests is proved twice.
#![tactic(auto)]

#[cfg(test)]
mod purging;
#[cfg(test)]
mod reading;
#[cfg(test)]
mod refusals;
#[cfg(test)]
mod salvages;
#[cfg(test)]
mod sharing;
#[cfg(test)]
mod stops;
