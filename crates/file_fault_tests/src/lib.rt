//! The files of a library's jobs, where the disk fails the calls on them.
//!
//! The tests of a crate stand in a crate of their own, since a crate with tests is proved twice.
#![tactic(auto)]

#[cfg(test)]
mod faults;
#[cfg(test)]
mod purging;
#[cfg(test)]
mod reading;
#[cfg(test)]
mod unsettled;
