//! Names, hashes, streams, manifests, folders, records and rows by values from outside.
//!
//! The tests of a crate stand in a crate of their own, since a crate with tests is proved twice.
#![tactic(auto)]

#[cfg(test)]
mod base;
#[cfg(test)]
mod rows;
#[cfg(test)]
mod trees;
