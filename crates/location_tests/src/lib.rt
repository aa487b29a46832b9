//! Locations and topologies by values from outside.
//!
//! The tests of a crate stand in a crate of their own, since a crate with tests is proved twice.
#![tactic(auto)]

#[cfg(test)]
mod locations;
#[cfg(test)]
mod topologies;
