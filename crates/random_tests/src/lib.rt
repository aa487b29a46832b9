//! A library against a plain list, in random runs of calls, faults, crashes and openings.
//!
//! The tests of a crate stand in a crate of their own, since a crate with tests is proved twice.
#![tactic(auto)]

#[cfg(test)]
mod plain;
#[cfg(test)]
mod plain_files;
#[cfg(test)]
mod runs;
