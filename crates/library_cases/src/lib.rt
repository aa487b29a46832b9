//! What the tests of the library of one server stand on: calls and their answers, libraries to begin with, and the calls that are
//! tried with faults and crashes.
//!
//! It has no tests itself, since a crate with tests is proved twice.
#![tactic(auto)]

pub mod calls;
pub mod cases;
pub mod file_cases;
pub mod libraries;
pub mod reached;
pub mod steps;
