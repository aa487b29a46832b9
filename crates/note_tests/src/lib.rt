//! Records of a site by bytes written down by hand.
//!
//! The tests of a crate stand in a crate of their own, since a crate with tests is proved twice.
#![tactic(auto)]

#[cfg(test)]
mod cases;
#[cfg(test)]
mod edges;
#[cfg(test)]
mod kinds;
