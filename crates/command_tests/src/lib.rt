//! The commands over disks in memory: texts, statuses and bytes by values from outside, and what a crash leaves.
//!
//! The tests of a crate stand in a crate of their own, since a crate with tests is proved twice.
#![tactic(auto)]

#[cfg(test)]
mod add;
#[cfg(test)]
mod bays;
#[cfg(test)]
mod cases;
#[cfg(test)]
mod changed;
#[cfg(test)]
mod dropping;
#[cfg(test)]
mod fakes;
#[cfg(test)]
mod faults;
#[cfg(test)]
mod init;
#[cfg(test)]
mod limits;
#[cfg(test)]
mod list;
#[cfg(test)]
mod purge;
#[cfg(test)]
mod purge_stops;
#[cfg(test)]
mod stops;
#[cfg(test)]
mod three;
#[cfg(test)]
mod topology;
#[cfg(test)]
mod unreadable;
#[cfg(test)]
mod update;
#[cfg(test)]
mod validate;
#[cfg(test)]
mod word_table;
