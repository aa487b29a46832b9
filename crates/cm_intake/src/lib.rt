//! A folder is taken into a library as a version, by two readings.
#![tactic(auto)]

mod beginning;
mod calls;
mod ending;
mod fault;
mod filling;
mod firsts;
mod rereading;
mod taken;
mod taking;

pub use fault::IntakeFault;
pub use taken::Taken;
pub use taking::take_in;
