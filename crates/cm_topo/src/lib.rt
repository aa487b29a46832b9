//! The topology of a site, read from its text in TOML.
#![tactic(auto)]

mod entries;
mod fault;
mod keys;
mod known;
mod meaning;
mod reading;
mod rows;
mod rules;
mod second_pass;
mod topology;
mod topology_text;
mod trouble;

pub use fault::TopoFault;
pub use meaning::{each_topology_is_sound, no_text_wants_memory};
pub use reading::read_topology;
pub use topology::Topology;
