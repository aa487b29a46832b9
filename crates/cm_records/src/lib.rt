//! The records of a site on their disk: a log of notes, and the texts of the topologies that it names.
#![tactic(auto)]

mod laws;
mod making;
mod opening;
mod pending;
mod reading;
mod records;
mod replacing;
mod settling;
mod telling;

pub use cm_log::CreateFault;
pub use cm_state::OpenFault;
pub use cm_topo::Topology;
pub use records::Records;
