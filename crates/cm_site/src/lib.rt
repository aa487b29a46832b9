//! The commands of a site: what each refuses, what it answers, and what it changes in the libraries and the records.
#![tactic(auto)]

mod adding;
mod bay;
mod dropping;
mod fault;
mod finding;
mod giving_back;
mod init;
mod listing;
mod member;
mod opening;
mod purging;
mod records_calls;
mod reply;
mod site;
mod topology;
mod validating;
mod worked;

pub use bay::Bay;
pub use fault::SiteFault;
pub use reply::{Refusal, Reply};
pub use site::Site;
pub use worked::{
    a_topology_is_taken, bays_are_made, bays_are_opened_in_order, changes_are_of_their_bays,
    libraries_are_found, libraries_change, rows_are_counted_in_order, topologies_are_refused,
    topologies_are_refused_in_order,
};
