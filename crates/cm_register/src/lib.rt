//! What the records of a site keep, what each record makes of it, and what files are as records: definitions and laws.
#![tactic(auto)]

mod kept;
mod laws;
mod target;
mod worked;

pub use kept::Kept;
pub use laws::{
    a_new_log_is_empty, a_topology_more_is_read, named_are_numbered, the_log_and_its_texts_decide,
};
pub use target::{TargetRow, TargetState};
pub use worked::{odd_records, peers_change, records_change, small_logs};
