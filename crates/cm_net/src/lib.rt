//! Addresses, site names, boundaries, and the index from a client to its groups.
#![tactic(auto)]

mod address;
mod address_spelling;
mod address_text;
mod boundary;
mod boundary_reader;
mod boundary_spelling;
mod boundary_text;
mod entry;
mod fault;
mod four_reader;
mod gathered;
mod halves;
mod index;
mod joining;
mod meaning;
mod membership;
mod numbers;
mod reaches;
mod segments;
mod site_name;
mod site_numbers;
mod site_text;
mod sites;
mod six_groups;
mod six_reader;
mod span;
mod steps;
mod turns;

pub use address::Address;
pub use boundary::Boundary;
pub use fault::NetFault;
pub use index::Index;
pub use meaning::{each_text_is_read, one_meaning};
pub use membership::{inside, same_first_bits4, same_first_bits6};
pub use numbers::rising;
pub use site_name::SiteName;
pub use steps::Steps;
