//! Boundary groups: which groups a client is in, and which further ones it reaches after some minutes.
#![tactic(auto)]

mod build;
mod checks;
mod current;
mod fallback;
mod fault;
mod group;
mod group_text;
mod groups;
mod having;
mod holding;
mod laws;
mod making;
mod marks;
mod named;
mod names;
mod options;
mod reach;
mod site_code;

pub use checks::{lacks_one, lead_to};
pub use fallback::Fallback;
pub use fault::GroupsFault;
pub use group_text::GroupText;
pub use groups::Groups;
pub use laws::minutes_take_no_group_away;
pub use making::held_by_groups;
pub use marks::Marks;
pub use names::{Names, names_of_boundaries, names_of_groups};
pub use options::Options;
pub use site_code::SiteCode;
