//! Distribution points, what is installed on them, and the choice of a pull point's source.
#![tactic(auto)]

mod installed;
mod point;
mod pulling;
mod retrying;

pub use installed::Installed;
pub use point::{Point, PointGroup, PullSource};
pub use pulling::pull_choice;
pub use retrying::retry;
