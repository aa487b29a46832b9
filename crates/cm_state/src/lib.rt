//! The state of a library: what files are one, what changes it, what each image of a disk opens to.
#![tactic(auto)]

mod fault;
mod laws;
mod row;
mod worked;

pub use fault::{LibFault, OpenFault};
pub use laws::{
    a_commit_opens_or, a_failed_commit_opens_or, a_tree_opens, clearing_keeps_what_opens,
    each_image_opens, every_image_opens_to_a_prefix, files_open_to_one_state, found_files_are_sure,
    needs_are_enough, storing_opens, trees_are_whole,
};
pub use row::{JobRow, VersionRow};
pub use worked::{small_logs, three_files};
