//! The library of one server: the versions of packages, each with its manifest and its files, on a disk.
#![tactic(auto)]

mod beginning;
mod commits;
mod ending;
mod library;
mod loading;
mod making;
mod manifests;
mod opening;
mod purging;
mod putting;
mod reading;
mod records;
mod salvaging;
mod sealing;
mod settling;
mod started;
mod starting;
mod stored;
mod telling;
mod wanting;

pub use cm_log::CreateFault;
pub use cm_pkglib::Change;
pub use cm_state::{JobRow, LibFault, OpenFault, VersionRow};
pub use cm_tree as tree;
pub use library::Library;
pub use purging::{PurgeStep, Purged};
