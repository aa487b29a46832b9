//! Paths of files, manifests, trees, and the folders that they come from.
#![tactic(auto)]

mod entry;
mod file_path;
mod folder;
mod host_folder;
mod host_folder_calls;
mod host_listing;
pub mod laws;
mod manifest;
mod mem_file;
mod mem_folder;
mod mem_folder_calls;
mod mem_place;
mod mem_read;
mod raw_path;
mod reading;
mod scan_fault;
mod scanning;
mod taken;
mod tree_fault;
mod walk;

pub use entry::Entry;
pub use file_path::FilePath;
pub use folder::{Folder, FolderFault};
pub use host_folder::HostFolder;
pub use manifest::Manifest;
pub use mem_folder::MemFolder;
pub use raw_path::RawPath;
pub use scan_fault::ScanFault;
pub use scanning::{scan, scan_within};
pub use tree_fault::TreeFault;
