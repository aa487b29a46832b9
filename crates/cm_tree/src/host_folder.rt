//! A folder of the host.
ghost use Rattle.std.specs.Prelude.{◌≡◌, true, map, string_bytes};
ghost use Rattle.cm_tree.specs.Paths.{is_rising};

use std::fs::File;
use std::rt::Files;

/// A file that is kept open.
#[derive(Drop)]
pub(crate) struct OpenFile {
    pub n: u32,
    pub file: File,
}

/// The real files below one folder. It tells their paths and no bytes, and counts each error.
///
/// The folder is listed once. A path is that below the folder, its parts joined by `/`. A symbolic link is the file that it
/// leads to. Where the listing fails, each call fails: a name that is no UTF-8 text is such a failure, and so is what is
/// neither a file nor a folder, as a link that leads to a folder or nowhere. What lies below more than 119 folders is shown
/// by its folder's path with `/` at the end, which no tree takes.
#[derive(Drop)]
pub struct HostFolder<R: Files<File = File> + AllocGlobal + Clone + Drop> {
    pub(crate) rt: R,
    pub(crate) folder: String,
    pub(crate) paths: Vec<String>,
    pub(crate) is_listed: bool,
    // the file that was read last
    pub(crate) open: Option<OpenFile>,
    pub(crate) faults: u64,
    ghost rising: { is_rising (map (λ path. string_bytes path) paths.items) ≡ true },
}
