//! The subfolders of the base folder.
use crate::names::own_name;
use cm_base::{Memory, ServerName};
use std::fs::{self, File};
use std::io;
use std::path::Path;
use std::rt::Files;

/// The names of the subfolders of a folder, without those that are no bay's. A link that leads to a folder is one, since a disk
/// goes through it. A folder that can't be listed has none.
pub(crate) fn subfolders<R: Files<File = File> + AllocGlobal + Clone + Drop>(
    rt: &R,
    folder: &str,
) -> Result<Vec<ServerName>, Memory> {
    match listed(rt, folder) {
        Ok(names) => Ok(names),
        Err(error) if error.kind() == io::ErrorKind::OutOfMemory => Err(Memory),
        Err(_) => Ok(Vec::new(rt.alloc())),
    }
}

fn listed<R: Files<File = File> + AllocGlobal + Clone + Drop>(
    rt: &R,
    folder: &str,
) -> io::Result<Vec<ServerName>> {
    let mut names = Vec::new(rt.alloc());
    for entry in fs::read_dir(rt, folder)? {
        let entry = match entry {
            Ok(entry) => entry,
            // A name that is no text is no bay's.
            Err(error) if error.kind() == io::ErrorKind::InvalidFilename => continue,
            Err(error) => return Err(error),
        };
        if let Some(name) = own_name(entry.file_name())
            && is_folder(rt, entry.path())?
        {
            names.push(name)?;
        }
    }
    Ok(names)
}

// Whether a path leads to a folder. One that leads nowhere, or can't be followed, doesn't.
fn is_folder<R: Files>(rt: &R, path: Path<'_>) -> io::Result<bool> {
    match fs::metadata(rt, path) {
        Ok(about) => Ok(about.is_dir()),
        Err(error) if error.kind() == io::ErrorKind::OutOfMemory => Err(error),
        Err(_) => Ok(false),
    }
}
