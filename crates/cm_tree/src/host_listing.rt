//! The paths of the files below a folder of the host.
ghost use Rattle.std.specs.Prelude.{◌≡◌, true, string_bytes};
ghost use Rattle.std.specs.Bool.{OnTrue};
ghost use Rattle.cm_tree.specs.Paths.{is_before, is_rising};
ghost use Rattle.cm_tree.specs.Folders.{raw_path};
ghost use Rattle.cm_tree.specs.HostFolders.{texts_of, host_shown};

use crate::RawPath;
use std::fs::File;
use std::rt::Files;
use std::{fs, io};

// A path of 240 bytes has at most 119 folders above it.
const LEVELS: u32 = 120;

/// The paths of all files below a folder, in the order of their bytes. A link is the file that it leads to.
pub(crate) fn listed<R: Files<File = File> + AllocGlobal + Clone + Drop>(
    rt: &R,
    folder: &str,
) -> io::Result<Vec<String>> {
    let mut paths = Vec::new(rt.alloc());
    let mut level = Vec::new(rt.alloc());
    level.push(String::new(rt.alloc()))?;
    for _ in 0..LEVELS {
        let mut below = Vec::new(rt.alloc());
        for prefix in &level {
            list_one(rt, folder, prefix.as_str(), &mut paths, &mut below)?;
        }
        level = below;
        if level.is_empty() {
            break;
        }
    }
    // What lies deeper stands for itself by its folder, whose path no tree takes.
    for prefix in level {
        paths.push(prefix)?;
    }
    paths.sort_unstable();
    Ok(paths)
}

// The files right in one folder, and the folders there, each with a slash behind it.
fn list_one<R: Files<File = File> + AllocGlobal + Clone + Drop>(
    rt: &R,
    folder: &str,
    prefix: &str,
    paths: &mut Vec<String>,
    below: &mut Vec<String>,
) -> io::Result<()> {
    let path = joined(rt, folder, prefix)?;
    for entry in fs::read_dir(rt, path.as_str())? {
        let entry = entry?;
        let mut name = String::from_str(rt.alloc(), prefix)?;
        name.push_str(entry.file_name())?;
        let about = entry.metadata()?;
        if about.is_dir() {
            name.push('/')?;
            below.push(name)?;
        } else if about.is_file() || leads_to_file(rt, folder, name.as_str())? {
            paths.push(name)?;
        } else {
            return Err(io::ErrorKind::Unsupported.into());
        }
    }
    Ok(())
}

fn leads_to_file<R: Files<File = File> + AllocGlobal>(
    rt: &R,
    folder: &str,
    name: &str,
) -> io::Result<bool> {
    let path = joined(rt, folder, name)?;
    Ok(fs::metadata(rt, path.as_str())?.is_file())
}

/// The path of what a name names below a folder.
pub(crate) fn joined<R: AllocGlobal>(rt: &R, folder: &str, name: &str) -> io::Result<String> {
    let mut path = String::from_str(rt.alloc(), folder)?;
    if !folder.ends_with('/') {
        path.push('/')?;
    }
    path.push_str(name)?;
    Ok(path)
}

fn stands_before(path: &String, other: &String) -> bool
    ensures { result ≡ is_before (string_bytes path.now) (string_bytes other.now) }
{
    path.as_bytes().cmp(other.as_bytes()).is_lt()
}

/// Whether each path stands before the next.
pub(crate) fn are_rising(paths: &[String]) -> bool
    ensures { OnTrue result (is_rising (texts_of paths.now) ≡ true) }
{
    for i in 1..paths.len() {
        if !stands_before(&paths[i - 1], &paths[i]) {
            return false;
        }
    }
    true
}

/// The front of one of the paths.
pub(crate) fn raw_of(paths: &[String], n: u32) -> Option<RawPath>
    ensures { result ≡ raw_path (host_shown paths.now) n }
{
    let at = n as usize;
    if at >= paths.len() {
        return None;
    }
    let path = &paths[at];
    Some(RawPath::first_of(path.as_bytes()))
}
