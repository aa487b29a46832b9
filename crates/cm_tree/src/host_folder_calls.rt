//! The calls of a folder of the host.
ghost use Rattle.std.specs.Prelude.{◌≡◌, ◌≤◌, [], length, codes, IfOk};
ghost use Rattle.cm_base.specs.Causes.{Rose};

use crate::host_folder::OpenFile;
use crate::host_listing::{are_rising, joined, listed, raw_of};
use crate::{Folder, FolderFault, HostFolder, RawPath};
use cm_base::Memory;
use std::fs::{self, File};
use std::io;
use std::os::unix::fs::FileExt;
use std::rt::Files;

/// Reads a file from an offset on, and keeps it open.
fn read_from<R: Files<File = File> + AllocGlobal>(
    rt: &R,
    folder: &str,
    path: &str,
    n: u32,
    open: &mut Option<OpenFile>,
    offset: u64,
    buf: &mut [u8],
) -> io::Result<usize>
    ensures { IfOk result (λ count. count ≤ length buf.new) }
{
    let file = match open.take() {
        Some(OpenFile { n: last, file }) if last == n => file,
        _ => fs::open(rt, joined(rt, folder, path)?.as_str())?,
    };
    let count = file.read_at(buf, offset)?;
    *open = Some(OpenFile { n, file });
    Ok(count)
}

impl<R: Files<File = File> + AllocGlobal + Clone + Drop> HostFolder<R> {
    /// The files below a folder, which is listed now. Below `-` there are none.
    pub fn new(rt: R, folder: &str) -> Result<HostFolder<R>, Memory>
        ensures faults { IfOk result (λ host. ⟦<HostFolder<R> as Folder>⟧.faults host ≡ 0) }
        ensures none { folder.now ≡ codes "-" → IfOk result (λ host. (⟦<HostFolder<R> as Folder>⟧.shows host).paths ≡ []) }
    {
        let name = String::from_str(rt.alloc(), folder)?;
        let none = Vec::new(rt.alloc());
        if folder == "-" {
            return Ok(HostFolder {
                rt,
                folder: name,
                paths: none,
                is_listed: true,
                open: None,
                faults: 0,
            });
        }
        match listed(&rt, folder) {
            Ok(paths) if are_rising(&paths) => Ok(HostFolder {
                rt,
                folder: name,
                paths,
                is_listed: true,
                open: None,
                faults: 0,
            }),
            Err(e) if e.kind() == io::ErrorKind::OutOfMemory => Err(Memory),
            _ => Ok(HostFolder {
                rt,
                folder: name,
                paths: none,
                is_listed: false,
                open: None,
                faults: 0,
            }),
        }
    }

    fn fault(&mut self) -> FolderFault
        ensures rose { Rose self.old.faults self.new.faults }
        ensures later { self.old.faults ≤ self.new.faults }
        ensures paths { self.new.paths ≡ self.old.paths }
    {
        self.faults = self.faults.saturating_add(1);
        FolderFault
    }
}

impl<R: Files<File = File> + AllocGlobal + Clone + Drop> Folder for HostFolder<R> {
    ghost use Rattle.cm_tree.specs.HostFolders.{host_shown};

    ghost shows = { λ host. host_shown host.paths.items };

    ghost faults = { λ host. host.faults };

    fn path_at(&mut self, n: u32) -> Result<Option<RawPath>, FolderFault> {
        if self.is_listed {
            Ok(raw_of(&self.paths, n))
        } else {
            Err(self.fault())
        }
    }

    fn read_at(&mut self, n: u32, offset: u64, buf: &mut [u8]) -> Result<usize, FolderFault> {
        let at = n as usize;
        if at >= self.paths.len() {
            return Ok(0);
        }
        let path = &self.paths[at];
        let folder = self.folder.as_str();
        match read_from(
            &self.rt,
            folder,
            path.as_str(),
            n,
            &mut self.open,
            offset,
            buf,
        ) {
            Ok(count) => Ok(count),
            Err(_) => Err(self.fault()),
        }
    }

    ghost rising = { λ host. host.rising };
}
