//! The real files below one folder, as a disk.
ghost use Rattle.std.specs.Prelude.{◌≡◌, ◌≤◌, ⊤, None, IfOk};
ghost use Rattle.cm_base.specs.Causes.{Rose};
ghost use Rattle.cm_disk.specs.Unknown.{Unknown};
ghost use Rattle.cm_disk.specs.UnknownLaws.{unknown, untold};

use crate::host::Host;
use crate::{Disk, DiskFault};
use cm_base::{Memory, Place};
use std::fs::File;
use std::rt::Files;

/// The real files below one folder. It tells nothing of its content, and counts each error.
///
/// A place is a path below the folder, whose parts are joined by `/`. One that the host cannot hold there is a fault:
/// it is no UTF-8 text, or has a part that is empty, `.` or `..`. So is a file longer than 2^40 + 131,072 bytes, and
/// what is no file.
#[derive(Drop)]
pub struct HostDisk<R: Files<File = File> + AllocGlobal + Clone + Drop> {
    host: Host<R>,
    count: u64,
}

impl<R: Files<File = File> + AllocGlobal + Clone + Drop> HostDisk<R> {
    /// The files below a folder, which need not be there yet: it is made with the first file. An Err is want of memory.
    pub fn new(rt: R, folder: &str) -> Result<HostDisk<R>, Memory>
        ensures { IfOk result (λ disk. ⟦<HostDisk<R> as Disk>⟧.faults disk ≡ 0) }
    {
        let host = Host::new(rt, folder)?;
        Ok(HostDisk { host, count: 0 })
    }

    fn fault(&mut self) -> DiskFault
        ensures rose { Rose self.old.count self.new.count }
        ensures later { self.old.count ≤ self.new.count }
    {
        self.count = self.count.saturating_add(1);
        DiskFault
    }
}

impl<R: Files<File = File> + AllocGlobal + Clone + Drop> Disk for HostDisk<R> {
    ghost reads = { λ disk. None };

    ghost may_leave = { λ disk place file. ⊤ };

    ghost moment = { λ disk. 0 };

    ghost left_since = { λ disk t files. Unknown t files };

    ghost faults = { λ disk. disk.count };

    ghost counts_now = { λ disk t files le image. unknown t files };

    ghost only_now = { λ disk files left place. tt };

    ghost as_it_reads = { λ disk files is place. tt };

    ghost some_image = { λ disk. ((λ place. None), (λ place. tt)) };

    ghost short = { λ disk files place is. untold files is };

    fn size(&mut self, place: &Place) -> Result<Option<u64>, DiskFault> {
        match self.host.size(place) {
            Ok(size) => Ok(size),
            Err(_) => Err(self.fault()),
        }
    }

    fn read_at(&mut self, place: &Place, offset: u64, buf: &mut [u8]) -> Result<usize, DiskFault> {
        match self.host.read_at(place, offset, buf) {
            Ok(count) => Ok(count),
            Err(_) => Err(self.fault()),
        }
    }

    fn write_at(&mut self, place: &Place, offset: u64, bytes: &[u8]) -> Result<(), DiskFault> {
        match self.host.write_at(place, offset, bytes) {
            Ok(()) => Ok(()),
            Err(_) => Err(self.fault()),
        }
    }

    fn cut(&mut self, place: &Place, size: u64) -> Result<(), DiskFault> {
        match self.host.cut(place, size) {
            Ok(()) => Ok(()),
            Err(_) => Err(self.fault()),
        }
    }

    fn remove(&mut self, place: &Place) -> Result<(), DiskFault> {
        match self.host.remove(place) {
            Ok(()) => Ok(()),
            Err(_) => Err(self.fault()),
        }
    }

    fn sync(&mut self, place: &Place) -> Result<(), DiskFault> {
        match self.host.sync(place) {
            Ok(()) => Ok(()),
            Err(_) => Err(self.fault()),
        }
    }

    fn next_place(&mut self, after: Option<&Place>) -> Result<Option<Place>, DiskFault> {
        match self.host.next_place(after) {
            Ok(next) => Ok(next),
            Err(_) => Err(self.fault()),
        }
    }

    fn faults(&self) -> u64 {
        self.count
    }
}
