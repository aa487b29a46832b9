//! A bay's disk below a base folder that this process may not have.
ghost use Rattle.std.specs.Prelude.{◌≡◌, ◌≤◌, ⊤, None};
ghost use Rattle.cm_base.specs.Causes.{Rose};
ghost use Rattle.cm_disk.specs.Unknown.{Unknown};
ghost use Rattle.cm_disk.specs.UnknownLaws.{unknown, untold};

use crate::base::Access;
use cm_base::Place;
use cm_disk::{Disk, DiskFault, HostDisk};
use std::fs::File;
use std::rt::Files;

/// The real files of a bay. It tells nothing of its content, and counts each error.
///
/// Where the base folder is held it is the disk below it. Where there is no base folder it has no files and takes none. Where
/// the base folder is refused each of its calls fails.
#[derive(Drop)]
pub(crate) struct BayDisk<R: Files<File = File> + AllocGlobal + Clone + Drop> {
    pub(crate) access: Access,
    pub(crate) disk: HostDisk<R>,
    pub(crate) count: u64,
}

impl<R: Files<File = File> + AllocGlobal + Clone + Drop> BayDisk<R> {
    fn fault(&mut self) -> DiskFault
        ensures rose { Rose self.old.count self.new.count }
        ensures later { self.old.count ≤ self.new.count }
    {
        self.count = self.count.saturating_add(1);
        DiskFault
    }
}

impl<R: Files<File = File> + AllocGlobal + Clone + Drop> Disk for BayDisk<R> {
    ghost reads = { λ disk. None };

    ghost may_leave = { λ disk place file. ⊤ };

    ghost moment = { λ disk. 0 };

    ghost left_since = { λ disk t files. Unknown t files };

    ghost faults = { λ disk. disk.count };

    ghost counts_now = { λ disk t files le image. unknown t files };

    ghost only_now = { λ disk files left place. tt };

    ghost as_it_reads = { λ disk files is place. tt };

    ghost some_image = { λ disk. ((λ place. None), (λ place. tt)) };

    ghost short = { λ disk files place is. untold files is };

    fn size(&mut self, place: &Place) -> Result<Option<u64>, DiskFault> {
        match self.access {
            Access::Held => match self.disk.size(place) {
                Ok(size) => Ok(size),
                Err(_) => Err(self.fault()),
            },
            Access::Absent => Ok(None),
            Access::Refused => Err(self.fault()),
        }
    }

    fn read_at(&mut self, place: &Place, offset: u64, buf: &mut [u8]) -> Result<usize, DiskFault> {
        match self.access {
            Access::Held => match self.disk.read_at(place, offset, buf) {
                Ok(count) => Ok(count),
                Err(_) => Err(self.fault()),
            },
            Access::Absent => Ok(0),
            Access::Refused => Err(self.fault()),
        }
    }

    fn write_at(&mut self, place: &Place, offset: u64, bytes: &[u8]) -> Result<(), DiskFault> {
        match self.access {
            Access::Held => match self.disk.write_at(place, offset, bytes) {
                Ok(()) => Ok(()),
                Err(_) => Err(self.fault()),
            },
            Access::Absent => Err(self.fault()),
            Access::Refused => Err(self.fault()),
        }
    }

    fn cut(&mut self, place: &Place, size: u64) -> Result<(), DiskFault> {
        match self.access {
            Access::Held => match self.disk.cut(place, size) {
                Ok(()) => Ok(()),
                Err(_) => Err(self.fault()),
            },
            Access::Absent => Err(self.fault()),
            Access::Refused => Err(self.fault()),
        }
    }

    fn remove(&mut self, place: &Place) -> Result<(), DiskFault> {
        match self.access {
            Access::Held => match self.disk.remove(place) {
                Ok(()) => Ok(()),
                Err(_) => Err(self.fault()),
            },
            Access::Absent => Ok(()),
            Access::Refused => Err(self.fault()),
        }
    }

    fn sync(&mut self, place: &Place) -> Result<(), DiskFault> {
        match self.access {
            Access::Held => match self.disk.sync(place) {
                Ok(()) => Ok(()),
                Err(_) => Err(self.fault()),
            },
            Access::Absent => Ok(()),
            Access::Refused => Err(self.fault()),
        }
    }

    fn next_place(&mut self, after: Option<&Place>) -> Result<Option<Place>, DiskFault> {
        match self.access {
            Access::Held => match self.disk.next_place(after) {
                Ok(next) => Ok(next),
                Err(_) => Err(self.fault()),
            },
            Access::Absent => Ok(None),
            Access::Refused => Err(self.fault()),
        }
    }

    fn faults(&self) -> u64 {
        self.count
    }
}
