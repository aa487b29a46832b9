//! What records tell.
ghost use Rattle.std.specs.Prelude.{◌≡◌, option_map};

use crate::records::Records;
use cm_disk::Disk;
use cm_topo::Topology;

impl<D: Disk> Records<D> {
    /// The topology. None before the first one.
    pub fn topology(&self) -> Option<&Topology>
        ensures { option_map (λ topology. topology.now) result ≡ self.now.kept.topology }
    {
        self.kept.topology()
    }

    /// The greatest number of a topology, 0 before the first one.
    pub fn number(&self) -> u32
        ensures { result ≡ self.now.kept.number }
    {
        self.kept.number()
    }

    /// The place of the log's closed gate.
    pub fn end(&self) -> u64
        ensures { result ≡ self.now.end }
    {
        self.log.end()
    }

    /// How often the disk has failed.
    pub fn faults(&self) -> u64
        ensures { result ≡ D.faults self.now.disk }
    {
        self.disk.faults()
    }

    /// Gives the disk back.
    pub fn close(self) -> D
        ensures { result ≡ self.disk }
    {
        let Records {
            disk,
            start: _,
            log: _,
            kept: _,
            pending: _,
        } = self;
        disk
    }
}
