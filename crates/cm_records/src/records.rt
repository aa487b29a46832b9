//! The records of a site.
use crate::pending::Pending;
use cm_disk::Disk;
use cm_log::Log;
use cm_register::Kept;
use std::marker::Model;
use std::snapshot::Snapshot;

/// The records of a site, with their disk. Contracts see the disk, now and at the opening, the records as last settled, where their log
/// ends, and the record of a call that the disk failed: `settle` tells whether it was committed.
#[derive(Drop)]
pub struct Records<D: Disk> {
    pub(crate) disk: D,
    // the disk at the opening, for proofs alone
    pub(crate) start: Snapshot<D>,
    pub(crate) log: Log,
    pub(crate) kept: Kept,
    // what a failed call was adding
    pub(crate) pending: Option<Pending>,
}

impl<D: Disk> Model for Records<D> {
    ghost use Rattle.cm_log.specs.Settled.{end_of};
    ghost use Rattle.cm_records.specs.Kept.{pending_in, IsRecords};
    ghost use Rattle.cm_records.specs.Seen.{Seen};

    ghost Value = { Seen D };

    ghost view = { λ s. record { disk = s.disk; start = s.start.value; kept = s.kept; end = end_of s.log; pending = pending_in s.pending } };

    ghost invariant = { λ s. IsRecords D.reads D.may_leave s.disk s.log s.kept s.pending };
}
