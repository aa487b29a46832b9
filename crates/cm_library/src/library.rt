//! The library of one server.
use cm_base::JobId;
use cm_contents::Contents;
use cm_disk::Disk;
use cm_filelib::Writing;
use cm_log::Log;
use cm_pkglib::{Change, Counts};
use std::alloc::Global;
use std::marker::Model;
use std::snapshot::Snapshot;

/// The library of one server, with its disk. Contracts see the disk, now and at the opening, the state as last settled, the seals
/// of hashes, the files that jobs have started, where the log ends, and the change of a call that the disk failed: the next call
/// settles whether it was committed.
#[derive(Drop)]
pub struct Library<D: Disk> {
    pub(crate) alloc: Global,
    pub(crate) disk: D,
    // the disk at the opening, for proofs alone
    pub(crate) start: Snapshot<D>,
    pub(crate) log: Log,
    pub(crate) contents: Contents,
    pub(crate) counts: Counts,
    // at most one a job, with room for one of each
    pub(crate) started: Vec<(JobId, Writing)>,
    // the record that a failed call was adding
    pub(crate) pending: Option<Change>,
}

impl<D: Disk> Model for Library<D> {
    ghost use Rattle.std.specs.Prelude.{vec_capacity};
    ghost use Rattle.cm_log.specs.Settled.{end_of};
    ghost use Rattle.cm_pkglib.specs.Counts.{seals_in};
    ghost use Rattle.cm_library.specs.Kept.{Seen, pending_in, IsLibrary};

    ghost Value = { Seen D };

    ghost view = { λ s. record { disk = s.disk; start = s.start.value; state = s.contents.state; seals = seals_in s.counts; started = s.started.items; end = end_of s.log; pending = pending_in s.contents.taken s.pending } };

    ghost invariant = { λ s. IsLibrary D.reads D.may_leave s.start.value s.disk s.log s.contents s.counts s.pending s.started.items (vec_capacity s.started) };
}
