//! Calls of a settled library: none settles, and each tells what a crash leaves meanwhile.
ghost use Rattle.std.specs.Prelude.{◌≡◌, ◌≢◌, ◌≤◌, true, is_some, length, None, Some, OnOk, IfOk};
ghost use Rattle.std.specs.Option.{ForSome};
ghost use Rattle.cm_base.specs.Causes.{HasCause};
ghost use Rattle.cm_contents.specs.Seals.{job_manifest};
ghost use Rattle.cm_contents.specs.Wants.{size_in, IsNextWanted};
ghost use Rattle.cm_library.specs.Filing.{GoesOn, StartsFile};
ghost use Rattle.cm_library.specs.Started.{started_by, no_job, start_fault, file_fault, put_fault};
ghost use Rattle.cm_pkglib.specs.Counts.{seal_at};
ghost use Rattle.cm_intake.specs.Filling.{KeepsState, SealsOr};

use cm_base::{Hash, JobId};
use cm_disk::{Disk, DiskFault};
use cm_library::{LibFault, Library};

/// The least hash above another that a job wants, with the size of its first entry.
pub(crate) fn next_wanted<D: Disk + Drop>(
    library: &mut Library<D>,
    job: JobId,
    after: Option<Hash>,
) -> Option<(Hash, u32)>
    requires settled { library.old.pending ≡ None }
    requires unfinished { no_job job library.old.state ≡ None }
    ensures next { IsNextWanted (seal_at library.old.seals) (job_manifest job library.old.state) after result }
    ensures same { library.new ≡ library.old }
{
    match library.wanted(job, after) {
        Ok(next) => next,
        Err(_) => unreachable!(),
    }
}

/// Starts a file that a job may start.
pub(crate) fn start<D: Disk + Drop>(
    library: &mut Library<D>,
    job: JobId,
    hash: Hash,
) -> Result<(), DiskFault>
    requires settled { library.old.pending ≡ None }
    requires may { start_fault (seal_at library.old.seals) library.old.state library.old.started job hash ≡ None }
    ensures keeps { KeepsState D.reads D.may_leave D.moment D.left_since job library.old library.new }
    ensures seals { library.new.seals ≡ library.old.seals }
    ensures started { OnOk result (StartsFile job hash (size_in hash (job_manifest job library.old.state)) library.old.started library.new.started) }
    ensures cause { HasCause (D.faults library.old.disk) (D.faults library.new.disk) result }
{
    library.tells();
    match library.start_file(job, hash) {
        Ok(()) => Ok(()),
        Err(_) => Err(DiskFault),
    }
}

/// Puts a piece that goes on where a job's file ends, and for which the file has room.
pub(crate) fn put<D: Disk + Drop>(
    library: &mut Library<D>,
    job: JobId,
    offset: u64,
    bytes: &[u8],
) -> Result<(), DiskFault>
    requires settled { library.old.pending ≡ None }
    requires piece { length bytes.now ≤ 65536 }
    requires may { put_fault library.old.state library.old.started job offset (length bytes.now) ≡ None }
    ensures keeps { KeepsState D.reads D.may_leave D.moment D.left_since job library.old library.new }
    ensures seals { library.new.seals ≡ library.old.seals }
    ensures goes_on { OnOk result (ForSome (started_by job library.old.started) (λ was. GoesOn job was bytes.now library.old.started library.new.started)) }
    ensures cause { HasCause (D.faults library.old.disk) (D.faults library.new.disk) result }
{
    library.tells();
    match library.put(job, offset, bytes) {
        Ok(()) => Ok(()),
        Err(_) => Err(DiskFault),
    }
}

/// Seals a job's file. If other bytes were put than it is to have, it is given up, and their hash and how many they are is told.
pub(crate) fn seal<D: Disk + Drop>(
    library: &mut Library<D>,
    job: JobId,
) -> Result<Option<(Hash, u32)>, DiskFault>
    requires settled { library.old.pending ≡ None }
    requires may { file_fault library.old.state library.old.started job ≡ None }
    ensures keeps { KeepsState D.reads D.may_leave D.moment D.left_since job library.old library.new }
    ensures sealed { IfOk result (λ got. ForSome (started_by job library.old.started) (λ was. SealsOr was (seal_at library.old.seals) (seal_at library.new.seals) got)) }
    ensures cause { HasCause (D.faults library.old.disk) (D.faults library.new.disk) result }
{
    library.tells();
    match library.seal(job) {
        Ok(()) => Ok(None),
        Err(fault) => match fault {
            LibFault::WrongBytes { got, put, .. } => Ok(Some((got, put))),
            _ => Err(DiskFault),
        },
    }
}
