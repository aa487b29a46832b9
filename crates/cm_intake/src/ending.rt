//! A job ends.
ghost use Rattle.std.specs.Prelude.{◌≡◌, ◌⊎◌, ◌≤◌, true, is_some, length, None, Some, Ok, Err, IfErr, IsErrOf};
ghost use Rattle.std.specs.List.{AllByRecursion};
ghost use Rattle.cm_base.specs.Causes.{Rose};
ghost use Rattle.cm_contents.specs.Seals.{job_manifest, is_stored};
ghost use Rattle.cm_library.specs.Placing.{KeepsPlaces};
ghost use Rattle.cm_pkglib.specs.Counts.{seal_at};
ghost use Rattle.cm_state.specs.Adding.{Told};
ghost use Rattle.cm_state.specs.Changes.{Finished, Dropped};
ghost use Rattle.cm_state.specs.State.{held_by_job, bytes_of};
ghost use Rattle.cm_tree.specs.declared.entry.Entry.{Entry as an_entry};
ghost use Rattle.cm_intake.specs.Ending.{Commits};

use crate::{IntakeFault, Taken};
use cm_base::JobId;
use cm_disk::Disk;
use cm_library::{LibFault, Library};
use cm_tree::Entry;

/// How many entries there are, and how many bytes their files have together.
pub(crate) fn taken_of(entries: &[Entry]) -> Taken
    requires { length entries.now ≤ 20000 }
    ensures files { result.files ≡ length entries.now }
    ensures bytes { result.bytes ≡ bytes_of entries.now }
{
    let mut bytes: u64 = 0;
    for entry in entries {
        bytes += u64::from(entry.size);
    }
    Taken {
        files: entries.len() as u32,
        bytes,
    }
}

/// Finishes a job of a settled library. `Memory` only if an entry is not sealed with its size.
pub(crate) fn finish<D: Disk + Drop>(
    library: &mut Library<D>,
    job: JobId,
) -> Result<(), IntakeFault>
    requires settled { library.old.pending ≡ None }
    requires unfinished { is_some (held_by_job job library.old.state.jobs) ≡ true }
    ensures commits { Commits D.reads D.may_leave D.moment D.left_since (Finished job) library.old library.new result }
    ensures kind { IfErr result (λ fault. (fault ≡ IntakeFault.Disk) ⊎ ((fault ≡ IntakeFault.Memory) × (AllByRecursion (λ (entry : an_entry). is_stored (seal_at library.old.seals) entry ≡ true) (job_manifest job library.old.state) → ⊥))) }
    ensures places { Told KeepsPlaces (D.reads library.old.disk) (D.reads library.new.disk) }
    ensures later { D.faults library.old.disk ≤ D.faults library.new.disk }
    ensures cause { IsErrOf result IntakeFault.Disk → Rose (D.faults library.old.disk) (D.faults library.new.disk) }
{
    library.tells();
    match library.finish(job) {
        Ok(()) => Ok(()),
        Err(fault) => match fault {
            LibFault::Disk => Err(IntakeFault::Disk),
            // One hash has two sizes.
            _ => Err(IntakeFault::Memory),
        },
    }
}

/// Drops a job of a settled library.
pub(crate) fn drop_job<D: Disk + Drop>(
    library: &mut Library<D>,
    job: JobId,
) -> Result<(), IntakeFault>
    requires settled { library.old.pending ≡ None }
    requires unfinished { is_some (held_by_job job library.old.state.jobs) ≡ true }
    ensures commits { Commits D.reads D.may_leave D.moment D.left_since (Dropped job) library.old library.new result }
    ensures kind { IfErr result (λ fault. fault ≡ IntakeFault.Disk) }
    ensures places { Told KeepsPlaces (D.reads library.old.disk) (D.reads library.new.disk) }
    ensures later { D.faults library.old.disk ≤ D.faults library.new.disk }
    ensures cause { IsErrOf result IntakeFault.Disk → Rose (D.faults library.old.disk) (D.faults library.new.disk) }
{
    library.tells();
    match library.drop_job(job) {
        Ok(()) => Ok(()),
        Err(_) => Err(IntakeFault::Disk),
    }
}
