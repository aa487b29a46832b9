//! A job begins.
ghost use Rattle.std.specs.Prelude.{◌≡◌, ◌≤◌, ◌⊎◌, is_some, length, None, Some, Ok, Err, IfOk, IfErr, IsErrOf};
ghost use Rattle.cm_base.specs.Causes.{Rose};
ghost use Rattle.cm_base.specs.declared.hash.Hash.{Hash as a_hash};
ghost use Rattle.cm_library.specs.Placing.{KeepsPlaces};
ghost use Rattle.cm_pkglib.specs.Counts.{seal_at};
ghost use Rattle.cm_pkglib.specs.Rows.{last_of};
ghost use Rattle.cm_state.specs.Adding.{Told};
ghost use Rattle.cm_state.specs.Faults.{limit_fault};
ghost use Rattle.cm_state.specs.Needed.{is_named};
ghost use Rattle.cm_state.specs.State.{held_of, held_by_job};
ghost use Rattle.cm_intake.specs.Ending.{HasBegun, EndsRefused};
ghost use Rattle.cm_intake.specs.Intake.{IsAbove, IsLimit, of_limit};

use crate::IntakeFault;
use cm_base::{JobId, PackageId, Version};
use cm_disk::Disk;
use cm_library::{LibFault, Library};
use cm_tree::Manifest;

/// The limit that keeps a job from its beginning.
fn of_limit(fault: LibFault) -> IntakeFault
    requires { IsLimit fault }
    ensures { result ≡ of_limit fault }
{
    match fault {
        LibFault::TooManyVersions => IntakeFault::TooManyVersions,
        LibFault::TooManyEntries => IntakeFault::TooManyEntries,
        LibFault::TooManyJobs => IntakeFault::TooManyJobs,
        LibFault::Spent => IntakeFault::Spent,
        _ => unreachable!(),
    }
}

/// Begins a job of a settled library for a version above all that were opened of its package.
pub(crate) fn begin<D: Disk + Drop>(
    library: &mut Library<D>,
    package: PackageId,
    version: Version,
    manifest: Manifest,
) -> Result<JobId, IntakeFault>
    requires settled { library.old.pending ≡ None }
    requires sealed { (hash : a_hash) → is_some (seal_at library.old.seals hash) ≡ is_named hash.0 library.old.state }
    requires fresh { IsAbove version (last_of «package» library.old.state.lasts) }
    ensures begun { IfOk result (λ job. HasBegun D.reads D.may_leave D.moment D.left_since «package» version manifest job library.old library.new) }
    ensures held { IfOk result (λ job. held_by_job job library.new.state.jobs ≡ Some (held_of «package» version manifest)) }
    ensures settled { IfOk result (λ _. (library.new.pending ≡ None) × (library.new.started ≡ library.old.started)) }
    ensures free { IfOk result (λ _. limit_fault library.old.state library.old.end (length manifest) ≡ None) }
    ensures refused { IfErr result (EndsRefused D.reads D.may_leave D.moment D.left_since «package» version manifest library.old library.new) }
    ensures places { Told KeepsPlaces (D.reads library.old.disk) (D.reads library.new.disk) }
    ensures later { D.faults library.old.disk ≤ D.faults library.new.disk }
    ensures cause { IsErrOf result IntakeFault.Disk → Rose (D.faults library.old.disk) (D.faults library.new.disk) }
{
    library.tells();
    match library.begin(package, version, manifest) {
        Ok(job) => Ok(job),
        Err(fault) => match fault {
            LibFault::Disk => Err(IntakeFault::Disk),
            LibFault::Memory => Err(IntakeFault::Memory),
            _ => Err(of_limit(fault)),
        },
    }
}
