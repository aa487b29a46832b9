//! The manifests that rows need are loaded.
ghost use Rattle.std.specs.Prelude.{◌≡◌, ℕ, List, Err, OnOk, IfOk, IsErrOf};
ghost use Rattle.std.specs.Option.{ForSome};
ghost use Rattle.cm_base.specs.Causes.{Rose};
ghost use Rattle.cm_log.specs.Frames.{OnlyReads};
ghost use Rattle.cm_state.specs.Look.{held_or_place, all_held, all_jobs, loaded};
ghost use Rattle.cm_library.specs.Loads.{Takes, TakesAll, TakesJobs, Loads};

use crate::manifests::load;
use cm_base::JobId;
use cm_contents::Manifests;
use cm_disk::Disk;
use cm_pkglib::{PkgRow, Rows};
use cm_state::OpenFault;
use std::alloc::Global;
use std::collections::BTreeMap;

// Loads the manifest of a row.
fn load_one<D: Disk>(
    alloc: Global,
    disk: &mut D,
    row: &PkgRow,
    manifests: &mut Manifests,
) -> Result<(), OpenFault>
    ensures kept { OnOk result (ForSome (D.reads disk.old) (λ files. Takes files (D.may_leave disk.new) row.now manifests.old manifests.new)) }
    ensures unreadable { (place : List ℕ) (at : ℕ) → IsErrOf result (OpenFault.Unreadable place at) → ForSome (D.reads disk.old) (λ files. (held_or_place files row.now ≡ Err place) × (at ≡ 0)) }
    ensures library { IsErrOf result OpenFault.NoLibrary → ⊥ }
    ensures only { OnlyReads D.reads D.may_leave D.moment D.left_since D.faults disk.old disk.new }
    ensures cause { IsErrOf result OpenFault.Disk → Rose (D.faults disk.old) (D.faults disk.new) }
{
    match load(alloc, disk, row) {
        Ok(manifest) => match manifests.insert((row.package, row.version), manifest) {
            Ok(_) => Ok(()),
            Err(_) => Err(OpenFault::Memory),
        },
        Err(fault) => Err(fault),
    }
}

// Loads the manifests of versions, up to the first that is wrong.
fn load_versions<D: Disk>(
    alloc: Global,
    disk: &mut D,
    rows: &[PkgRow],
    manifests: &mut Manifests,
) -> Result<(), OpenFault>
    ensures kept { OnOk result (ForSome (D.reads disk.old) (λ files. TakesAll files (D.may_leave disk.new) rows.now manifests.old manifests.new)) }
    ensures unreadable { (place : List ℕ) (at : ℕ) → IsErrOf result (OpenFault.Unreadable place at) → ForSome (D.reads disk.old) (λ files. (all_held files rows.now ≡ Err place) × (at ≡ 0)) }
    ensures library { IsErrOf result OpenFault.NoLibrary → ⊥ }
    ensures only { OnlyReads D.reads D.may_leave D.moment D.left_since D.faults disk.old disk.new }
    ensures cause { IsErrOf result OpenFault.Disk → Rose (D.faults disk.old) (D.faults disk.new) }
{
    for row in rows {
        match load_one(alloc, disk, row, manifests) {
            Ok(()) => {}
            Err(fault) => return Err(fault),
        }
    }
    Ok(())
}

// Loads the manifests of unfinished jobs, up to the first that is wrong.
fn load_jobs<D: Disk>(
    alloc: Global,
    disk: &mut D,
    jobs: &[(JobId, PkgRow)],
    manifests: &mut Manifests,
) -> Result<(), OpenFault>
    ensures kept { OnOk result (ForSome (D.reads disk.old) (λ files. TakesJobs files (D.may_leave disk.new) jobs.now manifests.old manifests.new)) }
    ensures unreadable { (place : List ℕ) (at : ℕ) → IsErrOf result (OpenFault.Unreadable place at) → ForSome (D.reads disk.old) (λ files. (all_jobs files jobs.now ≡ Err place) × (at ≡ 0)) }
    ensures library { IsErrOf result OpenFault.NoLibrary → ⊥ }
    ensures only { OnlyReads D.reads D.may_leave D.moment D.left_since D.faults disk.old disk.new }
    ensures cause { IsErrOf result OpenFault.Disk → Rose (D.faults disk.old) (D.faults disk.new) }
{
    for job in jobs {
        match load_one(alloc, disk, &job.1, manifests) {
            Ok(()) => {}
            Err(fault) => return Err(fault),
        }
    }
    Ok(())
}

/// The stored manifests of all rows, each durable before it is looked at. `Unreadable` names the place of the first that is
/// absent or not what its row says, versions before jobs, at 0.
pub(crate) fn load_all<D: Disk>(
    alloc: Global,
    disk: &mut D,
    rows: &Rows,
) -> Result<Manifests, OpenFault>
    ensures loads { IfOk result (λ found. ForSome (D.reads disk.old) (λ files. Loads files (D.may_leave disk.new) rows.now.rows found)) }
    ensures unreadable { (place : List ℕ) (at : ℕ) → IsErrOf result (OpenFault.Unreadable place at) → ForSome (D.reads disk.old) (λ files. (loaded files rows.now.rows ≡ Err place) × (at ≡ 0)) }
    ensures library { IsErrOf result OpenFault.NoLibrary → ⊥ }
    ensures only { OnlyReads D.reads D.may_leave D.moment D.left_since D.faults disk.old disk.new }
    ensures cause { IsErrOf result OpenFault.Disk → Rose (D.faults disk.old) (D.faults disk.new) }
{
    let mut manifests = BTreeMap::new(alloc);
    match load_versions(alloc, disk, rows.versions(), &mut manifests) {
        Ok(()) => {}
        Err(fault) => return Err(fault),
    }
    match load_jobs(alloc, disk, rows.jobs(), &mut manifests) {
        Ok(()) => Ok(manifests),
        Err(fault) => Err(fault),
    }
}
