//! Stored manifests are loaded.
ghost use Rattle.std.specs.Prelude.{◌≡◌, ℕ, List, None, Some, Ok, Err, IfOk, OnOk, IsErrOf};
ghost use Rattle.std.specs.Option.{ForSome, option_and_then};
ghost use Rattle.cm_base.specs.Causes.{Rose};
ghost use Rattle.cm_disk.specs.Disk.{File};
ghost use Rattle.cm_log.specs.Frames.{OnlyReads};
ghost use Rattle.cm_datalib.specs.Loads.{loaded, Answers};
ghost use Rattle.cm_datalib.specs.Places.{manifest_place};
ghost use Rattle.cm_state.specs.Look.{manifest_in, counted, held_or_place};
ghost use Rattle.cm_library.specs.Loads.{IsDurable};

use cm_base::Place;
use cm_datalib::{DataFault, sync};
use cm_disk::Disk;
use cm_pkglib::PkgRow;
use cm_state::OpenFault;
use cm_tree::Manifest;
use std::alloc::Global;

// The manifest, where it has as many entries as the row.
fn counted(row: &PkgRow, manifest: Manifest) -> Option<Manifest>
    ensures { result ≡ counted row.now (Ok manifest) }
{
    if manifest.entries().len() == row.entries as usize {
        Some(manifest)
    } else {
        None
    }
}

// The manifest of a row by what was loaded for it. Its place is unreadable where that is missing, or not what the row names.
fn fitting(
    row: &PkgRow,
    place: Place,
    answer: Result<Manifest, DataFault>,
) -> Result<Manifest, OpenFault>
    ensures found { IfOk result (λ found. (file : File) → Answers answer (loaded row.now.hash row.now.size file) → Some found ≡ option_and_then (manifest_in row.now) file) }
    ensures unreadable { (q : List ℕ) (at : ℕ) → IsErrOf result (OpenFault.Unreadable q at) → (q ≡ place) × (at ≡ 0) × ((file : File) → Answers answer (loaded row.now.hash row.now.size file) → None ≡ option_and_then (manifest_in row.now) file) }
    ensures library { IsErrOf result OpenFault.NoLibrary → ⊥ }
    ensures disk { IsErrOf result OpenFault.Disk → IsErrOf answer DataFault.Disk }
{
    let unreadable = OpenFault::Unreadable { place, at: 0 };
    match answer {
        Ok(manifest) => match counted(row, manifest) {
            Some(manifest) => Ok(manifest),
            None => Err(unreadable),
        },
        Err(DataFault::NotHere) => Err(unreadable),
        Err(DataFault::OtherBytes { .. }) => Err(unreadable),
        Err(DataFault::BadManifest { .. }) => Err(unreadable),
        Err(DataFault::Memory) => Err(OpenFault::Memory),
        Err(DataFault::Disk) => Err(OpenFault::Disk),
    }
}

/// The stored manifest of a row, once it is durable. `Unreadable` names its place, at 0, where it is absent or not what the row
/// names.
pub(crate) fn load<D: Disk>(
    alloc: Global,
    disk: &mut D,
    row: &PkgRow,
) -> Result<Manifest, OpenFault>
    ensures found { IfOk result (λ found. ForSome (D.reads disk.old) (λ files. Some found ≡ option_and_then (manifest_in row.now) (files (manifest_place row.now.package row.now.version)))) }
    ensures durable { OnOk result (ForSome (D.reads disk.old) (λ files. IsDurable files (D.may_leave disk.new) row.now)) }
    ensures unreadable { (place : List ℕ) (at : ℕ) → IsErrOf result (OpenFault.Unreadable place at) → ForSome (D.reads disk.old) (λ files. (held_or_place files row.now ≡ Err place) × (at ≡ 0)) }
    ensures library { IsErrOf result OpenFault.NoLibrary → ⊥ }
    ensures only { OnlyReads D.reads D.may_leave D.moment D.left_since D.faults disk.old disk.new }
    ensures cause { IsErrOf result OpenFault.Disk → Rose (D.faults disk.old) (D.faults disk.new) }
{
    // Sync before looking: an unsynced manifest could vanish in a crash after the library rested on it.
    let place = sync(disk, row.package, row.version)?;
    let answer = cm_datalib::load(alloc, disk, row.package, row.version, row.size, row.hash);
    fitting(row, place, answer)
}
