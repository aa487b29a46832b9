//! The files of a version are compared with its manifest.
ghost use Rattle.std.specs.Prelude.{◌≡◌, ◌<◌, ◌≤◌, ◌↔◌, ◌++◌, [], length, slice_get, IsSome, None, IfOk, OnOk, IsErrOf};
ghost use Rattle.std.specs.Option.{ForSome};
ghost use Rattle.std.specs.List.{cons_option};
ghost use Rattle.cm_base.specs.Causes.{Rose, HasCause};
ghost use Rattle.cm_contents.specs.Seals.{version_manifest};
ghost use Rattle.cm_disk.specs.Disk.{IsImage, LeavesOnly};
ghost use Rattle.cm_library.specs.Reading.{no_version, entry_fault};
ghost use Rattle.cm_log.specs.Frames.{OnlyReads};
ghost use Rattle.cm_tree.specs.declared.entry.Entry.{Entry as an_entry};
ghost use Rattle.cm_check.specs.Findings.{finding_of, findings};
ghost use Rattle.cm_check.specs.Looks.{Looks};

use crate::calls::{EntryAt, entry_at};
use crate::finding::finding_in;
use crate::hashing::{PIECE, hash_file};
use crate::{CheckFault, Finding};
use cm_base::{Memory, PackageId, Version};
use cm_disk::{Disk, DiskFault};
use cm_library::Library;
use std::alloc::Global;

/// What is found of one entry.
fn look_at<D: Disk>(
    library: &mut Library<D>,
    at: &EntryAt,
    piece: &mut [u8],
) -> Result<Option<Finding>, DiskFault>
    requires settled { library.old.pending ≡ None }
    requires there { entry_fault library.old.state at.now.package at.now.version at.now.entry ≡ None }
    requires piece { length piece.old ≡ 65536 }
    ensures found { IfOk result (λ finding. ForSome (slice_get (version_manifest at.now.package at.now.version library.old.state) at.now.entry) (λ (entry : an_entry). ForSome (D.reads library.old.disk) (λ files. finding ≡ finding_of files entry))) }
    ensures looks { Looks D.reads library.old library.new }
    ensures only { OnlyReads D.reads D.may_leave D.moment D.left_since D.faults library.old.disk library.new.disk }
    ensures cause { HasCause (D.faults library.old.disk) (D.faults library.new.disk) result }
{
    let entry = entry_at(library, at);
    match hash_file(library, at, piece) {
        Ok(got) => Ok(finding_in(&entry, got)),
        Err(fault) => Err(fault),
    }
}

/// A finding more, if there is one.
fn keep(list: &mut Vec<Finding>, finding: Option<Finding>) -> Result<(), Memory>
    ensures { OnOk result (list.new.items ≡ list.old.items ++ cons_option finding []) }
{
    match finding {
        Some(finding) => {
            list.push(finding)?;
            Ok(())
        }
        None => Ok(()),
    }
}

/// What is found of all entries of a version, of which there are so many.
fn look_at_all<D: Disk>(
    alloc: Global,
    library: &mut Library<D>,
    package: PackageId,
    version: Version,
    entries: u32,
    piece: &mut [u8],
) -> Result<Vec<Finding>, CheckFault>
    requires settled { library.old.pending ≡ None }
    requires piece { length piece.old ≡ 65536 }
    requires version { no_version «package» version library.old.state ≡ None }
    requires entries { length (version_manifest «package» version library.old.state) ≡ entries }
    ensures found { IfOk result (λ list. ForSome (D.reads library.old.disk) (λ files. list.items ≡ findings files (version_manifest «package» version library.old.state))) }
    ensures looks { Looks D.reads library.old library.new }
    ensures only { OnlyReads D.reads D.may_leave D.moment D.left_since D.faults library.old.disk library.new.disk }
    ensures there { IsErrOf result CheckFault.NoVersion → ⊥ }
    ensures cause { IsErrOf result CheckFault.Disk → Rose (D.faults library.old.disk) (D.faults library.new.disk) }
{
    let mut list = Vec::new(alloc);
    for entry in 0..entries {
        let at = EntryAt {
            package,
            version,
            entry,
        };
        match look_at(library, &at, piece) {
            Ok(finding) => match keep(&mut list, finding) {
                Ok(()) => {}
                Err(_) => return Err(CheckFault::Memory),
            },
            Err(_) => return Err(CheckFault::Disk),
        }
    }
    Ok(list)
}

/// What is found of the files of a version, in the order of its manifest: of each entry, whether there is no file at the place of its
/// hash, or one with another size or another SHA-256. Each file is read whole and once, to its end. `NoVersion` if and only if there is no
/// such version.
pub fn validate<D: Disk>(
    alloc: Global,
    library: &mut Library<D>,
    package: PackageId,
    version: Version,
) -> Result<Vec<Finding>, CheckFault>
    requires settled { library.old.pending ≡ None }
    ensures none { IsErrOf result CheckFault.NoVersion ↔ IsSome (no_version «package» version library.old.state) }
    ensures found { IfOk result (λ list. ForSome (D.reads library.old.disk) (λ files. list.items ≡ findings files (version_manifest «package» version library.old.state))) }
    ensures same { Looks D.reads library.old library.new }
    // A crash at any moment leaves what one before might have left.
    ensures moments { LeavesOnly D.moment D.left_since library.old.disk library.new.disk (IsImage (D.may_leave library.old.disk)) }
    ensures later { D.faults library.old.disk ≤ D.faults library.new.disk }
    ensures cause { IsErrOf result CheckFault.Disk → Rose (D.faults library.old.disk) (D.faults library.new.disk) }
{
    let entries = match library.manifest(package, version) {
        Some(entries) => entries.len() as u32,
        None => return Err(CheckFault::NoVersion),
    };
    let mut piece = match vec![in alloc; 0u8; PIECE] {
        Ok(piece) => piece,
        Err(_) => return Err(CheckFault::Memory),
    };
    look_at_all(alloc, library, package, version, entries, &mut piece)
}
