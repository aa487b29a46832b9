//! Calls on an entry of a settled library, which is there.
ghost use Rattle.std.specs.Prelude.{◌≡◌, ◌+◌, ◌≤◌, ◌^◌, length, is_some, option_map, slice_get, None, Some, IfOk, IfSome};
ghost use Rattle.cm_base.specs.Causes.{HasCause};
ghost use Rattle.cm_contents.specs.Seals.{version_manifest};
ghost use Rattle.cm_disk.specs.Disk.{Reads};
ghost use Rattle.cm_library.specs.Reading.{entry_fault};
ghost use Rattle.cm_log.specs.Frames.{OnlyReads};
ghost use Rattle.cm_check.specs.Looks.{Looks, OfFile};

use cm_base::{PackageId, Version};
use cm_disk::{Disk, DiskFault};
use cm_library::{LibFault, Library};
use cm_tree::Entry;

/// An entry of a version, numbered from 0.
#[derive(Clone, Copy)]
pub(crate) struct EntryAt {
    pub package: PackageId,
    pub version: Version,
    pub entry: u32,
}

/// The entry.
pub(crate) fn entry_at<D: Disk>(library: &Library<D>, at: &EntryAt) -> Entry
    requires there { entry_fault library.now.state at.now.package at.now.version at.now.entry ≡ None }
    ensures is { slice_get (version_manifest at.now.package at.now.version library.now.state) at.now.entry ≡ Some result }
{
    match library.manifest(at.package, at.version) {
        Some(entries) => entries[at.entry as usize],
        None => unreachable!(),
    }
}

/// The size of its file. None where there is none.
pub(crate) fn size<D: Disk>(
    library: &mut Library<D>,
    at: &EntryAt,
) -> Result<Option<u64>, DiskFault>
    requires settled { library.old.pending ≡ None }
    requires there { entry_fault library.old.state at.now.package at.now.version at.now.entry ≡ None }
    ensures value { IfOk result (λ size. OfFile (D.reads library.old.disk) (version_manifest at.now.package at.now.version library.old.state) at.now.entry (λ file. size ≡ option_map length file)) }
    ensures bound { IfOk result (λ size. IfSome size (λ size. size ≤ 2 ^ 40 + 131072)) }
    ensures looks { Looks D.reads library.old library.new }
    ensures only { OnlyReads D.reads D.may_leave D.moment D.left_since D.faults library.old.disk library.new.disk }
    ensures cause { HasCause (D.faults library.old.disk) (D.faults library.new.disk) result }
{
    match library.file_size(at.package, at.version, at.entry) {
        Ok(size) => Ok(Some(size)),
        Err(fault) => match fault {
            LibFault::Gone { .. } => Ok(None),
            _ => Err(DiskFault),
        },
    }
}

/// Reads its file from an offset on. None where there is none.
pub(crate) fn read<D: Disk>(
    library: &mut Library<D>,
    at: &EntryAt,
    offset: u64,
    piece: &mut [u8],
) -> Result<Option<usize>, DiskFault>
    requires settled { library.old.pending ≡ None }
    requires there { entry_fault library.old.state at.now.package at.now.version at.now.entry ≡ None }
    ensures present { IfOk result (λ found. OfFile (D.reads library.old.disk) (version_manifest at.now.package at.now.version library.old.state) at.now.entry (λ file. is_some found ≡ is_some file)) }
    ensures fits { IfOk result (λ found. IfSome found (λ count. count ≤ length piece.new)) }
    ensures bytes { IfOk result (λ found. IfSome found (λ count. OfFile (D.reads library.old.disk) (version_manifest at.now.package at.now.version library.old.state) at.now.entry (λ file. Reads file offset piece.new count))) }
    ensures looks { Looks D.reads library.old library.new }
    ensures only { OnlyReads D.reads D.may_leave D.moment D.left_since D.faults library.old.disk library.new.disk }
    ensures cause { HasCause (D.faults library.old.disk) (D.faults library.new.disk) result }
{
    match library.read(at.package, at.version, at.entry, offset, piece) {
        Ok(count) => Ok(Some(count)),
        Err(fault) => match fault {
            LibFault::Gone { .. } => Ok(None),
            _ => Err(DiskFault),
        },
    }
}
