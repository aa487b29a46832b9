//! The file of an entry is hashed.
ghost use Rattle.std.specs.Prelude.{◌≡◌, ◌+◌, ◌-◌, ◌<◌, ◌≤◌, ◌^◌, ◌++◌, ℕ, List, length, min, take, drop, None, IfOk};
ghost use Rattle.cm_base.specs.Causes.{HasCause};
ghost use Rattle.cm_base.specs.Fed.{WasFed, count_of};
ghost use Rattle.cm_contents.specs.Seals.{version_manifest};
ghost use Rattle.cm_disk.specs.Disk.{bytes_of};
ghost use Rattle.cm_disk.specs.Hashed.{hashed};
ghost use Rattle.cm_library.specs.Reading.{entry_fault};
ghost use Rattle.cm_log.specs.Frames.{OnlyReads};
ghost use Rattle.cm_check.specs.Looks.{Looks, OfFile};

use crate::calls::{EntryAt, read, size};
use cm_base::{FileHasher, Hash};
use cm_disk::{Disk, DiskFault};
use cm_library::Library;

/// The most bytes that are read at once.
pub(crate) const PIECE: usize = 65_536;

/// Feeds what an entry's file has from an offset on, as much as the piece allows. Gives how many bytes that is, 0 where there is no file.
fn feed_piece<D: Disk>(
    library: &mut Library<D>,
    at: &EntryAt,
    offset: u64,
    piece: &mut [u8],
    hasher: &mut FileHasher,
) -> Result<usize, DiskFault>
    requires settled { library.old.pending ≡ None }
    requires there { entry_fault library.old.state at.now.package at.now.version at.now.entry ≡ None }
    requires few { length piece.old ≤ 65536 }
    requires room { count_of hasher.old < 2 ^ 41 }
    ensures fits { IfOk result (λ count. count ≤ length piece.old) }
    ensures number { IfOk result (λ count. OfFile (D.reads library.old.disk) (version_manifest at.now.package at.now.version library.old.state) at.now.entry (λ file. count ≡ min (length piece.old) (length (bytes_of file) - offset))) }
    ensures fed { IfOk result (λ count. OfFile (D.reads library.old.disk) (version_manifest at.now.package at.now.version library.old.state) at.now.entry (λ file. (before : List ℕ) → WasFed hasher.old before → WasFed hasher.new (before ++ take count (drop offset (bytes_of file))))) }
    ensures count { IfOk result (λ count. count_of hasher.new ≡ count_of hasher.old + count) }
    ensures looks { Looks D.reads library.old library.new }
    ensures only { OnlyReads D.reads D.may_leave D.moment D.left_since D.faults library.old.disk library.new.disk }
    ensures cause { HasCause (D.faults library.old.disk) (D.faults library.new.disk) result }
{
    match read(library, at, offset, piece) {
        Ok(Some(count)) => {
            hasher.feed(&piece[..count]);
            Ok(count)
        }
        Ok(None) => Ok(0),
        Err(fault) => Err(fault),
    }
}

/// A hasher that was fed so many bytes from the front of an entry's file, or fewer where the library gives fewer.
fn feed_front<D: Disk>(
    library: &mut Library<D>,
    at: &EntryAt,
    size: u64,
    piece: &mut [u8],
) -> Result<FileHasher, DiskFault>
    requires settled { library.old.pending ≡ None }
    requires there { entry_fault library.old.state at.now.package at.now.version at.now.entry ≡ None }
    requires size { size ≤ 2 ^ 40 + 131072 }
    requires piece { length piece.old ≡ 65536 }
    ensures fed { IfOk result (λ hasher. OfFile (D.reads library.old.disk) (version_manifest at.now.package at.now.version library.old.state) at.now.entry (λ file. size ≤ length (bytes_of file) → WasFed hasher (take size (bytes_of file)))) }
    ensures looks { Looks D.reads library.old library.new }
    ensures only { OnlyReads D.reads D.may_leave D.moment D.left_since D.faults library.old.disk library.new.disk }
    ensures cause { HasCause (D.faults library.old.disk) (D.faults library.new.disk) result }
{
    let mut hasher = FileHasher::new();
    let mut offset: u64 = 0;
    while offset < size {
        let left = (size - offset).min(PIECE as u64) as usize;
        match feed_piece(library, at, offset, &mut piece[..left], &mut hasher) {
            Ok(0) => return Ok(hasher),
            Ok(count) => offset += count as u64,
            Err(fault) => return Err(fault),
        }
    }
    Ok(hasher)
}

/// The size and the SHA-256 of an entry's file, which is read whole and once. None where there is none.
pub(crate) fn hash_file<D: Disk>(
    library: &mut Library<D>,
    at: &EntryAt,
    piece: &mut [u8],
) -> Result<Option<(u64, Hash)>, DiskFault>
    requires settled { library.old.pending ≡ None }
    requires there { entry_fault library.old.state at.now.package at.now.version at.now.entry ≡ None }
    requires piece { length piece.old ≡ 65536 }
    ensures exact { IfOk result (λ got. OfFile (D.reads library.old.disk) (version_manifest at.now.package at.now.version library.old.state) at.now.entry (λ file. got ≡ hashed file)) }
    ensures looks { Looks D.reads library.old library.new }
    ensures only { OnlyReads D.reads D.may_leave D.moment D.left_since D.faults library.old.disk library.new.disk }
    ensures cause { HasCause (D.faults library.old.disk) (D.faults library.new.disk) result }
{
    let size = match size(library, at) {
        Ok(Some(size)) => size,
        Ok(None) => return Ok(None),
        Err(fault) => return Err(fault),
    };
    let hasher = match feed_front(library, at, size, piece) {
        Ok(hasher) => hasher,
        Err(fault) => return Err(fault),
    };
    let got = hasher.done();
    Ok(Some(got))
}
