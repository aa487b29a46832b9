//! A file is started, put piece by piece, and sealed.
ghost use Rattle.std.specs.Prelude.{◌≡◌, ◌≢◌, ◌+◌, ◌<◌, ◌≤◌, ◌++◌, [], List, ℕ, length, true, false, IfOk, OnOk, IsErrOf};
ghost use Rattle.std.specs.Option.{ForSome};
ghost use Rattle.sha2.specs.Sha256.{sha256};
ghost use Rattle.cm_base.specs.Causes.{Rose, HasCause};
ghost use Rattle.cm_base.specs.declared.hash.Hash.{Hash as hash_value};
ghost use Rattle.cm_disk.specs.Disk.{File, Files, Does, IsImage, LeavesNoMore, LeavesOnly};
ghost use Rattle.cm_filelib.specs.Places.{file_place};
ghost use Rattle.cm_filelib.specs.Stored.{is_named, IsKept, IsFileSure, emptied, appended};
ghost use Rattle.cm_filelib.specs.Writings.{hash_of, size_of, place_of, next_of, is_spent, WasPut, IsWriting};

use crate::faults::{FileFault, SealFault};
use crate::places::file_at;
use crate::writing::Writing;
use cm_base::{FileHasher, Hash};
use cm_disk::{Disk, DiskFault};

/// Begins to write the file of a hash, which is to have so many bytes: makes its place, empty.
pub fn start<D: Disk>(disk: &mut D, hash: Hash, size: u32) -> Result<Writing, DiskFault>
    ensures work { Does (D.reads disk.old) (D.reads disk.new) (file_place hash.0) emptied result }
    ensures stands { IfOk result (λ writing. ForSome (D.reads disk.new) (λ files. IsWriting files writing)) }
    ensures put { IfOk result (λ writing. WasPut writing []) }
    ensures idle { IfOk result (λ writing. is_spent writing ≡ false) }
    ensures named { IfOk result (λ writing. (hash_of writing ≡ hash) × (size_of writing ≡ size) × (next_of writing ≡ 0)) }
    ensures others { (q : List ℕ) (file : File) → q ≢ file_place hash.0 → D.may_leave disk.new q file → D.may_leave disk.old q file }
    ensures run { LeavesOnly D.moment D.left_since disk.old disk.new (λ (left : Files). (q : List ℕ) → q ≢ file_place hash.0 → D.may_leave disk.old q (left q)) }
    ensures cause { HasCause (D.faults disk.old) (D.faults disk.new) result }
{
    let place = file_at(hash);
    disk.write_at(&place, 0, &[])?;
    disk.cut(&place, 0)?;
    Ok(Writing {
        hash,
        size,
        next: 0,
        hasher: FileHasher::new(),
        spent: false,
    })
}

/// Writes the next piece of at most 65,536 bytes behind those that were put. After `WrongOffset` and `TooLong` nothing is
/// changed. After `Disk` any part of the piece may be there, and the value is spent.
pub fn put<D: Disk>(
    writing: &mut Writing,
    disk: &mut D,
    offset: u64,
    bytes: &[u8],
) -> Result<(), FileFault>
    requires piece { length bytes.now ≤ 65536 }
    requires idle { is_spent writing.old ≡ false }
    requires stands { ForSome (D.reads disk.old) (λ files. IsWriting files writing.old) }

    ensures work { Does (D.reads disk.old) (D.reads disk.new) (place_of writing.old) (appended bytes.now) result }
    ensures stands { OnOk result (ForSome (D.reads disk.new) (λ files. IsWriting files writing.new)) }
    ensures put { OnOk result ((before : List ℕ) → WasPut writing.old before → WasPut writing.new (before ++ bytes.now)) }
    ensures next { OnOk result (next_of writing.new ≡ next_of writing.old + length bytes.now) }
    ensures idle { OnOk result (is_spent writing.new ≡ false) }
    ensures spent { IsErrOf result FileFault.Disk → is_spent writing.new ≡ true }
    ensures named { (hash_of writing.new ≡ hash_of writing.old) × (size_of writing.new ≡ size_of writing.old) }

    ensures wrong_offset { (expected : ℕ) → IsErrOf result (FileFault.WrongOffset expected) → (offset ≢ next_of writing.old) × (expected ≡ next_of writing.old) × (disk.new ≡ disk.old) × (writing.new ≡ writing.old) }
    ensures too_long { (size : ℕ) → IsErrOf result (FileFault.TooLong size) → (offset ≡ next_of writing.old) × (size_of writing.old < offset + length bytes.now) × (size ≡ size_of writing.old) × (disk.new ≡ disk.old) × (writing.new ≡ writing.old) }
    // No device is called before these two are answered.
    ensures is_wrong_offset { offset ≢ next_of writing.old → IsErrOf result (FileFault.WrongOffset (next_of writing.old)) }
    ensures is_too_long { offset ≡ next_of writing.old → size_of writing.old < offset + length bytes.now → IsErrOf result (FileFault.TooLong (size_of writing.old)) }

    ensures others { (q : List ℕ) (file : File) → q ≢ place_of writing.old → D.may_leave disk.new q file → D.may_leave disk.old q file }
    ensures run { LeavesOnly D.moment D.left_since disk.old disk.new (λ (left : Files). (q : List ℕ) → q ≢ place_of writing.old → D.may_leave disk.old q (left q)) }
    ensures later { D.faults disk.old ≤ D.faults disk.new }
    ensures cause { IsErrOf result FileFault.Disk → Rose (D.faults disk.old) (D.faults disk.new) }
{
    if offset != writing.next {
        return Err(FileFault::WrongOffset {
            expected: writing.next,
        });
    }
    if offset + bytes.len() as u64 > u64::from(writing.size) {
        return Err(FileFault::TooLong { size: writing.size });
    }
    let place = file_at(writing.hash);
    match disk.write_at(&place, offset, bytes) {
        Ok(()) => {
            writing.hasher.feed(bytes);
            writing.next += bytes.len() as u64;
            Ok(())
        }
        Err(_) => {
            writing.spent = true;
            Err(FileFault::Disk)
        }
    }
}

/// Ends the writing of a file: compares what was put with the hash and the size that it was to have, and makes it durable.
pub fn seal<D: Disk>(writing: Writing, disk: &mut D) -> Result<(), SealFault>
    requires idle { is_spent writing ≡ false }
    requires stands { ForSome (D.reads disk.old) (λ files. IsWriting files writing) }

    // Whatever a stop leaves, the file is whole.
    ensures kept { OnOk result (ForSome (D.reads disk.new) (λ files. IsKept files (D.may_leave disk.new) (hash_of writing).0 (size_of writing))) }
    ensures sure { OnOk result (ForSome (D.reads disk.new) (λ _. IsFileSure (D.may_leave disk.new) (hash_of writing).0 (size_of writing))) }
    ensures right { OnOk result ((bytes : List ℕ) → WasPut writing bytes → is_named (hash_of writing).0 (size_of writing) bytes ≡ true) }
    ensures right_then { IsErrOf result SealFault.Disk → (bytes : List ℕ) → WasPut writing bytes → is_named (hash_of writing).0 (size_of writing) bytes ≡ true }
    ensures wrong { (named : hash_value) (size : ℕ) (got : hash_value) (many : ℕ) → IsErrOf result (SealFault.WrongBytes named size got many)
        → (named ≡ hash_of writing) × (size ≡ size_of writing) × (disk.new ≡ disk.old)
        × ((bytes : List ℕ) → WasPut writing bytes → (is_named (hash_of writing).0 (size_of writing) bytes ≡ false) × (got.0 ≡ sha256 bytes) × (many ≡ length bytes)) }
    ensures same { D.reads disk.new ≡ D.reads disk.old }
    ensures stop { LeavesNoMore (D.may_leave disk.old) (D.may_leave disk.new) }
    ensures run { LeavesOnly D.moment D.left_since disk.old disk.new (IsImage (D.may_leave disk.old)) }
    ensures later { D.faults disk.old ≤ D.faults disk.new }
    ensures cause { IsErrOf result SealFault.Disk → Rose (D.faults disk.old) (D.faults disk.new) }
{
    let named = writing.hash;
    let size = writing.size;
    let (put, got) = writing.hasher.done();
    if put != u64::from(size) || got != named {
        return Err(SealFault::WrongBytes {
            named,
            size,
            got,
            put: put as u32,
        });
    }
    disk.sync(&file_at(named))?;
    Ok(())
}
