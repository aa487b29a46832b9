//! A file that is there already is looked at.
ghost use Rattle.std.specs.Prelude.{◌≡◌, true, IfOk, OnOk};
ghost use Rattle.std.specs.Option.{ForSome};
ghost use Rattle.cm_base.specs.Causes.{HasCause};
ghost use Rattle.cm_disk.specs.Disk.{File, IsImage, LeavesNoMore, LeavesOnly, Only};
ghost use Rattle.cm_disk.specs.Hashed.{hashed};
ghost use Rattle.cm_filelib.specs.Places.{file_place};
ghost use Rattle.cm_filelib.specs.Stored.{is_file_of, IsKept, IsFileSure};

use crate::places::file_at;
use cm_base::Hash;
use cm_disk::{Disk, DiskFault, hash_file};

/// Whether the place of a hash has a file of this size and this SHA-256. The file is read whole, and the place becomes durable
/// first: after `true` a crash preserves the file.
pub fn salvage<D: Disk>(disk: &mut D, hash: Hash, size: u32) -> Result<bool, DiskFault>
    ensures value { IfOk result (λ is. ForSome (D.reads disk.old) (λ files. is ≡ is_file_of hash.0 size (files (file_place hash.0)))) }
    ensures durable { OnOk result (ForSome (D.reads disk.new) (λ files. Only (files (file_place hash.0)) (D.may_leave disk.new (file_place hash.0)))) }
    ensures kept { IfOk result (λ is. is ≡ true → ForSome (D.reads disk.new) (λ files. IsKept files (D.may_leave disk.new) hash.0 size)) }
    ensures sure { IfOk result (λ is. is ≡ true → ForSome (D.reads disk.new) (λ _. IsFileSure (D.may_leave disk.new) hash.0 size)) }
    ensures same { D.reads disk.new ≡ D.reads disk.old }
    ensures stop { LeavesNoMore (D.may_leave disk.old) (D.may_leave disk.new) }
    ensures run { LeavesOnly D.moment D.left_since disk.old disk.new (IsImage (D.may_leave disk.old)) }
    ensures cause { HasCause (D.faults disk.old) (D.faults disk.new) result }
{
    let place = file_at(hash);
    // Sync before looking: an unsynced file could vanish in a crash after it was vouched for.
    disk.sync(&place)?;
    let found = hash_file(disk, &place)?;
    Ok(is_that(found, hash, size))
}

// Whether a file whose size and SHA-256 were found is the one that is meant.
fn is_that(found: Option<(u64, Hash)>, hash: Hash, size: u32) -> bool
    ensures { (file : File) → found ≡ hashed file → result ≡ is_file_of hash.0 size file }
{
    match found {
        Some((read, got)) => read == u64::from(size) && got == hash,
        None => false,
    }
}
