//! A file is erased.
ghost use Rattle.std.specs.Prelude.{◌≢◌, None, List, ℕ, OnOk};
ghost use Rattle.std.specs.Option.{ForSome};
ghost use Rattle.cm_base.specs.Causes.{HasCause};
ghost use Rattle.cm_disk.specs.Disk.{File, Files, removed, Does, Only, LeavesOnly};
ghost use Rattle.cm_filelib.specs.Places.{file_place};

use crate::places::file_at;
use cm_base::Hash;
use cm_disk::{Disk, DiskFault};

/// Removes the file of a hash, durably: after Ok no stop leaves it. Where there is none, nothing changes. After a fault any
/// part of it may be there.
pub fn erase<D: Disk>(disk: &mut D, hash: Hash) -> Result<(), DiskFault>
    ensures work { Does (D.reads disk.old) (D.reads disk.new) (file_place hash.0) removed result }
    ensures durable { OnOk result (ForSome (D.reads disk.old) (λ files. Only None (D.may_leave disk.new (file_place hash.0)))) }
    ensures others { (q : List ℕ) (file : File) → q ≢ file_place hash.0 → D.may_leave disk.new q file → D.may_leave disk.old q file }
    ensures run { LeavesOnly D.moment D.left_since disk.old disk.new (λ (left : Files). (q : List ℕ) → q ≢ file_place hash.0 → D.may_leave disk.old q (left q)) }
    ensures cause { HasCause (D.faults disk.old) (D.faults disk.new) result }
{
    let place = file_at(hash);
    disk.remove(&place)?;
    disk.sync(&place)?;
    Ok(())
}
