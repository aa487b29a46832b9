//! A stored manifest is erased.
ghost use Rattle.std.specs.Prelude.{◌≢◌, None, List, ℕ, OnOk};
ghost use Rattle.std.specs.Option.{ForSome};
ghost use Rattle.cm_base.specs.Causes.{HasCause};
ghost use Rattle.cm_disk.specs.Disk.{File, Files, removed, Does, Only, LeavesOnly};
ghost use Rattle.cm_datalib.specs.Places.{manifest_place};

use crate::places::manifest_at;
use cm_base::{PackageId, Version};
use cm_disk::{Disk, DiskFault};

/// Removes the manifest of a version, durably: after Ok no stop leaves it. Where there is none, nothing changes. After a fault any
/// part of it may be there.
pub fn erase<D: Disk>(disk: &mut D, package: PackageId, version: Version) -> Result<(), DiskFault>
    ensures work { Does (D.reads disk.old) (D.reads disk.new) (manifest_place «package» version) removed result }
    ensures durable { OnOk result (ForSome (D.reads disk.old) (λ files. Only None (D.may_leave disk.new (manifest_place «package» version)))) }
    ensures others { (q : List ℕ) (file : File) → q ≢ manifest_place «package» version → D.may_leave disk.new q file → D.may_leave disk.old q file }
    ensures run { LeavesOnly D.moment D.left_since disk.old disk.new (λ (left : Files). (q : List ℕ) → q ≢ manifest_place «package» version → D.may_leave disk.old q (left q)) }
    ensures cause { HasCause (D.faults disk.old) (D.faults disk.new) result }
{
    let place = manifest_at(package, version);
    disk.remove(&place)?;
    disk.sync(&place)?;
    Ok(())
}
