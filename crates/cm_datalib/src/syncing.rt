//! A stored manifest is made durable.
ghost use Rattle.std.specs.Prelude.{◌≡◌, IfOk, OnOk};
ghost use Rattle.std.specs.Option.{ForSome};
ghost use Rattle.cm_base.specs.Causes.{HasCause};
ghost use Rattle.cm_disk.specs.Disk.{IsImage, LeavesNoMore, LeavesOnly, Only};
ghost use Rattle.cm_datalib.specs.Places.{manifest_place};

use crate::places::manifest_at;
use cm_base::{PackageId, Place, Version};
use cm_disk::{Disk, DiskFault};

/// Makes durable what stands at the place of a version's manifest, also that there is none, and tells the place: after Ok a crash
/// preserves what reads give there.
pub fn sync<D: Disk>(disk: &mut D, package: PackageId, version: Version) -> Result<Place, DiskFault>
    ensures place { IfOk result (λ place. place ≡ manifest_place «package» version) }
    ensures durable { OnOk result (ForSome (D.reads disk.new) (λ files. Only (files (manifest_place «package» version)) (D.may_leave disk.new (manifest_place «package» version)))) }
    ensures same { D.reads disk.new ≡ D.reads disk.old }
    ensures stop { LeavesNoMore (D.may_leave disk.old) (D.may_leave disk.new) }
    ensures run { LeavesOnly D.moment D.left_since disk.old disk.new (IsImage (D.may_leave disk.old)) }
    ensures cause { HasCause (D.faults disk.old) (D.faults disk.new) result }
{
    let place = manifest_at(package, version);
    disk.sync(&place)?;
    Ok(place)
}
