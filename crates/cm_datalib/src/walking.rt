//! The stored manifests are walked, one after another.
ghost use Rattle.std.specs.Prelude.{◌≡◌, ◌<◌, Some, true, IfOk, IfSome};
ghost use Rattle.std.specs.Option.{ForSome};
ghost use Rattle.cm_base.specs.Causes.{HasCause};
ghost use Rattle.cm_disk.specs.Disk.{IsImage, LeavesNoMore, LeavesOnly, is_above, IsNext};
ghost use Rattle.cm_disk.specs.Ranks.{ahead};
ghost use Rattle.cm_datalib.specs.Places.{manifest_place, place_or_none, stored};

use crate::places::ManifestPlace;
use cm_base::{PackageId, Version};
use cm_disk::{Disk, DiskFault, next_of_form};

/// The version of the next stored manifest, in the byte order of the places. None behind the last.
pub fn next<D: Disk>(
    disk: &mut D,
    after: Option<(PackageId, Version)>,
) -> Result<Option<(PackageId, Version)>, DiskFault>
    ensures least { IfOk result (λ next. ForSome (D.reads disk.old) (λ files. IsNext (stored files) (place_or_none after) (place_or_none next))) }
    // Whatever the disk, a walk goes on, and ends.
    ensures above { IfOk result (λ next. IfSome next (λ named. is_above (place_or_none after) (manifest_place named.0 named.1) ≡ true)) }
    ensures nearer { IfOk result (λ next. IfSome next (λ named. ahead (Some (manifest_place named.0 named.1)) < ahead (place_or_none after))) }
    ensures same { D.reads disk.new ≡ D.reads disk.old }
    ensures stop { LeavesNoMore (D.may_leave disk.old) (D.may_leave disk.new) }
    ensures run { LeavesOnly D.moment D.left_since disk.old disk.new (IsImage (D.may_leave disk.old)) }
    ensures cause { HasCause (D.faults disk.old) (D.faults disk.new) result }
{
    next_of_form::<ManifestPlace, D>(disk, after)
}
