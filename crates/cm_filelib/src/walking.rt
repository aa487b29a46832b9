//! The stored files are walked, one after another.
ghost use Rattle.std.specs.Prelude.{◌≡◌, ◌<◌, Some, true, IfOk, IfSome};
ghost use Rattle.std.specs.Option.{ForSome};
ghost use Rattle.cm_base.specs.Causes.{HasCause};
ghost use Rattle.cm_disk.specs.Disk.{IsImage, LeavesNoMore, LeavesOnly, is_above, IsNext};
ghost use Rattle.cm_disk.specs.Ranks.{ahead};
ghost use Rattle.cm_filelib.specs.Places.{file_place, place_or_none, stored};

use crate::places::FilePlace;
use cm_base::Hash;
use cm_disk::{Disk, DiskFault, next_of_form};

/// The hash of the next stored file, in the byte order of the places, which is that of the hashes. None behind the last.
pub fn next<D: Disk>(disk: &mut D, after: Option<Hash>) -> Result<Option<Hash>, DiskFault>
    ensures least { IfOk result (λ next. ForSome (D.reads disk.old) (λ files. IsNext (stored files) (place_or_none after) (place_or_none next))) }
    // Whatever the disk, a walk goes on, and ends.
    ensures above { IfOk result (λ next. IfSome next (λ hash. is_above (place_or_none after) (file_place hash.0) ≡ true)) }
    ensures nearer { IfOk result (λ next. IfSome next (λ hash. ahead (Some (file_place hash.0)) < ahead (place_or_none after))) }
    ensures same { D.reads disk.new ≡ D.reads disk.old }
    ensures stop { LeavesNoMore (D.may_leave disk.old) (D.may_leave disk.new) }
    ensures run { LeavesOnly D.moment D.left_since disk.old disk.new (IsImage (D.may_leave disk.old)) }
    ensures cause { HasCause (D.faults disk.old) (D.faults disk.new) result }
{
    next_of_form::<FilePlace, D>(disk, after)
}
