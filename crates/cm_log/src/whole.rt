//! A small file that is written whole.
ghost use Rattle.std.specs.Prelude.{◌≡◌, ◌≢◌, ◌<◌, length, Some, OnOk};
ghost use Rattle.std.specs.Option.{ForSome};
ghost use Rattle.cm_base.specs.Causes.{HasCause};
ghost use Rattle.cm_disk.specs.Disk.{put, Only};
ghost use Rattle.cm_log.specs.Frames.{LeavesAlone, NoneGone};

use cm_base::Place;
use cm_disk::{Disk, DiskFault};

/// Makes a file of these bytes and no others, and syncs it.
pub(crate) fn write_file<D: Disk>(
    disk: &mut D,
    place: &Place,
    bytes: &[u8],
) -> Result<(), DiskFault>
    requires { length bytes.now < 100 }
    ensures made { OnOk result (ForSome (D.reads disk.old) (λ files. D.reads disk.new ≡ Some (put files place.now (Some bytes.now)))) }
    ensures durable { OnOk result (ForSome (D.reads disk.old) (λ files. Only (Some bytes.now) (D.may_leave disk.new place.now))) }
    ensures alone { LeavesAlone (λ q. q ≢ place.now) D.reads D.may_leave D.moment D.left_since D.faults disk.old disk.new }
    ensures none_gone { NoneGone (D.reads disk.old) (D.reads disk.new) }
    ensures cause { HasCause (D.faults disk.old) (D.faults disk.new) result }
{
    disk.write_at(place, 0, bytes)?;
    disk.cut(place, bytes.len() as u64)?;
    disk.sync(place)?;
    Ok(())
}
