//! A file is read.
ghost use Rattle.std.specs.Prelude.{◌≡◌, ◌+◌, ◌≤◌, ◌^◌, length, is_some, option_map, IfOk, IfSome};
ghost use Rattle.std.specs.Option.{ForSome};
ghost use Rattle.cm_base.specs.Causes.{HasCause};
ghost use Rattle.cm_disk.specs.Disk.{Reads, IsImage, LeavesNoMore, LeavesOnly};
ghost use Rattle.cm_filelib.specs.Places.{file_place};

use crate::places::file_at;
use cm_base::Hash;
use cm_disk::{Disk, DiskFault};

/// Reads the file of a hash from an offset on, as much as the buffer and the file allow, and gives the number of bytes read.
/// None exactly where the place is absent.
pub fn read_at<D: Disk>(
    disk: &mut D,
    hash: Hash,
    offset: u64,
    buf: &mut [u8],
) -> Result<Option<usize>, DiskFault>
    ensures there { IfOk result (λ found. ForSome (D.reads disk.old) (λ files. is_some found ≡ is_some (files (file_place hash.0)))) }
    ensures fits { IfOk result (λ found. IfSome found (λ count. count ≤ length buf.new)) }
    ensures bytes { IfOk result (λ found. IfSome found (λ count. ForSome (D.reads disk.old) (λ files. Reads (files (file_place hash.0)) offset buf.new count))) }
    ensures same { D.reads disk.new ≡ D.reads disk.old }
    ensures stop { LeavesNoMore (D.may_leave disk.old) (D.may_leave disk.new) }
    ensures run { LeavesOnly D.moment D.left_since disk.old disk.new (IsImage (D.may_leave disk.old)) }
    ensures cause { HasCause (D.faults disk.old) (D.faults disk.new) result }
{
    let place = file_at(hash);
    if disk.size(&place)?.is_none() {
        return Ok(None);
    }
    Ok(Some(disk.read_at(&place, offset, buf)?))
}

/// The size of the file of a hash in bytes, at most 2^40 + 131,072. None exactly where the place is absent.
pub fn file_size<D: Disk>(disk: &mut D, hash: Hash) -> Result<Option<u64>, DiskFault>
    ensures value { IfOk result (λ size. ForSome (D.reads disk.old) (λ files. size ≡ option_map length (files (file_place hash.0)))) }
    ensures bound { IfOk result (λ size. IfSome size (λ size. size ≤ 2 ^ 40 + 131072)) }
    ensures same { D.reads disk.new ≡ D.reads disk.old }
    ensures stop { LeavesNoMore (D.may_leave disk.old) (D.may_leave disk.new) }
    ensures run { LeavesOnly D.moment D.left_since disk.old disk.new (IsImage (D.may_leave disk.old)) }
    ensures cause { HasCause (D.faults disk.old) (D.faults disk.new) result }
{
    let place = file_at(hash);
    let size = disk.size(&place)?;
    Ok(size)
}
