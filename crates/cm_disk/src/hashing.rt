//! The bytes of a file on a disk are hashed.
ghost use Rattle.std.specs.Prelude.{◌≡◌, ◌≤◌, ◌<◌, ◌+◌, ◌-◌, ◌^◌, ◌++◌, ℕ, List, IfOk, length, min, take, drop};
ghost use Rattle.std.specs.Option.{ForSome};
ghost use Rattle.cm_base.specs.Causes.{HasCause};
ghost use Rattle.cm_base.specs.Fed.{WasFed, count_of};
ghost use Rattle.cm_disk.specs.Disk.{IsImage, LeavesNoMore, LeavesOnly, Elapses, bytes_of};
ghost use Rattle.cm_disk.specs.Hashed.{hashed};

use crate::{Disk, DiskFault};
use cm_base::{FileHasher, Hash, Place};

/// The size of a file and its SHA-256, read in pieces of 64 KiB. None where there is no file.
pub fn hash_file<D: Disk>(disk: &mut D, place: &Place) -> Result<Option<(u64, Hash)>, DiskFault>
    ensures exact { IfOk result (λ got. ForSome (D.reads disk.old) (λ files. got ≡ hashed (files place.now))) }
    ensures same { D.reads disk.new ≡ D.reads disk.old }
    ensures stop { LeavesNoMore (D.may_leave disk.old) (D.may_leave disk.new) }
    ensures run { LeavesOnly D.moment D.left_since disk.old disk.new (IsImage (D.may_leave disk.old)) }
    ensures cause { HasCause (D.faults disk.old) (D.faults disk.new) result }
{
    let Some(size) = disk.size(place)? else {
        return Ok(None);
    };
    let hasher = read_front(disk, place, size)?;
    let got = hasher.done();
    Ok(Some(got))
}

// A hasher that was fed so many bytes from the front of a file, or fewer where the disk gives fewer.
fn read_front<D: Disk>(disk: &mut D, place: &Place, size: u64) -> Result<FileHasher, DiskFault>
    requires { size ≤ 2 ^ 40 + 131072 }
    ensures fed { IfOk result (λ hasher. ForSome (D.reads disk.old) (λ files. size ≤ length (bytes_of (files place.now)) → WasFed hasher (take size (bytes_of (files place.now))))) }
    ensures same { D.reads disk.new ≡ D.reads disk.old }
    ensures stop { LeavesNoMore (D.may_leave disk.old) (D.may_leave disk.new) }
    ensures run { LeavesOnly D.moment D.left_since disk.old disk.new (IsImage (D.may_leave disk.old)) }
    ensures cause { HasCause (D.faults disk.old) (D.faults disk.new) result }
{
    let mut buf = [0u8; 65536];
    let mut hasher = FileHasher::new();
    let mut at = 0;
    while at < size {
        let most = (size - at).min(65536) as usize;
        let count = feed_piece(disk, place, at, most, &mut buf, &mut hasher)?;
        if count == 0 {
            return Ok(hasher);
        }
        at += count as u64;
    }
    Ok(hasher)
}

// Feeds what a file has from an offset on, at most so many bytes.
fn feed_piece<D: Disk>(
    disk: &mut D,
    place: &Place,
    at: u64,
    most: usize,
    buf: &mut [u8; 65536],
    hasher: &mut FileHasher,
) -> Result<usize, DiskFault>
    requires most { most ≤ 65536 }
    requires room { count_of hasher.old < 2 ^ 41 }
    ensures fits { IfOk result (λ count. count ≤ most) }
    ensures number { IfOk result (λ count. ForSome (D.reads disk.old) (λ files. count ≡ min most (length (bytes_of (files place.now)) - at))) }
    ensures fed { IfOk result (λ count. ForSome (D.reads disk.old) (λ files. (before : List ℕ) → WasFed hasher.old before → WasFed hasher.new (before ++ take count (drop at (bytes_of (files place.now)))))) }
    ensures count { IfOk result (λ count. count_of hasher.new ≡ count_of hasher.old + count) }
    ensures same { D.reads disk.new ≡ D.reads disk.old }
    ensures stop { LeavesNoMore (D.may_leave disk.old) (D.may_leave disk.new) }
    ensures time { Elapses (D.moment disk.old) (D.moment disk.new) (D.left_since disk.old) (D.left_since disk.new) (D.may_leave disk.new) }
    ensures cause { HasCause (D.faults disk.old) (D.faults disk.new) result }
{
    let piece = &mut buf[..most];
    let count = disk.read_at(place, at, piece)?;
    hasher.feed(&piece[..count]);
    Ok(count)
}
