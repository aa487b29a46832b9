//! A disk as the layers above see it: what reads give, and what a stop may leave.
ghost use Rattle.std.specs.Prelude.{◌≡◌, ◌⊎◌, ◌+◌, ◌^◌, ◌<◌, ◌≤◌, List, ℕ, length, Option, Some, true, IsSome, IfOk, OnOk, IfSome, option_map};
ghost use Rattle.std.specs.Option.{ForSome, option_copied};
ghost use Rattle.cm_base.specs.Causes.{HasCause};
ghost use Rattle.cm_disk.specs.Disk.{Files, File, bytes_of, written, shortened, removed, Does, Reads, IsImage, LeavesNoMore, Touches, IsThere, Only, Elapses, is_above, IsNext};

use cm_base::Place;

/// The disk failed. It is answered only where the disk's count of faults rose in that call.
#[derive(Clone, Copy, Debug, PartialEq, Eq)]
pub struct DiskFault;

/// A map from places to bytes. A call that fails raises the count of faults.
///
/// A disk may tell what reads give, or tell nothing. What its calls promise of content, they promise where it tells.
pub trait Disk {
    /// What reads give, where the disk tells it.
    ghost reads: { Self → Option Files };

    /// What a stop at this moment may leave at each place, each by itself.
    ghost may_leave: { Self → List ℕ → File → Type 0 };

    /// The moment, as a number that doesn't fall.
    ghost moment: { Self → ℕ };

    /// What a stop at some moment from that one on might have left, during a call or between two.
    ghost left_since: { Self → ℕ → Files → Type 0 };

    /// How often the disk has failed.
    ghost faults: { Self → ℕ };

    /// The size of a file in bytes, at most 2^40 + 131,072. None where there is none.
    fn size(&mut self, place: &Place) -> Result<Option<u64>, DiskFault>
        ensures value { IfOk result (λ size. ForSome (reads self.old) (λ files. size ≡ option_map length (files place.now))) }
        ensures bound { IfOk result (λ size. IfSome size (λ size. size ≤ 2 ^ 40 + 131072)) }
        ensures same { reads self.new ≡ reads self.old }
        ensures stop { LeavesNoMore (may_leave self.old) (may_leave self.new) }
        ensures time { Elapses (moment self.old) (moment self.new) (left_since self.old) (left_since self.new) (may_leave self.new) }
        ensures cause { HasCause (faults self.old) (faults self.new) result };

    /// Reads from an offset on, as much as the buffer and the file allow. Gives the number of bytes read, 0 for an absent
    /// place and from 2^40 + 131,072 on.
    fn read_at(&mut self, place: &Place, offset: u64, buf: &mut [u8]) -> Result<usize, DiskFault>
        ensures fits { IfOk result (λ count. count ≤ length buf.new) }
        ensures bytes { IfOk result (λ count. ForSome (reads self.old) (λ files. Reads (files place.now) offset buf.new count)) }
        ensures end { IfOk result (λ count. 2 ^ 40 + 131072 ≤ offset → count ≡ 0) }
        ensures same { reads self.new ≡ reads self.old }
        ensures stop { LeavesNoMore (may_leave self.old) (may_leave self.new) }
        ensures time { Elapses (moment self.old) (moment self.new) (left_since self.old) (left_since self.new) (may_leave self.new) }
        ensures cause { HasCause (faults self.old) (faults self.new) result };

    /// Writes from an offset on, at most the size: over what is there, and past the end. Makes the file where it is
    /// absent, also for an empty piece. After a fault any part of it may be done.
    fn write_at(&mut self, place: &Place, offset: u64, bytes: &[u8]) -> Result<(), DiskFault>
        requires within { ForSome (reads self.old) (λ files. offset ≤ length (bytes_of (files place.now))) }
        requires fits { offset + length bytes.now ≤ 2 ^ 40 + 131072 }
        ensures work { Does (reads self.old) (reads self.new) place.now (written offset bytes.now) result }
        ensures touches { Touches place.now (λ i. (i < offset) ⊎ (offset + length bytes.now ≤ i)) (may_leave self.old) (may_leave self.new) }
        ensures there { IsThere (may_leave self.old place.now) → IsThere (may_leave self.new place.now) }
        ensures time { Elapses (moment self.old) (moment self.new) (left_since self.old) (left_since self.new) (may_leave self.new) }
        ensures cause { HasCause (faults self.old) (faults self.new) result };

    /// Shortens a file to a size that it has at least. After a fault any part of it may be done.
    fn cut(&mut self, place: &Place, size: u64) -> Result<(), DiskFault>
        requires { ForSome (reads self.old) (λ files. IsSome (files place.now) × (size ≤ length (bytes_of (files place.now)))) }
        ensures work { Does (reads self.old) (reads self.new) place.now (shortened size) result }
        ensures touches { Touches place.now (λ i. i < size) (may_leave self.old) (may_leave self.new) }
        ensures there { IsThere (may_leave self.old place.now) → IsThere (may_leave self.new place.now) }
        ensures time { Elapses (moment self.old) (moment self.new) (left_since self.old) (left_since self.new) (may_leave self.new) }
        ensures cause { HasCause (faults self.old) (faults self.new) result };

    /// Removes a file. Where there is none, nothing changes. After a fault any part of it may be done.
    fn remove(&mut self, place: &Place) -> Result<(), DiskFault>
        ensures work { Does (reads self.old) (reads self.new) place.now removed result }
        ensures touches { Touches place.now (λ _. ⊥) (may_leave self.old) (may_leave self.new) }
        ensures time { Elapses (moment self.old) (moment self.new) (left_since self.old) (left_since self.new) (may_leave self.new) }
        ensures cause { HasCause (faults self.old) (faults self.new) result };

    /// Makes durable what a read gives at a place, also that there is no file: after it, a stop leaves that. After a fault
    /// any part may be durable.
    fn sync(&mut self, place: &Place) -> Result<(), DiskFault>
        ensures durable { OnOk result (ForSome (reads self.old) (λ files. Only (files place.now) (may_leave self.new place.now))) }
        ensures same { reads self.new ≡ reads self.old }
        ensures stop { LeavesNoMore (may_leave self.old) (may_leave self.new) }
        ensures time { Elapses (moment self.old) (moment self.new) (left_since self.old) (left_since self.new) (may_leave self.new) }
        ensures cause { HasCause (faults self.old) (faults self.new) result };

    /// The least place above another in byte order, or of all, of those that are there. None behind the last.
    fn next_place(&mut self, after: Option<&Place>) -> Result<Option<Place>, DiskFault>
        ensures above { IfOk result (λ next. IfSome next (λ next. is_above (option_copied after.entry) next ≡ true)) }
        ensures least { IfOk result (λ next. ForSome (reads self.old) (λ files. IsNext files (option_copied after.entry) next)) }
        ensures same { reads self.new ≡ reads self.old }
        ensures stop { LeavesNoMore (may_leave self.old) (may_leave self.new) }
        ensures time { Elapses (moment self.old) (moment self.new) (left_since self.old) (left_since self.new) (may_leave self.new) }
        ensures cause { HasCause (faults self.old) (faults self.new) result };

    /// How often the disk has failed.
    fn faults(&self) -> u64
        ensures { result ≡ faults self.now };

    /// This moment is one of those since an earlier one.
    ghost counts_now: { (disk : Self) (t : ℕ) (files : Files) → t ≤ moment disk → IsImage (may_leave disk) files → left_since disk t files };

    /// Since this moment there is no other.
    ghost only_now: { (disk : Self) (files : Files) → left_since disk (moment disk) files → IsImage (may_leave disk) files };

    /// A disk as it reads is one of its images.
    ghost as_it_reads: { (disk : Self) (files : Files) → reads disk ≡ Some files → IsImage (may_leave disk) files };

    /// A stop leaves something, whatever the disk tells.
    ghost some_image: { (disk : Self) → (files : Files) × IsImage (may_leave disk) files };

    /// A file has at most 2^40 + 131,072 bytes.
    ghost short: { (disk : Self) (files : Files) (place : List ℕ) → reads disk ≡ Some files → length (bytes_of (files place)) ≤ 2 ^ 40 + 131072 };
}
