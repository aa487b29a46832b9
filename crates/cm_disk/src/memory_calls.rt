//! A disk in memory is a disk.
ghost use Rattle.std.specs.Prelude.{◌≡◌, ◌⊎◌, ◌+◌, ◌-◌, ◌^◌, ◌<◌, ◌≤◌, min, length, take, drop, true, Some, IsSome, IfOk, OnOk, IfSome, option_map};
ghost use Rattle.std.specs.Option.{ForSome, option_copied};
ghost use Rattle.cm_base.specs.Causes.{HasCause};
ghost use Rattle.cm_disk.specs.Disk.{bytes_of, written, shortened, removed, Does, Reads, LeavesNoMore, Touches, IsThere, Only, Elapses, is_above, IsNext};
ghost use Rattle.cm_disk.specs.Recorded.{calls_of, reads_of, leaves_of, moment_of, since_of, faults_of, FailsExactly, IsWrite, IsRecorded};
ghost use Rattle.cm_disk.specs.StandsLaws.{counts, only, as_it_reads, some_image, short_files};

use crate::calls::Work;
use crate::memory::MemDisk;
use crate::slots::owned;
use crate::{Disk, DiskFault};
use cm_base::Place;

impl Disk for MemDisk {
    ghost reads = { reads_of };

    ghost may_leave = { leaves_of };

    ghost moment = { moment_of };

    ghost left_since = { since_of };

    ghost faults = { faults_of };

    ghost counts_now = { λ d t files le image. counts d.calls.items t files le image };

    ghost only_now = { λ d files left. only d.calls.items files left };

    ghost as_it_reads = { λ d files is. as_it_reads d.calls.items files is };

    ghost some_image = { λ d. some_image d.calls.items };

    ghost short = { λ d files place is. short_files d.calls.items d.small files place is };

    fn size(&mut self, place: &Place) -> Result<Option<u64>, DiskFault>
        ensures value { IfOk result (λ size. ForSome (reads_of self.old) (λ files. size ≡ option_map length (files place.now))) }
        ensures bound { IfOk result (λ size. IfSome size (λ size. size ≤ 2 ^ 40 + 131072)) }
        ensures same { reads_of self.new ≡ reads_of self.old }
        ensures stop { LeavesNoMore (leaves_of self.old) (leaves_of self.new) }
        ensures time { Elapses (moment_of self.old) (moment_of self.new) (since_of self.old) (since_of self.new) (leaves_of self.new) }
        ensures cause { HasCause (faults_of self.old) (faults_of self.new) result }
        ensures exact { FailsExactly self.old self.new result }
        ensures recorded { calls_of self.new ≡ calls_of self.old }
    {
        if self.fails() {
            return Err(self.fault());
        }
        Ok(match self.slots.get(place) {
            Some(slot) => match &slot.file {
                Some(bytes) => Some(bytes.len() as u64),
                None => None,
            },
            None => None,
        })
    }

    fn read_at(&mut self, place: &Place, offset: u64, buf: &mut [u8]) -> Result<usize, DiskFault>
        ensures fits { IfOk result (λ count. count ≤ length buf.new) }
        ensures bytes { IfOk result (λ count. ForSome (reads_of self.old) (λ files. Reads (files place.now) offset buf.new count)) }
        ensures end { IfOk result (λ count. 2 ^ 40 + 131072 ≤ offset → count ≡ 0) }
        ensures same { reads_of self.new ≡ reads_of self.old }
        ensures stop { LeavesNoMore (leaves_of self.old) (leaves_of self.new) }
        ensures time { Elapses (moment_of self.old) (moment_of self.new) (since_of self.old) (since_of self.new) (leaves_of self.new) }
        ensures cause { HasCause (faults_of self.old) (faults_of self.new) result }
        ensures exact { FailsExactly self.old self.new result }
        ensures recorded { calls_of self.new ≡ calls_of self.old }
    {
        if self.fails() {
            return Err(self.fault());
        }
        Ok(match self.slots.get(place) {
            Some(slot) => match &slot.file {
                Some(bytes) => copy_from(bytes, offset, buf),
                None => 0,
            },
            None => 0,
        })
    }

    fn write_at(&mut self, place: &Place, offset: u64, bytes: &[u8]) -> Result<(), DiskFault>
        requires within { ForSome (reads_of self.old) (λ files. offset ≤ length (bytes_of (files place.now))) }
        requires fits { offset + length bytes.now ≤ 2 ^ 40 + 131072 }
        ensures work { Does (reads_of self.old) (reads_of self.new) place.now (written offset bytes.now) result }
        ensures touches { Touches place.now (λ i. (i < offset) ⊎ (offset + length bytes.now ≤ i)) (leaves_of self.old) (leaves_of self.new) }
        ensures there { IsThere (leaves_of self.old place.now) → IsThere (leaves_of self.new place.now) }
        ensures time { Elapses (moment_of self.old) (moment_of self.new) (since_of self.old) (since_of self.new) (leaves_of self.new) }
        ensures cause { HasCause (faults_of self.old) (faults_of self.new) result }
        ensures exact { FailsExactly self.old self.new result }
        ensures recorded { IsRecorded self.old self.new place.now (IsWrite offset bytes.now) result }
    {
        let Ok(bytes) = owned(self.alloc, bytes) else {
            // It takes a number too.
            let _listed = self.fails();
            return Err(self.lack());
        };
        self.change(place, Work::Write { offset, bytes })
    }

    fn cut(&mut self, place: &Place, size: u64) -> Result<(), DiskFault>
        requires { ForSome (reads_of self.old) (λ files. IsSome (files place.now) × (size ≤ length (bytes_of (files place.now)))) }
        ensures work { Does (reads_of self.old) (reads_of self.new) place.now (shortened size) result }
        ensures touches { Touches place.now (λ i. i < size) (leaves_of self.old) (leaves_of self.new) }
        ensures there { IsThere (leaves_of self.old place.now) → IsThere (leaves_of self.new place.now) }
        ensures time { Elapses (moment_of self.old) (moment_of self.new) (since_of self.old) (since_of self.new) (leaves_of self.new) }
        ensures cause { HasCause (faults_of self.old) (faults_of self.new) result }
        ensures exact { FailsExactly self.old self.new result }
        ensures recorded { IsRecorded self.old self.new place.now (λ work. work ≡ Work.Cut size) result }
    {
        self.change(place, Work::Cut { size })
    }

    fn remove(&mut self, place: &Place) -> Result<(), DiskFault>
        ensures work { Does (reads_of self.old) (reads_of self.new) place.now removed result }
        ensures touches { Touches place.now (λ _. ⊥) (leaves_of self.old) (leaves_of self.new) }
        ensures time { Elapses (moment_of self.old) (moment_of self.new) (since_of self.old) (since_of self.new) (leaves_of self.new) }
        ensures cause { HasCause (faults_of self.old) (faults_of self.new) result }
        ensures exact { FailsExactly self.old self.new result }
        ensures recorded { IsRecorded self.old self.new place.now (λ work. work ≡ Work.Remove) result }
    {
        self.change(place, Work::Remove)
    }

    fn sync(&mut self, place: &Place) -> Result<(), DiskFault>
        ensures durable { OnOk result (ForSome (reads_of self.old) (λ files. Only (files place.now) (leaves_of self.new place.now))) }
        ensures same { reads_of self.new ≡ reads_of self.old }
        ensures stop { LeavesNoMore (leaves_of self.old) (leaves_of self.new) }
        ensures time { Elapses (moment_of self.old) (moment_of self.new) (since_of self.old) (since_of self.new) (leaves_of self.new) }
        ensures cause { HasCause (faults_of self.old) (faults_of self.new) result }
        ensures exact { FailsExactly self.old self.new result }
        ensures recorded { IsRecorded self.old self.new place.now (λ work. work ≡ Work.Sync) result }
    {
        self.change(place, Work::Sync)
    }

    fn next_place(&mut self, after: Option<&Place>) -> Result<Option<Place>, DiskFault>
        ensures above { IfOk result (λ next. IfSome next (λ next. is_above (option_copied after.entry) next ≡ true)) }
        ensures least { IfOk result (λ next. ForSome (reads_of self.old) (λ files. IsNext files (option_copied after.entry) next)) }
        ensures same { reads_of self.new ≡ reads_of self.old }
        ensures stop { LeavesNoMore (leaves_of self.old) (leaves_of self.new) }
        ensures time { Elapses (moment_of self.old) (moment_of self.new) (since_of self.old) (since_of self.new) (leaves_of self.new) }
        ensures cause { HasCause (faults_of self.old) (faults_of self.new) result }
        ensures exact { FailsExactly self.old self.new result }
        ensures recorded { calls_of self.new ≡ calls_of self.old }
    {
        if self.fails() {
            return Err(self.fault());
        }
        Ok(self.next_there(after))
    }

    fn faults(&self) -> u64 {
        self.faults
    }
}

// Copies bytes from an offset on, as many as there are and as the buffer takes.
fn copy_from(bytes: &[u8], offset: u64, buf: &mut [u8]) -> usize
    ensures number { result ≡ min (length buf.new) (length bytes.now - offset) }
    ensures bytes { take result buf.new ≡ take result (drop offset bytes.now) }
    ensures length { length buf.new ≡ length buf.old }
{
    if offset >= bytes.len() as u64 {
        return 0;
    }
    let start = offset as usize;
    let count = (bytes.len() - start).min(buf.len());
    buf[..count].copy_from_slice(&bytes[start..start + count]);
    count
}
