//! Bytes of a file are read ahead, a block at a time.
ghost use Rattle.std.specs.Prelude.{◌≡◌, ◌-◌, ◌+◌, ◌^◌, ◌<◌, ◌≤◌, length, min, take, drop, true, IfOk, OnOk, OnErr};
ghost use Rattle.std.specs.Option.{ForSome};
ghost use Rattle.cm_base.specs.Causes.{HasCause};
ghost use Rattle.cm_disk.specs.Disk.{File, bytes_of, Reads};
ghost use Rattle.cm_log.specs.Frames.{OnlyReads};
ghost use Rattle.cm_log.specs.Settled.{IsAhead};

use crate::position::Block;
use cm_base::Place;
use cm_disk::{Disk, DiskFault};

impl Block {
    /// A block of no bytes.
    pub(crate) fn none() -> Block
        ensures { (file : File) → IsAhead file result }
    {
        Block {
            bytes: [0; 65536],
            start: 0,
            count: 0,
        }
    }

    /// As the disk's `read_at`, for at most 65,536 bytes of one file that stays as it is. The device is asked only where
    /// the block has not all of them, and then for a whole block.
    pub(crate) fn read_at<D: Disk>(
        &mut self,
        disk: &mut D,
        place: &Place,
        offset: u64,
        buf: &mut [u8],
    ) -> Result<usize, DiskFault>
        requires ahead { ForSome (D.reads disk.old) (λ files. IsAhead (files place.now) self.old) }
        requires short { length buf.old ≤ 65536 }
        requires within { offset ≤ 2 ^ 42 }
        ensures fits { IfOk result (λ count. count ≤ length buf.new) }
        ensures bytes { IfOk result (λ count. ForSome (D.reads disk.old) (λ files. Reads (files place.now) offset buf.new count)) }
        ensures end { IfOk result (λ count. 2 ^ 40 + 196608 ≤ offset → count ≡ 0) }
        ensures ahead { ForSome (D.reads disk.new) (λ files. IsAhead (files place.now) self.new) }
        ensures stays { OnErr result (self.new ≡ self.old) }
        ensures only { OnlyReads D.reads D.may_leave D.moment D.left_since D.faults disk.old disk.new }
        ensures cause { HasCause (D.faults disk.old) (D.faults disk.new) result }
    {
        if !self.has(offset, buf.len()) {
            self.fill(disk, place, offset)?;
        }
        Ok(self.copy(offset, buf))
    }

    // Whether all of these bytes are here.
    fn has(&self, offset: u64, len: usize) -> bool
        requires few { len ≤ 65536 }
        requires within { offset ≤ 2 ^ 42 }
        ensures yes { result ≡ true → (self.now.start ≤ offset) × (offset + len ≤ self.now.start + self.now.count) }
    {
        self.start <= offset && offset - self.start + len as u64 <= self.count as u64
    }

    // The block from there on.
    fn fill<D: Disk>(&mut self, disk: &mut D, place: &Place, offset: u64) -> Result<(), DiskFault>
        ensures start { OnOk result (self.new.start ≡ offset) }
        ensures count { OnOk result (ForSome (D.reads disk.old) (λ files. self.new.count ≡ min 65536 (length (bytes_of (files place.now)) - offset))) }
        ensures ahead { OnOk result (ForSome (D.reads disk.old) (λ files. IsAhead (files place.now) self.new)) }
        ensures stays { OnErr result (self.new ≡ self.old) }
        ensures only { OnlyReads D.reads D.may_leave D.moment D.left_since D.faults disk.old disk.new }
        ensures cause { HasCause (D.faults disk.old) (D.faults disk.new) result }
    {
        // A read that fails leaves the block as it is.
        let mut bytes = [0u8; 65536];
        let count = disk.read_at(place, offset, &mut bytes)?;
        *self = Block {
            bytes,
            start: offset,
            count,
        };
        Ok(())
    }

    // The bytes from there on, as far as they are here.
    fn copy(&self, offset: u64, buf: &mut [u8]) -> usize
        requires within { (self.now.start ≤ offset) × (offset ≤ self.now.start + self.now.count) }
        ensures count { result ≡ min (length buf.old) (self.now.start + self.now.count - offset) }
        ensures length { length buf.new ≡ length buf.old }
        ensures bytes { take result buf.new ≡ take result (drop (offset - self.now.start) self.now.bytes) }
    {
        let from = (offset - self.start) as usize;
        let count = (self.count - from).min(buf.len());
        buf[..count].copy_from_slice(&self.bytes[from..from + count]);
        count
    }
}
