//! What a stop leaves of a disk in memory.
ghost use Rattle.std.specs.Prelude.{◌≡◌, ◌≤◌, [], List, ℕ, Some, None, false, IfOk, OnOk, if◌then◌else◌, nat_le, ◌&&◌};
ghost use Rattle.std.specs.Str.{bytes_eq};
ghost use Rattle.cm_disk.specs.Disk.{File, IsImage};
ghost use Rattle.cm_disk.specs.Images.{is_before, is_touched, at_rest};
ghost use Rattle.cm_disk.specs.Stands.{absent, marked, picked, IsSmall};
ghost use Rattle.cm_disk.specs.Recorded.{stand_at, files_of, leaves_of, is_failing, number_of, faults_of, short_of};
ghost use Rattle.cm_disk.specs.Slots.{file_of, stand_of};

use crate::calls::{Slot, Span, Work};
use crate::memory::MemDisk;
use crate::slots::copied;
use cm_base::{Memory, Place};
use std::alloc::{AllocError, Global};

impl MemDisk {
    /// One image as a disk, all of which is durable: 0 has the durable bytes, 1 what reads give, 2 that with 1 at each touched
    /// byte. It fails at no call. An Err is want of memory.
    pub fn crash(&self, pick: u8) -> Result<MemDisk, Memory>
        requires { pick ≤ 2 }
        ensures picked { IfOk result (λ disk. (q : List ℕ) → stand_at disk q ≡ at_rest (picked pick (stand_at self.now q))) }
        ensures image { IfOk result (λ disk. IsImage (leaves_of self.now) (files_of disk)) }
        ensures durable { IfOk result (λ disk. (q : List ℕ) (file : File) → leaves_of disk q file → file ≡ files_of disk q) }
        ensures listed { IfOk result (λ disk. (number : ℕ) → is_failing disk number ≡ false) }
        ensures fresh { IfOk result (λ disk. (number_of disk ≡ 0) × (faults_of disk ≡ 0) × (short_of disk ≡ 0)) }
    {
        let mut disk = MemDisk::made(self.alloc, Vec::new(self.alloc), None);
        for (place, slot) in self.slots.iter() {
            disk.keep(place, slot, pick)?;
        }
        Ok(disk)
    }

    // Takes in what is left of one place.
    fn keep(&mut self, place: &Place, slot: &Slot, pick: u8) -> Result<(), Memory>
        requires none { stand_at self.old place.now ≡ absent }
        requires small { IsSmall (stand_of slot.now) }
        ensures kept { OnOk result ((q : List ℕ) → stand_at self.new q ≡ (if bytes_eq place.now q then at_rest (picked pick (stand_of slot.now)) else stand_at self.old q)) }
        ensures listed { (number : ℕ) → is_failing self.new number ≡ is_failing self.old number }
        ensures counts { (number_of self.new ≡ number_of self.old) × (faults_of self.new ≡ faults_of self.old) × (short_of self.new ≡ short_of self.old) }
    {
        let Some(bytes) = picked_file(self.alloc, slot, pick)? else {
            return Ok(());
        };
        let is_written = self.add(place, Work::Write { offset: 0, bytes }, true);
        if !is_written {
            return Err(Memory);
        }
        let is_synced = self.add(place, Work::Sync, true);
        if !is_synced {
            return Err(Memory);
        }
        Ok(())
    }
}

fn picked_file(alloc: Global, slot: &Slot, pick: u8) -> Result<Option<Vec<u8>>, AllocError>
    ensures { IfOk result (λ file. file_of file ≡ picked pick (stand_of slot.now)) }
{
    match pick {
        0 => copied(alloc, &slot.durable),
        1 => copied(alloc, &slot.file),
        _ => match &slot.file {
            Some(bytes) => Ok(Some(marked_bytes(alloc, &slot.touched, bytes)?)),
            None => Ok(None),
        },
    }
}

fn marked_bytes(alloc: Global, touched: &[Span], bytes: &[u8]) -> Result<Vec<u8>, AllocError>
    ensures { IfOk result (λ made. made.items ≡ marked touched.now 0 bytes.now) }
{
    let mut made = Vec::new(alloc);
    for byte in bytes {
        let i = made.len() as u64;
        made.push(mark(touched, i, *byte))?;
    }
    Ok(made)
}

fn mark(touched: &[Span], i: u64, byte: u8) -> u8
    ensures { result ≡ (if is_touched touched.now i then 1 else byte) }
{
    if is_in(touched, i) { 1 } else { byte }
}

fn holds(span: &Span, i: u64) -> bool
    ensures { result ≡ (nat_le span.now.from i && is_before i span.now.to) }
{
    span.from <= i
        && match span.to {
            Some(to) => i < to,
            None => true,
        }
}

// Whether a byte is in one of the ranges.
fn is_in(touched: &[Span], i: u64) -> bool
    ensures { result ≡ is_touched touched.now i }
{
    match touched {
        [] => false,
        [span, others @ ..] => holds(span, i) || is_in(others, i),
    }
}
