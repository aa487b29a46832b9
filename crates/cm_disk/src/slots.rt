//! Work on what a disk in memory keeps of one place, in place. Where there is no memory nothing is changed.
ghost use Rattle.std.specs.Prelude.{◌≡◌, ◌+◌, ◌^◌, ◌<◌, ◌≤◌, None, Some, if◌then◌else◌, length, take, IfOk, vec_len, vec_capacity};
ghost use Rattle.cm_disk.specs.Disk.{overwritten, written};
ghost use Rattle.cm_disk.specs.Images.{IsLeft};
ghost use Rattle.cm_disk.specs.Stands.{absent, span_of_write, with_span, worked};
ghost use Rattle.cm_disk.specs.Slots.{file_of, stand_of, stand_of_option, CanDo};

use crate::calls::{Slot, Span, Work};
use std::alloc::{AllocError, Global};

pub(crate) fn absent_slot(alloc: Global) -> Slot
    ensures { stand_of result ≡ absent }
{
    Slot {
        file: None,
        durable: None,
        touched: Vec::new(alloc),
        removed: false,
    }
}

pub(crate) fn owned(alloc: Global, bytes: &[u8]) -> Result<Vec<u8>, AllocError>
    ensures { IfOk result (λ own. own.items ≡ bytes.now) }
{
    bytes.to_vec(alloc)
}

pub(crate) fn copied(alloc: Global, file: &Option<Vec<u8>>) -> Result<Option<Vec<u8>>, AllocError>
    ensures { IfOk result (λ copy. file_of copy ≡ file_of file.now) }
{
    match file {
        Some(bytes) => Ok(Some(bytes.to_vec(alloc)?)),
        None => Ok(None),
    }
}

// Notes one more range as touched. There is room for it.
fn touch(touched: &mut Vec<Span>, span: Option<Span>)
    requires { vec_len touched.old < vec_capacity touched.old }
    ensures { touched.new.items ≡ with_span span touched.old.items }
{
    if let Some(span) = span {
        let _noted = touched.insert(0, span);
    }
}

fn span_of(file: &Option<Vec<u8>>, offset: u64, count: usize) -> Option<Span>
    requires { offset + count ≤ 2 ^ 40 + 131072 }
    ensures { result ≡ span_of_write (file_of file.now) offset count }
{
    if file.is_none() {
        return Some(Span { from: 0, to: None });
    }
    if count == 0 {
        return None;
    }
    Some(Span {
        from: offset,
        to: Some(offset + count as u64),
    })
}

// Bytes over others, and past their end.
fn write_over(old: &mut Vec<u8>, offset: u64, bytes: &[u8]) -> bool
    requires { offset + length bytes.now ≤ 2 ^ 40 + 131072 }
    ensures { old.new.items ≡ (if result then overwritten old.old.items offset bytes.now else old.old.items) }
{
    let start = (offset as usize).min(old.len());
    let inside = bytes.len().min(old.len() - start);
    let (over, beyond) = bytes.split_at(inside);
    if old.extend_from_slice(beyond).is_err() {
        return false;
    }
    old[start..start + inside].copy_from_slice(over);
    true
}

fn write_file(
    alloc: Global,
    file: &mut Option<Vec<u8>>,
    offset: u64,
    bytes: &[u8],
    done: bool,
) -> bool
    requires { offset + length bytes.now ≤ 2 ^ 40 + 131072 }
    ensures { file_of file.new ≡ (if result then (if done then written offset bytes.now (file_of file.old) else file_of file.old) else file_of file.old) }
{
    if !done {
        return true;
    }
    if let Some(old) = file {
        return write_over(old, offset, bytes);
    }
    let mut made = Vec::new(alloc);
    if !write_over(&mut made, offset, bytes) {
        return false;
    }
    *file = Some(made);
    true
}

fn write_slot(alloc: Global, slot: &mut Slot, offset: u64, bytes: &Vec<u8>, done: bool) -> bool
    requires { offset + length bytes.now.items ≤ 2 ^ 40 + 131072 }
    ensures { stand_of slot.new ≡ (if result then worked (Work.Write offset bytes.now) done (stand_of slot.old) else stand_of slot.old) }
{
    if slot.touched.reserve(1).is_err() {
        return false;
    }
    let span = span_of(&slot.file, offset, bytes.len());
    if !write_file(alloc, &mut slot.file, offset, bytes, done) {
        return false;
    }
    touch(&mut slot.touched, span);
    true
}

fn shorten(bytes: &mut Vec<u8>, size: u64, done: bool)
    ensures { bytes.new.items ≡ (if done then take size bytes.old.items else bytes.old.items) }
{
    if done && size < bytes.len() as u64 {
        bytes.truncate(size as usize);
    }
}

fn cut_slot(slot: &mut Slot, size: u64, done: bool) -> bool
    ensures { stand_of slot.new ≡ (if result then worked (Work.Cut size) done (stand_of slot.old) else stand_of slot.old) }
{
    let Some(bytes) = &mut slot.file else {
        return true;
    };
    if slot.touched.reserve(1).is_err() {
        return false;
    }
    shorten(bytes, size, done);
    let span = Span {
        from: size,
        to: None,
    };
    touch(&mut slot.touched, Some(span));
    true
}

fn clear(file: &mut Option<Vec<u8>>, done: bool)
    ensures { file_of file.new ≡ (if done then None else file_of file.old) }
{
    if done {
        *file = None;
    }
}

fn remove_slot(slot: &mut Slot, done: bool) -> bool
    ensures { stand_of slot.new ≡ (if result then worked Work.Remove done (stand_of slot.old) else stand_of slot.old) }
{
    if slot.file.is_none() {
        return true;
    }
    if slot.touched.reserve(1).is_err() {
        return false;
    }
    clear(&mut slot.file, done);
    touch(&mut slot.touched, Some(Span { from: 0, to: None }));
    slot.removed = true;
    true
}

fn sync_slot(alloc: Global, slot: &mut Slot, done: bool) -> bool
    requires { IsLeft (stand_of slot.old) (stand_of slot.old).now }
    ensures { stand_of slot.new ≡ (if result then worked Work.Sync done (stand_of slot.old) else stand_of slot.old) }
{
    if !done {
        return true;
    }
    // What was not touched is durable.
    if slot.touched.is_empty() && !slot.removed {
        return true;
    }
    let Ok(durable) = copied(alloc, &slot.file) else {
        return false;
    };
    slot.durable = durable;
    slot.touched.clear();
    slot.removed = false;
    true
}

/// What a call makes of a place.
pub(crate) fn work_on(alloc: Global, slot: &mut Slot, work: &Work, done: bool) -> bool
    requires can { CanDo work.now }
    requires reads { IsLeft (stand_of slot.old) (stand_of slot.old).now }
    ensures { stand_of slot.new ≡ (if result then worked work.now done (stand_of slot.old) else stand_of slot.old) }
{
    match work {
        Work::Write { offset, bytes } => write_slot(alloc, slot, *offset, bytes, done),
        Work::Cut { size } => cut_slot(slot, *size, done),
        Work::Remove => remove_slot(slot, done),
        Work::Sync => sync_slot(alloc, slot, done),
    }
}

/// The slot that was kept, or that of a place where nothing ever was.
pub(crate) fn kept_slot(alloc: Global, kept: Option<Slot>) -> Slot
    ensures { stand_of result ≡ stand_of_option kept }
{
    match kept {
        Some(slot) => slot,
        None => absent_slot(alloc),
    }
}
