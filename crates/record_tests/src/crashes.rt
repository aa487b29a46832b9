//! What a fault and a crash leave of a replacement.
use crate::calls::{ONE, TWO, has, made, opens_to, replaced};
use cm_disk::{Disk, MemDisk, at_each_crash};
use cm_records::Records;
use std::alloc::Global;
use std::mem;
use std::process::Abort;
use std::test::Fail;

// How far a run came.
#[derive(Clone, Copy, PartialEq, Eq)]
enum Reached {
    Before,
    Failed,
    Done,
}

// The topology is replaced by one of two points. None for want of memory.
fn run(alloc: Global, disk: &mut MemDisk) -> Option<Reached> {
    let other = MemDisk::new(alloc, Vec::new(alloc)).ok()?;
    let mut records = match made(alloc, mem::replace(disk, other)) {
        Ok(records) => records,
        Err(back) => {
            *disk = back;
            return Some(Reached::Before);
        }
    };
    let first = replaced(alloc, &mut records, ONE)?;
    if first.is_err() {
        *disk = records.close();
        return Some(Reached::Before);
    }
    let second = replaced(alloc, &mut records, TWO)?;
    *disk = records.close();
    Some(if second.is_ok() {
        Reached::Done
    } else {
        Reached::Failed
    })
}

// Whether an image has the first topology or the second, and the second once that was acknowledged; and takes another one.
fn is_left(alloc: Global, reached: Reached, image: &mut MemDisk) -> Option<bool> {
    if reached == Reached::Before {
        return Some(true);
    }
    let other = MemDisk::new(alloc, Vec::new(alloc)).ok()?;
    let Ok(mut records) = Records::open(alloc, mem::replace(image, other)) else {
        return Some(false);
    };
    let is_after = has(&records, 2, 2);
    let is_before = reached == Reached::Failed && has(&records, 1, 1);
    let number = if is_after { 3 } else { 2 };
    let again = replaced(alloc, &mut records, ONE)?;
    Some((is_after || is_before) && again.is_ok() && has(&records, number, 1))
}

fn try_stops(rt: &impl Abort, alloc: Global) -> Result<(), Fail> {
    let left = at_each_crash(
        alloc,
        |disk| run(alloc, disk),
        |reached, image| match *reached {
            Some(reached) => is_left(alloc, reached, image) == Some(true),
            None => false,
        },
    );
    assert!(rt; left == Ok(()));
    Ok(())
}

#[test]
fn a_stop_at_each_call(rt: HostRuntime) -> Result<(), Fail> {
    try_stops(&rt, rt.alloc())
}

// Whether the run met its failing call. None where the records are not as settling tells.
fn settles(alloc: Global, at: u64) -> Option<bool> {
    let disk = MemDisk::new(alloc, [at].to_vec(alloc).ok()?).ok()?;
    let mut records = match made(alloc, disk) {
        Ok(records) => records,
        Err(disk) => return (disk.faults() > 0).then_some(true),
    };
    let done = replaced(alloc, &mut records, ONE)?.is_ok();
    if !done && !has(&records, 0, 0) {
        return None;
    }
    let told = records.settle().ok()?;
    let is_there = done || told;
    let (number, points) = if is_there { (1, 1) } else { (0, 0) };
    let failed = records.faults() > 0;
    let is_told = has(&records, number, points) && failed != done;
    let left = records.close().crash(0).ok()?;
    (is_told && opens_to(alloc, left, number, points)).then_some(failed)
}

#[test]
fn a_fault_at_each_call(rt: HostRuntime) -> Result<(), Fail> {
    let alloc = rt.alloc();
    // Until a run meets no failing call.
    for at in 0..1000 {
        match settles(alloc, at) {
            Some(true) => {}
            Some(false) => return Ok(()),
            None => assert!(rt; false, "call {at}"),
        }
    }
    Err(Fail::new("no end"))
}
