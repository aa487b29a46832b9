//! A disk in memory: its failures, and what a crash leaves of it.
use crate::disks::{Step, place_of, put, reads, take, trim, try_each_call};
use cm_base::Place;
use cm_disk::{CrashFault, Disk, DiskFault, MemDisk, at_each_crash};
use std::alloc::Global;
use std::process::Abort;
use std::test::Fail;

#[test]
fn each_call(rt: HostRuntime) -> Result<(), Fail> {
    let mut disk = MemDisk::new(rt.alloc(), Vec::new(rt.alloc()))?;
    try_each_call(&rt, &mut disk)?;
    assert_eq!(rt; disk.short(), 0);
    Ok(())
}

// Which of eight calls failed.
fn failures<D: Disk>(disk: &mut D, place: &Place) -> [bool; 8] {
    let mut two = [0u8; 2];
    [
        disk.write_at(place, 0, b"first").is_err(),
        disk.size(place).is_err(),
        disk.read_at(place, 0, &mut two).is_err(),
        disk.write_at(place, 0, b"again").is_err(),
        disk.sync(place).is_err(),
        disk.next_place(None).is_err(),
        disk.remove(place).is_err(),
        disk.size(place).is_err(),
    ]
}

fn listed(alloc: Global, at: u64) -> Result<MemDisk, Fail> {
    let mut fail = Vec::new(alloc);
    fail.push(at)?;
    Ok(MemDisk::new(alloc, fail)?)
}

#[test]
fn failing_calls(rt: HostRuntime) -> Result<(), Fail> {
    let place = place_of(b"p")?;
    for at in 0..8 {
        let mut once = listed(rt.alloc(), at)?;
        let mut stops = MemDisk::stopping(rt.alloc(), at)?;
        let both = failures(&mut once, &place)
            .into_iter()
            .zip(failures(&mut stops, &place));
        for (i, (failed, stopped)) in (0..8).zip(both) {
            assert!(rt;
                failed == (i == at) && stopped == (i >= at),
                "call {i} of a disk that fails at {at}"
            );
        }
        assert_eq!(rt; once.faults(), 1);
        assert_eq!(rt; stops.faults(), 8 - at);
        assert_eq!(rt; stops.short(), 0);
    }
    Ok(())
}

// Whether the three images of a place are these.
fn leaves(disk: &MemDisk, place: &Place, picks: [Option<&[u8]>; 3]) -> Result<bool, Fail> {
    let [durable, read, marked] = picks;
    Ok(
        reads(&mut disk.crash(0)?, place, durable)
            && reads(&mut disk.crash(1)?, place, read)
            && reads(&mut disk.crash(2)?, place, marked),
    )
}

// Each step, whether it is done, and then the durable file, what a read gives, and that with 1 at each touched byte.
fn try_images(rt: &impl Abort, disk: &mut MemDisk, place: &Place) -> Result<(), Fail> {
    let abcd = Some(b"abcd".as_slice());
    let later = Some(b"aXYde".as_slice());
    let last = Some(b"aXz".as_slice());
    for (step, done, durable, read, marked) in [
        (Step::Sync, true, None, None, None),
        (
            Step::Put(0, b"abcd"),
            true,
            None,
            abcd,
            Some([1, 1, 1, 1].as_slice()),
        ),
        (Step::Sync, true, abcd, abcd, abcd),
        // A failed write touches what it would have written.
        (
            Step::Put(1, b"XY"),
            false,
            abcd,
            abcd,
            Some(b"a\x01\x01d".as_slice()),
        ),
        (
            Step::Put(1, b"XY"),
            true,
            abcd,
            Some(b"aXYd"),
            Some(b"a\x01\x01d"),
        ),
        (
            Step::Put(4, b"e"),
            true,
            abcd,
            later,
            Some(b"a\x01\x01d\x01"),
        ),
        (Step::Sync, false, abcd, later, Some(b"a\x01\x01d\x01")),
        (Step::Sync, true, later, later, later),
        (Step::Trim(2), false, later, later, Some(b"aX\x01\x01\x01")),
        (Step::Trim(2), true, later, Some(b"aX"), Some(b"aX")),
        (Step::Put(2, b"z"), true, later, last, Some(b"aX\x01")),
        (Step::Sync, true, last, last, last),
        // An empty write touches nothing.
        (Step::Put(1, b""), true, last, last, last),
        (Step::Remove, false, last, last, Some(b"\x01\x01\x01")),
        (Step::Remove, true, last, None, None),
        (Step::Sync, true, None, None, None),
    ] {
        assert!(rt; take(disk, place, step).is_ok() == done);
        assert!(rt; leaves(disk, place, [durable, read, marked])?);
    }
    Ok(())
}

#[test]
fn what_a_crash_leaves(rt: HostRuntime) -> Result<(), Fail> {
    let fail = vec![in rt.alloc(); 5, 10, 13, 21]?;
    let mut disk = MemDisk::new(rt.alloc(), fail)?;
    try_images(&rt, &mut disk, &place_of(b"p")?)?;
    assert_eq!(rt; disk.faults(), 4);
    Ok(())
}

fn put_and_sync(disk: &mut MemDisk, place: &Place) -> Result<(), DiskFault> {
    put(disk, place, 0, b"ab")?;
    disk.sync(place)
}

#[test]
fn each_crash(rt: HostRuntime) -> Result<(), Fail> {
    let place = place_of(b"p")?;
    let kept = at_each_crash(
        rt.alloc(),
        |disk| put_and_sync(disk, &place),
        |given, image| given.is_err() || reads(image, &place, Some(b"ab")),
    );
    assert!(rt; kept == Ok(()));
    // What is not synced is lost.
    let lost = at_each_crash(
        rt.alloc(),
        |disk| put(disk, &place, 0, b"ab"),
        |given, image| given.is_err() || reads(image, &place, Some(b"ab")),
    );
    assert!(rt; lost == Err(CrashFault::Refused { at: 2, pick: 0 }));
    Ok(())
}
