//! Each call of a disk, on a disk in memory and on real files.
use cm_base::Place;
use cm_disk::{Disk, DiskFault};
use std::process::Abort;
use std::test::Fail;

mod host;
mod memory;

fn place_of(name: &[u8]) -> Result<Place, Fail> {
    match Place::read(name) {
        Some(place) => Ok(place),
        None => Err(Fail::new("no place")),
    }
}

// A change of one file.
#[derive(Clone, Copy)]
enum Step {
    Put(u64, &'static [u8]),
    Trim(u64),
    Remove,
    Sync,
}

fn take<D: Disk>(disk: &mut D, place: &Place, step: Step) -> Result<(), DiskFault> {
    match step {
        Step::Put(offset, bytes) => put(disk, place, offset, bytes),
        Step::Trim(size) => trim(disk, place, size),
        Step::Remove => disk.remove(place),
        Step::Sync => disk.sync(place),
    }
}

// Writes a few bytes at an offset that the file reaches.
fn put<D: Disk>(disk: &mut D, place: &Place, offset: u64, bytes: &[u8]) -> Result<(), DiskFault> {
    let size = disk.size(place)?.unwrap_or(0);
    if offset > size || offset > 64 || bytes.len() > 64 {
        return Err(DiskFault);
    }
    disk.write_at(place, offset, bytes)
}

// Cuts a file that is there and long enough.
fn trim<D: Disk>(disk: &mut D, place: &Place, size: u64) -> Result<(), DiskFault> {
    let Some(now) = disk.size(place)? else {
        return Err(DiskFault);
    };
    if size > now {
        return Err(DiskFault);
    }
    disk.cut(place, size)
}

// Whether a file is there with these bytes, or there is none.
fn reads<D: Disk>(disk: &mut D, place: &Place, file: Option<&[u8]>) -> bool {
    let mut buf = [0u8; 16];
    let Ok(count) = disk.read_at(place, 0, &mut buf) else {
        return false;
    };
    match file {
        Some(bytes) => {
            &buf[..count] == bytes && disk.size(place) == Ok(Some(bytes.len() as u64))
        }
        None => count == 0 && disk.size(place) == Ok(None),
    }
}

fn try_changes<D: Disk>(rt: &impl Abort, disk: &mut D, place: &Place) {
    for (step, file) in [
        (Step::Remove, None),
        (Step::Sync, None),
        (Step::Put(0, b"hello"), Some(b"hello".as_slice())),
        (Step::Put(5, b" you"), Some(b"hello you")),
        (Step::Put(0, b"J"), Some(b"Jello you")),
        (Step::Sync, Some(b"Jello you")),
        (Step::Trim(5), Some(b"Jello")),
        (Step::Put(3, b"ly"), Some(b"Jelly")),
        (Step::Sync, Some(b"Jelly")),
        (Step::Remove, None),
        (Step::Sync, None),
        (Step::Put(0, b""), Some(b"")),
        (Step::Put(0, b"again"), Some(b"again")),
    ] {
        assert!(rt; take(disk, place, step) == Ok(()));
        assert!(rt; reads(disk, place, file));
    }
}

// Reads of a file with the bytes "again".
fn try_reads<D: Disk>(rt: &impl Abort, disk: &mut D, place: &Place) {
    for (offset, piece) in [
        (0, b"ag".as_slice()),
        (3, b"in"),
        (4, b"n"),
        (5, b""),
        (1 << 41, b""),
    ] {
        let mut two = [0u8; 2];
        match disk.read_at(place, offset, &mut two) {
            Ok(count) => assert!(rt; &two[..count] == piece),
            Err(_) => panic!(rt; "a fault"),
        }
    }
}

// The places of a disk are these.
fn try_walk<D: Disk>(rt: &impl Abort, disk: &mut D, names: &[&[u8]]) -> Result<(), Fail> {
    let mut after = None;
    for name in names {
        let next = disk.next_place(after.as_ref())?;
        assert!(rt; next == Some(place_of(name)?));
        after = next;
    }
    assert!(rt; disk.next_place(after.as_ref())? == None);
    Ok(())
}

fn try_each_call<D: Disk>(rt: &impl Abort, disk: &mut D) -> Result<(), Fail> {
    let [a, b] = [place_of(b"FileLib/a")?, place_of(b"b")?];
    try_walk(rt, disk, &[])?;
    try_changes(rt, disk, &a);
    try_reads(rt, disk, &a);
    put(disk, &b, 0, b"")?;
    try_walk(rt, disk, &[b"FileLib/a", b"b"])?;
    disk.remove(&a)?;
    try_walk(rt, disk, &[b"b"])?;
    put(disk, &a, 0, b"again")?;
    try_walk(rt, disk, &[b"FileLib/a", b"b"])?;
    assert!(rt; disk.faults() == 0);
    Ok(())
}
