//! Records are made, opened, and their topology is replaced.
use crate::calls::{ONE, TWO, has, made, opens_to, replaced};
use cm_base::Place;
use cm_disk::{Disk, MemDisk};
use cm_records::{CreateFault, OpenFault, Records};
use std::test::Fail;

#[test]
fn none_and_new_ones(rt: HostRuntime) -> Result<(), Fail> {
    let alloc = rt.alloc();
    let none = MemDisk::new(alloc, Vec::new(alloc))?;
    let mut disk = match Records::open(alloc, none) {
        Err((disk, OpenFault::NoLibrary)) => disk,
        _ => return Err(Fail::new("records where there are none")),
    };
    assert_eq!(rt; Records::init(&mut disk), Ok(()));
    assert_eq!(rt; Records::init(&mut disk), Err(CreateFault::AlreadyThere));
    match Records::open(alloc, disk.crash(0)?) {
        Ok(records) => {
            assert!(rt; has(&records, 0, 0));
            assert_eq!(rt; records.end(), 10);
            assert_eq!(rt; records.faults(), 0);
            assert_eq!(rt; records.close().faults(), 0);
        }
        Err(_) => return Err(Fail::new("not opened")),
    }
    Ok(())
}

#[test]
fn two_topologies(rt: HostRuntime) -> Result<(), Fail> {
    let alloc = rt.alloc();
    let Ok(mut records) = made(alloc, MemDisk::new(alloc, Vec::new(alloc))?) else {
        return Err(Fail::new("not made"));
    };
    assert_eq!(rt; replaced(alloc, &mut records, ONE), Some(Ok(())));
    assert!(rt; has(&records, 1, 1));
    // A record of a topology has 49 bytes, and 5 before them.
    assert_eq!(rt; records.end(), 64);
    assert_eq!(rt; replaced(alloc, &mut records, "code"), None);
    assert_eq!(rt; replaced(alloc, &mut records, TWO), Some(Ok(())));
    assert!(rt; has(&records, 2, 2));
    assert_eq!(rt; records.end(), 118);
    assert_eq!(rt; records.settle(), Ok(false));
    let mut disk = records.close();
    for (place, text) in [
        (b"Site/topology.1".as_slice(), ONE),
        (b"Site/topology.2", TWO),
    ] {
        let Some(place) = Place::read(place) else {
            return Err(Fail::new("no place"));
        };
        assert_eq!(rt; disk.size(&place), Ok(Some(text.len() as u64)));
    }
    assert!(rt; opens_to(alloc, disk.crash(0)?, 2, 2));
    assert!(rt; opens_to(alloc, disk, 2, 2));
    Ok(())
}
