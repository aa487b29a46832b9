//! Texts of topologies on a disk in memory: what is stored is loaded, each refusal, and what a stop at each device call leaves.
use cm_base::{Hash, Place};
use cm_disk::{Disk, DiskFault, MemDisk, at_each_crash};
use cm_textlib::{TextFault, load, store};
use std::alloc::Global;
use std::process::Abort;
use std::test::Fail;

// The SHA-256 of each is by another program.
const SHORTER: &[u8; 15] = b"a shorter text\n";

const SHORTER_HASH: &[u8; 64] = b"c9df809b4f3974899b21c833341a41398246543891d585094572207aa2da8562";

const LONGER: &[u8; 22] = b"a text that is longer\n";

const LONGER_HASH: &[u8; 64] = b"db660458ca9705dbecc96c96143dc51e4c4a32a15d7f98471174db64f3365832";

const EMPTY_HASH: &[u8; 64] = b"e3b0c44298fc1c149afbf4c8996fb92427ae41e4649b934ca495991b7852b855";

// Of 65,537 bytes 7.
const SEVENS_HASH: &[u8; 64] = b"5ada55500fc283f478a1303fb529ad69626d1ce9209ebc5878f9a45de61e635e";

// The place of the text of topology 4,294,967,295.
const LAST_PLACE: &[u8; 24] = b"Site/topology.4294967295";

fn hash_of(text: &[u8; 64]) -> Result<Hash, Fail> {
    match Hash::read(text) {
        Some(hash) => Ok(hash),
        None => Err(Fail::new("no hash")),
    }
}

fn place_of(text: &[u8]) -> Result<Place, Fail> {
    match Place::read(text) {
        Some(place) => Ok(place),
        None => Err(Fail::new("no place")),
    }
}

// A text that is asked for.
#[derive(Clone, Copy)]
struct Named {
    number: u32,
    size: u32,
    hash: Hash,
}

// Whether a load gives this text, or None.
fn gives(alloc: Global, disk: &mut MemDisk, named: Named, text: Option<&[u8]>) -> bool {
    match load(alloc, disk, named.number, named.size, named.hash) {
        Ok(Some(found)) => text == Some(found.items()),
        Ok(None) => text == None,
        Err(_) => false,
    }
}

// Whether a file has these bytes and no others.
fn holds(disk: &mut MemDisk, place: &Place, bytes: &[u8]) -> bool {
    let mut buf = [0u8; 32];
    match disk.read_at(place, 0, &mut buf) {
        Ok(count) => { &buf[..count] == bytes && disk.size(place) == Ok(Some(bytes.len() as u64)) }
        Err(_) => false,
    }
}

#[test]
fn one_text_over_another(rt: HostRuntime) -> Result<(), Fail> {
    let alloc = rt.alloc();
    let mut disk = MemDisk::new(alloc, Vec::new(alloc))?;
    let sevens = [7u8; 65537];
    for (text, size, hash) in [
        (SHORTER.as_slice(), 15, SHORTER_HASH),
        (LONGER, 22, LONGER_HASH),
        (SHORTER, 15, SHORTER_HASH),
        (&[], 0, EMPTY_HASH),
        (&sevens, 65537, SEVENS_HASH),
        (&[], 0, EMPTY_HASH),
    ] {
        let named = Named {
            number: 4294967295,
            size,
            hash: hash_of(hash)?,
        };
        assert!(rt; gives(alloc, &mut disk, named, None));
        assert_eq!(rt; store(&mut disk, named.number, text), Ok(()));
        assert!(rt; gives(alloc, &mut disk, named, Some(text)));
        assert!(rt; gives(alloc, &mut disk.crash(0)?, named, Some(text)));
    }
    assert!(rt; holds(&mut disk.crash(0)?, &place_of(LAST_PLACE)?, b""));
    Ok(())
}

#[test]
fn texts_that_are_not_named(rt: HostRuntime) -> Result<(), Fail> {
    let alloc = rt.alloc();
    let mut disk = MemDisk::new(alloc, Vec::new(alloc))?;
    assert_eq!(rt; store(&mut disk, 7, LONGER), Ok(()));
    let longer = hash_of(LONGER_HASH)?;
    let shorter = hash_of(SHORTER_HASH)?;
    for (number, size, hash) in [
        (7, 21, longer),
        (7, 23, longer),
        (7, 0, longer),
        (7, 4294967295, longer),
        (7, 22, shorter),
        (7, 15, shorter),
        (8, 22, longer),
        (8, 0, hash_of(EMPTY_HASH)?),
    ] {
        let named = Named { number, size, hash };
        assert!(rt; gives(alloc, &mut disk, named, None));
    }
    assert_eq!(rt; disk.faults(), 0);
    Ok(())
}

// One device call of a store and a load fails, each in turn.
#[test]
fn failing_calls(rt: HostRuntime) -> Result<(), Fail> {
    let alloc = rt.alloc();
    let hash = hash_of(SHORTER_HASH)?;
    let mut calls = 0;
    // Until a run meets no failing call.
    for at in 0..1000 {
        let mut disk = MemDisk::new(alloc, [at].to_vec(alloc)?)?;
        let stored = store(&mut disk, 7, SHORTER);
        assert_eq!(rt; stored == Err(DiskFault), disk.faults() == 1, "call {at}");
        let disk_fault = match load(alloc, &mut disk, 7, 15, hash) {
            Err(fault) => fault == TextFault::Disk,
            Ok(_) => false,
        };
        calls = at;
        if disk.faults() == 0 {
            break;
        }
        assert!(rt; disk_fault == (stored == Ok(())), "call {at}");
    }
    // A store writes, cuts and syncs; a load syncs, asks for the size and reads.
    assert_eq!(rt; calls, 3 + 3);
    Ok(())
}

// How far a run came.
#[derive(Clone, Copy, PartialEq, Eq)]
enum Reached {
    Before,
    Failed,
    Stored,
}

// A text is stored over a longer one, and beside another.
fn store_over(disk: &mut MemDisk) -> Reached {
    if store(disk, 6, LONGER).is_err() || store(disk, 7, LONGER).is_err() {
        return Reached::Before;
    }
    match store(disk, 7, SHORTER) {
        Ok(()) => Reached::Stored,
        Err(_) => Reached::Failed,
    }
}

// Whether an image has the text beside it, and the new one or not, with nothing else taken for it.
fn is_left(
    alloc: Global,
    reached: Reached,
    image: &mut MemDisk,
    places: [&Place; 2],
    hash: Hash,
) -> bool {
    if reached == Reached::Before {
        return true;
    }
    let [beside, place] = places;
    let there = holds(image, place, SHORTER);
    let named = Named {
        number: 7,
        size: 15,
        hash,
    };
    holds(image, beside, LONGER)
        && (there || reached == Reached::Failed)
        && gives(
            alloc,
            image,
            named,
            if there {
                Some(SHORTER.as_slice())
            } else {
                None
            },
        )
}

fn try_stops(rt: &impl Abort, alloc: Global) -> Result<(), Fail> {
    let beside = place_of(b"Site/topology.6")?;
    let place = place_of(b"Site/topology.7")?;
    let hash = hash_of(SHORTER_HASH)?;
    let left = at_each_crash(
        alloc,
        |disk| store_over(disk),
        |reached, image| is_left(alloc, *reached, image, [&beside, &place], hash),
    );
    assert!(rt; left == Ok(()));
    Ok(())
}

#[test]
fn a_stop_at_each_call(rt: HostRuntime) -> Result<(), Fail> {
    try_stops(&rt, rt.alloc())
}
