//! What becomes of a purge that the disk failed.
use cm_base::{Place, Version};
use cm_disk::{Disk, MemDisk};
use cm_library::{LibFault, Library, Purged};
use library_cases::calls::{
    ABC, Answer, Call, EMPTY, HELLO, ONE, Reply, THREE, answered, are_answered, package,
};
use library_cases::file_cases::{has_abc, has_three};
use library_cases::libraries::{Rows, empty_on, has, opened};
use std::alloc::Global;
use std::test::Fail;

const BOTH: Rows = (&[], &[1, 2]);

const LATER: Rows = (&[], &[2]);

/// Version 1 is made of `THREE`, and version 2 of `ONE`.
const MAKING: [Reply; 12] = [
    (Call::Begin(1, THREE), Answer::Begun(1)),
    (Call::Start(1, ABC), Answer::Done),
    (Call::Put(1, 0, b"abc"), Answer::Done),
    (Call::Seal(1), Answer::Done),
    (Call::Start(1, EMPTY), Answer::Done),
    (Call::Seal(1), Answer::Done),
    (Call::Start(1, HELLO), Answer::Done),
    (Call::Put(1, 0, b"hello"), Answer::Done),
    (Call::Seal(1), Answer::Done),
    (Call::Finish(1), Answer::Done),
    (Call::Begin(2, ONE), Answer::Begun(2)),
    (Call::Finish(2), Answer::Done),
];

/// All places while both versions are there.
const ALL: &[&[u8]] = &[
    b"DataLib/PS100001.1",
    b"DataLib/PS100001.2",
    b"FileLib/2cf24dba5fb0a30e26e83b2ac5b9e29e1b161e5c1fa7425e73043362938b9824",
    b"FileLib/ba7816bf8f01cfea414140de5dae2223b00361a396177a9cb410ff61f20015ad",
    b"FileLib/e3b0c44298fc1c149afbf4c8996fb92427ae41e4649b934ca495991b7852b855",
    b"PkgLib/log.0",
    b"PkgLib/log.1",
    b"PkgLib/ready",
];

/// What version 2 needs of them.
const NEEDED: &[&[u8]] = &[
    b"DataLib/PS100001.2",
    b"FileLib/ba7816bf8f01cfea414140de5dae2223b00361a396177a9cb410ff61f20015ad",
    b"PkgLib/log.0",
    b"PkgLib/log.1",
    b"PkgLib/ready",
];

// Whether a disk has these places and no others.
fn stand(disk: &mut MemDisk, places: &[&[u8]]) -> bool {
    let mut after: Option<Place> = None;
    for place in places {
        match disk.next_place(after.as_ref()) {
            Ok(Some(next)) if next.as_bytes() == *place => after = Some(next),
            _ => return false,
        }
    }
    matches!(disk.next_place(after.as_ref()), Ok(None))
}

// Whether the first file of version 2 is read back.
fn is_read(library: &mut Library<MemDisk>) -> Option<bool> {
    let mut buf = [0u8; 8];
    let count = library
        .read(package()?, Version::new(2)?, 0, 0, &mut buf)
        .ok()?;
    Some(&buf[..count] == b"abc".as_slice())
}

// What a run leaves: whether version 1 is removed, and whether the disk failed a purge. What such a purge has taken can be back after a
// crash, and the next purge takes it.
#[derive(Clone, Copy)]
struct Left {
    is_removed: bool,
    is_again: bool,
}

// Whether a library has what its versions need and nothing else, and their files are read back.
fn is_whole(library: Library<MemDisk>, is_removed: bool) -> Option<bool> {
    let mut library = library;
    let (rows, places) = if is_removed {
        (LATER, NEEDED)
    } else {
        (BOTH, ALL)
    };
    let is_purged = matches!(library.next_loose(None), Ok(None));
    if !is_purged || !has(&library, rows) || !is_read(&mut library)? {
        return Some(false);
    }
    let mut disk = library.close();
    let has_files = has_abc(&mut disk)? && (is_removed || has_three(&mut disk)?);
    Some(has_files && stand(&mut disk, places))
}

// Whether each image of a crash opens to such a library.
fn are_whole(alloc: Global, disk: &MemDisk, left: Left) -> Option<bool> {
    for pick in 0..3u8 {
        let mut library = opened(alloc, disk.crash(pick).ok()?)?;
        if left.is_again && library.purge().is_err() {
            return None;
        }
        if !is_whole(library, left.is_removed)? {
            return Some(false);
        }
    }
    Some(true)
}

// The library that has both versions, on an empty disk; or the disk where it failed.
fn both_on(alloc: Global, disk: MemDisk) -> Result<Library<MemDisk>, MemDisk> {
    let mut library = empty_on(alloc, disk)?;
    if are_answered(alloc, &mut library, &MAKING) {
        Ok(library)
    } else {
        Err(library.close())
    }
}

// How often the disk failed calls.
#[derive(Clone, Copy)]
struct Failed {
    // Those that made the library.
    before: u64,
    // The one that removes version 1.
    removal: u64,
    // The purges: each answers `Disk`, and the one after it goes on.
    purges: u64,
}

// How many of a run of purges the disk failed. None where one answers otherwise than it must: the first one, where the disk has not
// failed it, counts all that version 1 alone needed.
fn purged(library: &mut Library<MemDisk>) -> Option<u64> {
    for many in 0..4u64 {
        let faults = library.faults();
        let res = library.purge();
        if library.faults() > faults {
            if res != Err(LibFault::Disk) {
                return None;
            }
            continue;
        }
        let Purged { files, manifests } = res.ok()?;
        let all = if has(library, LATER) { (2, 1) } else { (0, 0) };
        return (many > 0 || (files, manifests) == all).then_some(many);
    }
    None
}

// Version 1 is removed and what nothing needs then is purged, on a disk that fails at these device calls. None where something goes
// otherwise than it must.
fn tried(alloc: Global, fail: &[u64]) -> Option<Failed> {
    let mut failed = Failed {
        before: 0,
        removal: 0,
        purges: 0,
    };
    let mut library = match both_on(alloc, MemDisk::new(alloc, fail.to_vec(alloc).ok()?).ok()?) {
        Ok(library) => library,
        Err(disk) => {
            failed.before = disk.faults();
            return (failed.before > 0).then_some(failed);
        }
    };
    let answer = answered(alloc, &mut library, Call::Remove(1))?;
    failed.removal = library.faults();
    if (answer == Answer::Disk) != (failed.removal > 0) {
        return None;
    }
    failed.purges = purged(&mut library)?;
    let is_removed = has(&library, LATER);
    let is_settled = matches!(library.settle(), Ok(None));
    if !is_settled || failed.removal == 0 && !is_removed {
        return None;
    }
    let disk = library.close();
    let left = Left {
        is_removed,
        is_again: failed.purges > 0,
    };
    // The disk itself is looked at where no more calls fail.
    let is_left_whole = are_whole(alloc, &disk, left)?
        && (disk.faults() < fail.len() as u64 || is_whole(opened(alloc, disk)?, is_removed)?);
    is_left_whole.then_some(failed)
}

// Each device call fails in turn: in how many runs the removal failed, and in how many the purge.
fn each_fault(alloc: Global) -> Option<(u64, u64)> {
    let mut removals = 0u64;
    let mut purges = 0u64;
    for at in 0..1000u64 {
        let failed = tried(alloc, &[at])?;
        if failed.before == 0 && failed.removal == 0 && failed.purges == 0 {
            return Some((removals, purges));
        }
        removals = removals.saturating_add(failed.removal);
        purges = purges.saturating_add(failed.purges);
    }
    None
}

#[test]
fn go_on_by_the_next_purge(rt: HostRuntime) -> Result<(), Fail> {
    assert!(rt; matches!(each_fault(rt.alloc()), Some((3.., 6..))));
    Ok(())
}

// Each device call of the purge fails in turn, behind a removal whose device call with this number failed: in how many runs. None
// where something goes otherwise, and a None in it where the removal has no such call.
fn each_second_fault(alloc: Global, first: u64) -> Option<Option<u64>> {
    let mut failed = 0u64;
    for later in 1..1000u64 {
        let found = tried(alloc, &[first, first.saturating_add(later)])?;
        if found.before > 0 {
            return Some(Some(0));
        }
        if found.removal == 0 {
            return Some(None);
        }
        if found.removal == 1 && found.purges == 0 {
            return Some(Some(failed));
        }
        failed = failed.saturating_add(found.purges);
    }
    None
}

// The same behind each device call of the removal.
fn each_pair(alloc: Global) -> Option<u64> {
    let mut failed = 0u64;
    for first in 0..1000u64 {
        match each_second_fault(alloc, first)? {
            Some(count) => failed = failed.saturating_add(count),
            None => return Some(failed),
        }
    }
    None
}

// A purge settles first.
#[test]
fn go_on_unsettled(rt: HostRuntime) -> Result<(), Fail> {
    assert!(rt; matches!(each_pair(rt.alloc()), Some(10..)));
    Ok(())
}
