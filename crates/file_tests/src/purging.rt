//! What a purge takes, and what it leaves.
use cm_base::Place;
use cm_disk::MemDisk;
use cm_library::Library;
use library_cases::calls::{ABC, Answer, Call, EMPTY, HELLO, ONE, THREE};
use library_cases::libraries::{Rows, empty, has, prepared};
use library_cases::steps::{Step, again, wrong};
use std::alloc::Global;
use std::test::Fail;

const FIRST: &[u8] = b"DataLib/PS100001.1";

const SECOND: &[u8] = b"DataLib/PS100001.2";

const OF_HELLO: &[u8] = b"FileLib/2cf24dba5fb0a30e26e83b2ac5b9e29e1b161e5c1fa7425e73043362938b9824";

const OF_ABC: &[u8] = b"FileLib/ba7816bf8f01cfea414140de5dae2223b00361a396177a9cb410ff61f20015ad";

const OF_EMPTY: &[u8] = b"FileLib/e3b0c44298fc1c149afbf4c8996fb92427ae41e4649b934ca495991b7852b855";

const NOTHING: Rows = (&[], &[]);

const FIRST_JOB: Rows = (&[(1, 1)], &[]);

const ONE_VERSION: Rows = (&[], &[1]);

const SECOND_JOB: Rows = (&[(2, 2)], &[1]);

const BOTH: Rows = (&[], &[1, 2]);

const LATER: Rows = (&[], &[2]);

// A library that had version 1 of `THREE` and has version 2 of `ONE`.
fn removed(alloc: Global) -> Option<Library<MemDisk>> {
    let mut library = empty(alloc)?;
    let steps: [Step; 14] = [
        (Call::Begin(1, THREE), Answer::Begun(1), FIRST_JOB),
        (Call::Start(1, ABC), Answer::Done, FIRST_JOB),
        (Call::Put(1, 0, b"abc"), Answer::Done, FIRST_JOB),
        (Call::Seal(1), Answer::Done, FIRST_JOB),
        (Call::Start(1, EMPTY), Answer::Done, FIRST_JOB),
        (Call::Seal(1), Answer::Done, FIRST_JOB),
        (Call::Start(1, HELLO), Answer::Done, FIRST_JOB),
        (Call::Put(1, 0, b"hello"), Answer::Done, FIRST_JOB),
        (Call::Seal(1), Answer::Done, FIRST_JOB),
        (Call::Finish(1), Answer::Done, ONE_VERSION),
        (Call::Begin(2, ONE), Answer::Begun(2), SECOND_JOB),
        (Call::Finish(2), Answer::Done, BOTH),
        (Call::Remove(1), Answer::Done, LATER),
        (Call::Remove(1), Answer::NoVersion, LATER),
    ];
    match wrong(alloc, &mut library, &steps) {
        Some(_) => None,
        None => Some(library),
    }
}

fn place_of(text: Option<&'static [u8]>) -> Option<Place> {
    match text {
        Some(text) => Place::read(text),
        None => None,
    }
}

fn is_loose(
    library: &mut Library<MemDisk>,
    after: Option<&'static [u8]>,
    next: Option<&'static [u8]>,
) -> bool {
    match library.next_loose(place_of(after)) {
        Ok(found) => found == place_of(next),
        Err(_) => false,
    }
}

fn is_step(
    library: &mut Library<MemDisk>,
    after: Option<&'static [u8]>,
    at: Option<&'static [u8]>,
    removed: bool,
) -> bool {
    match library.purge_step(place_of(after)) {
        Ok(step) => step.at == place_of(at) && step.removed == removed,
        Err(_) => false,
    }
}

fn purges(library: &mut Library<MemDisk>, files: u32, manifests: u32) -> bool {
    match library.purge() {
        Ok(purged) => purged.files == files && purged.manifests == manifests,
        Err(_) => false,
    }
}

#[test]
fn takes_what_nothing_needs(rt: HostRuntime) -> Result<(), Fail> {
    let mut library = removed(rt.alloc()).ok_or("a library")?;
    assert!(rt; is_loose(&mut library, None, Some(FIRST)));
    assert!(rt; is_loose(&mut library, Some(FIRST), Some(OF_HELLO)));
    assert!(rt; is_loose(&mut library, Some(OF_HELLO), Some(OF_EMPTY)));
    assert!(rt; is_loose(&mut library, Some(OF_EMPTY), None));
    assert!(rt; purges(&mut library, 2, 1));
    assert!(rt; is_loose(&mut library, None, None));
    assert!(rt; purges(&mut library, 0, 0));
    let mut library = again(rt.alloc(), library).ok_or("the same library")?;
    assert!(rt; has(&library, LATER));
    assert!(rt; purges(&mut library, 0, 0));
    Ok(())
}

#[test]
fn goes_step_by_step(rt: HostRuntime) -> Result<(), Fail> {
    let mut library = removed(rt.alloc()).ok_or("a library")?;
    assert!(rt; is_step(&mut library, None, Some(FIRST), true));
    assert!(rt; is_step(&mut library, Some(FIRST), Some(SECOND), false));
    assert!(rt; is_step(&mut library, Some(SECOND), Some(OF_HELLO), true));
    assert!(rt; is_step(&mut library, Some(OF_HELLO), Some(OF_ABC), false));
    assert!(rt; is_step(&mut library, Some(OF_ABC), Some(OF_EMPTY), true));
    assert!(rt; is_step(&mut library, Some(OF_EMPTY), None, false));
    Ok(())
}

// The job's manifest and its sealed file stay, and it ends without another piece.
#[test]
fn leaves_what_a_job_needs(rt: HostRuntime) -> Result<(), Fail> {
    let disk = MemDisk::new(rt.alloc(), Vec::new(rt.alloc()))?;
    let mut library = prepared(rt.alloc(), disk).ok().ok_or("a library")?;
    let steps: [Step; 1] = [(Call::Remove(1), Answer::Done, (&[(2, 2)], &[]))];
    assert!(rt; wrong(rt.alloc(), &mut library, &steps).is_none());
    assert!(rt; purges(&mut library, 0, 1));
    let steps: [Step; 2] = [
        (Call::Finish(2), Answer::Done, LATER),
        (Call::Remove(2), Answer::Done, NOTHING),
    ];
    assert!(rt; wrong(rt.alloc(), &mut library, &steps).is_none());
    assert!(rt; purges(&mut library, 1, 1));
    Ok(())
}
