//! What a job finds at the place of a file, and what it wants still.
use cm_base::Hash;
use cm_disk::MemDisk;
use cm_library::Library;
use library_cases::calls::{ABC, Answer, Call, EMPTY, HELLO, OF_ABD, ONE, Reply, THREE};
use library_cases::libraries::{BEGUN, Rows, begun_with, has, installed};
use library_cases::steps::{Step, again, odd, wrong};
use std::alloc::Global;
use std::test::Fail;

const VERSION: Rows = (&[], &[1]);

// Below all hashes of `THREE`.
const LOWEST: Hash = Hash([0; 32]);

#[test]
fn finds_nothing(rt: HostRuntime) -> Result<(), Fail> {
    let mut library = begun_with(rt.alloc(), THREE).ok_or("a library")?;
    let replies: [Reply; 6] = [
        (Call::Salvage(1, ABC), Answer::Is(false)),
        (Call::Salvage(1, EMPTY), Answer::Is(false)),
        (Call::Start(1, EMPTY), Answer::Done),
        (Call::GiveUp(1), Answer::Is(true)),
        (Call::Salvage(1, EMPTY), Answer::Is(true)),
        (Call::Finish(1), Answer::NotStored(ABC)),
    ];
    assert!(rt; odd(rt.alloc(), &mut library, BEGUN, &replies).is_none());
    Ok(())
}

#[test]
fn finds_other_bytes(rt: HostRuntime) -> Result<(), Fail> {
    let mut library = begun_with(rt.alloc(), ONE).ok_or("a library")?;
    let replies: [Reply; 7] = [
        (Call::Start(1, ABC), Answer::Done),
        (Call::Put(1, 0, b"ab"), Answer::Done),
        (Call::GiveUp(1), Answer::Is(true)),
        (Call::Salvage(1, ABC), Answer::Is(false)),
        (Call::Start(1, ABC), Answer::Done),
        (Call::Put(1, 0, b"abd"), Answer::Done),
        (Call::Salvage(1, ABC), Answer::Is(false)),
    ];
    assert!(rt; odd(rt.alloc(), &mut library, BEGUN, &replies).is_none());
    let replies: [Reply; 2] = [
        (Call::Put(1, 3, b""), Answer::NotStarted),
        (Call::Finish(1), Answer::NotStored(ABC)),
    ];
    assert!(rt; odd(rt.alloc(), &mut library, BEGUN, &replies).is_none());
    Ok(())
}

#[test]
fn finds_the_file(rt: HostRuntime) -> Result<(), Fail> {
    let mut library = begun_with(rt.alloc(), ONE).ok_or("a library")?;
    let replies: [Reply; 6] = [
        (Call::Start(1, ABC), Answer::Done),
        (Call::Put(1, 0, b"abc"), Answer::Done),
        (Call::GiveUp(1), Answer::Is(true)),
        (Call::Finish(1), Answer::NotStored(ABC)),
        (Call::Salvage(1, ABC), Answer::Is(true)),
        (Call::Salvage(1, ABC), Answer::Is(true)),
    ];
    assert!(rt; odd(rt.alloc(), &mut library, BEGUN, &replies).is_none());
    let steps: [Step; 1] = [(Call::Finish(1), Answer::Done, VERSION)];
    assert!(rt; wrong(rt.alloc(), &mut library, &steps).is_none());
    assert!(rt; has(&again(rt.alloc(), library).ok_or("opened")?, VERSION));
    Ok(())
}

// The job's own started file of the hash is given up first, and no other.
#[test]
fn gives_up_its_own(rt: HostRuntime) -> Result<(), Fail> {
    let mut library = begun_with(rt.alloc(), THREE).ok_or("a library")?;
    let replies: [Reply; 7] = [
        (Call::Start(1, ABC), Answer::Done),
        (Call::Put(1, 0, b"abc"), Answer::Done),
        (Call::Salvage(1, HELLO), Answer::Is(false)),
        (Call::Put(1, 3, b""), Answer::Done),
        (Call::Salvage(1, ABC), Answer::Is(true)),
        (Call::Seal(1), Answer::NotStarted),
        (Call::Start(1, ABC), Answer::Stored(ABC)),
    ];
    assert!(rt; odd(rt.alloc(), &mut library, BEGUN, &replies).is_none());
    let replies: [Reply; 4] = [
        (Call::Start(1, HELLO), Answer::Done),
        (Call::Put(1, 0, b"hello"), Answer::Done),
        (Call::Salvage(1, ABC), Answer::Is(true)),
        (Call::Seal(1), Answer::Done),
    ];
    assert!(rt; odd(rt.alloc(), &mut library, BEGUN, &replies).is_none());
    Ok(())
}

// The hashes of `THREE` in rising order.
#[test]
fn wants_in_order(rt: HostRuntime) -> Result<(), Fail> {
    let mut library = begun_with(rt.alloc(), THREE).ok_or("a library")?;
    let replies: [Reply; 7] = [
        (Call::Wanted(1, None), Answer::Wants(Some((HELLO, 5)))),
        (
            Call::Wanted(1, Some(LOWEST)),
            Answer::Wants(Some((HELLO, 5))),
        ),
        (Call::Wanted(1, Some(HELLO)), Answer::Wants(Some((ABC, 3)))),
        (Call::Wanted(1, Some(OF_ABD)), Answer::Wants(Some((ABC, 3)))),
        (Call::Wanted(1, Some(ABC)), Answer::Wants(Some((EMPTY, 0)))),
        (Call::Wanted(1, Some(EMPTY)), Answer::Wants(None)),
        // A started file is still wanted.
        (Call::Start(1, HELLO), Answer::Done),
    ];
    assert!(rt; odd(rt.alloc(), &mut library, BEGUN, &replies).is_none());
    let replies: [Reply; 1] = [(Call::Wanted(1, None), Answer::Wants(Some((HELLO, 5))))];
    assert!(rt; odd(rt.alloc(), &mut library, BEGUN, &replies).is_none());
    Ok(())
}

// Each hash is passed over once it is sealed.
#[test]
fn wants_what_is_not_sealed(rt: HostRuntime) -> Result<(), Fail> {
    let mut library = begun_with(rt.alloc(), THREE).ok_or("a library")?;
    let replies: [Reply; 6] = [
        (Call::Start(1, ABC), Answer::Done),
        (Call::Put(1, 0, b"abc"), Answer::Done),
        (Call::Seal(1), Answer::Done),
        (Call::Wanted(1, None), Answer::Wants(Some((HELLO, 5)))),
        (
            Call::Wanted(1, Some(HELLO)),
            Answer::Wants(Some((EMPTY, 0))),
        ),
        (Call::Start(1, HELLO), Answer::Done),
    ];
    assert!(rt; odd(rt.alloc(), &mut library, BEGUN, &replies).is_none());
    let replies: [Reply; 6] = [
        (Call::Put(1, 0, b"hello"), Answer::Done),
        (Call::Seal(1), Answer::Done),
        (Call::Wanted(1, None), Answer::Wants(Some((EMPTY, 0)))),
        (Call::Start(1, EMPTY), Answer::Done),
        (Call::Seal(1), Answer::Done),
        (Call::Wanted(1, None), Answer::Wants(None)),
    ];
    assert!(rt; odd(rt.alloc(), &mut library, BEGUN, &replies).is_none());
    let steps: [Step; 1] = [(Call::Finish(1), Answer::Done, VERSION)];
    assert!(rt; wrong(rt.alloc(), &mut library, &steps).is_none());
    Ok(())
}

// A library whose job 1 has sealed two of its three files, started the third, and was closed then.
fn closed(alloc: Global) -> Option<Library<MemDisk>> {
    let mut library = begun_with(alloc, THREE)?;
    let replies: [Reply; 7] = [
        (Call::Start(1, ABC), Answer::Done),
        (Call::Put(1, 0, b"abc"), Answer::Done),
        (Call::Seal(1), Answer::Done),
        (Call::Start(1, EMPTY), Answer::Done),
        (Call::Seal(1), Answer::Done),
        (Call::Start(1, HELLO), Answer::Done),
        (Call::Put(1, 0, b"hel"), Answer::Done),
    ];
    match odd(alloc, &mut library, BEGUN, &replies) {
        Some(_) => None,
        None => again(alloc, library),
    }
}

// An opening loses what was sealed for an unfinished job, and what was started.
#[test]
fn finds_what_was_sealed(rt: HostRuntime) -> Result<(), Fail> {
    let mut library = closed(rt.alloc()).ok_or("a library")?;
    let replies: [Reply; 7] = [
        (Call::Put(1, 3, b"lo"), Answer::NotStarted),
        (Call::Finish(1), Answer::NotStored(ABC)),
        (Call::Wanted(1, None), Answer::Wants(Some((HELLO, 5)))),
        (Call::Salvage(1, HELLO), Answer::Is(false)),
        (Call::Wanted(1, Some(HELLO)), Answer::Wants(Some((ABC, 3)))),
        (Call::Salvage(1, ABC), Answer::Is(true)),
        (Call::Wanted(1, Some(ABC)), Answer::Wants(Some((EMPTY, 0)))),
    ];
    assert!(rt; odd(rt.alloc(), &mut library, BEGUN, &replies).is_none());
    let replies: [Reply; 5] = [
        (Call::Salvage(1, EMPTY), Answer::Is(true)),
        (Call::Finish(1), Answer::NotStored(HELLO)),
        (Call::Start(1, HELLO), Answer::Done),
        (Call::Put(1, 0, b"hello"), Answer::Done),
        (Call::Seal(1), Answer::Done),
    ];
    assert!(rt; odd(rt.alloc(), &mut library, BEGUN, &replies).is_none());
    let steps: [Step; 1] = [(Call::Finish(1), Answer::Done, VERSION)];
    assert!(rt; wrong(rt.alloc(), &mut library, &steps).is_none());
    assert!(rt; has(&again(rt.alloc(), library).ok_or("opened")?, VERSION));
    Ok(())
}

// What versions name stays sealed over an opening.
#[test]
fn keeps_what_versions_name(rt: HostRuntime) -> Result<(), Fail> {
    let mut library = installed(rt.alloc()).ok_or("a library")?;
    let steps: [Step; 1] = [(Call::Begin(2, THREE), Answer::Begun(2), (&[(2, 2)], &[1]))];
    assert!(rt; wrong(rt.alloc(), &mut library, &steps).is_none());
    let mut library = again(rt.alloc(), library).ok_or("opened")?;
    let replies: [Reply; 5] = [
        (Call::Start(2, ABC), Answer::Stored(ABC)),
        (Call::Salvage(2, ABC), Answer::Is(true)),
        (Call::Wanted(2, None), Answer::Wants(Some((HELLO, 5)))),
        (
            Call::Wanted(2, Some(HELLO)),
            Answer::Wants(Some((EMPTY, 0))),
        ),
        (Call::Wanted(2, Some(EMPTY)), Answer::Wants(None)),
    ];
    assert!(rt; odd(rt.alloc(), &mut library, (&[(2, 2)], &[1]), &replies).is_none());
    Ok(())
}
