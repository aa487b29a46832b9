//! Two jobs want one file.
use cm_disk::MemDisk;
use cm_library::Library;
use library_cases::calls::{ABC, Answer, Call, OF_AB, OF_ABD, ONE, Reply};
use library_cases::libraries::{Rows, empty, has};
use library_cases::steps::{Step, again, odd, wrong};
use std::alloc::Global;
use std::test::Fail;

const BOTH: Rows = (&[(1, 1), (2, 2)], &[]);

const SECOND: Rows = (&[(2, 2)], &[]);

// A library with jobs 1 and 2 that want `abc`, of which job 1 has started it.
fn started(alloc: Global) -> Option<Library<MemDisk>> {
    let mut library = empty(alloc)?;
    let steps: [Step; 3] = [
        (Call::Begin(1, ONE), Answer::Begun(1), (&[(1, 1)], &[])),
        (Call::Begin(2, ONE), Answer::Begun(2), BOTH),
        (Call::Start(1, ABC), Answer::Done, BOTH),
    ];
    match wrong(alloc, &mut library, &steps) {
        Some(_) => None,
        None => Some(library),
    }
}

#[test]
fn one_holds_it(rt: HostRuntime) -> Result<(), Fail> {
    let mut library = started(rt.alloc()).ok_or("a library")?;
    let replies: [Reply; 6] = [
        (Call::Start(2, ABC), Answer::HeldBy(ABC, 1)),
        (Call::Salvage(2, ABC), Answer::HeldBy(ABC, 1)),
        (Call::Finish(2), Answer::NotStored(ABC)),
        (Call::Put(2, 0, b"a"), Answer::NotStarted),
        (Call::Seal(2), Answer::NotStarted),
        (Call::GiveUp(2), Answer::Is(false)),
    ];
    assert!(rt; odd(rt.alloc(), &mut library, BOTH, &replies).is_none());
    let replies: [Reply; 2] = [
        (Call::Put(1, 0, b"a"), Answer::Done),
        (Call::Start(2, ABC), Answer::HeldBy(ABC, 1)),
    ];
    assert!(rt; odd(rt.alloc(), &mut library, BOTH, &replies).is_none());
    Ok(())
}

// Whether job 2 takes over what a dropped job had begun.
fn takes_over(alloc: Global, library: &mut Library<MemDisk>) -> bool {
    let steps: [Step; 2] = [
        (Call::Put(1, 0, b"a"), Answer::Done, BOTH),
        (Call::Drop(1), Answer::Done, SECOND),
    ];
    let replies: [Reply; 6] = [
        (Call::Start(2, ABC), Answer::Done),
        (Call::Put(2, 1, b"b"), Answer::WrongOffset(0)),
        (Call::Put(2, 0, b"abcd"), Answer::TooLong(3)),
        (Call::Put(2, 0, b"abc"), Answer::Done),
        (Call::Seal(2), Answer::Done),
        (Call::Start(2, ABC), Answer::Stored(ABC)),
    ];
    wrong(alloc, library, &steps).is_none() && odd(alloc, library, SECOND, &replies).is_none()
}

#[test]
fn the_other_takes_over(rt: HostRuntime) -> Result<(), Fail> {
    let mut library = started(rt.alloc()).ok_or("a library")?;
    assert!(rt; takes_over(rt.alloc(), &mut library));
    let steps: [Step; 2] = [
        (Call::Finish(2), Answer::Done, (&[], &[2])),
        (Call::Begin(3, ONE), Answer::Begun(3), (&[(3, 3)], &[2])),
    ];
    assert!(rt; wrong(rt.alloc(), &mut library, &steps).is_none());
    let mut library = again(rt.alloc(), library).ok_or("opened")?;
    let steps: [Step; 2] = [
        (Call::Start(3, ABC), Answer::Stored(ABC), (&[(3, 3)], &[2])),
        (Call::Finish(3), Answer::Done, (&[], &[2, 3])),
    ];
    assert!(rt; wrong(rt.alloc(), &mut library, &steps).is_none());
    assert!(rt; has(&library, (&[], &[2, 3])));
    Ok(())
}

// What one job seals the other finishes with.
#[test]
fn one_seals_for_both(rt: HostRuntime) -> Result<(), Fail> {
    let mut library = started(rt.alloc()).ok_or("a library")?;
    let replies: [Reply; 5] = [
        (Call::Put(1, 0, b"ab"), Answer::Done),
        (Call::Put(1, 2, b"c"), Answer::Done),
        (Call::Seal(1), Answer::Done),
        (Call::Wanted(2, None), Answer::Wants(None)),
        (Call::Start(2, ABC), Answer::Stored(ABC)),
    ];
    assert!(rt; odd(rt.alloc(), &mut library, BOTH, &replies).is_none());
    let steps: [Step; 2] = [
        (Call::Finish(2), Answer::Done, (&[(1, 1)], &[2])),
        (Call::Finish(1), Answer::Done, (&[], &[1, 2])),
    ];
    assert!(rt; wrong(rt.alloc(), &mut library, &steps).is_none());
    Ok(())
}

// Other bytes are not sealed, and the other job may start the file then.
#[test]
fn other_bytes_are_wrong(rt: HostRuntime) -> Result<(), Fail> {
    let mut library = started(rt.alloc()).ok_or("a library")?;
    let replies: [Reply; 4] = [
        (Call::Put(1, 0, b"abd"), Answer::Done),
        (Call::Seal(1), Answer::WrongBytes(ABC, 3, OF_ABD, 3)),
        (Call::Seal(1), Answer::NotStarted),
        (Call::Finish(1), Answer::NotStored(ABC)),
    ];
    assert!(rt; odd(rt.alloc(), &mut library, BOTH, &replies).is_none());
    let replies: [Reply; 4] = [
        (Call::Start(2, ABC), Answer::Done),
        (Call::Put(2, 0, b"ab"), Answer::Done),
        (Call::Seal(2), Answer::WrongBytes(ABC, 3, OF_AB, 2)),
        (Call::Start(1, ABC), Answer::Done),
    ];
    assert!(rt; odd(rt.alloc(), &mut library, BOTH, &replies).is_none());
    Ok(())
}
