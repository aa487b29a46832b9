//! What the calls on a job's files refuse, in the order of the causes.
use cm_disk::MemDisk;
use cm_library::Library;
use library_cases::calls::{
    ABC, Answer, Call, EMPTY, HELLO, LONGER_FIRST, OF_AB, ONE, Reply, THREE, TWO_SIZES,
};
use library_cases::libraries::{BEGUN, Rows, begun_with, empty};
use library_cases::steps::{Step, odd, wrong};
use std::alloc::Global;
use std::test::Fail;

const JOBS: Rows = (&[(1, 1), (2, 2)], &[]);

// A library with job 1 for the manifest `THREE`, and job 2 for `ONE`.
fn begun(alloc: Global) -> Option<Library<MemDisk>> {
    let mut library = empty(alloc)?;
    let steps: [Step; 2] = [
        (Call::Begin(1, THREE), Answer::Begun(1), BEGUN),
        (Call::Begin(2, ONE), Answer::Begun(2), JOBS),
    ];
    match wrong(alloc, &mut library, &steps) {
        Some(_) => None,
        None => Some(library),
    }
}

#[test]
fn no_job(rt: HostRuntime) -> Result<(), Fail> {
    let mut library = begun(rt.alloc()).ok_or("a library")?;
    let replies: [Reply; 7] = [
        (Call::Start(1, HELLO), Answer::Done),
        (Call::Start(3, HELLO), Answer::NoJob),
        (Call::Put(3, 9, b"abc"), Answer::NoJob),
        (Call::Seal(3), Answer::NoJob),
        (Call::Salvage(3, HELLO), Answer::NoJob),
        (Call::Wanted(3, None), Answer::NoJob),
        (Call::GiveUp(3), Answer::Is(false)),
    ];
    assert!(rt; odd(rt.alloc(), &mut library, JOBS, &replies).is_none());
    Ok(())
}

// Another job has started the hash, or it is sealed; the manifest does not name it in the first place.
#[test]
fn unwanted(rt: HostRuntime) -> Result<(), Fail> {
    let mut library = begun(rt.alloc()).ok_or("a library")?;
    let replies: [Reply; 8] = [
        (Call::Start(1, EMPTY), Answer::Done),
        (Call::Start(2, EMPTY), Answer::Unwanted(EMPTY)),
        (Call::Salvage(2, EMPTY), Answer::Unwanted(EMPTY)),
        (Call::Seal(1), Answer::Done),
        (Call::Start(2, EMPTY), Answer::Unwanted(EMPTY)),
        (Call::Salvage(2, EMPTY), Answer::Unwanted(EMPTY)),
        (Call::Start(1, EMPTY), Answer::Stored(EMPTY)),
        (Call::Salvage(1, EMPTY), Answer::Is(true)),
    ];
    assert!(rt; odd(rt.alloc(), &mut library, JOBS, &replies).is_none());
    Ok(())
}

#[test]
fn not_started(rt: HostRuntime) -> Result<(), Fail> {
    let mut library = begun(rt.alloc()).ok_or("a library")?;
    let replies: [Reply; 7] = [
        (Call::Put(2, 9, b"abcd"), Answer::NotStarted),
        (Call::Seal(2), Answer::NotStarted),
        (Call::GiveUp(2), Answer::Is(false)),
        (Call::Start(2, ABC), Answer::Done),
        (Call::GiveUp(2), Answer::Is(true)),
        (Call::GiveUp(2), Answer::Is(false)),
        (Call::Put(2, 0, b"a"), Answer::NotStarted),
    ];
    assert!(rt; odd(rt.alloc(), &mut library, JOBS, &replies).is_none());
    Ok(())
}

#[test]
fn misplaced(rt: HostRuntime) -> Result<(), Fail> {
    let mut library = begun(rt.alloc()).ok_or("a library")?;
    let replies: [Reply; 9] = [
        (Call::Start(2, ABC), Answer::Done),
        (Call::Put(2, 3, b"a"), Answer::WrongOffset(0)),
        (Call::Put(2, 0, b"ab"), Answer::Done),
        (Call::Put(2, 0, b"ab"), Answer::WrongOffset(2)),
        (Call::Put(2, 3, b"cdef"), Answer::WrongOffset(2)),
        (Call::Put(2, 2, b"cd"), Answer::TooLong(3)),
        (Call::Put(2, 2, b"c"), Answer::Done),
        (Call::Put(2, 3, b""), Answer::Done),
        (Call::Put(2, 3, b"d"), Answer::TooLong(3)),
    ];
    assert!(rt; odd(rt.alloc(), &mut library, JOBS, &replies).is_none());
    assert!(rt;
        odd(
            rt.alloc(),
            &mut library,
            JOBS,
            &[(Call::Seal(2), Answer::Done)]
        )
        .is_none()
    );
    Ok(())
}

// A job has at most one started file.
#[test]
fn started_in_place_of_another(rt: HostRuntime) -> Result<(), Fail> {
    let mut library = begun(rt.alloc()).ok_or("a library")?;
    let replies: [Reply; 8] = [
        (Call::Start(1, ABC), Answer::Done),
        (Call::Put(1, 0, b"ab"), Answer::Done),
        (Call::Start(1, HELLO), Answer::Done),
        (Call::Put(1, 2, b"l"), Answer::WrongOffset(0)),
        (Call::Put(1, 0, b"hello"), Answer::Done),
        // The first is free for the other job.
        (Call::Start(2, ABC), Answer::Done),
        (Call::Start(1, ABC), Answer::HeldBy(ABC, 2)),
        // A refused call has not given up the second.
        (Call::Seal(1), Answer::Done),
    ];
    assert!(rt; odd(rt.alloc(), &mut library, JOBS, &replies).is_none());
    Ok(())
}

// The same file is started anew.
#[test]
fn started_twice(rt: HostRuntime) -> Result<(), Fail> {
    let mut library = begun(rt.alloc()).ok_or("a library")?;
    let replies: [Reply; 6] = [
        (Call::Start(2, ABC), Answer::Done),
        (Call::Put(2, 0, b"xyz"), Answer::Done),
        (Call::Start(2, ABC), Answer::Done),
        (Call::Put(2, 3, b""), Answer::WrongOffset(0)),
        (Call::Put(2, 0, b"abc"), Answer::Done),
        (Call::Seal(2), Answer::Done),
    ];
    assert!(rt; odd(rt.alloc(), &mut library, JOBS, &replies).is_none());
    let steps: [Step; 1] = [(Call::Finish(2), Answer::Done, (&[(1, 1)], &[2]))];
    assert!(rt; wrong(rt.alloc(), &mut library, &steps).is_none());
    Ok(())
}

// The first entry's size is the one that is wanted, and the other is not stored.
#[test]
fn two_sizes(rt: HostRuntime) -> Result<(), Fail> {
    let mut library = begun_with(rt.alloc(), TWO_SIZES).ok_or("a library")?;
    let replies: [Reply; 7] = [
        (Call::Wanted(1, None), Answer::Wants(Some((ABC, 3)))),
        (Call::Start(1, ABC), Answer::Done),
        (Call::Put(1, 0, b"abcd"), Answer::TooLong(3)),
        (Call::Put(1, 0, b"abc"), Answer::Done),
        (Call::Seal(1), Answer::Done),
        (Call::Wanted(1, None), Answer::Wants(None)),
        (Call::Finish(1), Answer::NotStored(ABC)),
    ];
    assert!(rt; odd(rt.alloc(), &mut library, BEGUN, &replies).is_none());
    Ok(())
}

#[test]
fn two_sizes_with_the_wrong_one_first(rt: HostRuntime) -> Result<(), Fail> {
    let mut library = begun_with(rt.alloc(), LONGER_FIRST).ok_or("a library")?;
    let replies: [Reply; 8] = [
        (Call::Wanted(1, None), Answer::Wants(Some((ABC, 4)))),
        (Call::Start(1, ABC), Answer::Done),
        (Call::Put(1, 0, b"ab"), Answer::Done),
        (Call::Seal(1), Answer::WrongBytes(ABC, 4, OF_AB, 2)),
        (Call::Start(1, ABC), Answer::Done),
        (Call::Put(1, 0, b"abc"), Answer::Done),
        (Call::Seal(1), Answer::WrongBytes(ABC, 4, ABC, 3)),
        (Call::Salvage(1, ABC), Answer::Is(false)),
    ];
    assert!(rt; odd(rt.alloc(), &mut library, BEGUN, &replies).is_none());
    assert!(rt;
        odd(
            rt.alloc(),
            &mut library,
            BEGUN,
            &[(Call::Finish(1), Answer::NotStored(ABC))]
        )
        .is_none()
    );
    Ok(())
}
