//! Which hashes keep their seals, so that a job that names them can be finished.
use library_cases::calls::{ABC, Answer, Call, EMPTY, HELLO, ONE, THREE, TWICE};
use library_cases::libraries::{has, installed};
use library_cases::steps::{Step, again, wrong};
use std::test::Fail;

// Neither a version nor a job names the hash any more.
#[test]
fn lost_with_the_version(rt: HostRuntime) -> Result<(), Fail> {
    let mut library = installed(rt.alloc()).ok_or("a library")?;
    let steps: [Step; 3] = [
        (Call::Remove(1), Answer::Done, (&[], &[])),
        (Call::Begin(2, ONE), Answer::Begun(2), (&[(2, 2)], &[])),
        (Call::Finish(2), Answer::NotStored(ABC), (&[(2, 2)], &[])),
    ];
    assert!(rt; wrong(rt.alloc(), &mut library, &steps).is_none());
    Ok(())
}

// A job of the same opening names it still.
#[test]
fn kept_by_a_job(rt: HostRuntime) -> Result<(), Fail> {
    let mut library = installed(rt.alloc()).ok_or("a library")?;
    let steps: [Step; 3] = [
        (Call::Begin(2, ONE), Answer::Begun(2), (&[(2, 2)], &[1])),
        (Call::Remove(1), Answer::Done, (&[(2, 2)], &[])),
        (Call::Finish(2), Answer::Done, (&[], &[2])),
    ];
    assert!(rt; wrong(rt.alloc(), &mut library, &steps).is_none());
    let library = again(rt.alloc(), library).ok_or("opened")?;
    assert!(rt; has(&library, (&[], &[2])));
    Ok(())
}

// A job was dropped that named it alone.
#[test]
fn lost_with_a_job(rt: HostRuntime) -> Result<(), Fail> {
    let mut library = installed(rt.alloc()).ok_or("a library")?;
    let steps: [Step; 5] = [
        (Call::Begin(2, ONE), Answer::Begun(2), (&[(2, 2)], &[1])),
        (Call::Remove(1), Answer::Done, (&[(2, 2)], &[])),
        (Call::Drop(2), Answer::Done, (&[], &[])),
        (Call::Begin(2, ONE), Answer::Begun(3), (&[(3, 2)], &[])),
        (Call::Finish(3), Answer::NotStored(ABC), (&[(3, 2)], &[])),
    ];
    assert!(rt; wrong(rt.alloc(), &mut library, &steps).is_none());
    Ok(())
}

// At an opening the hashes of versions alone are sealed.
#[test]
fn lost_at_an_opening(rt: HostRuntime) -> Result<(), Fail> {
    let mut library = installed(rt.alloc()).ok_or("a library")?;
    let steps: [Step; 2] = [
        (Call::Begin(2, ONE), Answer::Begun(2), (&[(2, 2)], &[1])),
        (Call::Remove(1), Answer::Done, (&[(2, 2)], &[])),
    ];
    assert!(rt; wrong(rt.alloc(), &mut library, &steps).is_none());
    let mut library = again(rt.alloc(), library).ok_or("opened")?;
    let steps: [Step; 1] = [(Call::Finish(2), Answer::NotStored(ABC), (&[(2, 2)], &[]))];
    assert!(rt; wrong(rt.alloc(), &mut library, &steps).is_none());
    Ok(())
}

// An opening counts what jobs name, too.
#[test]
fn kept_by_a_job_that_was_found(rt: HostRuntime) -> Result<(), Fail> {
    let mut library = installed(rt.alloc()).ok_or("a library")?;
    let steps: [Step; 1] = [(Call::Begin(2, ONE), Answer::Begun(2), (&[(2, 2)], &[1]))];
    assert!(rt; wrong(rt.alloc(), &mut library, &steps).is_none());
    let mut library = again(rt.alloc(), library).ok_or("opened")?;
    let steps: [Step; 2] = [
        (Call::Remove(1), Answer::Done, (&[(2, 2)], &[])),
        (Call::Finish(2), Answer::Done, (&[], &[2])),
    ];
    assert!(rt; wrong(rt.alloc(), &mut library, &steps).is_none());
    Ok(())
}

// Versions that are added bring what jobs lack.
#[test]
fn brought_by_a_version(rt: HostRuntime) -> Result<(), Fail> {
    let mut library = installed(rt.alloc()).ok_or("a library")?;
    let steps: [Step; 1] = [(Call::Begin(2, THREE), Answer::Begun(2), (&[(2, 2)], &[1]))];
    assert!(rt; wrong(rt.alloc(), &mut library, &steps).is_none());
    let steps: [Step; 7] = [
        (
            Call::Begin(3, THREE),
            Answer::Begun(3),
            (&[(2, 2), (3, 3)], &[1]),
        ),
        (
            Call::Start(3, HELLO),
            Answer::Done,
            (&[(2, 2), (3, 3)], &[1]),
        ),
        (
            Call::Put(3, 0, b"hello"),
            Answer::Done,
            (&[(2, 2), (3, 3)], &[1]),
        ),
        (Call::Seal(3), Answer::Done, (&[(2, 2), (3, 3)], &[1])),
        (
            Call::Start(3, EMPTY),
            Answer::Done,
            (&[(2, 2), (3, 3)], &[1]),
        ),
        (Call::Seal(3), Answer::Done, (&[(2, 2), (3, 3)], &[1])),
        (Call::Finish(3), Answer::Done, (&[(2, 2)], &[1, 3])),
    ];
    assert!(rt; wrong(rt.alloc(), &mut library, &steps).is_none());
    let steps: [Step; 2] = [
        (Call::Remove(1), Answer::Done, (&[(2, 2)], &[3])),
        (Call::Finish(2), Answer::Done, (&[], &[2, 3])),
    ];
    assert!(rt; wrong(rt.alloc(), &mut library, &steps).is_none());
    let mut library = again(rt.alloc(), library).ok_or("opened")?;
    let steps: [Step; 3] = [
        (Call::Begin(4, ONE), Answer::Begun(4), (&[(4, 4)], &[2, 3])),
        (
            Call::Begin(5, ONE),
            Answer::Begun(5),
            (&[(4, 4), (5, 5)], &[2, 3]),
        ),
        (Call::Finish(5), Answer::Done, (&[(4, 4)], &[2, 3, 5])),
    ];
    assert!(rt; wrong(rt.alloc(), &mut library, &steps).is_none());
    Ok(())
}

// A manifest with the hash twice is counted and given up as a whole.
#[test]
fn named_twice(rt: HostRuntime) -> Result<(), Fail> {
    let mut library = installed(rt.alloc()).ok_or("a library")?;
    let steps: [Step; 9] = [
        (Call::Begin(2, TWICE), Answer::Begun(2), (&[(2, 2)], &[1])),
        (Call::Drop(2), Answer::Done, (&[], &[1])),
        (Call::Begin(2, TWICE), Answer::Begun(3), (&[(3, 2)], &[1])),
        (Call::Remove(1), Answer::Done, (&[(3, 2)], &[])),
        (
            Call::Begin(1, ONE),
            Answer::Begun(4),
            (&[(3, 2), (4, 1)], &[]),
        ),
        (Call::Finish(4), Answer::Done, (&[(3, 2)], &[1])),
        (Call::Remove(1), Answer::Done, (&[(3, 2)], &[])),
        (Call::Drop(3), Answer::Done, (&[], &[])),
        (Call::Begin(2, ONE), Answer::Begun(5), (&[(5, 2)], &[])),
    ];
    assert!(rt; wrong(rt.alloc(), &mut library, &steps).is_none());
    let steps: [Step; 1] = [(Call::Finish(5), Answer::NotStored(ABC), (&[(5, 2)], &[]))];
    assert!(rt; wrong(rt.alloc(), &mut library, &steps).is_none());
    let library = again(rt.alloc(), library).ok_or("opened")?;
    assert!(rt; has(&library, (&[(5, 2)], &[])) && library.entries() == 1);
    Ok(())
}
