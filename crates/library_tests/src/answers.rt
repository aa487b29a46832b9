//! What calls answer, and what they leave.
use cm_base::{Hash, Version};
use library_cases::calls::{ABC, Answer, Call, EMPTY, LONGER, NONE, ONE, THREE, package};
use library_cases::libraries::{empty, has, installed};
use library_cases::steps::{Step, again, wrong};
use std::test::Fail;

// The SHA-256 of `ONE`.
const OF_ONE: Hash = Hash([
    1, 134, 226, 107, 238, 47, 247, 0, 236, 169, 223, 54, 218, 141, 168, 140, 74, 157, 245, 243,
    228, 108, 18, 253, 239, 242, 72, 74, 101, 96, 9, 48,
]);

// The SHA-256 of `THREE`.
const OF_THREE: Hash = Hash([
    29, 79, 175, 33, 174, 236, 108, 252, 92, 152, 253, 49, 43, 191, 45, 181, 166, 130, 141, 223,
    214, 53, 12, 240, 233, 45, 205, 181, 157, 180, 84, 34,
]);

#[test]
fn refuses(rt: HostRuntime) -> Result<(), Fail> {
    let mut library = empty(rt.alloc()).ok_or("a library")?;
    let steps: [Step; 10] = [
        (Call::Finish(1), Answer::NoJob, (&[], &[])),
        (Call::Drop(1), Answer::NoJob, (&[], &[])),
        (Call::Remove(1), Answer::NoVersion, (&[], &[])),
        (Call::Begin(1, NONE), Answer::Begun(1), (&[(1, 1)], &[])),
        (Call::Begin(1, ONE), Answer::JobThere(1), (&[(1, 1)], &[])),
        (Call::Remove(1), Answer::NoVersion, (&[(1, 1)], &[])),
        (Call::Finish(2), Answer::NoJob, (&[(1, 1)], &[])),
        (Call::Finish(1), Answer::Done, (&[], &[1])),
        (Call::Begin(1, NONE), Answer::VersionThere, (&[], &[1])),
        (Call::Drop(1), Answer::NoJob, (&[], &[1])),
    ];
    assert!(rt; wrong(rt.alloc(), &mut library, &steps).is_none());
    Ok(())
}

#[test]
fn finishes_what_is_stored(rt: HostRuntime) -> Result<(), Fail> {
    let mut library = installed(rt.alloc()).ok_or("a library")?;
    let steps: [Step; 2] = [
        (Call::Begin(2, ONE), Answer::Begun(2), (&[(2, 2)], &[1])),
        (Call::Finish(2), Answer::Done, (&[], &[1, 2])),
    ];
    assert!(rt; wrong(rt.alloc(), &mut library, &steps).is_none());
    let library = again(rt.alloc(), library).ok_or("opened")?;
    assert!(rt; has(&library, (&[], &[1, 2])));
    assert!(rt; library.count() == 2 && library.entries() == 2);
    Ok(())
}

#[test]
fn lacks_files(rt: HostRuntime) -> Result<(), Fail> {
    let mut library = installed(rt.alloc()).ok_or("a library")?;
    let steps: [Step; 7] = [
        (Call::Begin(2, THREE), Answer::Begun(2), (&[(2, 2)], &[1])),
        (Call::Finish(2), Answer::NotStored(EMPTY), (&[(2, 2)], &[1])),
        (Call::Drop(2), Answer::Done, (&[], &[1])),
        (Call::Finish(2), Answer::NoJob, (&[], &[1])),
        (Call::Begin(2, LONGER), Answer::Begun(3), (&[(3, 2)], &[1])),
        (Call::Finish(3), Answer::NotStored(ABC), (&[(3, 2)], &[1])),
        (Call::Drop(3), Answer::Done, (&[], &[1])),
    ];
    assert!(rt; wrong(rt.alloc(), &mut library, &steps).is_none());
    let library = again(rt.alloc(), library).ok_or("opened")?;
    assert!(rt; has(&library, (&[], &[1])));
    Ok(())
}

#[test]
fn tells_rows(rt: HostRuntime) -> Result<(), Fail> {
    let mut library = installed(rt.alloc()).ok_or("a library")?;
    let steps: [Step; 1] = [(Call::Begin(2, THREE), Answer::Begun(2), (&[(2, 2)], &[1]))];
    assert!(rt; wrong(rt.alloc(), &mut library, &steps).is_none());
    assert!(rt; library.count() == 2 && library.entries() == 4);
    assert!(rt; library.last(package().ok_or("a package")?) == Version::new(2));
    let version = library.versions().first().ok_or("a version")?;
    assert!(rt; version.entries == 1 && version.bytes == 3 && version.hash == OF_ONE);
    let job = library.jobs().first().ok_or("a job")?;
    assert!(rt; job.entries == 3 && job.bytes == 8 && job.hash == OF_THREE);
    Ok(())
}
