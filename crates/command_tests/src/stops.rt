//! What a crash leaves of the commands that write.
use crate::cases::{ADD, CHANGED, Case, DROP, FILES, INIT, State, UPDATE};
use crate::fakes::{answered, holds, is_laid};
use crate::three::{ABC, HELLO, LOG_WITH_JOB, MANIFEST, NOTHING};
use cm_base::{Memory, Place};
use cm_disk::{MemDisk, at_each_crash};
use std::alloc::Global;
use std::process::Abort;
use std::test::Fail;

/// How far a run came.
#[derive(Clone, Copy, PartialEq, Eq)]
enum Reached {
    // The disk failed before the case's command.
    Before,
    Failed,
    Done,
}

// The disk of a library in which PS100001 has version 1 and job 2 of PS100002 is unfinished.
const LIBRARY: [(&[u8], &[u8]); 8] = [
    (b"PkgLib/log.0", &LOG_WITH_JOB),
    (b"PkgLib/log.1", &[0, 1, 0, 0, 0, 0, 0, 0, 0, 0, 0]),
    (b"PkgLib/ready", b""),
    (b"DataLib/PS100001.1", &MANIFEST),
    (b"DataLib/PS100002.1", &MANIFEST),
    (ABC, b"abc"),
    (NOTHING, b""),
    (HELLO, b"hello"),
];

fn is_prepared(disk: &mut MemDisk) -> bool {
    for (place, bytes) in LIBRARY {
        let Some(place) = Place::read(place) else {
            return false;
        };
        if !is_laid(disk, &place, Some(bytes)) {
            return false;
        }
    }
    true
}

// None where the command ends otherwise than by its end or a fault of the disk.
fn tried(rt: &impl Abort, alloc: Global, case: &Case, disk: &mut MemDisk) -> Option<Reached> {
    if case.has_library && !is_prepared(disk) {
        return Some(Reached::Before);
    }
    match answered(rt, alloc, case.words, case.files, case.later, disk) {
        Ok((_, text)) if text.as_slice() == case.done => Some(Reached::Done),
        Ok((5, text)) if text.as_slice() == b"disk site\n".as_slice() => Some(Reached::Failed),
        _ => None,
    }
}

// Whether each command prints over an image what it prints over a state, and the files of the versions stand there.
fn is_in_state(
    rt: &impl Abort,
    alloc: Global,
    state: &State,
    image: &mut MemDisk,
) -> Result<bool, Memory> {
    for (place, bytes) in state.kept {
        if !holds(image, place, bytes) {
            return Ok(false);
        }
    }
    for (words, wanted) in [
        (["list", "site"].as_slice(), state.list),
        (&["add", "PS100003"], state.add),
        (&["init"], state.init),
        (&["update", "PS100001"], state.update),
        (&["drop", "site", "2"], state.drop_2),
        (&["drop", "site", "3"], state.drop_3),
    ] {
        let mut copy = image.crash(0)?;
        let (_, text) = answered(rt, alloc, words, FILES, &[], &mut copy)?;
        if text.as_slice() != wanted {
            return Ok(false);
        }
    }
    Ok(true)
}

// Whether an image is in one of the case's states, and in the last one where the command came to its end.
fn is_left(
    rt: &impl Abort,
    alloc: Global,
    case: &Case,
    reached: Reached,
    image: &mut MemDisk,
) -> Result<bool, Memory> {
    if reached == Reached::Before {
        return Ok(true);
    }
    let mut is_last = false;
    let mut is_some = false;
    for state in case.states {
        is_last = is_in_state(rt, alloc, state, image)?;
        is_some = is_some || is_last;
    }
    Ok(is_last || is_some && reached == Reached::Failed)
}

// Tries a command with a failure at each of its device calls, alone and with all after it, and looks at what a crash leaves then.
fn try_case(rt: &impl Abort, alloc: Global, case: &Case) -> Result<(), Fail> {
    let left = at_each_crash(
        alloc,
        |disk| tried(rt, alloc, case, disk),
        |reached, image| match *reached {
            Some(reached) => matches!(is_left(rt, alloc, case, reached, image), Ok(true)),
            None => false,
        },
    );
    assert!(rt; left == Ok(()));
    Ok(())
}

#[test]
fn within_init(rt: HostRuntime) -> Result<(), Fail> {
    try_case(&rt, rt.alloc(), &INIT)
}

#[test]
fn within_add(rt: HostRuntime) -> Result<(), Fail> {
    try_case(&rt, rt.alloc(), &ADD)
}

#[test]
fn within_a_changed_add(rt: HostRuntime) -> Result<(), Fail> {
    try_case(&rt, rt.alloc(), &CHANGED)
}

#[test]
fn within_update(rt: HostRuntime) -> Result<(), Fail> {
    try_case(&rt, rt.alloc(), &UPDATE)
}

#[test]
fn within_drop(rt: HostRuntime) -> Result<(), Fail> {
    try_case(&rt, rt.alloc(), &DROP)
}

// The making of `ready` fails, and a second `init` fails at each call, until one meets no failing call.
#[test]
fn within_a_second_init(rt: HostRuntime) -> Result<(), Fail> {
    let alloc = rt.alloc();
    for at in 9..1000u64 {
        let mut disk = MemDisk::new(alloc, [8, at].to_vec(alloc)?)?;
        assert!(rt; tried(&rt, alloc, &INIT, &mut disk) == Some(Reached::Failed));
        let (status, _) = answered(&rt, alloc, &["init"], &[], &[], &mut disk)?;
        assert!(rt; status == 0 || status == 5);
        let again = if status == 0 {
            Reached::Done
        } else {
            Reached::Failed
        };
        for pick in 0..3u8 {
            let mut image = disk.crash(pick)?;
            assert!(rt; is_left(&rt, alloc, &INIT, again, &mut image)?);
        }
        if status == 0 {
            assert!(rt; at > 15);
            return Ok(());
        }
    }
    assert!(rt; false, "the second init meets no failing call");
    Ok(())
}
