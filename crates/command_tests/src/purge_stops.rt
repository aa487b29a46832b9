//! What a crash leaves of `purge`.
use crate::fakes::{Files, answered, holds, is_laid};
use crate::three::{ABC, HELLO, LOG_REMOVED_WITH_JOB, MANIFEST, NOTHING};
use cm_base::{Memory, Place};
use cm_disk::{MemDisk, at_each_crash};
use std::alloc::Global;
use std::process::Abort;
use std::test::Fail;

/// How far a run came.
#[derive(Clone, Copy, PartialEq, Eq)]
enum Reached {
    // The disk failed before the command.
    Before,
    Failed,
    Done,
}

// The disk of a library in which version 1 of PS100001 was removed and job 2 of PS100002 is unfinished. The manifest of the version is
// not needed, nor is a file.
const LIBRARY: [(&[u8], &[u8]); 9] = [
    (b"PkgLib/log.0", &LOG_REMOVED_WITH_JOB),
    (b"PkgLib/log.1", &[0, 1, 0, 0, 0, 0, 0, 0, 0, 0, 0]),
    (b"PkgLib/ready", b""),
    (b"DataLib/PS100001.1", &MANIFEST),
    (b"DataLib/PS100002.1", &MANIFEST),
    (ABC, b"abc"),
    (NOTHING, b""),
    (HELLO, b"hello"),
    (LOOSE, b"abcd"),
];

const LOOSE: &[u8] = b"FileLib/88d4266fd4e6338d13b845fcf289579d209c897823b9217da3e161936f031589";

const KEPT: Files = &[
    (b"DataLib/PS100002.1", &MANIFEST),
    (ABC, b"abc"),
    (NOTHING, b""),
    (HELLO, b"hello"),
];

fn is_prepared(disk: &mut MemDisk) -> bool {
    for (place, bytes) in LIBRARY {
        let Some(place) = Place::read(place) else {
            return false;
        };
        if !is_laid(disk, &place, Some(bytes)) {
            return false;
        }
    }
    true
}

fn tried(
    rt: &impl Abort,
    alloc: Global,
    words: &[&str],
    done: &[u8],
    disk: &mut MemDisk,
) -> Option<Reached> {
    if !is_prepared(disk) {
        return Some(Reached::Before);
    }
    match answered(rt, alloc, words, &[], &[], disk) {
        Ok((0, text)) if text.as_slice() == done => Some(Reached::Done),
        Ok((5, text)) if text.as_slice() == b"disk site\n".as_slice() => Some(Reached::Failed),
        _ => None,
    }
}

// Whether an image is the library, with all that it needs.
fn is_kept(rt: &impl Abort, alloc: Global, image: &mut MemDisk) -> Result<bool, Memory> {
    for (place, bytes) in KEPT {
        if !holds(image, place, bytes) {
            return Ok(false);
        }
    }
    let (_, text) = answered(rt, alloc, &["list", "site"], &[], &[], image)?;
    Ok(text.as_slice() == b"PS100002 1 job 2 3 8\n".as_slice())
}

fn is_purged(rt: &impl Abort, alloc: Global, image: &mut MemDisk) -> Result<bool, Memory> {
    let (_, text) = answered(rt, alloc, &["what-if", "site"], &[], &[], image)?;
    Ok(text.as_slice() == b"loose 0\n".as_slice())
}

fn is_left(
    rt: &impl Abort,
    alloc: Global,
    reached: Reached,
    image: &mut MemDisk,
) -> Result<bool, Memory> {
    if reached == Reached::Before {
        return Ok(true);
    }
    if !is_kept(rt, alloc, image)? {
        return Ok(false);
    }
    Ok(reached == Reached::Failed || is_purged(rt, alloc, image)?)
}

#[test]
fn within_purge(rt: HostRuntime) -> Result<(), Fail> {
    let alloc = rt.alloc();
    let left = at_each_crash(
        alloc,
        |disk| {
            tried(
                &rt,
                alloc,
                &["purge", "site"],
                b"purged files 1 manifests 1\n",
                disk,
            )
        },
        |reached, image| match *reached {
            Some(reached) => matches!(is_left(&rt, alloc, reached, image), Ok(true)),
            None => false,
        },
    );
    assert!(rt; left == Ok(()));
    Ok(())
}
