//! The commands `purge` and `what-if`.
use crate::fakes::{Files, answered, holds, lay, made};
use crate::three::{ABC, HELLO, LOG_REMOVED, LOG_REMOVED_WITH_JOB, MANIFEST, NOTHING};
use cm_base::Place;
use cm_disk::{Disk, MemDisk};
use std::alloc::Global;
use std::process::Abort;
use std::test::Fail;

/// A command's words, and the status and the text that it ends by.
type Row = (&'static [&'static str], u8, &'static [u8]);

// Version 1 of PS100001 was added and removed; what it named is there still.
fn removed(rt: &impl Abort, alloc: Global, log: &[u8]) -> Result<MemDisk, Fail> {
    let mut disk = made(rt, alloc)?;
    lay(&mut disk, b"PkgLib/log.0", Some(log))?;
    lay(&mut disk, b"DataLib/PS100001.1", Some(&MANIFEST))?;
    lay(&mut disk, ABC, Some(b"abc"))?;
    lay(&mut disk, NOTHING, Some(b""))?;
    lay(&mut disk, HELLO, Some(b"hello"))?;
    Ok(disk)
}

fn answer_all(
    rt: &impl Abort,
    alloc: Global,
    files: Files,
    rows: &[Row],
    disk: &mut MemDisk,
) -> Result<(), Fail> {
    for (words, status, text) in rows {
        let (got, printed) = answered(rt, alloc, words, files, &[], disk)?;
        assert!(rt; got == *status && printed.as_slice() == *text);
    }
    Ok(())
}

fn is_absent(disk: &mut MemDisk, place: &[u8]) -> bool {
    match Place::read(place) {
        Some(place) => disk.size(&place) == Ok(None),
        None => false,
    }
}

const LOOSE: &[u8] = b"DataLib/PS100001.1
FileLib/2cf24dba5fb0a30e26e83b2ac5b9e29e1b161e5c1fa7425e73043362938b9824
FileLib/e3b0c44298fc1c149afbf4c8996fb92427ae41e4649b934ca495991b7852b855
loose 3
";

const REMOVED: [Row; 10] = [
    (
        &["add", "PS100003"],
        0,
        b"added PS100003 1 files 1 bytes 3\n",
    ),
    (&["what-if", "dp9"], 1, b"refused 10 NoBay dp9\n"),
    (&["purge", "dp9"], 1, b"refused 10 NoBay dp9\n"),
    (&["what-if", "site"], 0, LOOSE),
    (&["what-if", "SITE"], 0, LOOSE),
    (&["purge", "site"], 0, b"purged files 2 manifests 1\n"),
    (&["purge", "site"], 0, b"purged files 0 manifests 0\n"),
    (&["what-if", "site"], 0, b"loose 0\n"),
    (&["list", "site"], 0, b"PS100003 1 done 1 3\n"),
    (&["validate", "site", "PS100003", "1"], 0, b"valid 1\n"),
];

// What another version names is kept.
#[test]
fn removes_what_nothing_names(rt: HostRuntime) -> Result<(), Fail> {
    let alloc = rt.alloc();
    let mut disk = removed(&rt, alloc, &LOG_REMOVED)?;
    answer_all(&rt, alloc, &[(b"k", b"abc")], &REMOVED, &mut disk)?;
    assert!(rt; holds(&mut disk, ABC, b"abc"));
    assert!(rt; is_absent(&mut disk, HELLO) && is_absent(&mut disk, NOTHING));
    assert!(rt; is_absent(&mut disk, b"DataLib/PS100001.1"));
    Ok(())
}

const WITH_JOB: [Row; 6] = [
    (&["what-if", "site"], 0, b"DataLib/PS100001.1\nloose 1\n"),
    (&["purge", "site"], 0, b"purged files 0 manifests 1\n"),
    (&["list", "site"], 0, b"PS100002 1 job 2 3 8\n"),
    (&["purge", "site"], 0, b"purged files 0 manifests 0\n"),
    (&["drop", "site", "2"], 0, b"dropped\n"),
    (&["purge", "site"], 0, b"purged files 3 manifests 1\n"),
];

// What an unfinished job names is kept until it is given up.
#[test]
fn keeps_what_a_job_names(rt: HostRuntime) -> Result<(), Fail> {
    let alloc = rt.alloc();
    let mut disk = removed(&rt, alloc, &LOG_REMOVED_WITH_JOB)?;
    lay(&mut disk, b"DataLib/PS100002.1", Some(&MANIFEST))?;
    answer_all(&rt, alloc, &[], &WITH_JOB, &mut disk)
}

/// Places that are of no stored file and of no stored manifest.
const OTHERS: [&[u8]; 12] = [
    b"DataLib/PS100001",
    b"DataLib/PS100001.01",
    b"DataLib/ps100001.1",
    b"DataLib/PS100001.4294967296",
    b"FileLib/2CF24DBA5FB0A30E26E83B2AC5B9E29E1B161E5C1FA7425E73043362938B9824",
    b"FileLib/2cf24dba5fb0a30e26e83b2ac5b9e29e1b161e5c1fa7425e73043362938b982",
    b"FileLib/2cf24dba5fb0a30e26e83b2ac5b9e29e1b161e5c1fa7425e73043362938b98244",
    b"FileLib/x",
    b"FileLic/2cf24dba5fb0a30e26e83b2ac5b9e29e1b161e5c1fa7425e73043362938b9824",
    b"2cf24dba5fb0a30e26e83b2ac5b9e29e1b161e5c1fa7425e73043362938b9824",
    b"PkgLib/2cf24dba5fb0a30e26e83b2ac5b9e29e1b161e5c1fa7425e73043362938b9824",
    b"a/FileLib/2cf24dba5fb0a30e26e83b2ac5b9e29e1b161e5c1fa7425e73043362938b9824",
];

const ONE_FILE: [Row; 2] = [
    (
        &["what-if", "site"],
        0,
        b"FileLib/2cf24dba5fb0a30e26e83b2ac5b9e29e1b161e5c1fa7425e73043362938b9824\nloose 1\n",
    ),
    (&["purge", "site"], 0, b"purged files 1 manifests 0\n"),
];

#[test]
fn leaves_other_places(rt: HostRuntime) -> Result<(), Fail> {
    let alloc = rt.alloc();
    let mut disk = made(&rt, alloc)?;
    for place in OTHERS {
        lay(&mut disk, place, Some(b"hello"))?;
    }
    lay(&mut disk, HELLO, Some(b"hello"))?;
    answer_all(&rt, alloc, &[], &ONE_FILE, &mut disk)?;
    for place in OTHERS {
        assert!(rt; holds(&mut disk, place, b"hello"));
    }
    assert!(rt; is_absent(&mut disk, HELLO));
    Ok(())
}

const NO_LIBRARY: [Row; 3] = [
    (&["purge", "dp9"], 7, b"library site missing\n"),
    (&["what-if", "dp9"], 7, b"library site missing\n"),
    (
        &["validate", "dp9", "PS100001", "1"],
        7,
        b"library site missing\n",
    ),
];

#[test]
fn needs_a_library(rt: HostRuntime) -> Result<(), Fail> {
    let alloc = rt.alloc();
    let mut disk = MemDisk::new(alloc, Vec::new(alloc))?;
    answer_all(&rt, alloc, &[], &NO_LIBRARY, &mut disk)
}
