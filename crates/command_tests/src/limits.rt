//! The limits of a library and of a folder.
use crate::fakes::{Files, answered, lay, made, ran_over};
use cm_disk::MemDisk;
use cm_tree::MemFolder;
use std::alloc::Global;
use std::process::Abort;
use std::test::Fail;

const NO_FILES: &[u8] = b"CMDL\x01\0\0\0\0";

const HASH_OF_NO_FILES: [u8; 32] = [
    28, 44, 161, 146, 32, 210, 14, 107, 224, 178, 151, 131, 205, 214, 166, 228, 137, 23, 159, 114,
    96, 152, 41, 37, 81, 93, 142, 202, 157, 94, 165, 44,
];

// Of 20,000 empty files `f00000` to `f19999`.
const HASH_OF_MOST_FILES: [u8; 32] = [
    42, 205, 88, 20, 97, 118, 104, 88, 34, 23, 247, 119, 212, 224, 110, 203, 56, 115, 248, 33, 238,
    95, 35, 48, 229, 2, 33, 204, 219, 255, 37, 147,
];

const HASH_OF_NOTHING: [u8; 32] = [
    227, 176, 196, 66, 152, 252, 28, 20, 154, 251, 244, 200, 153, 111, 185, 36, 39, 174, 65, 228,
    100, 155, 147, 76, 164, 149, 153, 27, 120, 82, 184, 85,
];

const BAD: Files = &[(b"a:b", b"")];

const ONE: Files = &[(b"k", b"")];

// The record that opens a job of PS100001, and the one that ends it as a version.
fn push_opened(
    log: &mut Vec<u8>,
    number: u32,
    entries: u32,
    size: u32,
    hash: &[u8; 32],
) -> Result<(), Fail> {
    log.extend_from_slice(&[1, 61, 0, 0, 0, 1])?;
    log.extend_from_slice(&u64::from(number).to_le_bytes())?;
    log.extend_from_slice(b"PS100001")?;
    log.extend_from_slice(&number.to_le_bytes())?;
    log.extend_from_slice(&entries.to_le_bytes())?;
    log.extend_from_slice(&size.to_le_bytes())?;
    log.extend_from_slice(hash)?;
    Ok(())
}

fn push_done(log: &mut Vec<u8>, number: u32) -> Result<(), Fail> {
    log.extend_from_slice(&[1, 9, 0, 0, 0, 2])?;
    log.extend_from_slice(&u64::from(number).to_le_bytes())?;
    Ok(())
}

// A library with so many jobs, of versions from 1 on, which are finished or not.
fn with_jobs(rt: &impl Abort, alloc: Global, count: u32, are_done: bool) -> Result<MemDisk, Fail> {
    let mut disk = made(rt, alloc)?;
    let mut log = vec![in alloc; 1u8, 1, 1, 0, 0, 0, 0, 0, 0, 0]?;
    for at in 0..count {
        let number = at.saturating_add(1);
        let place = format!(in alloc; "DataLib/PS100001.{number}")?;
        lay(&mut disk, place.as_bytes(), Some(NO_FILES))?;
        push_opened(&mut log, number, 0, 9, &HASH_OF_NO_FILES)?;
        if are_done {
            push_done(&mut log, number)?;
        }
    }
    log.push(0)?;
    lay(&mut disk, b"PkgLib/log.0", Some(&log))?;
    Ok(disk)
}

// What these words print, one after another, over a folder without files.
fn print(
    rt: &impl Abort,
    alloc: Global,
    disk: &mut MemDisk,
    runs: &[(&[&str], Files, &[u8])],
) -> Result<(), Fail> {
    for (words, files, wanted) in runs {
        let (_, text) = answered(rt, alloc, words, files, &[], disk)?;
        assert!(rt; text.as_slice() == *wanted);
    }
    Ok(())
}

#[test]
fn takes_8192_versions(rt: HostRuntime) -> Result<(), Fail> {
    let alloc = rt.alloc();
    let mut disk = with_jobs(&rt, alloc, 8191, true)?;
    print(
        &rt,
        alloc,
        &mut disk,
        &[
            (
                &["update", "PS100001"],
                &[],
                b"added PS100001 8192 files 0 bytes 0\n",
            ),
            (&["update", "PS100001"], &[], b"refused 7 TooManyVersions\n"),
            (&["add", "PS100002"], BAD, b"refused 19 BadPath 0\n"),
            (&["add", "PS100002"], ONE, b"refused 7 TooManyVersions\n"),
        ],
    )
}

#[test]
fn takes_256_jobs(rt: HostRuntime) -> Result<(), Fail> {
    let alloc = rt.alloc();
    let mut disk = with_jobs(&rt, alloc, 256, false)?;
    print(
        &rt,
        alloc,
        &mut disk,
        &[
            (&["update", "PS100001"], BAD, b"refused 19 BadPath 0\n"),
            (&["update", "PS100001"], &[], b"refused 9 TooManyJobs\n"),
            (&["add", "PS100002"], ONE, b"refused 9 TooManyJobs\n"),
            (&["drop", "site", "256"], &[], b"dropped\n"),
            (
                &["update", "PS100001"],
                ONE,
                b"added PS100001 257 files 1 bytes 0\n",
            ),
            (&["drop", "site", "257"], &[], b"refused 4 NoJob\n"),
        ],
    )
}

// A folder of so many empty files, and what is printed where it is added.
fn added(rt: &impl Abort, alloc: Global, count: u32) -> Result<Vec<u8>, Fail> {
    let mut pairs = Vec::new(alloc);
    for number in 0..count {
        let path = format!(in alloc; "f{number:05}")?;
        pairs.push((path.as_bytes().to_vec(alloc)?, Vec::new(alloc)))?;
    }
    let mut folder = MemFolder::new(alloc, pairs, Vec::new(alloc), Vec::new(alloc))?;
    let disk = made(rt, alloc)?;
    let (_, text, _) = ran_over(rt, alloc, &["add", "PS100001"], &mut folder, disk, &[])?;
    Ok(text)
}

#[test]
fn takes_20000_files(rt: HostRuntime) -> Result<(), Fail> {
    let alloc = rt.alloc();
    let text = added(&rt, alloc, 20_000)?;
    assert!(rt; text.as_slice() == b"added PS100001 1 files 20000 bytes 0\n".as_slice());
    let text = added(&rt, alloc, 20_001)?;
    assert!(rt; text.as_slice() == b"refused 21 TooManyFiles\n".as_slice());
    Ok(())
}

// The manifest of 20,000 empty files.
fn most_files(alloc: Global) -> Result<Vec<u8>, Fail> {
    let mut manifest = Vec::new(alloc);
    manifest.extend_from_slice(b"CMDL\x01")?;
    manifest.extend_from_slice(&20_000u32.to_le_bytes())?;
    for number in 0..20_000u32 {
        let path = format!(in alloc; "f{number:05}")?;
        manifest.push(6)?;
        manifest.extend_from_slice(path.as_bytes())?;
        manifest.extend_from_slice(&[0; 4])?;
        manifest.extend_from_slice(&HASH_OF_NOTHING)?;
    }
    Ok(manifest)
}

// Twenty versions of 20,000 files.
#[test]
fn takes_400000_entries(rt: HostRuntime) -> Result<(), Fail> {
    let alloc = rt.alloc();
    let mut disk = made(&rt, alloc)?;
    let manifest = most_files(alloc)?;
    let mut log = vec![in alloc; 1u8, 1, 1, 0, 0, 0, 0, 0, 0, 0]?;
    for at in 0..20u32 {
        let number = at.saturating_add(1);
        let place = format!(in alloc; "DataLib/PS100001.{number}")?;
        lay(&mut disk, place.as_bytes(), Some(&manifest))?;
        push_opened(&mut log, number, 20_000, 860_009, &HASH_OF_MOST_FILES)?;
        push_done(&mut log, number)?;
    }
    log.push(0)?;
    lay(&mut disk, b"PkgLib/log.0", Some(&log))?;
    print(
        &rt,
        alloc,
        &mut disk,
        &[
            (&["add", "PS100002"], ONE, b"refused 8 TooManyEntries\n"),
            (
                &["update", "PS100001"],
                &[],
                b"added PS100001 21 files 0 bytes 0\n",
            ),
        ],
    )
}
