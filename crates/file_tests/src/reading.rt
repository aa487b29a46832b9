//! What a library reads of the files of its versions, and what it tells of manifests.
use cm_base::{Hash, JobId, PackageId, Place, Version};
use cm_disk::{Disk, MemDisk};
use cm_library::tree::Entry;
use cm_library::{LibFault, Library};
use library_cases::calls::{ABC, Answer, Call, EMPTY, HELLO, answered, package};
use library_cases::file_cases::{FINISH_PUT, prepared_case};
use library_cases::libraries::{PREPARED, Rows, has, opened};
use std::alloc::Global;
use std::test::Fail;

const BOTH: Rows = (&[], &[1, 2]);

const OF_ABC: &[u8] = b"FileLib/ba7816bf8f01cfea414140de5dae2223b00361a396177a9cb410ff61f20015ad";

const OF_HELLO: &[u8] = b"FileLib/2cf24dba5fb0a30e26e83b2ac5b9e29e1b161e5c1fa7425e73043362938b9824";

// A library that has version 1 of `ONE`, and job 2 for version 2 of `THREE`, whose files are sealed.
fn with_job(alloc: Global) -> Option<Library<MemDisk>> {
    let disk = MemDisk::new(alloc, Vec::new(alloc)).ok()?;
    let library = prepared_case(alloc, &FINISH_PUT, disk).ok()?;
    has(&library, PREPARED).then_some(library)
}

// The same with that job finished.
fn with_both(alloc: Global) -> Option<Library<MemDisk>> {
    let mut library = with_job(alloc)?;
    let answer = answered(alloc, &mut library, Call::Finish(2))?;
    (answer == Answer::Done && has(&library, BOTH)).then_some(library)
}

// The version of the package with this number, the number of an entry, and an offset.
type At = (u32, u32, u64);

// Whether a buffer is begun with these bytes, which are as many as are told.
fn is_read(library: &mut Library<MemDisk>, at: At, buf: &mut [u8], bytes: &[u8]) -> bool {
    let (version, entry, offset) = at;
    let (Some(package), Some(version)) = (package(), Version::new(version)) else {
        return false;
    };
    match library.read(package, version, entry, offset, buf) {
        Ok(count) => &buf[..count] == bytes,
        Err(_) => false,
    }
}

fn is_sized(library: &mut Library<MemDisk>, version: u32, entry: u32, size: u64) -> bool {
    let (Some(package), Some(version)) = (package(), Version::new(version)) else {
        return false;
    };
    library.file_size(package, version, entry) == Ok(size)
}

// Whether neither the size nor a byte of an entry's file is told, for this cause.
fn is_refused(
    library: &mut Library<MemDisk>,
    package: Option<PackageId>,
    version: u32,
    entry: u32,
    fault: &LibFault,
) -> bool {
    let (Some(package), Some(version)) = (package, Version::new(version)) else {
        return false;
    };
    let mut buf = [0u8; 8];
    let is_read_refused = match library.read(package, version, entry, 0, &mut buf) {
        Ok(_) => false,
        Err(found) => found == *fault,
    };
    let is_size_refused = match library.file_size(package, version, entry) {
        Ok(_) => false,
        Err(found) => found == *fault,
    };
    is_read_refused && is_size_refused
}

/// Where a read begins, and what a buffer of 8 bytes gets.
const READS: &[(At, &[u8])] = &[
    ((1, 0, 0), b"abc"),
    ((1, 0, 1), b"bc"),
    ((1, 0, 2), b"c"),
    ((1, 0, 3), b""),
    ((1, 0, 4), b""),
    ((1, 0, u64::MAX), b""),
    ((2, 0, 1), b"bc"),
    ((2, 1, 0), b""),
    ((2, 1, 1), b""),
    ((2, 2, 0), b"hello"),
    ((2, 2, 3), b"lo"),
    ((2, 2, 5), b""),
];

#[test]
fn reads_from_an_offset_on(rt: HostRuntime) -> Result<(), Fail> {
    let mut library = with_both(rt.alloc()).ok_or("a library")?;
    for (at, bytes) in READS {
        let mut buf = [0u8; 8];
        assert!(rt; is_read(&mut library, *at, &mut buf, bytes));
    }
    let mut buf = [0u8; 2];
    assert!(rt; is_read(&mut library, (2, 2, 1), &mut buf, b"el"));
    assert!(rt; is_read(&mut library, (2, 2, 4), &mut buf, b"o"));
    let mut buf = [0u8; 0];
    assert!(rt; is_read(&mut library, (2, 2, 1), &mut buf, b""));
    Ok(())
}

#[test]
fn tells_sizes(rt: HostRuntime) -> Result<(), Fail> {
    let mut library = with_both(rt.alloc()).ok_or("a library")?;
    assert!(rt; is_sized(&mut library, 1, 0, 3));
    assert!(rt; is_sized(&mut library, 2, 0, 3));
    assert!(rt; is_sized(&mut library, 2, 1, 0));
    assert!(rt; is_sized(&mut library, 2, 2, 5));
    Ok(())
}

// The files of a job's manifest are not read, nor those of a version that was removed, though they are there.
#[test]
fn reads_no_others(rt: HostRuntime) -> Result<(), Fail> {
    let mut library = with_job(rt.alloc()).ok_or("a library")?;
    let other = PackageId::read(b"PS100002");
    let no_entry = LibFault::NoEntry { entry: 1 };
    assert!(rt; is_refused(&mut library, package(), 1, 1, &no_entry));
    let last = LibFault::NoEntry { entry: u32::MAX };
    assert!(rt; is_refused(&mut library, package(), 1, u32::MAX, &last));
    let no_version = LibFault::NoVersion;
    assert!(rt; is_refused(&mut library, package(), 2, 0, &no_version));
    assert!(rt; is_refused(&mut library, package(), 3, 9, &no_version));
    assert!(rt; is_refused(&mut library, other, 1, 0, &no_version));
    let answer = answered(rt.alloc(), &mut library, Call::Remove(1));
    assert!(rt; answer == Some(Answer::Done));
    assert!(rt; is_refused(&mut library, package(), 1, 0, &no_version));
    Ok(())
}

// The place of a file gets these bytes, or none, while the library is closed.
fn changed(
    alloc: Global,
    library: Library<MemDisk>,
    place: &[u8],
    bytes: Option<&[u8]>,
) -> Option<Library<MemDisk>> {
    let mut disk = library.close();
    let place = Place::read(place)?;
    disk.remove(&place).ok()?;
    if let Some(bytes) = bytes {
        if bytes.len() > 8 {
            return None;
        }
        disk.write_at(&place, 0, bytes).ok()?;
    }
    opened(alloc, disk)
}

// What is at the place of a hash is told as it is: nothing, or other bytes.
#[test]
fn tells_what_is_there(rt: HostRuntime) -> Result<(), Fail> {
    let library = with_both(rt.alloc()).ok_or("a library")?;
    let mut library = changed(rt.alloc(), library, OF_ABC, None).ok_or("a library")?;
    let gone = LibFault::Gone { hash: ABC };
    assert!(rt; is_refused(&mut library, package(), 1, 0, &gone));
    assert!(rt; is_refused(&mut library, package(), 2, 0, &gone));
    let no_entry = LibFault::NoEntry { entry: 1 };
    assert!(rt; is_refused(&mut library, package(), 1, 1, &no_entry));
    let mut buf = [0u8; 8];
    assert!(rt; is_read(&mut library, (2, 2, 0), &mut buf, b"hello"));
    let library = changed(rt.alloc(), library, OF_HELLO, Some(b"help")).ok_or("a library")?;
    let mut library = changed(rt.alloc(), library, OF_ABC, Some(b"abc")).ok_or("a library")?;
    assert!(rt; is_sized(&mut library, 2, 2, 4));
    assert!(rt; is_read(&mut library, (2, 2, 0), &mut buf, b"help"));
    assert!(rt; is_read(&mut library, (1, 0, 0), &mut buf, b"abc"));
    Ok(())
}

/// The entries of `ONE` and of `THREE`: each a path, a size and a hash.
const OF_ONE: &[(&[u8], u32, Hash)] = &[(b"k", 3, ABC)];

const OF_THREE: &[(&[u8], u32, Hash)] = &[(b"k", 3, ABC), (b"l", 0, EMPTY), (b"m", 5, HELLO)];

fn are_entries(found: Option<&[Entry]>, wanted: &[(&[u8], u32, Hash)]) -> bool {
    let Some(found) = found else {
        return false;
    };
    found.len() == wanted.len()
        && found.iter().zip(wanted).all(|(entry, (path, size, hash))| {
            entry.path.as_bytes() == *path && entry.size == *size && entry.hash == *hash
        })
}

fn manifest(library: &Library<MemDisk>, version: u32) -> Option<&[Entry]> {
    library.manifest(package()?, Version::new(version)?)
}

fn job_manifest(library: &Library<MemDisk>, job: u64) -> Option<&[Entry]> {
    library.job_manifest(JobId::new(job)?)
}

#[test]
fn tells_manifests(rt: HostRuntime) -> Result<(), Fail> {
    let mut library = with_job(rt.alloc()).ok_or("a library")?;
    assert!(rt; are_entries(manifest(&library, 1), OF_ONE));
    assert!(rt; manifest(&library, 2).is_none() && manifest(&library, 3).is_none());
    assert!(rt; are_entries(job_manifest(&library, 2), OF_THREE));
    assert!(rt; job_manifest(&library, 1).is_none() && job_manifest(&library, 3).is_none());
    let answer = answered(rt.alloc(), &mut library, Call::Finish(2));
    assert!(rt; answer == Some(Answer::Done));
    assert!(rt; are_entries(manifest(&library, 2), OF_THREE));
    assert!(rt; job_manifest(&library, 2).is_none());
    let answer = answered(rt.alloc(), &mut library, Call::Remove(1));
    assert!(rt; answer == Some(Answer::Done));
    assert!(rt; manifest(&library, 1).is_none());
    let other = PackageId::read(b"PS100002").ok_or("a package")?;
    let second = Version::new(2).ok_or("a version")?;
    assert!(rt; library.manifest(other, second).is_none());
    Ok(())
}
