//! What is answered where a bay holds no library.
use crate::fakes::{lay, ran};
use cm_disk::MemDisk;
use std::alloc::Global;
use std::process::Abort;
use std::test::Fail;

const LIVE: &[u8] = &[1, 1, 1, 0, 0, 0, 0, 0, 0, 0, 0];

const IDLE: &[u8] = &[0, 1, 0, 0, 0, 0, 0, 0, 0, 0, 0];

// A disk with these three places, as far as they are there.
fn laid(alloc: Global, files: [Option<&[u8]>; 3]) -> Result<MemDisk, Fail> {
    let mut disk = MemDisk::new(alloc, Vec::new(alloc))?;
    let [ready, first, second] = files;
    lay(&mut disk, b"PkgLib/ready", ready)?;
    lay(&mut disk, b"PkgLib/log.0", first)?;
    lay(&mut disk, b"PkgLib/log.1", second)?;
    Ok(disk)
}

// How `list site` ends over these places.
fn listed(
    rt: &impl Abort,
    alloc: Global,
    files: [Option<&[u8]>; 3],
) -> Result<(u8, Vec<u8>), Fail> {
    let (status, text, _) = ran(rt, alloc, &["list", "site"], laid(alloc, files)?, &[])?;
    Ok((status, text))
}

#[test]
fn names_the_place(rt: HostRuntime) -> Result<(), Fail> {
    let alloc = rt.alloc();
    let ready: Option<&[u8]> = Some(&[]);
    for (first, second, wanted) in [
        (None, Some(IDLE), b"log.0 0\n".as_slice()),
        (Some([].as_slice()), Some(IDLE), b"log.0 0\n"),
        (Some(LIVE), None, b"log.1 0\n"),
        (Some(IDLE), Some(IDLE), b"log.0 0\n"),
        (Some(LIVE), Some(LIVE), b"log.0 0\n"),
        (
            Some(&[1, 2, 1, 0, 0, 0, 0, 0, 0, 0, 0]),
            Some(IDLE),
            b"log.0 1\n",
        ),
        (
            Some(IDLE),
            Some(&[1, 2, 1, 0, 0, 0, 0, 0, 0, 0, 0]),
            b"log.1 1\n",
        ),
        (Some(&LIVE[..10]), Some(IDLE), b"log.0 10\n"),
        (
            Some(&[1, 1, 1, 0, 0, 0, 0, 0, 0, 0, 1, 9, 0]),
            Some(IDLE),
            b"log.0 13\n",
        ),
        (
            Some(&[1, 1, 1, 0, 0, 0, 0, 0, 0, 0, 1, 1, 0, 1, 0]),
            Some(IDLE),
            b"log.0 11\n",
        ),
        (
            Some(&[1, 1, 1, 0, 0, 0, 0, 0, 0, 0, 1, 9, 0, 0, 0, 2]),
            Some(IDLE),
            b"log.0 16\n",
        ),
    ] {
        let (status, text) = listed(&rt, alloc, [ready, first, second])?;
        assert!(rt; status == 7);
        assert!(rt; text.starts_with(b"library site unreadable PkgLib/") && text.ends_with(wanted));
    }
    Ok(())
}

// A record that is off the grammar comes before the end of the log that is cut behind it.
#[test]
fn names_the_first_cause(rt: HostRuntime) -> Result<(), Fail> {
    let alloc = rt.alloc();
    let off = [1, 1, 1, 0, 0, 0, 0, 0, 0, 0, 1, 1, 0, 0, 0, 9, 1, 5];
    let (status, text) = listed(&rt, alloc, [Some(&[]), Some(&off), Some(IDLE)])?;
    assert!(rt; status == 7);
    assert!(rt; text.as_slice() == b"library site unreadable PkgLib/log.0 10\n".as_slice());
    let (status, text) = listed(&rt, alloc, [None, Some(&off), Some(IDLE)])?;
    assert!(rt; status == 7 && text.as_slice() == b"library site missing\n".as_slice());
    Ok(())
}
