//! The command `drop`.
use crate::fakes::{holds, lay, made, ran, ran_with};
use crate::three::{HELLO, LOG, MANIFEST, THREE};
use std::test::Fail;

// The job that opens version 1 is unfinished. It is dropped; its manifest and its file stay, and its version was opened.
#[test]
fn gives_up_a_job(rt: HostRuntime) -> Result<(), Fail> {
    let alloc = rt.alloc();
    let mut disk = made(&rt, alloc)?;
    let mut log = LOG.to_vec(alloc)?;
    log[76] = 0;
    lay(&mut disk, b"PkgLib/log.0", Some(&log[..77]))?;
    lay(&mut disk, b"DataLib/PS100001.1", Some(&MANIFEST))?;
    lay(&mut disk, HELLO, Some(b"hello"))?;
    for (words, wanted) in [
        (["drop", "dp9", "1"], b"refused 10 NoBay dp9\n".as_slice()),
        (["drop", "site", "2"], b"refused 4 NoJob\n"),
    ] {
        let (status, text, after) = ran(&rt, alloc, &words, disk, &[])?;
        assert!(rt; status == 1 && text.as_slice() == wanted);
        disk = after;
    }
    let (_, text, disk) = ran(&rt, alloc, &["list", "site"], disk, &[])?;
    assert!(rt; text.as_slice() == b"PS100001 1 job 1 3 8\n".as_slice());
    let (status, text, mut disk) = ran(&rt, alloc, &["drop", "SITE", "1"], disk, &[])?;
    assert!(rt; status == 0 && text.as_slice() == b"dropped\n".as_slice());
    log[76] = 1;
    log[81] = 3;
    assert!(rt; holds(&mut disk, b"PkgLib/log.0", &log));
    assert!(rt; holds(&mut disk, b"DataLib/PS100001.1", &MANIFEST));
    assert!(rt; holds(&mut disk, HELLO, b"hello"));
    let (status, text, disk) = ran(&rt, alloc, &["list", "site"], disk, &[])?;
    assert!(rt; status == 0 && text.is_empty());
    let (status, text, disk) = ran(&rt, alloc, &["drop", "site", "1"], disk, &[])?;
    assert!(rt; status == 1 && text.as_slice() == b"refused 4 NoJob\n".as_slice());
    let (_, text, disk) = ran_with(&rt, alloc, &["add", "PS100001"], THREE, disk)?;
    assert!(rt; text.as_slice() == b"refused 2 PackageThere 1\n".as_slice());
    let (_, text, _) = ran_with(&rt, alloc, &["update", "PS100001"], THREE, disk)?;
    assert!(rt; text.as_slice() == b"added PS100001 2 files 3 bytes 8\n".as_slice());
    Ok(())
}

// A job that was finished is none that is unfinished.
#[test]
fn keeps_a_version(rt: HostRuntime) -> Result<(), Fail> {
    let alloc = rt.alloc();
    let disk = made(&rt, alloc)?;
    let (_, _, disk) = ran_with(&rt, alloc, &["add", "PS100001"], THREE, disk)?;
    let (status, text, mut disk) = ran(&rt, alloc, &["drop", "site", "1"], disk, &[])?;
    assert!(rt; status == 1 && text.as_slice() == b"refused 4 NoJob\n".as_slice());
    assert!(rt; holds(&mut disk, b"PkgLib/log.0", &LOG));
    Ok(())
}
