//! The command `update`.
use crate::fakes::{holds, lay, made, ran, ran_with};
use crate::three::{ABC, EMPTY, LOG, MANIFEST, THREE};
use std::test::Fail;

#[test]
fn adds_the_next_version(rt: HostRuntime) -> Result<(), Fail> {
    let alloc = rt.alloc();
    let disk = made(&rt, alloc)?;
    let (_, _, disk) = ran_with(&rt, alloc, &["add", "PS100001"], THREE, disk)?;
    let files: [(&[u8], &[u8]); 1] = [(b"k", b"abcd")];
    let (status, text, mut disk) = ran_with(&rt, alloc, &["update", "PS100001"], &files, disk)?;
    assert!(rt; status == 0);
    assert!(rt; text.as_slice() == b"added PS100001 2 files 1 bytes 4\n".as_slice());
    let abcd = b"FileLib/88d4266fd4e6338d13b845fcf289579d209c897823b9217da3e161936f031589";
    assert!(rt; holds(&mut disk, abcd, b"abcd"));
    assert!(rt; holds(&mut disk, ABC, b"abc"));
    assert!(rt; holds(&mut disk, b"DataLib/PS100001.1", &MANIFEST));
    let (_, text, disk) = ran(&rt, alloc, &["update", "PS100001"], disk, &[])?;
    assert!(rt; text.as_slice() == b"added PS100001 3 files 0 bytes 0\n".as_slice());
    let (_, text, disk) = ran(&rt, alloc, &["add", "PS100001"], disk, &[])?;
    assert!(rt; text.as_slice() == b"refused 2 PackageThere 3\n".as_slice());
    let (_, text, _) = ran(&rt, alloc, &["list", "site"], disk, &[])?;
    assert!(rt;
        text.as_slice()
            == b"PS100001 1 done 3 8\nPS100001 2 done 1 4\nPS100001 3 done 0 0\n".as_slice()
    );
    Ok(())
}

// A package that was never added; then the faults of the folder.
#[test]
fn refuses(rt: HostRuntime) -> Result<(), Fail> {
    let alloc = rt.alloc();
    let bad: [(&[u8], &[u8]); 1] = [(b"a:b", b"")];
    let same: [(&[u8], &[u8]); 2] = [(b"A.txt", b""), (b"a.txt", b"")];
    let disk = made(&rt, alloc)?;
    let (status, text, mut disk) = ran_with(&rt, alloc, &["update", "PS1000FF"], &bad, disk)?;
    assert!(rt; status == 1 && text.as_slice() == b"refused 3 NoPackage\n".as_slice());
    assert!(rt; holds(&mut disk, b"PkgLib/log.0", EMPTY));
    let (_, _, disk) = ran_with(&rt, alloc, &["add", "PS100001"], THREE, disk)?;
    let (status, text, disk) = ran_with(&rt, alloc, &["update", "PS1000FF"], THREE, disk)?;
    assert!(rt; status == 1 && text.as_slice() == b"refused 3 NoPackage\n".as_slice());
    let (status, text, disk) = ran_with(&rt, alloc, &["update", "PS100001"], &bad, disk)?;
    assert!(rt; status == 1 && text.as_slice() == b"refused 19 BadPath 0\n".as_slice());
    let (status, text, mut disk) = ran_with(&rt, alloc, &["update", "PS100001"], &same, disk)?;
    assert!(rt; status == 1 && text.as_slice() == b"refused 20 SamePath 1\n".as_slice());
    assert!(rt; holds(&mut disk, b"PkgLib/log.0", &LOG));
    Ok(())
}

// The job of the greatest version that there may be is unfinished, and is then dropped.
#[test]
fn runs_out_of_versions(rt: HostRuntime) -> Result<(), Fail> {
    let alloc = rt.alloc();
    let bad: [(&[u8], &[u8]); 1] = [(b"a:b", b"")];
    let mut disk = made(&rt, alloc)?;
    let mut log = LOG[..77].to_vec(alloc)?;
    log[32..36].copy_from_slice(&[255; 4]);
    log[76] = 0;
    lay(&mut disk, b"PkgLib/log.0", Some(&log))?;
    lay(&mut disk, b"DataLib/PS100001.4294967295", Some(&MANIFEST))?;
    let (_, text, disk) = ran(&rt, alloc, &["list", "site"], disk, &[])?;
    assert!(rt; text.as_slice() == b"PS100001 4294967295 job 1 3 8\n".as_slice());
    let (status, text, disk) = ran_with(&rt, alloc, &["update", "PS100001"], &bad, disk)?;
    assert!(rt; status == 1 && text.as_slice() == b"refused 28 VersionsSpent\n".as_slice());
    let (_, text, disk) = ran(&rt, alloc, &["drop", "site", "1"], disk, &[])?;
    assert!(rt; text.as_slice() == b"dropped\n".as_slice());
    let (status, text, disk) = ran_with(&rt, alloc, &["update", "PS100001"], THREE, disk)?;
    assert!(rt; status == 1 && text.as_slice() == b"refused 28 VersionsSpent\n".as_slice());
    let (status, text, _) = ran_with(&rt, alloc, &["add", "PS100001"], &bad, disk)?;
    assert!(rt;
        status == 1 && text.as_slice() == b"refused 2 PackageThere 4294967295\n".as_slice()
    );
    Ok(())
}
