//! The command `list`.
use crate::fakes::{lay, ran};
use crate::three::{LOG, MANIFEST};
use cm_base::Place;
use cm_disk::{Disk, MemDisk};
use std::test::Fail;

#[test]
fn lists_nothing(rt: HostRuntime) -> Result<(), Fail> {
    let alloc = rt.alloc();
    let disk = MemDisk::new(alloc, Vec::new(alloc))?;
    let (status, text, disk) = ran(&rt, alloc, &["list", "dp9"], disk, &[])?;
    assert!(rt; status == 7 && text.as_slice() == b"library site missing\n".as_slice());
    let (status, _, disk) = ran(&rt, alloc, &["init"], disk, &[])?;
    assert!(rt; status == 0);
    let (status, text, disk) = ran(&rt, alloc, &["list", "SITE"], disk, &[])?;
    assert!(rt; status == 0 && text.is_empty());
    let (status, text, mut disk) = ran(&rt, alloc, &["list", "dp9"], disk, &[])?;
    assert!(rt; status == 1 && text.as_slice() == b"refused 10 NoBay dp9\n".as_slice());
    let ready = Place::read(b"PkgLib/log.0").ok_or("a place")?;
    disk.remove(&ready)?;
    let (status, text, _) = ran(&rt, alloc, &["list", "site"], disk, &[])?;
    assert!(rt; status == 7);
    assert!(rt; text.as_slice() == b"library site unreadable PkgLib/log.0 0\n".as_slice());
    Ok(())
}

// The log ends behind the record that opens a job.
#[test]
fn lists_a_job(rt: HostRuntime) -> Result<(), Fail> {
    let alloc = rt.alloc();
    let disk = MemDisk::new(alloc, Vec::new(alloc))?;
    let (_, _, mut disk) = ran(&rt, alloc, &["init"], disk, &[])?;
    lay(&mut disk, b"PkgLib/log.0", Some(&LOG))?;
    lay(&mut disk, b"DataLib/PS100001.1", Some(&MANIFEST))?;
    let (status, text, mut disk) = ran(&rt, alloc, &["list", "site"], disk, &[])?;
    assert!(rt; status == 0 && text.as_slice() == b"PS100001 1 done 3 8\n".as_slice());
    let mut opened = LOG[..77].to_vec(alloc)?;
    opened[76] = 0;
    lay(&mut disk, b"PkgLib/log.0", Some(&opened))?;
    let (status, text, mut disk) = ran(&rt, alloc, &["list", "site"], disk, &[])?;
    assert!(rt; status == 0 && text.as_slice() == b"PS100001 1 job 1 3 8\n".as_slice());
    let (status, text, mut disk) = ran(&rt, alloc, &["add", "PS100001"], disk, &[])?;
    assert!(rt; status == 1 && text.as_slice() == b"refused 2 PackageThere 1\n".as_slice());
    disk.remove(&Place::read(b"DataLib/PS100001.1").ok_or("a place")?)?;
    let (status, text, _) = ran(&rt, alloc, &["list", "site"], disk, &[])?;
    assert!(rt; status == 7);
    assert!(rt; text.as_slice() == b"library site unreadable DataLib/PS100001.1 0\n".as_slice());
    Ok(())
}

#[test]
fn reads_its_words(rt: HostRuntime) -> Result<(), Fail> {
    let alloc = rt.alloc();
    for (words, wanted) in [
        (["list"].as_slice(), b"usage 4 MissingWord 1\n".as_slice()),
        (&["list", "a:b"], b"usage 3 BadValue 1\n"),
        (&["list", "site", "x"], b"usage 5 ExtraWord\n"),
        (&["list", "-x", "site"], b"usage 5 ExtraWord\n"),
    ] {
        let disk = MemDisk::new(alloc, Vec::new(alloc))?;
        let (status, text, _) = ran(&rt, alloc, words, disk, &[])?;
        assert!(rt; status == 2 && text.as_slice() == wanted);
    }
    Ok(())
}
