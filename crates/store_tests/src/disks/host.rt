//! The files below a real folder.
use crate::disks::{place_of, put, reads, trim, try_each_call, try_walk};
use cm_disk::{Disk, HostDisk};
use std::fs;
use std::process::Abort;
use std::test::Fail;

// More files than are kept open take turns.
fn try_turns<D: Disk>(rt: &impl Abort, disk: &mut D) -> Result<(), Fail> {
    for turn in 0..2 {
        for n in 0..10u8 {
            put(disk, &place_of(&[b'0' + n])?, turn, &[n])?;
        }
    }
    for n in 0..10u8 {
        let place = place_of(&[b'0' + n])?;
        assert!(rt; reads(disk, &place, Some(&[n, n])));
        disk.sync(&place)?;
        disk.remove(&place)?;
        assert!(rt; reads(disk, &place, None));
    }
    Ok(())
}

#[test]
fn each_call(rt: HostRuntime) -> Result<(), Fail> {
    let base = "cm_disk_test";
    let _old = fs::remove_dir_all(&rt, base);
    let mut disk = HostDisk::new(rt.clone()?, "cm_disk_test/base/site")?;
    try_each_call(&rt, &mut disk)?;
    try_turns(&rt, &mut disk)?;
    // What it wrote stands in the real files.
    let bytes = fs::read(&rt, "cm_disk_test/base/site/FileLib/a")?;
    assert!(rt; bytes.as_slice() == b"again".as_slice());
    assert!(rt; fs::metadata(&rt, "cm_disk_test/base/site/b")?.len() == 0);
    fs::remove_dir_all(&rt, base)?;
    Ok(())
}

// A disk finds what stands there, in byte order, and passes over what is no place.
#[test]
fn files_of_before(rt: HostRuntime) -> Result<(), Fail> {
    let base = "cm_disk_before_test";
    let _old = fs::remove_dir_all(&rt, base);
    fs::create_dir_all(&rt, "cm_disk_before_test/c/d/e")?;
    fs::write(&rt, "cm_disk_before_test/c/d/e/f", "deep")?;
    fs::create_dir(&rt, "cm_disk_before_test/a")?;
    fs::write(&rt, "cm_disk_before_test/a/b", "x")?;
    fs::write(&rt, "cm_disk_before_test/a-", "x")?;
    let mut path = String::from_str(rt.alloc(), "cm_disk_before_test/")?;
    path.push_str(std::str::from_utf8(&[b'n'; 121])?)?;
    fs::write(&rt, path.as_str(), "too long a name")?;
    let mut disk = HostDisk::new(rt.clone()?, "cm_disk_before_test/")?;
    try_walk(&rt, &mut disk, &[b"a-", b"a/b", b"c/d/e/f"])?;
    let deep = place_of(b"c/d/e/f")?;
    assert!(rt; reads(&mut disk, &deep, Some(b"deep")));
    disk.sync(&deep)?;
    disk.sync(&place_of(b"none/there")?)?;
    assert_eq!(rt; disk.faults(), 0);
    fs::remove_dir_all(&rt, base)?;
    Ok(())
}

// Each call with this place is a fault.
fn try_bad<D: Disk>(rt: &impl Abort, disk: &mut D, name: &[u8]) -> Result<(), Fail> {
    let place = place_of(name)?;
    let before = disk.faults();
    let mut two = [0u8; 2];
    assert!(rt; disk.size(&place).is_err());
    assert!(rt; disk.read_at(&place, 0, &mut two).is_err());
    assert!(rt; disk.write_at(&place, 0, b"x").is_err());
    assert!(rt; disk.remove(&place).is_err());
    assert!(rt; disk.sync(&place).is_err());
    assert!(rt; disk.faults() == before.saturating_add(5));
    Ok(())
}

#[test]
fn bad_places(rt: HostRuntime) -> Result<(), Fail> {
    let base = "cm_disk_bad_test";
    let _old = fs::remove_dir_all(&rt, base);
    let mut disk = HostDisk::new(rt.clone()?, "cm_disk_bad_test/site")?;
    put(&mut disk, &place_of(b"file")?, 0, b"x")?;
    put(&mut disk, &place_of(b"folder/x")?, 0, b"x")?;
    for name in [
        b"/file".as_slice(),
        b"..",
        b".",
        b"../file",
        b"a/../../file",
        b"a/./file",
        b"a//file",
        b"a/",
        b"\xffx",
        b"a\0b",
        b"file/below",
        b"folder",
    ] {
        try_bad(&rt, &mut disk, name)?;
    }
    // Nothing was made beside the folder.
    let mut entries = fs::read_dir(&rt, base)?;
    assert!(rt; entries.next().is_some());
    assert!(rt; entries.next().is_none());
    fs::remove_dir_all(&rt, base)?;
    Ok(())
}

#[test]
fn bad_sizes(rt: HostRuntime) -> Result<(), Fail> {
    let base = "cm_disk_sizes_test";
    let _old = fs::remove_dir_all(&rt, base);
    let mut disk = HostDisk::new(rt.clone()?, base)?;
    let file = place_of(b"file")?;
    let absent = place_of(b"absent")?;
    assert!(rt; trim(&mut disk, &absent, 0).is_err());
    assert!(rt; disk.cut(&absent, 0).is_err());
    put(&mut disk, &file, 0, b"x")?;
    assert!(rt; disk.cut(&file, 2).is_err());
    assert!(rt; reads(&mut disk, &file, Some(b"x")));
    assert_eq!(rt; disk.faults(), 2);
    // A file that is too long.
    fs::File::create(&rt, "cm_disk_sizes_test/long")?.set_len((1 << 40) + 131_073)?;
    let long = place_of(b"long")?;
    assert!(rt; disk.size(&long).is_err());
    assert!(rt; disk.read_at(&long, 1 << 41, &mut [0u8; 2]).is_err());
    fs::remove_dir_all(&rt, base)?;
    Ok(())
}
