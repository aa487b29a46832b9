//! The command `add`.
use crate::fakes::{folder_of, holds, made, ran, ran_over, ran_with};
use crate::three::{ABC, EMPTY, HELLO, LOG, MANIFEST, NOTHING, THREE};
use cm_base::Place;
use cm_disk::{Disk, MemDisk};
use std::test::Fail;

#[test]
fn adds_three_files(rt: HostRuntime) -> Result<(), Fail> {
    let alloc = rt.alloc();
    let disk = made(&rt, alloc)?;
    let (status, text, mut disk) = ran_with(&rt, alloc, &["add", "PS100001"], THREE, disk)?;
    assert!(rt; status == 0);
    assert!(rt; text.as_slice() == b"added PS100001 1 files 3 bytes 8\n".as_slice());
    assert!(rt; holds(&mut disk, b"PkgLib/log.0", &LOG));
    assert!(rt; holds(&mut disk, b"DataLib/PS100001.1", &MANIFEST));
    assert!(rt; holds(&mut disk, ABC, b"abc"));
    assert!(rt; holds(&mut disk, NOTHING, b""));
    assert!(rt; holds(&mut disk, HELLO, b"hello"));
    let (status, text, disk) = ran(&rt, alloc, &["list", "site"], disk, &[])?;
    assert!(rt; status == 0 && text.as_slice() == b"PS100001 1 done 3 8\n".as_slice());
    let (status, text, mut disk) = ran_with(&rt, alloc, &["add", "PS100001"], THREE, disk)?;
    assert!(rt; status == 1 && text.as_slice() == b"refused 2 PackageThere 1\n".as_slice());
    assert!(rt; holds(&mut disk, b"PkgLib/log.0", &LOG));
    Ok(())
}

// A folder without files, and two paths of one file that is a version's already: its place is neither read nor written.
#[test]
fn adds_more(rt: HostRuntime) -> Result<(), Fail> {
    let alloc = rt.alloc();
    let disk = made(&rt, alloc)?;
    let (status, text, mut disk) = ran(&rt, alloc, &["add", "PS100002"], disk, &[])?;
    assert!(rt; status == 0);
    assert!(rt; text.as_slice() == b"added PS100002 1 files 0 bytes 0\n".as_slice());
    assert!(rt; holds(&mut disk, b"DataLib/PS100002.1", b"CMDL\x01\0\0\0\0"));
    let (_, _, mut disk) = ran_with(&rt, alloc, &["add", "PS100001"], THREE, disk)?;
    let place = Place::read(ABC).ok_or("a place")?;
    disk.remove(&place)?;
    let files: [(&[u8], &[u8]); 2] = [(b"k", b"abc"), (b"l", b"abc")];
    let (status, text, mut disk) = ran_with(&rt, alloc, &["add", "PS000003"], &files, disk)?;
    assert!(rt; status == 0);
    assert!(rt; text.as_slice() == b"added PS000003 1 files 2 bytes 6\n".as_slice());
    assert!(rt; disk.size(&place) == Ok(None));
    let (_, text, _) = ran(&rt, alloc, &["list", "site"], disk, &[])?;
    assert!(rt;
        text.as_slice()
            == b"PS000003 1 done 2 6\nPS100001 1 done 3 8\nPS100002 1 done 0 0\n".as_slice()
    );
    Ok(())
}

// Two paths of one file, which no version has: its bytes stand at one place.
#[test]
fn keeps_a_shared_file_once(rt: HostRuntime) -> Result<(), Fail> {
    let alloc = rt.alloc();
    let disk = made(&rt, alloc)?;
    let files: [(&[u8], &[u8]); 2] = [(b"x", b"abc"), (b"y", b"abc")];
    let (status, text, mut disk) = ran_with(&rt, alloc, &["add", "PS100004"], &files, disk)?;
    assert!(rt; status == 0);
    assert!(rt; text.as_slice() == b"added PS100004 1 files 2 bytes 6\n".as_slice());
    assert!(rt; holds(&mut disk, ABC, b"abc"));
    let manifest = Place::read(b"DataLib/PS100004.1").ok_or("a place")?;
    let file = Place::read(ABC).ok_or("a place")?;
    let log = Place::read(b"PkgLib/log.0").ok_or("a place")?;
    assert!(rt; disk.next_place(None) == Ok(Some(manifest)));
    assert!(rt; disk.next_place(Some(&manifest)) == Ok(Some(file)));
    assert!(rt; disk.next_place(Some(&file)) == Ok(Some(log)));
    Ok(())
}

// Files of no piece, of one whole piece, and of one byte more.
#[test]
fn puts_pieces(rt: HostRuntime) -> Result<(), Fail> {
    let alloc = rt.alloc();
    let sevens = vec![in alloc; 7u8; 65_537]?;
    let files: [(&[u8], &[u8]); 3] = [(b"a", b""), (b"b", &sevens[1..]), (b"c", &sevens)];
    let disk = made(&rt, alloc)?;
    let (status, text, mut disk) = ran_with(&rt, alloc, &["add", "PS100001"], &files, disk)?;
    assert!(rt; status == 0);
    assert!(rt; text.as_slice() == b"added PS100001 1 files 3 bytes 131073\n".as_slice());
    for (place, size) in [
        (NOTHING, 0),
        (
            b"FileLib/07dcb6d11a03624831513672ffdb84d6b1730f54e90aaace444fe3a8ea9b2163",
            65_536,
        ),
        (
            b"FileLib/5ada55500fc283f478a1303fb529ad69626d1ce9209ebc5878f9a45de61e635e",
            65_537,
        ),
    ] {
        let place = Place::read(place).ok_or("a place")?;
        assert!(rt; disk.size(&place) == Ok(Some(size)));
    }
    Ok(())
}

// The first cause is told: that the package is there before the folder's faults, and these path by path.
#[test]
fn refuses_folders(rt: HostRuntime) -> Result<(), Fail> {
    let alloc = rt.alloc();
    for (files, wanted) in [
        (
            [(b"a:b".as_slice(), b"".as_slice())].as_slice(),
            b"refused 19 BadPath 0\n".as_slice(),
        ),
        (
            &[(b"A.txt", b""), (b"a.txt", b"")],
            b"refused 20 SamePath 1\n",
        ),
        (
            &[(b"A", b""), (b"a", b""), (b"a:b", b"")],
            b"refused 20 SamePath 1\n",
        ),
        (
            &[(b"A", b""), (b"Z:", b""), (b"a", b"")],
            b"refused 19 BadPath 1\n",
        ),
    ] {
        let disk = made(&rt, alloc)?;
        let (status, text, mut disk) = ran_with(&rt, alloc, &["add", "PS100001"], files, disk)?;
        assert!(rt; status == 1 && text.as_slice() == wanted);
        assert!(rt; holds(&mut disk, b"PkgLib/log.0", EMPTY));
        let (_, _, disk) = ran(&rt, alloc, &["add", "PS100001"], disk, &[])?;
        let (status, text, _) = ran_with(&rt, alloc, &["add", "PS100001"], files, disk)?;
        assert!(rt; status == 1 && text.as_slice() == b"refused 2 PackageThere 1\n".as_slice());
    }
    Ok(())
}

// Without a library.
#[test]
fn wants_a_library(rt: HostRuntime) -> Result<(), Fail> {
    let alloc = rt.alloc();
    for words in [
        ["add", "PS100001"].as_slice(),
        &["update", "PS100001"],
        &["drop", "site", "1"],
        &["drop", "dp9", "1"],
    ] {
        let disk = MemDisk::new(alloc, Vec::new(alloc))?;
        let (status, text, mut disk) = ran_with(&rt, alloc, words, THREE, disk)?;
        assert!(rt; status == 7 && text.as_slice() == b"library site missing\n".as_slice());
        assert!(rt; disk.next_place(None) == Ok(None));
    }
    Ok(())
}

// The sink fails: the version is there.
#[test]
fn prints_a_front(rt: HostRuntime) -> Result<(), Fail> {
    let alloc = rt.alloc();
    let mut folder = folder_of(alloc, &[(b"k", b"abc")], &[])?;
    let disk = made(&rt, alloc)?;
    let (status, text, disk) = ran_over(&rt, alloc, &["add", "PS100001"], &mut folder, disk, &[2])?;
    assert!(rt; status == 4 && text.as_slice() == b"added ".as_slice());
    let (_, text, _) = ran(&rt, alloc, &["list", "site"], disk, &[])?;
    assert!(rt; text.as_slice() == b"PS100001 1 done 1 3\n".as_slice());
    Ok(())
}
