//! A folder that changes between its two readings.
use crate::fakes::{Files, answered, holds, made};
use crate::three::{ABC, HELLO, LOG, MANIFEST, THREE};
use std::test::Fail;

/// A folder, what its files have once they were read, and what is printed.
struct Case {
    files: Files,
    later: Files,
    wanted: &'static [u8],
}

// The file that is first by its hash, in byte order, is told, though another one has changed too; and the first entry of a
// hash is read again, of which more than its size is not read.
const CASES: [Case; 7] = [
    Case {
        files: THREE,
        later: &[(b"readme", b"abc")],
        wanted: b"changed readme 2cf24dba5fb0a30e26e83b2ac5b9e29e1b161e5c1fa7425e73043362938b9824 5 ba7816bf8f01cfea414140de5dae2223b00361a396177a9cb410ff61f20015ad 3\n",
    },
    Case {
        files: THREE,
        later: &[(b"a.txt", b"abd"), (b"readme", b"hellp")],
        wanted: b"changed readme 2cf24dba5fb0a30e26e83b2ac5b9e29e1b161e5c1fa7425e73043362938b9824 5 fdd7585e08c4e2afd71dcabdb4636c89d557a3f42db9e2040c8bbd1708aa4ce7 5\n",
    },
    Case {
        files: THREE,
        later: &[(b"a.txt", b"")],
        wanted: b"changed a.txt ba7816bf8f01cfea414140de5dae2223b00361a396177a9cb410ff61f20015ad 3 e3b0c44298fc1c149afbf4c8996fb92427ae41e4649b934ca495991b7852b855 0\n",
    },
    Case {
        files: THREE,
        later: &[(b"a.txt", b"abcd"), (b"bin/empty", b"x")],
        wanted: b"added PS100001 1 files 3 bytes 8\n",
    },
    Case {
        files: THREE,
        later: &[(b"a.txt", b"abdd")],
        wanted: b"changed a.txt ba7816bf8f01cfea414140de5dae2223b00361a396177a9cb410ff61f20015ad 3 a52d159f262b2c6ddb724a61840befc36eb30c88877a4030b65cbe86298449c9 3\n",
    },
    Case {
        files: &[(b"x", b"abc"), (b"y", b"abc")],
        later: &[(b"y", b"")],
        wanted: b"added PS100001 1 files 2 bytes 6\n",
    },
    Case {
        files: &[(b"x", b"abc"), (b"y", b"abc")],
        later: &[(b"x", b"ab")],
        wanted: b"changed x ba7816bf8f01cfea414140de5dae2223b00361a396177a9cb410ff61f20015ad 3 fb8e20fc2e4c3f248c60c39bd652f3c1347298bb977b8b4d5903b85055620603 2\n",
    },
];

#[test]
fn tells_the_first_change(rt: HostRuntime) -> Result<(), Fail> {
    let alloc = rt.alloc();
    for case in &CASES {
        let mut disk = made(&rt, alloc)?;
        let words = ["add", "PS100001"];
        let (status, text) = answered(&rt, alloc, &words, case.files, case.later, &mut disk)?;
        assert!(rt; text.as_slice() == case.wanted);
        let (_, list) = answered(&rt, alloc, &["list", "site"], &[], &[], &mut disk)?;
        assert!(rt; (status == 0) != list.is_empty());
        assert!(rt; status == 0 || status == 3);
        let (status, text) = answered(&rt, alloc, &words, THREE, &[], &mut disk)?;
        assert!(rt; status == 1 && text.as_slice() == b"refused 2 PackageThere 1\n".as_slice());
    }
    Ok(())
}

// The job that had begun is dropped; a file that was put before stays, and no other does.
#[test]
fn drops_the_job(rt: HostRuntime) -> Result<(), Fail> {
    let alloc = rt.alloc();
    let mut disk = made(&rt, alloc)?;
    let words = ["add", "PS100001"];
    let (status, _) = answered(&rt, alloc, &words, THREE, &[(b"a.txt", b"abd")], &mut disk)?;
    assert!(rt; status == 3);
    let mut log = LOG.to_vec(alloc)?;
    log[81] = 3;
    assert!(rt; holds(&mut disk, b"PkgLib/log.0", &log));
    assert!(rt; holds(&mut disk, b"DataLib/PS100001.1", &MANIFEST));
    assert!(rt; holds(&mut disk, HELLO, b"hello"));
    assert!(rt; !holds(&mut disk, ABC, b"abc"));
    let words = ["update", "PS100001"];
    let (status, text) = answered(&rt, alloc, &words, THREE, &[(b"a.txt", b"abd")], &mut disk)?;
    assert!(rt; status == 3 && text.starts_with(b"changed a.txt "));
    let (status, text) = answered(&rt, alloc, &words, THREE, &[], &mut disk)?;
    assert!(rt; status == 0);
    assert!(rt; text.as_slice() == b"added PS100001 3 files 3 bytes 8\n".as_slice());
    assert!(rt; holds(&mut disk, ABC, b"abc"));
    Ok(())
}

// A file that a version has is not read again.
#[test]
fn reads_no_file_of_a_version_again(rt: HostRuntime) -> Result<(), Fail> {
    let alloc = rt.alloc();
    let mut disk = made(&rt, alloc)?;
    let (_, _) = answered(&rt, alloc, &["add", "PS100001"], THREE, &[], &mut disk)?;
    let later: Files = &[(b"k", b"abd")];
    let words = ["update", "PS100001"];
    let (_, text) = answered(&rt, alloc, &words, &[(b"k", b"abc")], later, &mut disk)?;
    assert!(rt; text.as_slice() == b"added PS100001 2 files 1 bytes 3\n".as_slice());
    assert!(rt; holds(&mut disk, ABC, b"abc"));
    Ok(())
}
