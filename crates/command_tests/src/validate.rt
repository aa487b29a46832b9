//! The command `validate`.
use crate::fakes::{answered, lay, made};
use crate::three::{ABC, HELLO, LOG, MANIFEST, NOTHING};
use cm_disk::MemDisk;
use std::alloc::Global;
use std::process::Abort;
use std::test::Fail;

/// What stands at the places of `abc`, of no bytes and of `hello`, and the text of `validate`.
type Row = (
    Option<&'static [u8]>,
    Option<&'static [u8]>,
    Option<&'static [u8]>,
    &'static [u8],
);

const ROWS: [Row; 7] = [
    (Some(b"abc"), Some(b""), Some(b"hello"), b"valid 3\n"),
    (
        Some(b"abc"),
        Some(b""),
        Some(b"abc"),
        b"differs readme 2cf24dba5fb0a30e26e83b2ac5b9e29e1b161e5c1fa7425e73043362938b9824 ba7816bf8f01cfea414140de5dae2223b00361a396177a9cb410ff61f20015ad\n",
    ),
    (
        Some(b"abc"),
        Some(b""),
        Some(b"hellx"),
        b"differs readme 2cf24dba5fb0a30e26e83b2ac5b9e29e1b161e5c1fa7425e73043362938b9824 0b6179b38a9702b3e6b715188031623d09cdc4d173c6acfee273210ea281e1a8\n",
    ),
    (
        Some(b"abc"),
        Some(b""),
        Some(b"hello!"),
        b"differs readme 2cf24dba5fb0a30e26e83b2ac5b9e29e1b161e5c1fa7425e73043362938b9824 ce06092fb948d9ffac7d1a376e404b26b7575bcc11ee05a4615fef4fec3a308b\n",
    ),
    (Some(b"abc"), Some(b""), None, b"missing readme\n"),
    (
        None,
        None,
        Some(b"hello"),
        b"missing a.txt\nmissing bin/empty\n",
    ),
    (
        None,
        Some(b""),
        Some(b""),
        b"missing a.txt\ndiffers readme 2cf24dba5fb0a30e26e83b2ac5b9e29e1b161e5c1fa7425e73043362938b9824 e3b0c44298fc1c149afbf4c8996fb92427ae41e4649b934ca495991b7852b855\n",
    ),
];

fn with_version(rt: &impl Abort, alloc: Global) -> Result<MemDisk, Fail> {
    let mut disk = made(rt, alloc)?;
    lay(&mut disk, b"PkgLib/log.0", Some(&LOG))?;
    lay(&mut disk, b"DataLib/PS100001.1", Some(&MANIFEST))?;
    Ok(disk)
}

// A damaged file doesn't keep the library from being opened.
#[test]
fn tells_what_is_amiss(rt: HostRuntime) -> Result<(), Fail> {
    let alloc = rt.alloc();
    let mut disk = with_version(&rt, alloc)?;
    for (abc, nothing, hello, wanted) in ROWS {
        lay(&mut disk, ABC, abc)?;
        lay(&mut disk, NOTHING, nothing)?;
        lay(&mut disk, HELLO, hello)?;
        let words = ["validate", "site", "PS100001", "1"];
        let (status, text) = answered(&rt, alloc, &words, &[], &[], &mut disk)?;
        assert!(rt; status == 0 && text.as_slice() == wanted);
    }
    Ok(())
}

const REFUSED: [([&str; 4], &[u8]); 4] = [
    (
        ["validate", "dp9", "PS100009", "1"],
        b"refused 10 NoBay dp9\n",
    ),
    (
        ["validate", "site", "PS100009", "1"],
        b"refused 1 NoVersion\n",
    ),
    (
        ["validate", "site", "PS100001", "2"],
        b"refused 1 NoVersion\n",
    ),
    (
        ["validate", "site", "PS100002", "1"],
        b"refused 1 NoVersion\n",
    ),
];

#[test]
fn refuses_what_is_not_there(rt: HostRuntime) -> Result<(), Fail> {
    let alloc = rt.alloc();
    let mut disk = with_version(&rt, alloc)?;
    for (words, wanted) in REFUSED {
        let (status, text) = answered(&rt, alloc, &words, &[], &[], &mut disk)?;
        assert!(rt; status == 1 && text.as_slice() == wanted);
    }
    Ok(())
}
