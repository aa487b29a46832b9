//! Manifests on a disk in memory: exact answers, what a stop leaves, and the walk.
use cm_base::{Hash, PackageId, Place, Version};
use cm_datalib::{DataFault, erase, load, next, store, sync};
use cm_disk::{Disk, MemDisk};
use cm_tree::{Manifest, TreeFault};
use std::alloc::Global;
use std::test::Fail;

// A manifest of one file `a.txt` of the bytes `abc`; its SHA-256, by another program, and that with its last byte one more.
const ONE: &[u8; 51] =
    b"CMDL\x01\x01\x00\x00\x00\x05a.txt\x03\x00\x00\x00\xba\x78\x16\xbf\x8f\x01\xcf\xea\x41\x41\x40\xde\x5d\xae\x22\x23\xb0\x03\x61\xa3\x96\x17\x7a\x9c\xb4\x10\xff\x61\xf2\x00\x15\xad";

const ONE_HASH: &[u8; 64] = b"0355d2075d4734658c7f37e5e4dcefff4d88efb561ef710568870e238c94073d";

const CHANGED_HASH: &[u8; 64] = b"79d75072175f1ce7b013a76c2a1f5ba6bf95993e3bc1407648beef2b4eac5a25";

const NONE: &[u8; 9] = b"CMDL\x01\x00\x00\x00\x00";

const NONE_HASH: &[u8; 64] = b"1c2ca19220d20e6be0b29783cdd6a6e489179f7260982925515d8eca9d5ea52c";
// Of the form 2.
const BAD: &[u8; 9] = b"CMDL\x02\x00\x00\x00\x00";

const BAD_HASH: &[u8; 64] = b"45674d56e3b1b27411412593daa7233e7214abcc0d478a86ef121e82802981e7";

// One byte more than a manifest has at most: that of no files, and zeros.
const LONG: usize = 5_540_010;

const LONG_HASH: &[u8; 64] = b"6c4f4f300ebcb91a5e2ba066b7eade86ad28ce14939e1319041364c8a4c46c6e";

fn hash_of(text: &[u8; 64]) -> Result<Hash, Fail> {
    match Hash::read(text) {
        Some(hash) => Ok(hash),
        None => Err(Fail::new("no hash")),
    }
}

fn package() -> Result<PackageId, Fail> {
    match PackageId::read(b"PS100001") {
        Some(id) => Ok(id),
        None => Err(Fail::new("no package")),
    }
}

fn version(number: u32) -> Result<Version, Fail> {
    match Version::new(number) {
        Some(version) => Ok(version),
        None => Err(Fail::new("no version")),
    }
}

fn manifest_of(alloc: Global, bytes: &[u8]) -> Result<Manifest, Fail> {
    match Manifest::decode(alloc, bytes) {
        Ok(manifest) => Ok(manifest),
        Err(_) => Err(Fail::new("no manifest")),
    }
}

// How many entries the loaded manifest of version 1 has.
fn count<D: Disk>(
    alloc: Global,
    disk: &mut D,
    id: PackageId,
    size: u32,
    hash: Hash,
) -> Result<usize, DataFault> {
    let Some(first) = Version::new(1) else {
        return Err(DataFault::NotHere);
    };
    match load(alloc, disk, id, first, size, hash) {
        Ok(manifest) => Ok(manifest.entries().len()),
        Err(fault) => Err(fault),
    }
}

fn place(text: &[u8]) -> Result<Place, Fail> {
    match Place::read(text) {
        Some(place) => Ok(place),
        None => Err(Fail::new("no place")),
    }
}

// Puts bytes over the front of the file at a place.
fn write_raw(disk: &mut MemDisk, text: &[u8], bytes: &[u8]) -> Result<(), Fail> {
    let place = place(text)?;
    if bytes.len() > LONG {
        return Err(Fail::new("too long"));
    }
    match disk.write_at(&place, 0, bytes) {
        Ok(()) => Ok(()),
        Err(_) => Err(Fail::new("a fault")),
    }
}

#[test]
fn shorter_over_longer(rt: HostRuntime) -> Result<(), Fail> {
    let alloc = rt.alloc();
    let mut disk = MemDisk::new(alloc, Vec::new(alloc))?;
    let id = package()?;
    let first = version(1)?;
    let one = manifest_of(alloc, ONE)?;
    let none = manifest_of(alloc, NONE)?;
    let one_hash = hash_of(ONE_HASH)?;
    let none_hash = hash_of(NONE_HASH)?;
    assert_eq!(rt;
        count(alloc, &mut disk, id, 51, one_hash),
        Err(DataFault::NotHere)
    );
    assert_eq!(rt; store(&mut disk, id, first, &one), Ok((51, one_hash)));
    assert_eq!(rt; count(alloc, &mut disk, id, 51, one_hash), Ok(1));
    assert_eq!(rt; store(&mut disk, id, first, &none), Ok((9, none_hash)));
    assert_eq!(rt; count(alloc, &mut disk.crash(0)?, id, 9, none_hash), Ok(0));
    assert_eq!(rt; erase(&mut disk, id, first), Ok(()));
    assert_eq!(rt;
        count(alloc, &mut disk.crash(1)?, id, 9, none_hash),
        Err(DataFault::NotHere)
    );
    Ok(())
}

#[test]
fn other_answers(rt: HostRuntime) -> Result<(), Fail> {
    let alloc = rt.alloc();
    let mut disk = MemDisk::new(alloc, Vec::new(alloc))?;
    let id = package()?;
    let named = hash_of(ONE_HASH)?;
    let got = hash_of(CHANGED_HASH)?;
    let mut changed = *ONE;
    changed[50] = 0xae;
    write_raw(&mut disk, b"DataLib/PS100001.1", &changed)?;
    for size in [51, 50] {
        let other = DataFault::OtherBytes {
            named,
            got,
            size,
            found: 51,
        };
        assert_eq!(rt; count(alloc, &mut disk, id, size, named), Err(other));
    }
    let mut disk = MemDisk::new(alloc, Vec::new(alloc))?;
    let bad = DataFault::BadManifest {
        fault: TreeFault::BadForm { at: 4 },
    };
    write_raw(&mut disk, b"DataLib/PS100001.1", BAD)?;
    let stored = place(b"DataLib/PS100001.1")?;
    assert!(rt; sync(&mut disk, id, version(1)?) == Ok(stored));
    assert_eq!(rt;
        count(alloc, &mut disk.crash(0)?, id, 9, hash_of(BAD_HASH)?),
        Err(bad)
    );
    Ok(())
}

// So many bytes that begin as the manifest of no files, with zeros behind it.
fn padded(alloc: Global, len: usize) -> Result<Vec<u8>, Fail> {
    let mut bytes = vec![in alloc; 0u8; len]?;
    if len < 9 {
        return Err(Fail::new("too short"));
    }
    bytes[..9].copy_from_slice(NONE);
    Ok(bytes)
}

#[test]
fn longer_than_a_manifest(rt: HostRuntime) -> Result<(), Fail> {
    let alloc = rt.alloc();
    let mut disk = MemDisk::new(alloc, Vec::new(alloc))?;
    write_raw(&mut disk, b"DataLib/PS100001.1", &padded(alloc, LONG)?)?;
    let bad = DataFault::BadManifest {
        fault: TreeFault::BadForm { at: 9 },
    };
    assert_eq!(rt;
        count(alloc, &mut disk, package()?, 5_540_010, hash_of(LONG_HASH)?),
        Err(bad)
    );
    Ok(())
}

#[test]
fn a_walk(rt: HostRuntime) -> Result<(), Fail> {
    let mut disk = MemDisk::new(rt.alloc(), Vec::new(rt.alloc()))?;
    let id = package()?;
    for text in [
        b"DataLib/PS100001.1".as_slice(),
        b"DataLib/PS100001.01",
        b"DataLib/PS100001.10",
        b"DataLib/PS100001.2",
        b"DataLib/PS100001.4294967295",
        b"DataLib/PS100001.4294967296",
        b"FileLib/PS100001.3",
    ] {
        write_raw(&mut disk, text, NONE)?;
    }
    let mut after = None;
    for number in [1, 10, 2, 4294967295] {
        let then = Some((id, version(number)?));
        assert!(rt; next(&mut disk, after) == Ok(then));
        after = then;
    }
    assert!(rt; next(&mut disk, after) == Ok(None));
    Ok(())
}
