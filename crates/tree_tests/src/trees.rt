//! Manifests and folders by values from outside.
use cm_base::Hash;
use cm_tree::{
    FilePath, Folder, HostFolder, Manifest, MemFolder, ScanFault, TreeFault, scan, scan_within,
};
use std::test::Fail;

const EMPTY: &[u8] = b"e3b0c44298fc1c149afbf4c8996fb92427ae41e4649b934ca495991b7852b855";

const ABC: &[u8] = b"ba7816bf8f01cfea414140de5dae2223b00361a396177a9cb410ff61f20015ad";

const HELLO: &[u8] = b"2cf24dba5fb0a30e26e83b2ac5b9e29e1b161e5c1fa7425e73043362938b9824";

type Pairs = Vec<(Vec<u8>, Vec<u8>)>;

fn pairs(rt: &HostRuntime, files: &[(&[u8], &[u8])]) -> Result<Pairs, Fail> {
    let mut pairs = Vec::new(rt.alloc());
    for (path, bytes) in files {
        let path = Vec::from_slice(rt.alloc(), path)?;
        let bytes = Vec::from_slice(rt.alloc(), bytes)?;
        pairs.push((path, bytes))?;
    }
    Ok(pairs)
}

fn folder_of(
    rt: &HostRuntime,
    files: &[(&[u8], &[u8])],
    later: &[(&[u8], &[u8])],
    fail: &[u64],
) -> Result<MemFolder, Fail> {
    let files = pairs(rt, files)?;
    let later = pairs(rt, later)?;
    let fail = Vec::from_slice(rt.alloc(), fail)?;
    Ok(
        MemFolder::new(rt.alloc(), files, later, fail)
            .ok()
            .ok_or("no memory")?,
    )
}

// a.txt, bin/empty and readme, handed in in another order
fn three(rt: &HostRuntime, fail: &[u64]) -> Result<MemFolder, Fail> {
    let files: [(&[u8], &[u8]); 3] = [
        (b"readme", b"hello"),
        (b"a.txt", b"abc"),
        (b"bin/empty", b""),
    ];
    folder_of(rt, &files, &[], fail)
}

fn put_row(out: &mut Vec<u8>, path: &[u8], size: &[u8; 4], hash: &[u8]) -> Result<(), Fail> {
    if path.len() > 240 {
        return Ok(());
    }
    out.push(path.len() as u8)?;
    out.extend_from_slice(path)?;
    out.extend_from_slice(size)?;
    let hash = Hash::read(hash).ok_or("no hash")?;
    out.extend_from_slice(&hash.0)?;
    Ok(())
}

// The 140 bytes that spell the manifest of the three files.
fn bytes_of_three(rt: &HostRuntime) -> Result<Vec<u8>, Fail> {
    let mut out = Vec::new(rt.alloc());
    out.extend_from_slice(b"CMDL\x01\x03\x00\x00\x00")?;
    put_row(&mut out, b"a.txt", &[3, 0, 0, 0], ABC)?;
    put_row(&mut out, b"bin/empty", &[0, 0, 0, 0], EMPTY)?;
    put_row(&mut out, b"readme", &[5, 0, 0, 0], HELLO)?;
    Ok(out)
}

// The spelling of a manifest, which is as long as the manifest says.
fn spelled(rt: &HostRuntime, manifest: &Manifest) -> Result<Vec<u8>, Fail> {
    let bytes = manifest.encode(rt.alloc()).ok().ok_or("no memory")?;
    if bytes.len() as u64 != manifest.encoded_len() as u64 {
        return Err(Fail::new("another length"));
    }
    Ok(bytes)
}

// The spelling of what a folder scans as.
fn scanned(rt: &HostRuntime, folder: &mut impl Folder) -> Result<Vec<u8>, Fail> {
    match scan(rt.alloc(), folder) {
        Ok(manifest) => spelled(rt, &manifest),
        Err(_) => Err(Fail::new("no manifest")),
    }
}

// The spelling of a copy of the manifest that these bytes spell.
fn read_and_copied(rt: &HostRuntime, bytes: &[u8]) -> Result<Vec<u8>, Fail> {
    let manifest = Manifest::decode(rt.alloc(), bytes).ok().ok_or("not read")?;
    let copy = manifest.copy(rt.alloc()).ok().ok_or("no memory")?;
    spelled(rt, &copy)
}

// The spelling of the manifest of three files within the least limits that they fit in.
fn scanned_within(rt: &HostRuntime) -> Result<Vec<u8>, Fail> {
    match scan_within(rt.alloc(), &mut three(rt, &[])?, 3, 5) {
        Ok(manifest) => spelled(rt, &manifest),
        Err(_) => Err(Fail::new("no manifest")),
    }
}

#[test]
fn three_files(rt: HostRuntime) -> Result<(), Fail> {
    let bytes = bytes_of_three(&rt)?;
    assert_eq!(rt; bytes.len(), 140);
    assert!(rt; scanned(&rt, &mut three(&rt, &[])?)? == bytes);
    assert!(rt; read_and_copied(&rt, &bytes)? == bytes);
    assert!(rt; scanned_within(&rt)? == bytes);
    Ok(())
}

fn fault_of(rt: &HostRuntime, bytes: &[u8]) -> Option<TreeFault> {
    Manifest::decode(rt.alloc(), bytes).err()
}

// The fault of two rows of these paths.
fn two(rt: &HostRuntime, first: &[u8], second: &[u8]) -> Result<Option<TreeFault>, Fail> {
    let mut out = Vec::new(rt.alloc());
    out.extend_from_slice(b"CMDL\x01\x02\x00\x00\x00")?;
    put_row(&mut out, first, &[3, 0, 0, 0], ABC)?;
    put_row(&mut out, second, &[0, 0, 0, 1], EMPTY)?;
    Ok(fault_of(rt, &out))
}

#[test]
fn faults_of_manifests(rt: HostRuntime) -> Result<(), Fail> {
    let headers: [(&[u8], Option<TreeFault>); 8] = [
        (b"CMDL\x01\x00\x00\x00\x00", None),
        (b"CMDL\x01\x00\x00\x00", Some(TreeFault::BadForm { at: 8 })),
        (
            b"CMDL\x01\x00\x00\x00\x00\x00",
            Some(TreeFault::BadForm { at: 9 }),
        ),
        (b"CMDL\x01\x21\x4e\x00\x00", Some(TreeFault::TooManyFiles)),
        (
            b"CMDL\x01\x20\x4e\x00\x00",
            Some(TreeFault::BadForm { at: 9 }),
        ),
        (b"CM", Some(TreeFault::BadForm { at: 2 })),
        (b"CMDX\x01", Some(TreeFault::BadForm { at: 0 })),
        (b"CMDL\x02", Some(TreeFault::BadForm { at: 4 })),
    ];
    for (bytes, fault) in headers.iter() {
        assert!(rt; fault_of(&rt, *bytes) == *fault);
    }
    let entries: [(&[u8], &[u8], Option<TreeFault>); 7] = [
        (b"a", b"b", None),
        (b"a", b"b:c", Some(TreeFault::BadPath { entry: 1 })),
        (b"../a", b"a", Some(TreeFault::BadPath { entry: 0 })),
        (b"b", b"a", Some(TreeFault::Unsorted { entry: 1 })),
        (b"a", b"a", Some(TreeFault::Unsorted { entry: 1 })),
        (b"A.txt", b"a.txt", Some(TreeFault::SamePath { entry: 1 })),
        (b"a", b"", Some(TreeFault::BadForm { at: 47 })),
    ];
    for (first, second, fault) in entries.iter() {
        assert!(rt; two(&rt, *first, *second)? == *fault);
    }
    Ok(())
}

#[test]
fn forms_of_paths(rt: HostRuntime) {
    let rows: [(&[u8], bool); 11] = [
        (b"a/b.c/...", true),
        (b"", false),
        (b"/a", false),
        (b"a//b", false),
        (b"a/", false),
        (b"a/./b", false),
        (b"..", false),
        (b"a\\b", false),
        (b"a\x7f", false),
        (&[b'a'; 240], true),
        (&[b'a'; 241], false),
    ];
    for (text, is_path) in rows.iter() {
        assert!(rt; FilePath::read(*text).is_some() == *is_path);
    }
}

// Files that are scanned within these limits, or those of the product where there are none; how many calls of the folder their answer comes
// after, and that answer, where no call fails. A call more fails after it; each call up to there gives a fault of the folder.
type Walk<'a> = (
    &'a [(&'a [u8], &'a [u8])],
    Option<(u32, u32)>,
    u64,
    Option<ScanFault>,
);

fn fault_at(rt: &HostRuntime, walk: &Walk, call: u64) -> Result<Option<ScanFault>, Fail> {
    let (files, limits, _, _) = *walk;
    let mut folder = folder_of(rt, files, &[], &[call])?;
    Ok(match limits {
        None => scan(rt.alloc(), &mut folder).err(),
        Some((most_files, most_bytes)) => {
            scan_within(rt.alloc(), &mut folder, most_files.min(20_000), most_bytes).err()
        }
    })
}

fn is_answered(rt: &HostRuntime, walk: &Walk) -> Result<bool, Fail> {
    let (_, _, calls, fault) = *walk;
    for call in 0..calls {
        if fault_at(rt, walk, call)? != Some(ScanFault::Folder) {
            return Ok(false);
        }
    }
    Ok(fault_at(rt, walk, calls)? == fault)
}

// The calls are: the path past the most, then for each file its path and its readings until one is empty, and last, where there
// are fewer files than the most, the path past the last. So each file is read once, and a fault of the folder stands where its
// call stands.
#[test]
fn each_call_fails_in_turn(rt: HostRuntime) -> Result<(), Fail> {
    let good: [(&[u8], &[u8]); 2] = [(b"b", b""), (b"a", b"abc")];
    let off: [(&[u8], &[u8]); 2] = [(b"a", b"abc"), (b"b:c", b"")];
    let same: [(&[u8], &[u8]); 2] = [(b"A.txt", b""), (b"a.txt", b"")];
    let most: [(&[u8], &[u8]); 1] = [(b"a", &[7; 65_536])];
    let more: [(&[u8], &[u8]); 1] = [(b"a", &[7; 65_537])];
    let bad_path = Some(ScanFault::BadPath { entry: 1 });
    let same_path = Some(ScanFault::SamePath { entry: 1 });
    let too_long = Some(ScanFault::FileTooLong { entry: 0 });
    let too_many = Some(ScanFault::TooManyFiles);
    let walks: [Walk; 11] = [
        (&good, None, 7, None),
        (&good, Some((2, 3)), 6, None),
        (&good, Some((2, 2)), 3, too_long),
        (&good, Some((1, 3)), 1, too_many),
        (&off, None, 5, bad_path),
        (&off, Some((2, 3)), 5, bad_path),
        // That there is one too many comes before a path that is off its form.
        (&off, Some((1, 3)), 1, too_many),
        (&same, None, 4, same_path),
        (&same, Some((2, 0)), 4, same_path),
        (&most, Some((1, 65_536)), 4, None),
        (&more, Some((1, 65_536)), 4, too_long),
    ];
    for walk in walks.iter() {
        assert!(rt; is_answered(&rt, walk)?);
    }
    Ok(())
}

#[test]
fn later_bytes_come_once_a_file_was_read(rt: HostRuntime) -> Result<(), Fail> {
    let files: [(&[u8], &[u8]); 3] = [(b"a", b"one"), (b"b", b"two"), (b"a", b"again")];
    let later: [(&[u8], &[u8]); 1] = [(b"a", b"other")];
    let mut folder = folder_of(&rt, &files, &later, &[])?;
    let first = scanned(&rt, &mut folder)?;
    let second = scanned(&rt, &mut folder)?;
    assert!(rt;
        first
            == scanned(
                &rt,
                &mut folder_of(&rt, &[(b"a", b"one"), (b"b", b"two")], &[], &[])?
            )?
    );
    assert!(rt;
        second
            == scanned(
                &rt,
                &mut folder_of(&rt, &[(b"a", b"other"), (b"b", b"two")], &[], &[])?
            )?
    );
    Ok(())
}

// Three files below a folder of the host, and an empty folder beside them.
fn lay_three(rt: &HostRuntime) -> Result<(), Fail> {
    std::fs::create_dir_all(rt, "cm_tree_test/bin/none")?;
    std::fs::write(rt, "cm_tree_test/readme", "hello")?;
    std::fs::write(rt, "cm_tree_test/a.txt", "abc")?;
    std::fs::write(rt, "cm_tree_test/bin/empty", "")?;
    Ok(())
}

// The fault of a folder of the host, or its number of entries.
fn entries_of(rt: &HostRuntime, base: &str) -> Result<Result<usize, ScanFault>, Fail> {
    let mut folder = HostFolder::new(rt.clone()?, base).ok().ok_or("no memory")?;
    Ok(match scan(rt.alloc(), &mut folder) {
        Ok(manifest) => Ok(manifest.entries().len()),
        Err(fault) => Err(fault),
    })
}

fn bytes_of_laid(rt: &HostRuntime, base: &str) -> Result<Vec<u8>, Fail> {
    let mut folder = HostFolder::new(rt.clone()?, base).ok().ok_or("no memory")?;
    scanned(rt, &mut folder)
}

#[test]
fn a_folder_of_the_host(rt: HostRuntime) -> Result<(), Fail> {
    let base = "cm_tree_test";
    let _old = std::fs::remove_dir_all(&rt, base);
    lay_three(&rt)?;
    assert!(rt; bytes_of_laid(&rt, base)? == bytes_of_three(&rt)?);
    let _gone = std::fs::remove_dir_all(&rt, base);
    assert!(rt; entries_of(&rt, base)? == Err(ScanFault::Folder));
    assert!(rt; entries_of(&rt, "-")? == Ok(0));
    Ok(())
}
