//! What the tests hand to `run`.
use crate::bays::are_bays;
use cm_base::{MemSink, MemSource, Memory, Place, ServerName};
use cm_disk::{Disk, MemDisk};
use cm_top::{Bay, run};
use cm_tree::{Folder, MemFolder};
use std::alloc::Global;
use std::mem;
use std::process::Abort;
use std::test::Fail;

/// Files, each a path and its bytes.
pub(crate) type Files = &'static [(&'static [u8], &'static [u8])];

/// How a run of these words ended over a site's disk and a folder: the status, the text, and the disk. The sink takes three
/// bytes a call, and its calls in `fail` fail. An Err is want of memory.
pub(crate) fn tried_over<F: Folder, D: Disk + Drop>(
    rt: &impl Abort,
    alloc: Global,
    words: &[&str],
    folder: &mut F,
    disk: D,
    fail: &[u64],
) -> Result<(u8, Vec<u8>, D), Memory> {
    let mut list = Vec::new(alloc);
    for word in words {
        list.push(String::from_str(alloc, word)?)?;
    }
    let mut input = MemSource::new(Vec::new(alloc), 1, Vec::new(alloc));
    let mut out = MemSink::new(alloc, 3, fail.to_vec(alloc)?);
    let name = ServerName::read(b"site").expect(rt, "a name");
    let mut bays = Vec::new(alloc);
    bays.push(Bay { name, disk })?;
    assert!(rt; are_bays(&bays));
    let status = run(alloc, &list, &mut input, folder, &mut out, &mut bays, 0);
    let Bay { disk, .. } = bays.pop().expect(rt, "the bay");
    Ok((status, out.bytes().to_vec(alloc)?, disk))
}

/// The same, where there is memory.
pub(crate) fn ran_over<F: Folder, D: Disk + Drop>(
    rt: &impl Abort,
    alloc: Global,
    words: &[&str],
    folder: &mut F,
    disk: D,
    fail: &[u64],
) -> Result<(u8, Vec<u8>, D), Fail> {
    Ok(tried_over(rt, alloc, words, folder, disk, fail)?)
}

/// The same over a folder without files.
pub(crate) fn ran<D: Disk + Drop>(
    rt: &impl Abort,
    alloc: Global,
    words: &[&str],
    disk: D,
    fail: &[u64],
) -> Result<(u8, Vec<u8>, D), Fail> {
    let mut folder = folder_of(alloc, &[], &[])?;
    ran_over(rt, alloc, words, &mut folder, disk, fail)
}

/// How a run of these words ended over the bays of a site and an input: the status and the text. The folder has no files.
pub(crate) fn ran_site(
    rt: &impl Abort,
    alloc: Global,
    words: &[&str],
    input: &mut MemSource,
    names: &[&str],
    disks: &mut Vec<MemDisk>,
) -> Result<(u8, Vec<u8>), Fail> {
    let mut list = Vec::new(alloc);
    for word in words {
        list.push(String::from_str(alloc, word)?)?;
    }
    let mut bays = Vec::new(alloc);
    for (name, disk) in names.iter().zip(mem::replace(disks, Vec::new(alloc))) {
        let name = ServerName::read(name.as_bytes()).ok_or("a name")?;
        bays.push(Bay { name, disk })?;
    }
    assert!(rt; are_bays(&bays));
    let mut folder = folder_of(alloc, &[], &[])?;
    let mut out = MemSink::new(alloc, 3, Vec::new(alloc));
    let status = run(alloc, &list, input, &mut folder, &mut out, &mut bays, 0);
    for bay in bays {
        let Bay { disk, .. } = bay;
        disks.push(disk)?;
    }
    Ok((status, out.bytes().to_vec(alloc)?))
}

/// The status and the text of these words over a disk and a folder of these files. A file that was read to its end has then the
/// bytes that `later` has for its path.
pub(crate) fn answered(
    rt: &impl Abort,
    alloc: Global,
    words: &[&str],
    files: Files,
    later: Files,
    disk: &mut MemDisk,
) -> Result<(u8, Vec<u8>), Memory> {
    let taken = mem::replace(disk, MemDisk::new(alloc, Vec::new(alloc))?);
    let files = pairs_of(alloc, files)?;
    let mut folder = MemFolder::new(alloc, files, pairs_of(alloc, later)?, Vec::new(alloc))?;
    let (status, text, back) = tried_over(rt, alloc, words, &mut folder, taken, &[])?;
    *disk = back;
    Ok((status, text))
}

fn pairs_of(alloc: Global, files: &[(&[u8], &[u8])]) -> Result<Vec<(Vec<u8>, Vec<u8>)>, Memory> {
    let mut pairs = Vec::new(alloc);
    for (path, bytes) in files {
        pairs.push((path.to_vec(alloc)?, bytes.to_vec(alloc)?))?;
    }
    Ok(pairs)
}

/// A folder of these files, whose calls in `fail` fail.
pub(crate) fn folder_of(
    alloc: Global,
    files: &[(&[u8], &[u8])],
    fail: &[u64],
) -> Result<MemFolder, Fail> {
    let files = pairs_of(alloc, files)?;
    Ok(MemFolder::new(alloc, files, Vec::new(alloc), fail.to_vec(alloc)?)?)
}

/// A disk on which `init` has made a library.
pub(crate) fn made(rt: &impl Abort, alloc: Global) -> Result<MemDisk, Fail> {
    let disk = MemDisk::new(alloc, Vec::new(alloc))?;
    let (_, _, disk) = ran(rt, alloc, &["init"], disk, &[])?;
    Ok(disk)
}

/// The status, the text and the disk of these words over a folder of these files.
pub(crate) fn ran_with(
    rt: &impl Abort,
    alloc: Global,
    words: &[&str],
    files: &[(&[u8], &[u8])],
    disk: MemDisk,
) -> Result<(u8, Vec<u8>, MemDisk), Fail> {
    let mut folder = folder_of(alloc, files, &[])?;
    ran_over(rt, alloc, words, &mut folder, disk, &[])
}

/// Whether the place on a disk has exactly these bytes.
pub(crate) fn holds<D: Disk>(disk: &mut D, place: &[u8], bytes: &[u8]) -> bool {
    let Some(place) = Place::read(place) else {
        return false;
    };
    let mut buf = [0; 512];
    let Ok(count) = disk.read_at(&place, 0, &mut buf) else {
        return false;
    };
    count < 512 && &buf[..count] == bytes && disk.size(&place) == Ok(Some(bytes.len() as u64))
}

/// Makes the place on a disk these bytes, if there are any, and makes that durable. False where the disk failed.
pub(crate) fn is_laid<D: Disk>(disk: &mut D, place: &Place, bytes: Option<&[u8]>) -> bool {
    if disk.remove(place).is_err() {
        return false;
    }
    if let Some(bytes) = bytes {
        if bytes.len() > 1_000_000 || disk.write_at(place, 0, bytes).is_err() {
            return false;
        }
    }
    disk.sync(place).is_ok()
}

/// Makes the place on a disk these bytes, if there are any.
pub(crate) fn lay<D: Disk>(disk: &mut D, place: &[u8], bytes: Option<&[u8]>) -> Result<(), Fail> {
    let place = Place::read(place).ok_or("a place")?;
    is_laid(disk, &place, bytes).then_some(()).ok_or("a disk")?;
    Ok(())
}
