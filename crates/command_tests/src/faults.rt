//! A folder that fails, and a device call of `add` that fails.
use crate::fakes::{Files, answered, folder_of, made, ran, ran_over};
use crate::three::THREE;
use cm_disk::{Disk, MemDisk};
use std::alloc::Global;
use std::process::Abort;
use std::test::Fail;

// Each call of the folder fails in turn, until a run meets no failing call. Where the folder failed as it was first read nothing
// was opened; else the job was dropped.
#[test]
fn the_folder_fails(rt: HostRuntime) -> Result<(), Fail> {
    let alloc = rt.alloc();
    let mut first = 0u32;
    let mut second = 0u32;
    for call in 0..1000 {
        let mut folder = folder_of(alloc, THREE, &[call])?;
        let words = ["add", "PS100001"];
        let (status, text, disk) = ran_over(
            &rt,
            alloc,
            &words,
            &mut folder,
            made(&rt, alloc)?,
            &[],
        )?;
        if status == 0 {
            assert!(rt; text.as_slice() == b"added PS100001 1 files 3 bytes 8\n".as_slice());
            assert!(rt; first > 6 && second > 1);
            return Ok(());
        }
        assert!(rt; status == 3 && text.as_slice() == b"source\n".as_slice());
        let (_, text, disk) = ran(&rt, alloc, &["list", "site"], disk, &[])?;
        assert!(rt; text.is_empty());
        let (_, text, _) = ran(&rt, alloc, &["add", "PS100001"], disk, &[])?;
        if text.as_slice() == b"added PS100001 1 files 0 bytes 0\n".as_slice() {
            assert!(rt; second == 0);
            first = first.saturating_add(1);
        } else {
            assert!(rt; text.as_slice() == b"refused 2 PackageThere 1\n".as_slice());
            second = second.saturating_add(1);
        }
    }
    assert!(rt; false, "each run meets its failing call");
    Ok(())
}

// A disk with an empty library, whose device call of that number fails from here on.
fn failing(rt: &impl Abort, alloc: Global, at: u64) -> Result<MemDisk, Fail> {
    let disk = MemDisk::new(alloc, [at].to_vec(alloc)?)?;
    let (_, _, disk) = ran(rt, alloc, &["init"], disk, &[])?;
    Ok(disk)
}

const JOB: &[u8] = b"PS100001 1 job 1 3 8\n";

const DONE: &[u8] = b"PS100001 1 done 3 8\n";

// What is found after `add` failed is found by each later command, and the next version is added: whether the job of the first
// was unfinished.
fn is_job(rt: &impl Abort, alloc: Global, disk: &mut MemDisk) -> Result<bool, Fail> {
    let (_, found) = answered(rt, alloc, &["list", "site"], &[], &[], disk)?;
    let (_, again) = answered(rt, alloc, &["list", "site"], &[], &[], disk)?;
    assert!(rt; found.as_slice() == again.as_slice());
    let files: Files = &[(b"k", b"abc")];
    if found.is_empty() {
        let (_, text) = answered(rt, alloc, &["add", "PS100001"], files, &[], disk)?;
        assert!(rt; text.as_slice() == b"added PS100001 1 files 1 bytes 3\n".as_slice());
        return Ok(false);
    }
    let is_job = found.as_slice() == JOB;
    assert!(rt; is_job || found.as_slice() == DONE);
    let (_, text) = answered(rt, alloc, &["drop", "site", "1"], &[], &[], disk)?;
    assert!(rt; !is_job || text.as_slice() == b"dropped\n".as_slice());
    assert!(rt; is_job || text.as_slice() == b"refused 4 NoJob\n".as_slice());
    let (_, text) = answered(rt, alloc, &["update", "PS100001"], files, &[], disk)?;
    assert!(rt; text.as_slice() == b"added PS100001 2 files 1 bytes 3\n".as_slice());
    Ok(is_job)
}

// Each device call fails in turn, until a run meets no failing call: among them the write of the gate behind which the job is
// done.
#[test]
fn the_disk_fails(rt: HostRuntime) -> Result<(), Fail> {
    let alloc = rt.alloc();
    let mut jobs = 0u32;
    for at in 0..1000 {
        let mut disk = failing(&rt, alloc, at)?;
        if disk.faults() > 0 {
            continue;
        }
        let (status, text) = answered(&rt, alloc, &["add", "PS100001"], THREE, &[], &mut disk)?;
        if disk.faults() == 0 {
            assert!(rt; status == 0 && jobs > 10);
            return Ok(());
        }
        assert!(rt; status == 5 && text.as_slice() == b"disk site\n".as_slice());
        if is_job(&rt, alloc, &mut disk)? {
            jobs = jobs.saturating_add(1);
        }
    }
    assert!(rt; false, "each run meets its failing call");
    Ok(())
}
