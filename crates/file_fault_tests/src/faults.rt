//! What becomes of a call on a job's files that the disk failed.
use cm_disk::{Disk, MemDisk};
use cm_library::Library;
use library_cases::calls::{Answer, Call, answered};
use library_cases::file_cases::{
    DROP_STARTED, FileCase, PUT, SALVAGE, SEAL, START, START_ANOTHER, finishes, leaves_both,
    prepared_case,
};
use library_cases::libraries::{PREPARED, has, opens_to};
use std::alloc::Global;
use std::test::Fail;

// How a case's call ends on a disk.
#[derive(Drop)]
enum Ended {
    // The disk failed before the call.
    Before,
    Failed(Library<MemDisk>),
    Done,
}

// None where it ends otherwise.
fn tried(alloc: Global, case: &FileCase, disk: MemDisk) -> Option<Ended> {
    let mut library = match prepared_case(alloc, case, disk) {
        Ok(library) => library,
        Err(disk) if disk.faults() > 0 => return Some(Ended::Before),
        Err(_) => return None,
    };
    let answer = answered(alloc, &mut library, case.call)?;
    if library.faults() > 0 {
        let is_same = has(&library, PREPARED);
        return (answer == Answer::Disk && is_same).then_some(Ended::Failed(library));
    }
    (answer == case.done && has(&library, case.after)).then_some(Ended::Done)
}

// Whether the job has no started file after the fault, the same call answers as it must, and the job can be finished.
fn goes_on(alloc: Global, case: &FileCase, library: Library<MemDisk>) -> Option<bool> {
    let mut library = library;
    let is_left = answered(alloc, &mut library, Call::GiveUp(2))? == Answer::Is(false);
    let is_as_wanted = answered(alloc, &mut library, case.call)? == case.again;
    if !is_left || !is_as_wanted || !has(&library, PREPARED) {
        return Some(false);
    }
    let is_finished = finishes(alloc, &mut library)? && has(&library, (&[], &[1, 2]));
    Some(is_finished && leaves_both(alloc, &library.close(), (&[], &[1, 2]))?)
}

// Each device call of a case's call fails in turn: how many. None where something goes otherwise.
fn each_fault(alloc: Global, case: &FileCase) -> Option<u32> {
    let mut failed = 0u32;
    for at in 0..1000u64 {
        let disk = MemDisk::new(alloc, [at].to_vec(alloc).ok()?).ok()?;
        match tried(alloc, case, disk)? {
            Ended::Before => {}
            Ended::Failed(library) => {
                if !goes_on(alloc, case, library)? {
                    return None;
                }
                failed = failed.saturating_add(1);
            }
            Ended::Done => return Some(failed),
        }
    }
    None
}

#[test]
fn give_up_the_file(rt: HostRuntime) -> Result<(), Fail> {
    for case in [START, START_ANOTHER, PUT, SEAL, SALVAGE] {
        assert!(rt; matches!(each_fault(rt.alloc(), &case), Some(1..)));
    }
    Ok(())
}

// Whether the job that was not dropped has no started file, and is dropped by the next call, or was by the first.
fn is_dropped(alloc: Global, library: Library<MemDisk>) -> Option<bool> {
    let mut library = library;
    let is_left = answered(alloc, &mut library, Call::GiveUp(2))? == Answer::Is(false);
    let answer = answered(alloc, &mut library, Call::Drop(2))?;
    let is_as_wanted = answer == Answer::Done || answer == Answer::NoJob;
    let rows = DROP_STARTED.after;
    Some(is_left && is_as_wanted && has(&library, rows) && opens_to(alloc, &library.close(), rows)?)
}

// Each device call of a drop fails in turn: how many. None where something goes otherwise.
fn each_fault_of_drop(alloc: Global) -> Option<u32> {
    let mut failed = 0u32;
    for at in 0..1000u64 {
        let disk = MemDisk::new(alloc, [at].to_vec(alloc).ok()?).ok()?;
        match tried(alloc, &DROP_STARTED, disk)? {
            Ended::Before => {}
            Ended::Failed(library) => {
                if !is_dropped(alloc, library)? {
                    return None;
                }
                failed = failed.saturating_add(1);
            }
            Ended::Done => return Some(failed),
        }
    }
    None
}

#[test]
fn give_up_the_file_of_a_dropped_job(rt: HostRuntime) -> Result<(), Fail> {
    assert!(rt; matches!(each_fault_of_drop(rt.alloc()), Some(1..)));
    Ok(())
}
