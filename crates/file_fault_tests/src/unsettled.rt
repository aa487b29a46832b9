//! What becomes of a call on a job's files behind a call that the disk failed, where it fails it too.
use cm_disk::{Disk, MemDisk};
use cm_library::Library;
use library_cases::calls::{Answer, Call, ONE, answered};
use library_cases::file_cases::{
    FileCase, PUT, SALVAGE, SEAL, START, START_ANOTHER, finishes, leaves_both, prepared_case,
};
use library_cases::libraries::{PREPARED, Rows, has};
use std::alloc::Global;
use std::test::Fail;

// `PREPARED` with job 3.
const WITH_THIRD: Rows = (&[(2, 2), (3, 3)], &[1]);

// How a case's call ends behind a call that the disk failed.
#[derive(Drop)]
enum Then {
    // The disk failed before the two calls.
    Before,
    // It failed twice in the first of them.
    Twice,
    // No device call failed before the case's call.
    NoFault,
    Failed(Library<MemDisk>),
    Done,
}

// The library of a case after a call that the disk failed, which would begin job 3.
fn unsettled(
    alloc: Global,
    case: &FileCase,
    disk: MemDisk,
) -> Option<Result<Library<MemDisk>, Then>> {
    let mut library = match prepared_case(alloc, case, disk) {
        Ok(library) => library,
        Err(disk) if disk.faults() > 0 => return Some(Err(Then::Before)),
        Err(_) => return None,
    };
    let answer = answered(alloc, &mut library, Call::Begin(3, ONE))?;
    match library.faults() {
        0 => Some(Err(Then::NoFault)),
        1 if answer == Answer::Disk && has(&library, PREPARED) => Some(Ok(library)),
        1 => None,
        _ => Some(Err(Then::Twice)),
    }
}

fn has_either(library: &Library<MemDisk>) -> bool {
    has(library, PREPARED) || has(library, WITH_THIRD)
}

// None where it ends otherwise.
fn tried_unsettled(alloc: Global, case: &FileCase, disk: MemDisk) -> Option<Then> {
    let mut library = match unsettled(alloc, case, disk)? {
        Ok(library) => library,
        Err(then) => return Some(then),
    };
    let answer = answered(alloc, &mut library, case.call)?;
    if !has_either(&library) {
        return None;
    }
    if library.faults() > 1 {
        return (answer == Answer::Disk).then_some(Then::Failed(library));
    }
    (answer == case.done && matches!(library.settle(), Ok(None))).then_some(Then::Done)
}

// Whether the job goes on after its call failed. Where the call itself failed the library is settled, and the job has no started file;
// where settling failed the library is unsettled still, and a salvage alone leaves the job its file.
fn goes_on_from_there(alloc: Global, case: &FileCase, library: Library<MemDisk>) -> Option<bool> {
    let mut library = library;
    let is_settled = has(&library, WITH_THIRD);
    let had_file = answered(alloc, &mut library, Call::GiveUp(2))? == Answer::Is(true);
    let is_told = library.settle().ok()?.is_some();
    let keeps_file = matches!(case.call, Call::Salvage(_, _)) && !case.before.is_empty();
    let is_as_wanted = (!is_settled || !had_file && !is_told)
        && (!is_told || had_file == keeps_file)
        && (!had_file || keeps_file);
    if !is_as_wanted || !has_either(&library) || is_told && !has(&library, WITH_THIRD) {
        return Some(false);
    }
    let rows: Rows = if has(&library, WITH_THIRD) {
        (&[(3, 3)], &[1, 2])
    } else {
        (&[], &[1, 2])
    };
    let is_finished = finishes(alloc, &mut library)? && has(&library, rows);
    Some(is_finished && leaves_both(alloc, &library.close(), rows)?)
}

// Each device call of a case's call fails in turn, behind a call whose device call with this number failed: how many. None where
// something goes otherwise.
fn each_second_fault(alloc: Global, case: &FileCase, first: u64) -> Option<Option<u32>> {
    let mut failed = 0u32;
    for later in 1..1000u64 {
        let failing = [first, first.saturating_add(later)].to_vec(alloc).ok()?;
        match tried_unsettled(alloc, case, MemDisk::new(alloc, failing).ok()?)? {
            Then::Before => return Some(Some(0)),
            Then::Twice => {}
            Then::NoFault => return Some(None),
            Then::Failed(library) => {
                if !goes_on_from_there(alloc, case, library)? {
                    return None;
                }
                failed = failed.saturating_add(1);
            }
            Then::Done => return Some(Some(failed)),
        }
    }
    None
}

// The same behind each device call of the call before.
fn each_pair(alloc: Global, case: &FileCase) -> Option<u32> {
    let mut failed = 0u32;
    for first in 0..1000u64 {
        match each_second_fault(alloc, case, first)? {
            Some(count) => failed = failed.saturating_add(count),
            None => return Some(failed),
        }
    }
    None
}

#[test]
fn go_on_unsettled_after_a_start(rt: HostRuntime) -> Result<(), Fail> {
    for case in [START, START_ANOTHER] {
        assert!(rt; matches!(each_pair(rt.alloc(), &case), Some(1..)));
    }
    Ok(())
}

#[test]
fn go_on_unsettled_after_others(rt: HostRuntime) -> Result<(), Fail> {
    for case in [PUT, SEAL, SALVAGE] {
        assert!(rt; matches!(each_pair(rt.alloc(), &case), Some(1..)));
    }
    Ok(())
}
