//! What a crash leaves of a call on a job's files.
use cm_disk::{MemDisk, at_each_crash};
use cm_library::Library;
use library_cases::calls::{Answer, Call, HELLO, answered};
use library_cases::file_cases::{
    FINISH_PUT, FileCase, PUT, SALVAGE, SEAL, START, START_ANOTHER, finishes, has_abc, has_three,
    prepared_case,
};
use library_cases::libraries::{PREPARED, has, opened};
use library_cases::reached::{Reached, taken};
use std::alloc::Global;
use std::test::Fail;

fn ran(alloc: Global, case: &FileCase, disk: &mut MemDisk) -> Option<Reached> {
    let mut library = match prepared_case(alloc, case, taken(alloc, disk)?) {
        Ok(library) => library,
        Err(back) => {
            *disk = back;
            return Some(Reached::Before);
        }
    };
    let answer = answered(alloc, &mut library, case.call)?;
    *disk = library.close();
    Some(if answer == case.done {
        Reached::Done
    } else {
        Reached::Failed
    })
}

// Whether job 2 is finished, with what was sealed once the call was acknowledged.
fn is_finished_there(
    alloc: Global,
    case: &FileCase,
    reached: Reached,
    library: &mut Library<MemDisk>,
) -> Option<bool> {
    let is_there = answered(alloc, library, Call::Salvage(2, HELLO))?;
    if reached == Reached::Done && case.is_sealed && is_there != Answer::Is(true) {
        return Some(false);
    }
    finishes(alloc, library)
}

// Whether an image has the versions and jobs from before the call, or those after it once it was acknowledged, each version with
// its files; and whether job 2 can be finished there.
fn is_whole(alloc: Global, case: &FileCase, reached: Reached, image: &mut MemDisk) -> Option<bool> {
    if reached == Reached::Before {
        return Some(true);
    }
    if !has_abc(image)? {
        return Some(false);
    }
    let is_three = has_three(image)?;
    let mut library = opened(alloc, taken(alloc, image)?)?;
    if has(&library, (&[], &[1, 2])) {
        return Some(is_three && has(&library, case.after));
    }
    if !has(&library, PREPARED) || reached == Reached::Done && !has(&library, case.after) {
        return Some(false);
    }
    let is_finished = is_finished_there(alloc, case, reached, &mut library)?;
    let is_done = is_finished && has(&library, (&[], &[1, 2]));
    Some(is_done && has_three(&mut library.close())?)
}

fn leaves_whole(alloc: Global, case: &FileCase) -> Option<bool> {
    let mut disk = MemDisk::new(alloc, Vec::new(alloc)).ok()?;
    if ran(alloc, case, &mut disk)? != Reached::Done {
        return Some(false);
    }
    let left = at_each_crash(
        alloc,
        |disk| ran(alloc, case, disk),
        |reached, image| match *reached {
            Some(reached) => { is_whole(alloc, case, reached, image) == Some(true) }
            None => false,
        },
    );
    Some(left.is_ok())
}

#[test]
fn leave_what_was_there(rt: HostRuntime) -> Result<(), Fail> {
    for case in [START, START_ANOTHER, PUT] {
        assert!(rt; leaves_whole(rt.alloc(), &case) == Some(true));
    }
    Ok(())
}

#[test]
fn leave_what_was_sealed(rt: HostRuntime) -> Result<(), Fail> {
    for case in [SEAL, SALVAGE, FINISH_PUT] {
        assert!(rt; leaves_whole(rt.alloc(), &case) == Some(true));
    }
    Ok(())
}
