//! What a crash leaves.
use cm_disk::{MemDisk, at_each_crash};
use library_cases::calls::answered;
use library_cases::cases::{BEGIN, Case, DROP, FINISH, REMOVE};
use library_cases::libraries::{PREPARED, has, opened, prepared};
use library_cases::reached::{Reached, taken};
use std::alloc::Global;
use std::test::Fail;

fn ran(alloc: Global, case: &Case, disk: &mut MemDisk) -> Option<Reached> {
    let mut library = match prepared(alloc, taken(alloc, disk)?) {
        Ok(library) => library,
        Err(back) => {
            *disk = back;
            return Some(Reached::Before);
        }
    };
    let answer = answered(alloc, &mut library, case.call)?;
    *disk = library.close();
    Some(if answer == case.done {
        Reached::Done
    } else {
        Reached::Failed
    })
}

// Whether an image opens to the library before the call or after it, and to that after it once the call was acknowledged; and
// whether the same call answers there as it must.
fn is_before_or_after(
    alloc: Global,
    case: &Case,
    reached: Reached,
    image: &mut MemDisk,
) -> Option<bool> {
    if reached == Reached::Before {
        return Some(true);
    }
    let mut library = opened(alloc, taken(alloc, image)?)?;
    let is_after = has(&library, case.after);
    let is_before = reached == Reached::Failed && has(&library, PREPARED);
    if !is_after && !is_before {
        return Some(false);
    }
    let wanted = if is_after { case.again } else { case.done };
    let answer = answered(alloc, &mut library, case.call)?;
    Some(answer == wanted && has(&library, case.after))
}

#[test]
fn leave_before_or_after(rt: HostRuntime) -> Result<(), Fail> {
    let alloc = rt.alloc();
    for case in [BEGIN, FINISH, DROP, REMOVE] {
        let mut disk = MemDisk::new(alloc, Vec::new(alloc))?;
        assert!(rt; ran(alloc, &case, &mut disk) == Some(Reached::Done));
        let left = at_each_crash(
            alloc,
            |disk| ran(alloc, &case, disk),
            |reached, image| match *reached {
                Some(reached) => { is_before_or_after(alloc, &case, reached, image) == Some(true) }
                None => false,
            },
        );
        assert_eq!(rt; left, Ok(()));
    }
    Ok(())
}
