//! What becomes of a call that the disk failed.
use cm_disk::{Disk, MemDisk};
use cm_library::{Change, Library};
use library_cases::calls::{ABC, Answer, Call, ONE, answered, is_change_of};
use library_cases::cases::{BEGIN, Case, DROP, FINISH, REMOVE};
use library_cases::libraries::{PREPARED, has, opens_to, prepared};
use std::alloc::Global;
use std::test::Fail;

// How a case's call ends on a disk.
#[derive(Drop)]
enum Ended {
    // The disk failed before the call.
    Before,
    Failed(Library<MemDisk>),
    Done,
}

// What is done with a library whose call has failed.
#[derive(Clone, Copy)]
enum Then {
    Settle,
    CallAgain,
    CountNames,
}

// None where it ends otherwise.
fn tried(alloc: Global, case: &Case, disk: MemDisk) -> Option<Ended> {
    let mut library = match prepared(alloc, disk) {
        Ok(library) => library,
        Err(disk) if disk.faults() > 0 => return Some(Ended::Before),
        Err(_) => return None,
    };
    let answer = answered(alloc, &mut library, case.call)?;
    if library.faults() > 0 {
        let is_same = has(&library, PREPARED);
        return (answer == Answer::Disk && is_same).then_some(Ended::Failed(library));
    }
    (answer == case.done && has(&library, case.after)).then_some(Ended::Done)
}

// What settling tells, if need be at the second try.
fn told(library: &mut Library<MemDisk>) -> Option<Option<Change>> {
    match library.settle() {
        Ok(told) => Some(told),
        Err(_) if has(library, PREPARED) => library.settle().ok(),
        Err(_) => None,
    }
}

// Whether settling finds that the call was committed. It tells its change then, and each image opens to the same rows.
fn settles(alloc: Global, case: &Case, library: Library<MemDisk>) -> Option<bool> {
    let mut library = library;
    let (is_committed, rows) = match told(&mut library)? {
        Some(change) if is_change_of(case.call, change) => (true, case.after),
        Some(_) => return None,
        None => (false, PREPARED),
    };
    let is_settled = has(&library, rows) && matches!(library.settle(), Ok(None));
    (is_settled && opens_to(alloc, &library.close(), rows)?).then_some(is_committed)
}

// Whether the same call once more answers that the first was committed. Either way the change is made.
fn goes_on(alloc: Global, case: &Case, library: Library<MemDisk>) -> Option<bool> {
    let mut library = library;
    let mut answer = answered(alloc, &mut library, case.call)?;
    if answer == Answer::Disk {
        answer = answered(alloc, &mut library, case.call)?;
    }
    if answer != case.done && answer != case.again {
        return None;
    }
    let is_made = has(&library, case.after);
    (is_made && opens_to(alloc, &library.close(), case.after)?).then_some(answer == case.again)
}

// Ends all jobs before one, and removes the versions up to 3.
fn end_others(alloc: Global, library: &mut Library<MemDisk>, job: u64) -> Option<()> {
    for other in 1..job {
        let _answer = answered(alloc, library, Call::Drop(other))?;
    }
    for version in 1..4u32 {
        let _answer = answered(alloc, library, Call::Remove(version))?;
    }
    Some(())
}

// Whether the call was committed, after settling. The hash that it dealt with stays sealed while a job names it alone, and is not
// sealed once nothing names it: what names it was counted rightly.
fn counts_names(alloc: Global, library: Library<MemDisk>) -> Option<bool> {
    let mut library = library;
    let is_committed = told(&mut library)?.is_some();
    let Answer::Begun(job) = answered(alloc, &mut library, Call::Begin(6, ONE))? else {
        return None;
    };
    end_others(alloc, &mut library, job)?;
    let is_kept = answered(alloc, &mut library, Call::Finish(job))? == Answer::Done
        && has(&library, (&[], &[6]));
    let _removed = answered(alloc, &mut library, Call::Remove(6))?;
    let Answer::Begun(job) = answered(alloc, &mut library, Call::Begin(7, ONE))? else {
        return None;
    };
    let is_lost = answered(alloc, &mut library, Call::Finish(job))? == Answer::NotStored(ABC);
    (is_kept && is_lost).then_some(is_committed)
}

// A disk that fails at two calls, or at one that is listed twice.
fn disk_failing(alloc: Global, first: u64, second: u64) -> Option<MemDisk> {
    MemDisk::new(alloc, [first, second].to_vec(alloc).ok()?).ok()
}

// Each device call of a case's call fails in turn, and with it the one so many calls later: how often the call was committed, and
// how often not. None where something goes otherwise.
fn each_fault(alloc: Global, case: &Case, then: Then, later: u64) -> Option<(u32, u32)> {
    let mut committed = 0u32;
    let mut others = 0u32;
    for at in 0..1000u64 {
        let disk = disk_failing(alloc, at, at.saturating_add(later))?;
        let library = match tried(alloc, case, disk)? {
            Ended::Before => continue,
            Ended::Failed(library) => library,
            Ended::Done => return Some((committed, others)),
        };
        let is_committed = match then {
            Then::Settle => settles(alloc, case, library)?,
            Then::CallAgain => goes_on(alloc, case, library)?,
            Then::CountNames => counts_names(alloc, library)?,
        };
        if is_committed {
            committed = committed.saturating_add(1);
        } else {
            others = others.saturating_add(1);
        }
    }
    None
}

#[test]
fn are_settled(rt: HostRuntime) -> Result<(), Fail> {
    for case in [BEGIN, FINISH, DROP, REMOVE] {
        for later in 0..4u64 {
            let found = each_fault(rt.alloc(), &case, Then::Settle, later);
            assert!(rt; matches!(found, Some((1.., 1..))));
        }
    }
    Ok(())
}

#[test]
fn leave_counts(rt: HostRuntime) -> Result<(), Fail> {
    for case in [BEGIN, FINISH, DROP, REMOVE] {
        let found = each_fault(rt.alloc(), &case, Then::CountNames, 0);
        assert!(rt; matches!(found, Some((1.., 1..))));
    }
    Ok(())
}

#[test]
fn are_settled_by_the_next_call(rt: HostRuntime) -> Result<(), Fail> {
    for case in [BEGIN, FINISH, DROP, REMOVE] {
        for later in 0..4u64 {
            let found = each_fault(rt.alloc(), &case, Then::CallAgain, later);
            assert!(rt; matches!(found, Some((1.., 1..))));
        }
    }
    Ok(())
}
