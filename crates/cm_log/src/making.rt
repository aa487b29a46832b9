//! A log is made.
ghost use Rattle.std.specs.Prelude.{◌≡◌, ◌≢◌, List, ℕ, None, Some, IsSome, is_some, true, Ok, Err, OnOk, OnErr, IfOk, IsErrOf};
ghost use Rattle.std.specs.Option.{ForSome};
ghost use Rattle.cm_base.specs.Causes.{Rose, HasCause};
ghost use Rattle.cm_disk.specs.Disk.{Files, Only, LeavesOnly};
ghost use Rattle.cm_log.specs.Frames.{OnlyReads, LeavesAlone, NoneGone};
ghost use Rattle.cm_log.specs.Shelves.{ready_place, IsElsewhere, IsNoLog};
ghost use Rattle.cm_log.specs.Settled.{Rests, Makes, MakesOrNot, HasLogs, IsMaking};

use crate::faults::CreateFault;
use crate::opening::sync_logs;
use crate::shelf::{Shelf, Side, log_at, ready_at};
use crate::whole::write_file;
use cm_disk::{Disk, DiskFault};

/// Makes the log of a shelf where there is none: both files, and then `ready`, each durable before the next.
/// `AlreadyThere` exactly where `ready` is present, and then the three places are durable; `Disk` only where the disk
/// failed.
pub fn create<D: Disk>(disk: &mut D, shelf: Shelf) -> Result<(), CreateFault>
    ensures made { OnOk result (ForSome (D.reads disk.old) (λ files. (now : Files) × (D.reads disk.new ≡ Some now) × Makes shelf files now)) }
    ensures there { IsErrOf result CreateFault.AlreadyThere → ForSome (D.reads disk.old) (λ files. IsSome (files (ready_place shelf))) }
    ensures only { IsErrOf result CreateFault.AlreadyThere → OnlyReads D.reads D.may_leave D.moment D.left_since D.faults disk.old disk.new }
    // After Ok, and where a log is there, a crash preserves the three places.
    ensures rests { result ≢ Err CreateFault.Disk → ForSome (D.reads disk.new) (λ files. Rests shelf files (D.may_leave disk.new)) }
    // A crash at any moment leaves what it might have left before; or, only where there was no log, none or a whole new one.
    ensures any_moment { ForSome (D.reads disk.old) (λ files. LeavesOnly D.moment D.left_since disk.old disk.new (IsMaking shelf files (D.may_leave disk.old))) }
    ensures alone { LeavesAlone (IsElsewhere shelf) D.reads D.may_leave D.moment D.left_since D.faults disk.old disk.new }
    ensures none_gone { NoneGone (D.reads disk.old) (D.reads disk.new) }
    // After `Disk` reads give what they gave; or, only where there was no log, they give none or a whole new one.
    ensures failed { IsErrOf result CreateFault.Disk → MakesOrNot shelf (D.reads disk.old) (D.reads disk.new) }
    ensures cause { IsErrOf result CreateFault.Disk → Rose (D.faults disk.old) (D.faults disk.new) }
{
    if is_made(disk, shelf)? {
        return Err(CreateFault::AlreadyThere);
    }
    make(disk, shelf)?;
    Ok(())
}

// Whether a shelf has a log. What is told is durable, and where there is one, all of it.
fn is_made<D: Disk>(disk: &mut D, shelf: Shelf) -> Result<bool, DiskFault>
    ensures value { IfOk result (λ there. ForSome (D.reads disk.old) (λ files. there ≡ is_some (files (ready_place shelf)))) }
    ensures sure { OnOk result (ForSome (D.reads disk.new) (λ files. Only (files (ready_place shelf)) (D.may_leave disk.new (ready_place shelf)))) }
    ensures rests { result ≡ Ok true → ForSome (D.reads disk.new) (λ files. Rests shelf files (D.may_leave disk.new)) }
    ensures only { OnlyReads D.reads D.may_leave D.moment D.left_since D.faults disk.old disk.new }
    ensures cause { HasCause (D.faults disk.old) (D.faults disk.new) result }
{
    let ready = ready_at(shelf);
    // Sync before looking: a `ready` of an earlier failed call could come back in a crash, beside logs that are being written.
    disk.sync(&ready)?;
    if disk.size(&ready)?.is_none() {
        return Ok(false);
    }
    sync_logs(disk, shelf)?;
    Ok(true)
}

// Makes the three files where there is no `ready`. That comes last: before it a crash leaves no log.
fn make<D: Disk>(disk: &mut D, shelf: Shelf) -> Result<(), DiskFault>
    requires blank { ForSome (D.reads disk.old) (λ files. (files (ready_place shelf) ≡ None) × Only None (D.may_leave disk.old (ready_place shelf))) }
    ensures made { OnOk result (ForSome (D.reads disk.old) (λ files. (now : Files) × (D.reads disk.new ≡ Some now) × Makes shelf files now)) }
    ensures rests { OnOk result (ForSome (D.reads disk.new) (λ files. Rests shelf files (D.may_leave disk.new))) }
    ensures any_moment { ForSome (D.reads disk.old) (λ files. LeavesOnly D.moment D.left_since disk.old disk.new (IsMaking shelf files (D.may_leave disk.old))) }
    ensures alone { LeavesAlone (IsElsewhere shelf) D.reads D.may_leave D.moment D.left_since D.faults disk.old disk.new }
    ensures none_gone { NoneGone (D.reads disk.old) (D.reads disk.new) }
    ensures failed { OnErr result (MakesOrNot shelf (D.reads disk.old) (D.reads disk.new)) }
    ensures cause { HasCause (D.faults disk.old) (D.faults disk.new) result }
{
    make_logs(disk, shelf)?;
    write_file(disk, &ready_at(shelf), &[])?;
    Ok(())
}

// Makes the two logs, of which the first is live. Both are durable.
fn make_logs<D: Disk>(disk: &mut D, shelf: Shelf) -> Result<(), DiskFault>
    ensures made { OnOk result (ForSome (D.reads disk.old) (λ files. (now : Files) × (D.reads disk.new ≡ Some now) × HasLogs shelf files now (D.may_leave disk.new))) }
    ensures alone { LeavesAlone (IsNoLog shelf) D.reads D.may_leave D.moment D.left_since D.faults disk.old disk.new }
    ensures none_gone { NoneGone (D.reads disk.old) (D.reads disk.new) }
    ensures cause { HasCause (D.faults disk.old) (D.faults disk.new) result }
{
    let first = log_at(shelf, Side::First);
    let second = log_at(shelf, Side::Second);
    let live = write_file(disk, &first, &[1, 1, 1, 0, 0, 0, 0, 0, 0, 0, 0]);
    live?;
    write_file(disk, &second, &[0, 1, 0, 0, 0, 0, 0, 0, 0, 0, 0])?;
    Ok(())
}
