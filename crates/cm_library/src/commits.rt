//! A change is committed to a library's log, and what became of one that failed is settled.
ghost use Rattle.std.specs.Prelude.{◌≡◌, ◌≢◌, ◌+◌, ◌^◌, ◌≤◌, length, true, [], None, Some, Ok, IfOk, OnErr, OnOk};
ghost use Rattle.std.specs.Option.{ForSome};
ghost use Rattle.cm_base.specs.Causes.{HasCause};
ghost use Rattle.cm_disk.specs.Disk.{Files, LeavesOnly};
ghost use Rattle.cm_log.specs.Frames.{LeavesAlone, OnlyReads};
ghost use Rattle.cm_log.specs.Logs.{shelved};
ghost use Rattle.cm_log.specs.Outcomes.{IsPending};
ghost use Rattle.cm_log.specs.Settled.{shelf_of, place_of, end_of, is_settled, IsSettled, IsUnsettled, IsBeforeOrAfter, Adds};
ghost use Rattle.cm_pkglib.specs.Changes.{spelled};
ghost use Rattle.cm_pkglib.specs.Counts.{sealed_of};
ghost use Rattle.cm_state.specs.Adding.{Told, KeepsStore};
ghost use Rattle.cm_state.specs.Changes.{changed};
ghost use Rattle.cm_state.specs.Commits.{MayCommit, BringsManifest};
ghost use Rattle.cm_state.specs.Look.{Opened, look};
ghost use Rattle.cm_state.specs.Opens.{OpensOr, StandsOr, EachOpensSome};
ghost use Rattle.cm_contents.specs.Contents.{change_in, IsTakenFor};
ghost use Rattle.cm_contents.specs.Seals.{brought, IsCounted, AreStored};
ghost use Rattle.cm_library.specs.Calls.{KeepsNeeded, KeepsSeals, MayFind, Tells};
ghost use Rattle.cm_library.specs.Kept.{pending_in, IsStanding, AreSure, IsKept};
ghost use Rattle.cm_library.specs.Placing.{KeepsPlaces};

use cm_contents::{Contents, make, uncount_taken};
use cm_disk::{Disk, DiskFault};
use cm_log::{AppendFault, Log};
use cm_pkglib::{Change, Counts};
use std::snapshot::Snapshot;

// Adds the record of a change to the log, which has room for it.
fn add_record<D: Disk>(log: &mut Log, disk: &mut D, change: &Change) -> Result<(), DiskFault>
    requires idle { is_settled log.old ≡ true }
    requires settled { ForSome (D.reads disk.old) (λ files. IsSettled files (D.may_leave disk.old) log.old) }
    requires room { end_of log.old + length (spelled change.now) + 6 ≤ 2 ^ 40 }
    ensures idle { OnOk result (is_settled log.new ≡ true) }
    ensures settled { OnOk result (ForSome (D.reads disk.new) (λ files. IsSettled files (D.may_leave disk.new) log.new)) }
    ensures adds { OnOk result (ForSome (D.reads disk.old) (λ files. (now : Files) × (D.reads disk.new ≡ Some now) × Adds (shelf_of log.old) (place_of log.old) files now (spelled change.now))) }
    ensures end { OnOk result (end_of log.new ≡ end_of log.old + 5 + length (spelled change.now)) }
    ensures shelf { shelf_of log.new ≡ shelf_of log.old }
    // A crash at any moment leaves the log from before, with the record or without. After a fault so it stands.
    ensures any_moment { ForSome (D.reads disk.old) (λ files. LeavesOnly D.moment D.left_since disk.old disk.new (IsBeforeOrAfter (shelf_of log.old) (place_of log.old) (D.may_leave disk.old) (shelved (shelf_of log.old) files) (spelled change.now))) }
    ensures failed { OnErr result (IsPending log.old log.new (spelled change.now)) }
    ensures unsettled { OnErr result (ForSome (D.reads disk.old) (λ files. (now : Files) × (D.reads disk.new ≡ Some now) × IsUnsettled now (D.may_leave disk.new) log.new (shelved (shelf_of log.old) files) (spelled change.now))) }
    ensures alone { LeavesAlone (λ q. q ≢ place_of log.old) D.reads D.may_leave D.moment D.left_since D.faults disk.old disk.new }
    ensures cause { HasCause (D.faults disk.old) (D.faults disk.new) result }
{
    let mut body = [0u8; 61];
    let count = change.encode(&mut body);
    match log.append(disk, &body[..count]) {
        Ok(_) => Ok(()),
        Err(AppendFault::Disk) => Err(DiskFault),
        Err(AppendFault::TooLong { len: _ }) => unreachable!(),
        Err(AppendFault::Full) => unreachable!(),
    }
}

/// Commits a change on a settled library, in whose counts the manifest is that a job begins with: its record is added, and then the
/// change is made in memory. After a fault the change is pending.
pub(crate) fn commit<D: Disk>(
    start: &Snapshot<D>,
    disk: &mut D,
    log: &mut Log,
    contents: &mut Contents,
    counts: &mut Counts,
    pending: &mut Option<Change>,
    change: &Change,
) -> Result<(), DiskFault>
    requires standing { IsStanding D.reads D.may_leave disk.old log.old contents.old pending.old }
    requires idle { pending.old ≡ None }
    requires counted { IsCounted counts.old contents.old.state (brought (Some (change_in contents.old.taken change.now))) }
    requires stored { AreStored (sealed_of counts.old) (change_in contents.old.taken change.now) contents.old.state }
    requires sure { AreSure D.reads D.may_leave start.now.value disk.old contents.old.state counts.old }
    requires may { MayCommit (end_of log.old) contents.old.state (change_in contents.old.taken change.now) }
    requires taken { IsTakenFor contents.old.taken change.now }
    requires brings { ForSome (D.reads disk.old) (λ _. BringsManifest (D.may_leave disk.old) (change_in contents.old.taken change.now)) }
    ensures kept { IsKept D.reads D.may_leave start.now.value disk.new log.new contents.new counts.new pending.new }
    ensures done { OnOk result ((contents.new.state ≡ changed (change_in contents.old.taken change.now) contents.old.state) × (end_of log.new ≡ end_of log.old + 5 + length (spelled change.now)) × (pending.new ≡ None) × KeepsNeeded contents.new.state (sealed_of counts.old) (sealed_of counts.new)) }
    ensures failed { OnErr result ((contents.new ≡ contents.old) × (end_of log.new ≡ end_of log.old) × (pending.new ≡ Some change.now) × (counts.new ≡ counts.old)) }
    // A crash at any moment leaves the state before the change or after it; with all files, where each image opened at the opening.
    ensures stands { ForSome (D.reads disk.old) (λ _. LeavesOnly D.moment D.left_since disk.old disk.new (StandsOr contents.old.state (Some (change_in contents.old.taken change.now)))) }
    ensures opens { EachOpensSome (D.may_leave start.now.value) → ForSome (D.reads disk.old) (λ _. LeavesOnly D.moment D.left_since disk.old disk.new (OpensOr contents.old.state (Some (change_in contents.old.taken change.now)))) }
    ensures store { Told KeepsStore (D.reads disk.old) (D.reads disk.new) }
    ensures places { Told KeepsPlaces (D.reads disk.old) (D.reads disk.new) }
    ensures silent { D.reads disk.old ≡ None → D.reads disk.new ≡ None }
    ensures cause { HasCause (D.faults disk.old) (D.faults disk.new) result }
{
    let _start = start;
    contents.tells_valid();
    match add_record(log, disk, change) {
        Ok(()) => {
            make(contents, counts, change);
            Ok(())
        }
        Err(fault) => {
            *pending = Some(*change);
            Err(fault)
        }
    }
}

// The change was not committed: the manifest that it would have brought is counted no more.
fn forget(contents: &Contents, counts: &mut Counts, change: &Change)
    requires { IsCounted counts.old contents.now.state (brought (Some (change_in contents.now.taken change.now))) }
    ensures counted { IsCounted counts.new contents.now.state [] }
    ensures seals { KeepsSeals (sealed_of counts.old) (sealed_of counts.new) }
{
    match *change {
        Change::Opened { .. } => uncount_taken(contents, counts),
        Change::Done { .. } => {}
        Change::Dropped { .. } => {}
        Change::Removed { .. } => {}
    }
}

/// Settles what became of a call that the disk failed. Gives the record of its change if that was committed.
pub(crate) fn settle_pending<D: Disk>(
    start: &Snapshot<D>,
    disk: &mut D,
    log: &mut Log,
    contents: &mut Contents,
    counts: &mut Counts,
    pending: &mut Option<Change>,
) -> Result<Option<Change>, DiskFault>
    requires kept { IsKept D.reads D.may_leave start.now.value disk.old log.old contents.old counts.old pending.old }
    ensures kept { IsKept D.reads D.may_leave start.now.value disk.new log.new contents.new counts.new pending.new }
    ensures idle { OnOk result (pending.new ≡ None) }
    ensures found { OnOk result (MayFind (pending_in contents.old.taken pending.old) contents.old.state (end_of log.old) contents.new.state (end_of log.new)) }
    ensures stands { OnOk result (ForSome (D.reads disk.old) (λ files. look files ≡ Opened contents.new.state)) }
    ensures seals { OnOk result (KeepsNeeded contents.new.state (sealed_of counts.old) (sealed_of counts.new)) }
    ensures told { IfOk result (λ told. Tells (pending_in contents.old.taken pending.old) contents.old.state contents.new.state told) }
    ensures failed { OnErr result ((contents.new ≡ contents.old) × (end_of log.new ≡ end_of log.old) × (pending.new ≡ pending.old) × (counts.new ≡ counts.old)) }
    ensures was_settled { pending.old ≡ None → (result ≡ Ok None) × (disk.new ≡ disk.old) × (log.new ≡ log.old) × (contents.new ≡ contents.old) × (counts.new ≡ counts.old) }
    ensures only { OnlyReads D.reads D.may_leave D.moment D.left_since D.faults disk.old disk.new }
    ensures cause { HasCause (D.faults disk.old) (D.faults disk.new) result }
{
    let _start = start;
    let Some(change) = *pending else {
        return Ok(None);
    };
    contents.tells_valid();
    match log.settle(disk) {
        Ok(true) => {
            make(contents, counts, &change);
            *pending = None;
            Ok(Some(change))
        }
        Ok(false) => {
            forget(contents, counts, &change);
            *pending = None;
            Ok(None)
        }
        Err(fault) => Err(fault),
    }
}
