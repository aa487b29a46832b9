//! Records are opened.
ghost use Rattle.std.specs.Prelude.{◌≡◌, ◌≤◌, ℕ, List, true, None, IfOk, IfErr, MatchResult, IsErrOf};
ghost use Rattle.std.specs.Option.{ForSome};
ghost use Rattle.cm_base.specs.Causes.{Rose};
ghost use Rattle.cm_disk.specs.Disk.{IsImage, LeavesOnly};
ghost use Rattle.cm_log.specs.Frames.{OnlyReads};
ghost use Rattle.cm_log.specs.Settled.{shelf_of, is_settled};
ghost use Rattle.cm_log.specs.declared.shelf.Shelf.TheVariants.{Site};
ghost use Rattle.cm_register.specs.Look.{Missing, Unreadable, look};
ghost use Rattle.cm_register.specs.Opens.{EachOpens};
ghost use Rattle.cm_records.specs.Kept.{StandsIn};
ghost use Rattle.cm_records.specs.Opening.{HasFound};

use crate::laws::show_laws;
use crate::reading::{of_log, read_kept};
use crate::records::Records;
use cm_disk::Disk;
use cm_log::{Log, LogReader, Shelf};
use cm_register::Kept;
use cm_state::OpenFault;
use std::alloc::Global;
use std::snapshot::Snapshot;

// The log of the records of a disk, and what they keep.
fn read_records<D: Disk>(alloc: Global, disk: &mut D) -> Result<(Log, Kept), OpenFault>
    ensures shelf { IfOk result (λ found. shelf_of found.0 ≡ Site) }
    ensures idle { IfOk result (λ found. is_settled found.0 ≡ true) }
    ensures stands { IfOk result (λ found. ForSome (D.reads disk.new) (λ files. StandsIn files (D.may_leave disk.new) found.0 found.1)) }
    ensures missing { IsErrOf result OpenFault.NoLibrary → ForSome (D.reads disk.old) (λ files. look files ≡ Missing) }
    ensures unreadable { (place : List ℕ) (at : ℕ) → IsErrOf result (OpenFault.Unreadable place at) → ForSome (D.reads disk.old) (λ files. look files ≡ Unreadable place at) }
    ensures only { OnlyReads D.reads D.may_leave D.moment D.left_since D.faults disk.old disk.new }
    ensures cause { IsErrOf result OpenFault.Disk → Rose (D.faults disk.old) (D.faults disk.new) }
{
    let mut reader = match LogReader::open(disk, Shelf::Site) {
        Ok(reader) => reader,
        Err(fault) => return Err(of_log(fault)),
    };
    match read_kept(alloc, disk, &mut reader) {
        Ok(kept) => Ok((reader.done(), kept)),
        Err(fault) => Err(fault),
    }
}

impl<D: Disk> Records<D> {
    /// Opens the records of a disk: reads those of its log one by one, and the text of each topology that they name. The disk is given
    /// back with a fault. `NoLibrary` comes only where the disk has no records, `Unreadable` only at the first place that is wrong,
    /// `Disk` only where the disk failed.
    pub fn open(alloc: Global, disk: D) -> Result<Records<D>, (D, OpenFault)>
        // The records are those of the files, and the log ends where it ends there. They read as before.
        ensures found { IfOk result (λ records. HasFound (D.reads disk) (D.reads records.disk) disk records) }
        ensures missing { IfErr result (λ refused. refused.1 ≡ OpenFault.NoLibrary → ForSome (D.reads disk) (λ files. look files ≡ Missing)) }
        ensures unreadable { IfErr result (λ refused. (place : List ℕ) (at : ℕ) → refused.1 ≡ OpenFault.Unreadable place at → ForSome (D.reads disk) (λ files. look files ≡ Unreadable place at)) }
        ensures given_back { IfErr result (λ refused. D.reads refused.0 ≡ D.reads disk) }
        // While records are opened, and after a fault, a crash leaves what it might have left before.
        ensures any_moment { MatchResult result (λ records. LeavesOnly D.moment D.left_since disk records.disk (IsImage (D.may_leave disk))) (λ refused. LeavesOnly D.moment D.left_since disk refused.0 (IsImage (D.may_leave disk))) }
        // A crash preserves the records that were found.
        ensures whole { IfOk result (λ records. ForSome (D.reads disk) (λ _. EachOpens (D.may_leave records.disk) records.kept)) }
        ensures later { MatchResult result (λ records. D.faults disk ≤ D.faults records.disk) (λ refused. D.faults disk ≤ D.faults refused.0) }
        ensures cause { IfErr result (λ refused. refused.1 ≡ OpenFault.Disk → Rose (D.faults disk) (D.faults refused.0)) }
    {
        show_laws();
        let start = Snapshot::of(&disk);
        let mut disk = disk;
        match read_records(alloc, &mut disk) {
            Ok((log, kept)) => Ok(Records {
                disk,
                start,
                log,
                kept,
                pending: None,
            }),
            Err(fault) => Err((disk, fault)),
        }
    }
}
