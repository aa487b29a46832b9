//! A failed call is settled.
ghost use Rattle.std.specs.Prelude.{◌≡◌, ◌<◌, ◌^◌, false, Ok, None, IfOk, OnOk, OnErr};
ghost use Rattle.std.specs.Option.{ForSome};
ghost use Rattle.cm_base.specs.Causes.{HasCause};
ghost use Rattle.cm_disk.specs.Disk.{Files, IsImage};
ghost use Rattle.cm_log.specs.Frames.{OnlyReads};
ghost use Rattle.cm_log.specs.Settled.{end_of};
ghost use Rattle.cm_register.specs.Kept.{under_alone};
ghost use Rattle.cm_register.specs.Look.{Opened, look};
ghost use Rattle.cm_register.specs.Opens.{OpensOr};
ghost use Rattle.cm_records.specs.Calls.{Finds, StaysUnsettled, Tells};
ghost use Rattle.cm_records.specs.Kept.{pending_in, IsRecords};
ghost use Rattle.cm_records.specs.Seen.{Reads};

use crate::laws::show_laws;
use crate::pending::Pending;
use crate::records::Records;
use cm_disk::{Disk, DiskFault};
use cm_log::Log;
use cm_register::Kept;

// Settles what became of a call that the disk failed.
fn settle_pending<D: Disk>(
    disk: &mut D,
    log: &mut Log,
    kept: &mut Kept,
    pending: &mut Option<Pending>,
) -> Result<bool, DiskFault>
    requires { IsRecords D.reads D.may_leave disk.old log.old kept.old pending.old }
    ensures kept { IsRecords D.reads D.may_leave disk.new log.new kept.new pending.new }
    ensures idle { OnOk result (pending.new ≡ None) }
    ensures told { IfOk result (Tells (pending_in pending.old) kept.old (end_of log.old) kept.new (end_of log.new)) }
    ensures failed { OnErr result ((kept.new ≡ kept.old) × (end_of log.new ≡ end_of log.old) × (pending.new ≡ pending.old)) }
    ensures was_settled { pending.old ≡ None → (result ≡ Ok false) × (disk.new ≡ disk.old) × (log.new ≡ log.old) × (kept.new ≡ kept.old) }
    ensures only { OnlyReads D.reads D.may_leave D.moment D.left_since D.faults disk.old disk.new }
    ensures cause { HasCause (D.faults disk.old) (D.faults disk.new) result }
{
    show_laws();
    let Some(one) = pending.take() else {
        return Ok(false);
    };
    match log.settle(disk) {
        Ok(true) => {
            one.make(kept);
            Ok(true)
        }
        Ok(false) => Ok(false),
        Err(fault) => {
            *pending = Some(one);
            Err(fault)
        }
    }
}

impl<D: Disk> Records<D> {
    /// Settles what became of a call that the disk failed: whether its record was committed. False where no call had failed. It takes no
    /// memory, and reads and syncs alone.
    pub fn settle(&mut self) -> Result<bool, DiskFault>
        ensures found { OnOk result (Finds D.reads self.old self.new) }
        ensures told { IfOk result (Tells self.old.pending self.old.kept self.old.end self.new.kept self.new.end) }
        ensures failed { OnErr result (StaysUnsettled self.old self.new) }
        ensures was_settled { self.old.pending ≡ None → (result ≡ Ok false) × (self.new ≡ self.old) }
        ensures only { OnlyReads D.reads D.may_leave D.moment D.left_since D.faults self.old.disk self.new.disk }
        ensures cause { HasCause (D.faults self.old.disk) (D.faults self.new.disk) result }
    {
        settle_pending(
            &mut self.disk,
            &mut self.log,
            &mut self.kept,
            &mut self.pending,
        )
    }

    /// Says, to contracts alone, what a crash leaves now: the records, or where a call has failed those before its record or behind it.
    pub fn tells(&self)
        ensures files { ForSome (D.reads self.now.disk) (λ files. self.now.pending ≡ None → Reads files self.now.kept self.now.end) }
        ensures opens { ForSome (D.reads self.now.disk) (λ _. (image : Files) → IsImage (D.may_leave self.now.disk) image → OpensOr self.now.kept self.now.pending image) }
        // Nothing but topologies was written.
        ensures alone { self.now.kept ≡ under_alone self.now.kept.topology self.now.kept.number }
        ensures number { self.now.kept.number < 2 ^ 32 }
        ensures end { self.now.end < 2 ^ 41 }
    {
        show_laws();
        self.kept.show_alone();
        let _number = self.kept.number();
        let _end = self.log.end();
    }
}
