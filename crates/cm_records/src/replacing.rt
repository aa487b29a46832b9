//! A topology takes the place of the one before.
ghost use Rattle.std.specs.Prelude.{◌≡◌, ◌≢◌, ◌+◌, ◌-◌, ◌^◌, ◌<◌, ◌≤◌, ◌⊎◌, length, true, None, Some, Ok, OnErr, OnOk};
ghost use Rattle.std.specs.Option.{ForSome};
ghost use Rattle.cm_base.specs.Causes.{HasCause};
ghost use Rattle.cm_disk.specs.Disk.{Files, LeavesOnly};
ghost use Rattle.cm_log.specs.Frames.{LeavesAlone};
ghost use Rattle.cm_log.specs.Logs.{shelved};
ghost use Rattle.cm_log.specs.Outcomes.{IsPending};
ghost use Rattle.cm_log.specs.Settled.{shelf_of, place_of, end_of, is_settled, IsSettled, IsUnsettled, IsBeforeOrAfter, Adds};
ghost use Rattle.cm_notes.specs.Notes.{IsNote, spelled};
ghost use Rattle.cm_register.specs.Look.{topology_named};
ghost use Rattle.cm_register.specs.Opens.{OpensOr};
ghost use Rattle.cm_state.specs.Adding.{Told};
ghost use Rattle.cm_topo.specs.Outcomes.{topology_in};
ghost use Rattle.cm_records.specs.Calls.{Commits, FailsWith};
ghost use Rattle.cm_records.specs.Kept.{note_in, noted_in, pending_in, BringsText, IsRecords};
ghost use Rattle.cm_records.specs.Placing.{KeepsPlaces};
ghost use Rattle.cm_records.specs.Seen.{HasNoted, next_topology};

use crate::laws::show_laws;
use crate::pending::Pending;
use crate::records::Records;
use cm_base::Hash;
use cm_disk::{Disk, DiskFault};
use cm_log::{AppendFault, Log};
use cm_register::Kept;
use cm_textlib::store;
use cm_topo::Topology;
use sha2::{Digest, Sha256};

// Adds the record of a topology to the log, which has room for it.
fn add_record<D: Disk>(log: &mut Log, disk: &mut D, one: &Pending) -> Result<(), DiskFault>
    requires idle { is_settled log.old ≡ true }
    requires settled { ForSome (D.reads disk.old) (λ files. IsSettled files (D.may_leave disk.old) log.old) }
    requires room { end_of log.old ≤ 2 ^ 40 - 1048576 }
    ensures idle { OnOk result (is_settled log.new ≡ true) }
    ensures settled { OnOk result (ForSome (D.reads disk.new) (λ files. IsSettled files (D.may_leave disk.new) log.new)) }
    ensures adds { OnOk result (ForSome (D.reads disk.old) (λ files. (now : Files) × (D.reads disk.new ≡ Some now) × Adds (shelf_of log.old) (place_of log.old) files now (spelled (note_in one.now)))) }
    ensures end { OnOk result (end_of log.new ≡ end_of log.old + 5 + length (spelled (note_in one.now))) }
    ensures shelf { shelf_of log.new ≡ shelf_of log.old }
    ensures form { IsNote (note_in one.now) }
    // A crash at any moment leaves the log from before, with the record or without. After a fault so it stands.
    ensures any_moment { ForSome (D.reads disk.old) (λ files. LeavesOnly D.moment D.left_since disk.old disk.new (IsBeforeOrAfter (shelf_of log.old) (place_of log.old) (D.may_leave disk.old) (shelved (shelf_of log.old) files) (spelled (note_in one.now)))) }
    ensures failed { OnErr result (IsPending log.old log.new (spelled (note_in one.now))) }
    ensures unsettled { OnErr result (ForSome (D.reads disk.old) (λ files. (now : Files) × (D.reads disk.new ≡ Some now) × IsUnsettled now (D.may_leave disk.new) log.new (shelved (shelf_of log.old) files) (spelled (note_in one.now)))) }
    ensures alone { LeavesAlone (λ q. q ≢ place_of log.old) D.reads D.may_leave D.moment D.left_since D.faults disk.old disk.new }
    ensures cause { HasCause (D.faults disk.old) (D.faults disk.new) result }
{
    let note = one.note();
    let mut body = [0u8; 128];
    let count = note.encode(&mut body);
    match log.append(disk, &body[..count]) {
        Ok(_) => Ok(()),
        Err(AppendFault::Disk) => Err(DiskFault),
        Err(AppendFault::TooLong { len: _ }) => unreachable!(),
        Err(AppendFault::Full) => unreachable!(),
    }
}

// Commits a topology whose text is stored: its record is added, and then it is taken in memory. After a fault it is pending.
fn commit<D: Disk>(
    disk: &mut D,
    log: &mut Log,
    kept: &mut Kept,
    pending: &mut Option<Pending>,
    one: Pending,
) -> Result<(), DiskFault>
    requires kept { IsRecords D.reads D.may_leave disk.old log.old kept.old pending.old }
    requires idle { pending.old ≡ None }
    requires room { end_of log.old ≤ 2 ^ 40 - 1048576 }
    requires brings { ForSome (D.reads disk.old) (λ _. BringsText (D.may_leave disk.old) one) }
    ensures kept { IsRecords D.reads D.may_leave disk.new log.new kept.new pending.new }
    ensures done { OnOk result ((pending.new ≡ None) × HasNoted (noted_in one) kept.old (end_of log.old) kept.new (end_of log.new)) }
    ensures failed { OnErr result ((kept.new ≡ kept.old) × (end_of log.new ≡ end_of log.old) × (pending_in pending.new ≡ Some (noted_in one))) }
    // A crash at any moment leaves the records before this one or behind it.
    ensures any_moment { ForSome (D.reads disk.old) (λ _. LeavesOnly D.moment D.left_since disk.old disk.new (OpensOr kept.old (Some (noted_in one)))) }
    ensures places { Told KeepsPlaces (D.reads disk.old) (D.reads disk.new) }
    ensures silent { D.reads disk.old ≡ None → D.reads disk.new ≡ None }
    ensures cause { HasCause (D.faults disk.old) (D.faults disk.new) result }
{
    show_laws();
    match add_record(log, disk, &one) {
        Ok(()) => {
            one.make(kept);
            Ok(())
        }
        Err(fault) => {
            *pending = Some(one);
            Err(fault)
        }
    }
}

// Stores the text of a topology, and then commits its record.
fn store_and_commit<D: Disk>(
    disk: &mut D,
    log: &mut Log,
    kept: &mut Kept,
    pending: &mut Option<Pending>,
    text: &[u8],
    one: Pending,
) -> Result<(), DiskFault>
    requires kept { IsRecords D.reads D.may_leave disk.old log.old kept.old pending.old }
    requires idle { pending.old ≡ None }
    requires room { end_of log.old ≤ 2 ^ 40 - 1048576 }
    requires fits { length text.now ≤ 4194304 }
    requires next { one.number ≡ kept.old.number + 1 }
    requires named { topology_named one.size one.hash (Some text.now) ≡ Some one.topology }
    ensures kept { IsRecords D.reads D.may_leave disk.new log.new kept.new pending.new }
    ensures done { OnOk result ((pending.new ≡ None) × HasNoted (noted_in one) kept.old (end_of log.old) kept.new (end_of log.new)) }
    ensures failed { OnErr result ((kept.new ≡ kept.old) × (end_of log.new ≡ end_of log.old) × ((pending_in pending.new ≡ None) ⊎ (pending_in pending.new ≡ Some (noted_in one)))) }
    ensures any_moment { ForSome (D.reads disk.old) (λ _. LeavesOnly D.moment D.left_since disk.old disk.new (OpensOr kept.old (Some (noted_in one)))) }
    ensures either { ForSome (D.reads disk.old) (λ _. (now : Files) × (D.reads disk.new ≡ Some now) × OpensOr kept.old (Some (noted_in one)) now) }
    ensures places { Told KeepsPlaces (D.reads disk.old) (D.reads disk.new) }
    ensures cause { HasCause (D.faults disk.old) (D.faults disk.new) result }
{
    show_laws();
    // The text first: a record whose text is not durable would make the records unreadable after a crash.
    match store(disk, one.number, text) {
        Ok(()) => commit(disk, log, kept, pending, one),
        Err(fault) => Err(fault),
    }
}

impl<D: Disk> Records<D> {
    /// Replaces the topology by the one that a text says: the text is stored and made durable under the next number, and then the record
    /// is committed. After a fault the record is there or not, and `settle` tells; or nothing is pending, and it is not.
    pub fn replace(&mut self, text: &[u8], topology: Topology, minute: u64) -> Result<(), DiskFault>
        requires settled { self.old.pending ≡ None }
        requires said { topology_in text.now ≡ Ok topology }
        requires fits { length text.now ≤ 4194304 }
        requires number { self.old.kept.number < 2 ^ 32 - 1 }
        requires room { self.old.end ≤ 2 ^ 40 - 1048576 }
        ensures done { OnOk result (Commits D.reads (next_topology text.now topology minute self.old.kept) self.old self.new) }
        ensures failed { OnErr result (FailsWith (next_topology text.now topology minute self.old.kept) self.old self.new) }
        // After a fault reads give the records before this one or behind it.
        ensures either { ForSome (D.reads self.old.disk) (λ _. (now : Files) × (D.reads self.new.disk ≡ Some now) × OpensOr self.old.kept (Some (next_topology text.now topology minute self.old.kept)) now) }
        // A crash at any moment leaves the records before this one or behind it.
        ensures any_moment { ForSome (D.reads self.old.disk) (λ _. LeavesOnly D.moment D.left_since self.old.disk self.new.disk (OpensOr self.old.kept (Some (next_topology text.now topology minute self.old.kept)))) }
        ensures start { self.new.start ≡ self.old.start }
        ensures places { Told KeepsPlaces (D.reads self.old.disk) (D.reads self.new.disk) }
        ensures cause { HasCause (D.faults self.old.disk) (D.faults self.new.disk) result }
    {
        let one = Pending {
            number: self.kept.number() + 1,
            size: text.len() as u32,
            hash: Hash(Sha256::digest(text)),
            minute,
            topology,
        };
        store_and_commit(
            &mut self.disk,
            &mut self.log,
            &mut self.kept,
            &mut self.pending,
            text,
            one,
        )
    }
}
