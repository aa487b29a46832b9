//! Records are added.
ghost use Rattle.std.specs.Prelude.{◌≡◌, ◌≢◌, ◌+◌, ◌^◌, ◌<◌, ◌≤◌, List, ℕ, length, Some, true, false, if◌then◌else◌, Ok, slice_index, ◌==◌, IsErrOf, OnOk, OnErr, IfOk};
ghost use Rattle.std.specs.Option.{ForSome};
ghost use Rattle.cm_base.specs.Causes.{Rose, HasCause};
ghost use Rattle.cm_disk.specs.Disk.{Files, bytes_of, LeavesOnly};
ghost use Rattle.cm_log.specs.Frames.{OnlyReads, LeavesAlone};
ghost use Rattle.cm_log.specs.Logs.{Shelved, shelved, added};
ghost use Rattle.cm_log.specs.Outcomes.{IsSameLog, IsExtended, IsPending, IsRefusal, IsFound, StandsAfter};
ghost use Rattle.cm_log.specs.Settled.{shelf_of, place_of, end_of, is_settled, IsSettled, IsUnsettled, Stands, IsBeforeOrAfter, Adds};

use crate::commit::commit;
use crate::faults::AppendFault;
use crate::state::Log;
use cm_base::Place;
use cm_disk::{Disk, DiskFault};

/// The most bytes of a log.
const MOST: u64 = 1 << 40;

/// The most bytes of a record's body.
const MOST_BODY: usize = 65536;

impl Log {
    /// The place of the closed gate.
    pub fn end(&self) -> u64
        ensures { result ≡ end_of self.now }
    {
        self.end
    }

    /// Whether no append has failed since the log was last settled.
    pub fn is_settled(&self) -> bool
        ensures { result ≡ is_settled self.now }
    {
        self.end_with == self.end
    }

    /// Adds a record of at most 65,536 bytes. After Ok a crash preserves it, and its number is answered, from 0. `TooLong`
    /// and `Full` are answered before any device is called, and change nothing. After `Disk` the record is there or not, for
    /// a read and after a crash: the log is unsettled, ends where it ended, and `settle` tells.
    pub fn append<D: Disk>(&mut self, disk: &mut D, body: &[u8]) -> Result<u64, AppendFault>
        requires idle { is_settled self.old ≡ true }
        requires settled { ForSome (D.reads disk.old) (λ files. IsSettled files (D.may_leave disk.old) self.old) }

        ensures ok { IfOk result (λ number. IsExtended self.old self.new body.now number) }
        ensures acknowledged { OnOk result (ForSome (D.reads disk.old) (λ files. (now : Files) × (D.reads disk.new ≡ Some now) × Adds (shelf_of self.old) (place_of self.old) files now body.now)) }
        ensures refused { IsRefusal body.now disk.old disk.new self.old self.new result }
        ensures failed { IsErrOf result AppendFault.Disk → IsPending self.old self.new body.now }
        ensures unsettled { IsErrOf result AppendFault.Disk → ForSome (D.reads disk.old) (λ files. (now : Files) × (D.reads disk.new ≡ Some now)
            × IsUnsettled now (D.may_leave disk.new) self.new (shelved (shelf_of self.old) files) body.now) }
        ensures stands { ForSome (D.reads disk.new) (λ files. StandsAfter result files (D.may_leave disk.new) self.new) }
        // A crash at any moment leaves the log from before, with the record or without.
        ensures any_moment { ForSome (D.reads disk.old) (λ files. LeavesOnly D.moment D.left_since disk.old disk.new
            (IsBeforeOrAfter (shelf_of self.old) (place_of self.old) (D.may_leave disk.old) (shelved (shelf_of self.old) files) body.now)) }
        ensures alone { LeavesAlone (λ q. q ≢ place_of self.old) D.reads D.may_leave D.moment D.left_since D.faults disk.old disk.new }
        ensures log { IsSameLog self.old self.new }
        ensures cause { IsErrOf result AppendFault.Disk → Rose (D.faults disk.old) (D.faults disk.new) }
    {
        if body.len() > MOST_BODY {
            return Err(AppendFault::TooLong { len: body.len() });
        }
        if self.end + body.len() as u64 + 6 > MOST {
            return Err(AppendFault::Full);
        }
        self.end_with = self.end + 5 + body.len() as u64;
        commit(disk, &self.place, self.end, body)?;
        self.end = self.end_with;
        let number = self.number;
        self.number = number + 1;
        Ok(number)
    }

    /// Tells whether the record of a failed append is there, and makes durable what it tells. On a settled log it answers
    /// false and calls no device.
    pub fn settle<D: Disk>(&mut self, disk: &mut D) -> Result<bool, DiskFault>
        requires stands { ForSome (D.reads disk.old) (λ files. Stands files (D.may_leave disk.old) self.old) }
        ensures ok { IfOk result (λ there. IsFound self.old self.new there) }
        ensures told { IfOk result (λ there. ForSome (D.reads disk.old) (λ files. (old : Shelved) (body : List ℕ) → IsUnsettled files (D.may_leave disk.old) self.old old body
            → shelved (shelf_of self.old) files ≡ (if there then added body old else old))) }
        ensures was_settled { is_settled self.old ≡ true → (result ≡ Ok false) × (disk.new ≡ disk.old) × (self.new ≡ self.old) }
        ensures failed { OnErr result (self.new ≡ self.old) }
        ensures unsettled { OnErr result (ForSome (D.reads disk.old) (λ files. (old : Shelved) (body : List ℕ) → IsUnsettled files (D.may_leave disk.old) self.old old body
            → IsUnsettled files (D.may_leave disk.new) self.new old body)) }
        ensures stands { ForSome (D.reads disk.new) (λ files. StandsAfter result files (D.may_leave disk.new) self.new) }
        ensures only { OnlyReads D.reads D.may_leave D.moment D.left_since D.faults disk.old disk.new }
        ensures log { IsSameLog self.old self.new }
        ensures cause { HasCause (D.faults disk.old) (D.faults disk.new) result }
    {
        if self.end_with == self.end {
            return Ok(false);
        }
        // Sync before looking: a gate that is read but not durable could be lost in a crash after it was told.
        disk.sync(&self.place)?;
        if is_open(disk, &self.place, self.end)? {
            self.end = self.end_with;
            self.number = self.number + 1;
            return Ok(true);
        }
        self.end_with = self.end;
        Ok(false)
    }
}

// Whether the gate there is open.
fn is_open<D: Disk>(disk: &mut D, place: &Place, at: u64) -> Result<bool, DiskFault>
    ensures value { IfOk result (λ is. ForSome (D.reads disk.old) (λ files. is ≡ (slice_index (bytes_of (files place.now)) at == 1))) }
    ensures only { OnlyReads D.reads D.may_leave D.moment D.left_since D.faults disk.old disk.new }
    ensures cause { HasCause (D.faults disk.old) (D.faults disk.new) result }
{
    let mut gate = [0u8; 1];
    let count = disk.read_at(place, at, &mut gate)?;
    if count == 0 {
        return Ok(false);
    }
    Ok(gate[0] == 1)
}
