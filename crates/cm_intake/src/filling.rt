//! The files of a job are read again.
ghost use Rattle.std.specs.Prelude.{◌≡◌, ◌≢◌, ◌<◌, ◌≤◌, ℕ, true, is_some, length, [], None, Some, OnOk, IfOk, IfErr};
ghost use Rattle.std.specs.List.{AllByRecursion};
ghost use Rattle.cm_base.specs.Causes.{HasCause};
ghost use Rattle.cm_contents.specs.Seals.{job_manifest};
ghost use Rattle.cm_contents.specs.Wants.{size_in};
ghost use Rattle.cm_library.specs.Started.{holder_of};
ghost use Rattle.cm_pkglib.specs.Counts.{seal_at};
ghost use Rattle.cm_state.specs.Needed.{is_named};
ghost use Rattle.cm_state.specs.State.{held_by_job};
ghost use Rattle.cm_tree.specs.declared.entry.Entry.{Entry as an_entry};
ghost use Rattle.cm_intake.specs.Filling.{KeepsState, StaysRead, IsUnread, ReadsFirst, IsSecond, drop_cause, Fills};
ghost use Rattle.cm_intake.specs.Firsts.{AreFirsts};

use crate::IntakeFault;
use crate::calls::next_wanted;
use crate::firsts::Firsts;
use crate::rereading::{Unread, store_again};
use cm_base::{Hash, JobId};
use cm_disk::{Disk, DiskFault};
use cm_library::Library;
use cm_tree::{Entry, Folder};

/// Reads a hash that is wanted again, from its first entry, and seals it, or tells what has changed.
fn fill_one<F: Folder, D: Disk + Drop>(
    library: &mut Library<D>,
    folder: &mut F,
    job: JobId,
    entries: &[Entry],
    firsts: &Firsts,
    hash: Hash,
    piece: &mut [u8],
) -> Result<Option<IntakeFault>, Unread>
    requires settled { library.old.pending ≡ None }
    requires unfinished { is_some (held_by_job job library.old.state.jobs) ≡ true }
    requires manifest { job_manifest job library.old.state ≡ entries.now }
    requires wanted { size_in hash entries.now ≢ None }
    requires unsealed { seal_at library.old.seals hash ≡ None }
    requires free { holder_of job hash library.old.started ≡ None }
    requires firsts { AreFirsts firsts.now entries.now }
    requires piece { length piece.old ≡ 65536 }
    requires read { (k : ℕ) → k < length entries.now → (F.shows folder.old).now k ≡ (F.shows folder.old).later k }
    ensures keeps { KeepsState D.reads D.may_leave D.moment D.left_since job library.old library.new }
    ensures first { IfOk result (ReadsFirst (F.shows folder.old) entries.now hash (seal_at library.old.seals) (seal_at library.new.seals)) }
    ensures shown { StaysRead (F.shows folder.old) (F.shows folder.new) }
    ensures folder_later { F.faults folder.old ≤ F.faults folder.new }
    ensures later { D.faults library.old.disk ≤ D.faults library.new.disk }
    ensures cause { IfErr result (IsUnread (F.faults folder.old) (F.faults folder.new) (D.faults library.old.disk) (D.faults library.new.disk)) }
{
    let n = match firsts.number(hash) {
        Some(n) => n,
        None => unreachable!(),
    };
    let entry = &entries[n as usize];
    match store_again(library, folder, job, n, hash, entry.size, piece) {
        Ok(None) => Ok(None),
        Ok(Some((second, second_size))) => Ok(Some(IntakeFault::Changed {
            path: entry.path,
            first: entry.hash,
            first_size: entry.size,
            second,
            second_size,
        })),
        Err(fault) => Err(fault),
    }
}

/// Reads each hash again that a job wants, in rising order, and seals it. It ends where one has changed or the folder fails, and tells
/// for which of the two the job is to be dropped.
pub(crate) fn fill<F: Folder, D: Disk + Drop>(
    library: &mut Library<D>,
    folder: &mut F,
    job: JobId,
    entries: &[Entry],
    firsts: &Firsts,
    piece: &mut [u8],
) -> Result<Option<IntakeFault>, DiskFault>
    requires settled { library.old.pending ≡ None }
    requires free { library.old.started ≡ [] }
    requires unfinished { is_some (held_by_job job library.old.state.jobs) ≡ true }
    requires manifest { job_manifest job library.old.state ≡ entries.now }
    requires sealed { AllByRecursion (λ (entry : an_entry). is_some (seal_at library.old.seals entry.hash) ≡ is_named entry.hash.0 library.old.state) entries.now }
    requires firsts { AreFirsts firsts.now entries.now }
    requires piece { length piece.old ≡ 65536 }
    requires read { (k : ℕ) → k < length entries.now → (F.shows folder.old).now k ≡ (F.shows folder.old).later k }
    ensures keeps { KeepsState D.reads D.may_leave D.moment D.left_since job library.old library.new }
    ensures fills { Fills (F.shows folder.old) (F.faults folder.old) (F.faults folder.new) entries.now library.old library.new result }
    ensures folder_later { F.faults folder.old ≤ F.faults folder.new }
    ensures cause { HasCause (D.faults library.old.disk) (D.faults library.new.disk) result }
{
    library.tells();
    let mut after = None;
    'hashes: loop {
        let hash = match next_wanted(library, job, after) {
            Some((hash, _)) => hash,
            None => return Ok(None),
        };
        match fill_one(library, folder, job, entries, firsts, hash, piece) {
            Ok(None) => after = Some(hash),
            Ok(Some(change)) => return Ok(Some(change)),
            Err(Unread::Folder) => return Ok(Some(IntakeFault::Folder)),
            Err(Unread::Disk) => return Err(DiskFault),
        }
    }
}
