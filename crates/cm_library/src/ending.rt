//! Jobs end, and versions are removed.
ghost use Rattle.std.specs.Prelude.{◌≡◌, ◌≢◌, ◌≤◌, false, None, IfErr, IsErrOf, vec_capacity};
ghost use Rattle.std.specs.Option.{ForSome};
ghost use Rattle.cm_base.specs.Causes.{Rose};
ghost use Rattle.cm_disk.specs.Disk.{LeavesOnly};
ghost use Rattle.cm_pkglib.specs.Changes.{IsChange};
ghost use Rattle.cm_pkglib.specs.Counts.{seal_at};
ghost use Rattle.cm_pkglib.specs.Rows.{is_opened};
ghost use Rattle.cm_state.specs.Adding.{Told, KeepsStore};
ghost use Rattle.cm_state.specs.Changes.{Finished, Dropped, Removed, if_allowed};
ghost use Rattle.cm_state.specs.Faults.{of_row_fault, RefusesOr};
ghost use Rattle.cm_state.specs.Look.{Opened, look};
ghost use Rattle.cm_state.specs.Opens.{OpensOr, StandsOr, EachOpensSome};
ghost use Rattle.cm_state.specs.State.{State};
ghost use Rattle.cm_contents.specs.Contents.{change_in};
ghost use Rattle.cm_contents.specs.Seals.{end_fault};
ghost use Rattle.cm_library.specs.Calls.{AnyMoment, Ends, EndsOrStays};
ghost use Rattle.cm_library.specs.Filing.{KeepsRows};
ghost use Rattle.cm_library.specs.Placing.{KeepsPlaces};
ghost use Rattle.cm_library.specs.Started.{left_by};

use crate::commits::commit;
use crate::library::Library;
use crate::started::leave_file;
use cm_base::{JobId, PackageId, Version};
use cm_contents::not_stored;
use cm_disk::Disk;
use cm_filelib::Writing;
use cm_pkglib::{Change, RowFault};
use cm_state::LibFault;

/// Why a change is refused that the rows refuse.
pub(crate) fn of_rows(fault: RowFault) -> LibFault
    ensures { result ≡ of_row_fault fault }
{
    match fault {
        RowFault::NoJob => LibFault::NoJob,
        RowFault::NoVersion => LibFault::NoVersion,
        RowFault::VersionThere => LibFault::VersionThere,
        RowFault::JobThere { job } => LibFault::JobThere { job },
        RowFault::TooManyVersions => LibFault::TooManyVersions,
        RowFault::TooManyEntries => LibFault::TooManyEntries,
        RowFault::TooManyJobs => LibFault::TooManyJobs,
        RowFault::WrongJob => LibFault::Spent,
    }
}

// The record that a job is finished. Its number is in its range, which is said here alone.
pub(crate) fn done(job: JobId) -> Change
    ensures change { result ≡ Change.Done job }
    ensures form { IsChange (Change.Done job) }
{
    let _number = job.number();
    Change::Done { job }
}

fn dropped(job: JobId) -> Change
    ensures change { result ≡ Change.Dropped job }
    ensures form { IsChange (Change.Dropped job) }
{
    let _number = job.number();
    Change::Dropped { job }
}

fn removed(package: PackageId, version: Version) -> Change
    ensures change { result ≡ Change.Removed «package» version }
    ensures form { IsChange (Change.Removed «package» version) }
{
    let _number = version.number();
    let _bytes = package.as_bytes();
    Change::Removed { package, version }
}

// A job that is dropped gives up its started file.
fn leave_by(started: &mut Vec<(JobId, Writing)>, change: &Change)
    requires { is_opened change.now ≡ false }
    ensures rest { started.new.items ≡ left_by (change_in None change.now) started.old.items }
    ensures capacity { vec_capacity started.new ≡ vec_capacity started.old }
{
    match *change {
        Change::Opened { .. } => {}
        Change::Done { .. } => {}
        Change::Dropped { job } => leave_file(started, job),
        Change::Removed { .. } => {}
    }
}

impl<D: Disk> Library<D> {
    // Why a change is refused other than that a job begins.
    fn end_fault(&self, change: &Change) -> Option<LibFault>
        requires { is_opened change.now ≡ false }
        ensures { result ≡ end_fault (seal_at self.now.seals) self.now.state (change_in None change.now) }
    {
        match self.contents.check(change) {
            Ok(()) => {}
            Err(fault) => return Some(of_rows(fault)),
        }
        match *change {
            Change::Done { job } => match not_stored(&self.contents, &self.counts, job) {
                Some(hash) => Some(LibFault::NotStored { hash }),
                None => None,
            },
            Change::Opened { .. } => None,
            Change::Dropped { .. } => None,
            Change::Removed { .. } => None,
        }
    }

    // Commits a change other than that a job begins, on a settled library.
    pub(crate) fn end_settled(&mut self, change: &Change) -> Result<(), LibFault>
        requires settled { self.old.pending ≡ None }
        requires ends { is_opened change.now ≡ false }
        requires form { IsChange change.now }
        ensures ends { Ends self.old (change_in None change.now) self.new result }
        ensures refused { RefusesOr (end_fault (seal_at self.old.seals) self.old.state (change_in None change.now)) result }
        ensures unchanged { IfErr result (λ fault. fault ≢ LibFault.Disk → self.new ≡ self.old) }
        ensures store { Told KeepsStore (D.reads self.old.disk) (D.reads self.new.disk) }
        ensures places { Told KeepsPlaces (D.reads self.old.disk) (D.reads self.new.disk) }
        ensures stands { ForSome (D.reads self.old.disk) (λ _. LeavesOnly D.moment D.left_since self.old.disk self.new.disk (StandsOr self.old.state (if_allowed (change_in None change.now) self.old.state))) }
        ensures opens { EachOpensSome (D.may_leave self.old.start) → ForSome (D.reads self.old.disk) (λ _. LeavesOnly D.moment D.left_since self.old.disk self.new.disk (OpensOr self.old.state (if_allowed (change_in None change.now) self.old.state))) }
        ensures later { D.faults self.old.disk ≤ D.faults self.new.disk }
        ensures cause { IsErrOf result LibFault.Disk → Rose (D.faults self.old.disk) (D.faults self.new.disk) }
    {
        match self.end_fault(change) {
            Some(fault) => return Err(fault),
            None => {}
        }
        leave_by(&mut self.started, change);
        match commit(
            &self.start,
            &mut self.disk,
            &mut self.log,
            &mut self.contents,
            &mut self.counts,
            &mut self.pending,
            change,
        ) {
            Ok(()) => Ok(()),
            Err(_) => Err(LibFault::Disk),
        }
    }

    // A job that is to be dropped gives up its started file.
    fn leave_by(&mut self, change: &Change)
        requires { is_opened change.now ≡ false }
        ensures started { self.new.started ≡ left_by (change_in None change.now) self.old.started }
        ensures rows { KeepsRows self.old self.new }
        ensures seals { self.new.seals ≡ self.old.seals }
        ensures disk { self.new.disk ≡ self.old.disk }
    {
        leave_by(&mut self.started, change);
    }

    // Settles, and then commits a change other than that a job begins.
    fn end_by(&mut self, change: &Change) -> Result<(), LibFault>
        requires ends { is_opened change.now ≡ false }
        requires form { IsChange change.now }
        ensures call { EndsOrStays D.reads (λ _. change_in None change.now) (λ mid answer. RefusesOr (end_fault (seal_at mid.seals) mid.state (change_in None change.now)) answer) self.old self.new result }
        ensures unchanged { self.old.pending ≡ None → IfErr result (λ fault. fault ≢ LibFault.Disk → self.new ≡ self.old) }
        ensures same { IfErr result (λ fault. fault ≢ LibFault.Disk → D.reads self.new.disk ≡ D.reads self.old.disk) }
        ensures store { Told KeepsStore (D.reads self.old.disk) (D.reads self.new.disk) }
        ensures places { Told KeepsPlaces (D.reads self.old.disk) (D.reads self.new.disk) }
        ensures any_moment { ForSome (D.reads self.old.disk) (λ files. (found : State) → look files ≡ Opened found → AnyMoment D.moment D.left_since StandsOr (if_allowed (change_in None change.now)) self.old.disk self.new.disk self.old.state self.old.pending found) }
        ensures opens { EachOpensSome (D.may_leave self.old.start) → ForSome (D.reads self.old.disk) (λ files. (found : State) → look files ≡ Opened found → AnyMoment D.moment D.left_since OpensOr (if_allowed (change_in None change.now)) self.old.disk self.new.disk self.old.state self.old.pending found) }
        ensures later { D.faults self.old.disk ≤ D.faults self.new.disk }
        ensures cause { IsErrOf result LibFault.Disk → Rose (D.faults self.old.disk) (D.faults self.new.disk) }
    {
        self.tells();
        match self.settle() {
            Ok(_) => {}
            Err(fault) => {
                self.leave_by(change);
                return Err(fault);
            }
        }
        self.end_settled(change)
    }

    /// Finishes a job: its version is there. `NoJob` if and only if the job is not unfinished; else `NotStored` if and only if a
    /// hash of its manifest is not sealed with its entry's size. Then nothing has changed. It takes no memory. After `Disk` the rows
    /// are told as before the call, and the change may be committed.
    pub fn finish(&mut self, job: JobId) -> Result<(), LibFault>
        ensures call { EndsOrStays D.reads (λ _. Finished job) (λ mid answer. RefusesOr (end_fault (seal_at mid.seals) mid.state (Finished job)) answer) self.old self.new result }
        ensures unchanged { self.old.pending ≡ None → IfErr result (λ fault. fault ≢ LibFault.Disk → self.new ≡ self.old) }
        ensures same { IfErr result (λ fault. fault ≢ LibFault.Disk → D.reads self.new.disk ≡ D.reads self.old.disk) }
        ensures store { Told KeepsStore (D.reads self.old.disk) (D.reads self.new.disk) }
        ensures places { Told KeepsPlaces (D.reads self.old.disk) (D.reads self.new.disk) }
        // A crash at any moment leaves the state before the change or after it.
        ensures any_moment { ForSome (D.reads self.old.disk) (λ files. (found : State) → look files ≡ Opened found → AnyMoment D.moment D.left_since StandsOr (if_allowed (Finished job)) self.old.disk self.new.disk self.old.state self.old.pending found) }
        // With all files of its versions, where each image opened to some state at the opening.
        ensures opens { EachOpensSome (D.may_leave self.old.start) → ForSome (D.reads self.old.disk) (λ files. (found : State) → look files ≡ Opened found → AnyMoment D.moment D.left_since OpensOr (if_allowed (Finished job)) self.old.disk self.new.disk self.old.state self.old.pending found) }
        ensures later { D.faults self.old.disk ≤ D.faults self.new.disk }
        ensures cause { IsErrOf result LibFault.Disk → Rose (D.faults self.old.disk) (D.faults self.new.disk) }
    {
        self.end_by(&done(job))
    }

    /// Gives up a job, and first its started file. `NoJob` if and only if the job is not unfinished, and then nothing has changed. It
    /// takes no memory. After `Disk` the job has no started file, the rows are told as before the call, and the change may be committed.
    pub fn drop_job(&mut self, job: JobId) -> Result<(), LibFault>
        ensures call { EndsOrStays D.reads (λ _. Dropped job) (λ mid answer. RefusesOr (end_fault (seal_at mid.seals) mid.state (Dropped job)) answer) self.old self.new result }
        ensures unchanged { self.old.pending ≡ None → IfErr result (λ fault. fault ≢ LibFault.Disk → self.new ≡ self.old) }
        ensures same { IfErr result (λ fault. fault ≢ LibFault.Disk → D.reads self.new.disk ≡ D.reads self.old.disk) }
        ensures store { Told KeepsStore (D.reads self.old.disk) (D.reads self.new.disk) }
        ensures places { Told KeepsPlaces (D.reads self.old.disk) (D.reads self.new.disk) }
        // A crash at any moment leaves the state before the change or after it.
        ensures any_moment { ForSome (D.reads self.old.disk) (λ files. (found : State) → look files ≡ Opened found → AnyMoment D.moment D.left_since StandsOr (if_allowed (Dropped job)) self.old.disk self.new.disk self.old.state self.old.pending found) }
        // With all files of its versions, where each image opened to some state at the opening.
        ensures opens { EachOpensSome (D.may_leave self.old.start) → ForSome (D.reads self.old.disk) (λ files. (found : State) → look files ≡ Opened found → AnyMoment D.moment D.left_since OpensOr (if_allowed (Dropped job)) self.old.disk self.new.disk self.old.state self.old.pending found) }
        ensures later { D.faults self.old.disk ≤ D.faults self.new.disk }
        ensures cause { IsErrOf result LibFault.Disk → Rose (D.faults self.old.disk) (D.faults self.new.disk) }
    {
        self.end_by(&dropped(job))
    }

    /// Removes a version. `NoVersion` if and only if it is not there, and then nothing has changed. It takes no memory. After `Disk`
    /// the rows are told as before the call, and the change may be committed.
    pub fn remove_version(&mut self, package: PackageId, version: Version) -> Result<(), LibFault>
        ensures call { EndsOrStays D.reads (λ _. Removed «package» version) (λ mid answer. RefusesOr (end_fault (seal_at mid.seals) mid.state (Removed «package» version)) answer) self.old self.new result }
        ensures unchanged { self.old.pending ≡ None → IfErr result (λ fault. fault ≢ LibFault.Disk → self.new ≡ self.old) }
        ensures same { IfErr result (λ fault. fault ≢ LibFault.Disk → D.reads self.new.disk ≡ D.reads self.old.disk) }
        ensures store { Told KeepsStore (D.reads self.old.disk) (D.reads self.new.disk) }
        ensures places { Told KeepsPlaces (D.reads self.old.disk) (D.reads self.new.disk) }
        // A crash at any moment leaves the state before the change or after it.
        ensures any_moment { ForSome (D.reads self.old.disk) (λ files. (found : State) → look files ≡ Opened found → AnyMoment D.moment D.left_since StandsOr (if_allowed (Removed «package» version)) self.old.disk self.new.disk self.old.state self.old.pending found) }
        // With all files of its versions, where each image opened to some state at the opening.
        ensures opens { EachOpensSome (D.may_leave self.old.start) → ForSome (D.reads self.old.disk) (λ files. (found : State) → look files ≡ Opened found → AnyMoment D.moment D.left_since OpensOr (if_allowed (Removed «package» version)) self.old.disk self.new.disk self.old.state self.old.pending found) }
        ensures later { D.faults self.old.disk ≤ D.faults self.new.disk }
        ensures cause { IsErrOf result LibFault.Disk → Rose (D.faults self.old.disk) (D.faults self.new.disk) }
    {
        self.end_by(&removed(package, version))
    }
}
