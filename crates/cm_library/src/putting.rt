//! A job puts the bytes of its file.
ghost use Rattle.std.specs.Prelude.{◌≡◌, ◌≢◌, ◌≤◌, List, ℕ, length, None, IfErr, OnOk, IsErrOf};
ghost use Rattle.std.specs.Option.{ForSome};
ghost use Rattle.cm_base.specs.Causes.{Rose};
ghost use Rattle.cm_disk.specs.Disk.{LeavesOnly, put as put_at};
ghost use Rattle.cm_filelib.specs.Stored.{appended};
ghost use Rattle.cm_filelib.specs.Writings.{place_of};
ghost use Rattle.cm_state.specs.Adding.{Told};
ghost use Rattle.cm_state.specs.Faults.{RefusesOr};
ghost use Rattle.cm_state.specs.Look.{Opened, look};
ghost use Rattle.cm_state.specs.Opens.{OpensOr, StandsOr, EachOpensSome};
ghost use Rattle.cm_state.specs.State.{State};
ghost use Rattle.cm_library.specs.Calls.{AnyMoment, WorksOrStays};
ghost use Rattle.cm_library.specs.Filing.{KeepsRows, SameBut, GoesOn, Puts};
ghost use Rattle.cm_library.specs.Placing.{KeepsPlaces};
ghost use Rattle.cm_library.specs.Started.{started_by, without_file, file_fault, misplaced, put_fault};

use crate::library::Library;
use crate::started::{add_file, started_of, take_file};
use cm_base::JobId;
use cm_disk::Disk;
use cm_filelib::{FileFault, Writing, put};
use cm_state::LibFault;

// Why so many bytes are not put there.
fn misplaced(writing: &Writing, offset: u64, count: usize) -> Option<LibFault>
    ensures { result ≡ misplaced writing.now offset count }
{
    if offset != writing.next() {
        return Some(LibFault::WrongOffset {
            expected: writing.next(),
        });
    }
    if u128::from(offset) + count as u128 > u128::from(writing.size()) {
        return Some(LibFault::TooLong {
            size: writing.size(),
        });
    }
    None
}

impl<D: Disk> Library<D> {
    // Why a job does not go on with its file.
    pub(crate) fn file_fault(&self, job: JobId) -> Option<LibFault>
        ensures { result ≡ file_fault self.now.state self.now.started job }
    {
        if !self.contents.is_unfinished(job) {
            return Some(LibFault::NoJob);
        }
        match started_of(&self.started, job) {
            Some(_) => None,
            None => Some(LibFault::NotStarted),
        }
    }

    // Why a job does not put so many bytes there.
    fn put_fault(&self, job: JobId, offset: u64, count: usize) -> Option<LibFault>
        ensures { result ≡ put_fault self.now.state self.now.started job offset count }
    {
        if !self.contents.is_unfinished(job) {
            return Some(LibFault::NoJob);
        }
        match started_of(&self.started, job) {
            Some(writing) => misplaced(writing, offset, count),
            None => Some(LibFault::NotStarted),
        }
    }

    // Puts a piece on a settled library.
    pub(crate) fn put_settled(
        &mut self,
        job: JobId,
        offset: u64,
        bytes: &[u8],
    ) -> Result<(), LibFault>
        requires settled { self.old.pending ≡ None }
        requires piece { length bytes.now ≤ 65536 }
        ensures refused { RefusesOr (put_fault self.old.state self.old.started job offset (length bytes.now)) result }
        ensures unchanged { IfErr result (λ fault. fault ≢ LibFault.Disk → self.new ≡ self.old) }
        ensures rows { KeepsRows self.old self.new }
        ensures seals { self.new.seals ≡ self.old.seals }
        ensures goes_on { OnOk result (ForSome (started_by job self.old.started) (λ was. GoesOn job was bytes.now self.old.started self.new.started)) }
        ensures failed { IfErr result (λ fault. fault ≡ LibFault.Disk → self.new.started ≡ without_file job self.old.started) }
        ensures written { OnOk result (ForSome (started_by job self.old.started) (λ was. Told (λ files now. now ≡ put_at files (place_of was) (appended bytes.now (files (place_of was)))) (D.reads self.old.disk) (D.reads self.new.disk))) }
        ensures others { ForSome (started_by job self.old.started) (λ was. Told (SameBut (place_of was)) (D.reads self.old.disk) (D.reads self.new.disk)) }
        ensures places { Told KeepsPlaces (D.reads self.old.disk) (D.reads self.new.disk) }
        ensures stands { ForSome (D.reads self.old.disk) (λ _. LeavesOnly D.moment D.left_since self.old.disk self.new.disk (StandsOr self.old.state None)) }
        ensures opens { EachOpensSome (D.may_leave self.old.start) → ForSome (D.reads self.old.disk) (λ _. LeavesOnly D.moment D.left_since self.old.disk self.new.disk (OpensOr self.old.state None)) }
        ensures later { D.faults self.old.disk ≤ D.faults self.new.disk }
        ensures cause { IsErrOf result LibFault.Disk → Rose (D.faults self.old.disk) (D.faults self.new.disk) }
    {
        match self.put_fault(job, offset, bytes.len()) {
            Some(fault) => return Err(fault),
            None => {}
        }
        self.contents.tells_valid();
        let Some(mut writing) = take_file(&mut self.started, job) else {
            unreachable!()
        };
        match put(&mut writing, &mut self.disk, offset, bytes) {
            Ok(()) => {
                add_file(&mut self.started, job, writing);
                Ok(())
            }
            Err(FileFault::Disk) => Err(LibFault::Disk),
            Err(FileFault::WrongOffset { .. }) => unreachable!(),
            Err(FileFault::TooLong { .. }) => unreachable!(),
        }
    }

    /// Puts at most 65,536 bytes of a job's started file behind those that were put, and hashes them. The first cause that holds is
    /// answered, and then nothing has changed: `NoJob`, `NotStarted`, `WrongOffset`, `TooLong`. After `Disk` the file is given up. It
    /// takes no memory.
    pub fn put(&mut self, job: JobId, offset: u64, bytes: &[u8]) -> Result<(), LibFault>
        requires piece { length bytes.now ≤ 65536 }
        ensures call { WorksOrStays D.reads (without_file job) (λ mid new. Puts D.reads job offset bytes.now mid new result) self.old self.new result }
        ensures places { Told KeepsPlaces (D.reads self.old.disk) (D.reads self.new.disk) }
        // A crash at any moment leaves the state.
        ensures any_moment { ForSome (D.reads self.old.disk) (λ files. (found : State) → look files ≡ Opened found → AnyMoment D.moment D.left_since StandsOr (λ _. None) self.old.disk self.new.disk self.old.state self.old.pending found) }
        // With all files of its versions, where each image opened to some state at the opening.
        ensures opens { EachOpensSome (D.may_leave self.old.start) → ForSome (D.reads self.old.disk) (λ files. (found : State) → look files ≡ Opened found → AnyMoment D.moment D.left_since OpensOr (λ _. None) self.old.disk self.new.disk self.old.state self.old.pending found) }
        ensures later { D.faults self.old.disk ≤ D.faults self.new.disk }
        ensures cause { IsErrOf result LibFault.Disk → Rose (D.faults self.old.disk) (D.faults self.new.disk) }
    {
        self.tells();
        match self.settle() {
            Ok(_) => {}
            Err(fault) => {
                self.leave_started(job);
                return Err(fault);
            }
        }
        self.put_settled(job, offset, bytes)
    }
}
