//! A job starts a file.
ghost use Rattle.std.specs.Prelude.{◌≡◌, ◌≢◌, ◌≤◌, Some, None, IfOk, IfErr, OnOk, IsErrOf};
ghost use Rattle.std.specs.Option.{ForSome};
ghost use Rattle.cm_base.specs.Causes.{Rose};
ghost use Rattle.cm_disk.specs.Disk.{LeavesOnly, put as put_at};
ghost use Rattle.cm_pkglib.specs.Counts.{seal_at};
ghost use Rattle.cm_filelib.specs.Places.{file_place};
ghost use Rattle.cm_filelib.specs.Stored.{emptied};
ghost use Rattle.cm_state.specs.Adding.{Told};
ghost use Rattle.cm_state.specs.Faults.{RefusesOr};
ghost use Rattle.cm_state.specs.Look.{Opened, look};
ghost use Rattle.cm_state.specs.Opens.{OpensOr, StandsOr, EachOpensSome};
ghost use Rattle.cm_state.specs.State.{State};
ghost use Rattle.cm_contents.specs.Seals.{job_manifest, first_fault};
ghost use Rattle.cm_contents.specs.Wants.{size_in};
ghost use Rattle.cm_library.specs.Calls.{AnyMoment, WorksOrStays};
ghost use Rattle.cm_library.specs.Filing.{KeepsRows, SameBut, StartsFile, Starts};
ghost use Rattle.cm_library.specs.Placing.{KeepsPlaces};
ghost use Rattle.cm_library.specs.Started.{without_file, no_job, unwanted, start_fault};

use crate::library::Library;
use crate::started::{add_file, holder_of, leave_file, show_bytes};
use cm_base::{Hash, JobId};
use cm_disk::Disk;
use cm_filelib::start;
use cm_state::LibFault;

impl<D: Disk> Library<D> {
    // The size that an unfinished job wants of a hash.
    pub(crate) fn wanted_size(&self, job: JobId, hash: Hash) -> Result<u32, LibFault>
        ensures wanted { IfOk result (λ size. (no_job job self.now.state ≡ None) × (size_in hash (job_manifest job self.now.state) ≡ Some size)) }
        ensures refused { IfErr result (λ fault. first_fault (no_job job self.now.state) (unwanted hash (size_in hash (job_manifest job self.now.state))) ≡ Some fault) }
    {
        if !self.contents.is_unfinished(job) {
            return Err(LibFault::NoJob);
        }
        match self.contents.wanted_size(job, hash) {
            Some(size) => Ok(size),
            None => Err(LibFault::Unwanted { hash }),
        }
    }

    // The size of the file that a job may start.
    fn start_size(&self, job: JobId, hash: Hash) -> Result<u32, LibFault>
        ensures wanted { IfOk result (λ size. (start_fault (seal_at self.now.seals) self.now.state self.now.started job hash ≡ None) × (size_in hash (job_manifest job self.now.state) ≡ Some size)) }
        ensures refused { IfErr result (λ fault. start_fault (seal_at self.now.seals) self.now.state self.now.started job hash ≡ Some fault) }
    {
        let size = match self.wanted_size(job, hash) {
            Ok(size) => size,
            Err(fault) => return Err(fault),
        };
        if self.counts.sealed(hash).is_some() {
            return Err(LibFault::Stored { hash });
        }
        match holder_of(&self.started, job, hash) {
            Some(other) => Err(LibFault::HeldBy { hash, job: other }),
            None => Ok(size),
        }
    }

    // Starts a file on a settled library.
    pub(crate) fn start_settled(&mut self, job: JobId, hash: Hash) -> Result<(), LibFault>
        requires settled { self.old.pending ≡ None }
        ensures refused { RefusesOr (start_fault (seal_at self.old.seals) self.old.state self.old.started job hash) result }
        ensures unchanged { IfErr result (λ fault. fault ≢ LibFault.Disk → self.new ≡ self.old) }
        ensures rows { KeepsRows self.old self.new }
        ensures seals { self.new.seals ≡ self.old.seals }
        ensures started { OnOk result (StartsFile job hash (size_in hash (job_manifest job self.old.state)) self.old.started self.new.started) }
        ensures failed { IfErr result (λ fault. fault ≡ LibFault.Disk → self.new.started ≡ without_file job self.old.started) }
        ensures made { OnOk result (Told (λ files now. now ≡ put_at files (file_place hash.0) (emptied (files (file_place hash.0)))) (D.reads self.old.disk) (D.reads self.new.disk)) }
        ensures others { Told (SameBut (file_place hash.0)) (D.reads self.old.disk) (D.reads self.new.disk) }
        ensures places { Told KeepsPlaces (D.reads self.old.disk) (D.reads self.new.disk) }
        ensures stands { ForSome (D.reads self.old.disk) (λ _. LeavesOnly D.moment D.left_since self.old.disk self.new.disk (StandsOr self.old.state None)) }
        ensures opens { EachOpensSome (D.may_leave self.old.start) → ForSome (D.reads self.old.disk) (λ _. LeavesOnly D.moment D.left_since self.old.disk self.new.disk (OpensOr self.old.state None)) }
        ensures later { D.faults self.old.disk ≤ D.faults self.new.disk }
        ensures cause { IsErrOf result LibFault.Disk → Rose (D.faults self.old.disk) (D.faults self.new.disk) }
    {
        let size = match self.start_size(job, hash) {
            Ok(size) => size,
            Err(fault) => return Err(fault),
        };
        show_bytes(hash);
        self.contents.tells_valid();
        leave_file(&mut self.started, job);
        match start(&mut self.disk, hash, size) {
            Ok(writing) => {
                add_file(&mut self.started, job, writing);
                Ok(())
            }
            Err(_) => Err(LibFault::Disk),
        }
    }

    /// Starts the file of a hash that an unfinished job wants: makes its place, empty. The first cause that holds is answered, and then
    /// nothing has changed: `NoJob`, `Unwanted`, `Stored`, `HeldBy`. A job has at most one started file: an earlier one is given up
    /// first. After `Disk` the job has none. It takes no memory.
    pub fn start_file(&mut self, job: JobId, hash: Hash) -> Result<(), LibFault>
        ensures call { WorksOrStays D.reads (without_file job) (λ mid new. Starts D.reads job hash mid new result) self.old self.new result }
        ensures places { Told KeepsPlaces (D.reads self.old.disk) (D.reads self.new.disk) }
        // A crash at any moment leaves the state.
        ensures any_moment { ForSome (D.reads self.old.disk) (λ files. (found : State) → look files ≡ Opened found → AnyMoment D.moment D.left_since StandsOr (λ _. None) self.old.disk self.new.disk self.old.state self.old.pending found) }
        // With all files of its versions, where each image opened to some state at the opening.
        ensures opens { EachOpensSome (D.may_leave self.old.start) → ForSome (D.reads self.old.disk) (λ files. (found : State) → look files ≡ Opened found → AnyMoment D.moment D.left_since OpensOr (λ _. None) self.old.disk self.new.disk self.old.state self.old.pending found) }
        ensures later { D.faults self.old.disk ≤ D.faults self.new.disk }
        ensures cause { IsErrOf result LibFault.Disk → Rose (D.faults self.old.disk) (D.faults self.new.disk) }
    {
        self.tells();
        match self.settle() {
            Ok(_) => {}
            Err(fault) => {
                self.leave_started(job);
                return Err(fault);
            }
        }
        self.start_settled(job, hash)
    }
}
