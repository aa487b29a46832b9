//! A job looks at a file that is there already.
ghost use Rattle.std.specs.Prelude.{◌≡◌, ◌≢◌, ◌≤◌, true, false, None, Some, Ok, IfOk, IfErr, IsErrOf};
ghost use Rattle.std.specs.Option.{ForSome};
ghost use Rattle.cm_base.specs.Causes.{Rose};
ghost use Rattle.cm_disk.specs.Disk.{LeavesOnly};
ghost use Rattle.cm_pkglib.specs.Counts.{seal_at};
ghost use Rattle.cm_state.specs.Adding.{Told};
ghost use Rattle.cm_state.specs.Faults.{RefusesOr};
ghost use Rattle.cm_state.specs.Look.{Opened, look};
ghost use Rattle.cm_state.specs.Opens.{OpensOr, StandsOr, EachOpensSome};
ghost use Rattle.cm_state.specs.State.{State};
ghost use Rattle.cm_contents.specs.Seals.{job_manifest};
ghost use Rattle.cm_contents.specs.Wants.{size_in};
ghost use Rattle.cm_library.specs.Calls.{AnyMoment, WorksOrStays};
ghost use Rattle.cm_library.specs.Filing.{KeepsRows, SealsIt, TellsPlace, Salvages};
ghost use Rattle.cm_library.specs.Placing.{KeepsPlaces};
ghost use Rattle.cm_library.specs.Started.{without_own, salvage_fault};

use crate::library::Library;
use crate::started::{holder_of, leave_own, show_bytes};
use cm_base::{Hash, JobId};
use cm_contents::seal;
use cm_disk::Disk;
use cm_filelib::salvage;
use cm_state::LibFault;

impl<D: Disk> Library<D> {
    // The size of the file that a job may look at.
    fn salvage_size(&self, job: JobId, hash: Hash) -> Result<u32, LibFault>
        ensures wanted { IfOk result (λ size. (salvage_fault self.now.state self.now.started job hash ≡ None) × (size_in hash (job_manifest job self.now.state) ≡ Some size)) }
        ensures refused { IfErr result (λ fault. salvage_fault self.now.state self.now.started job hash ≡ Some fault) }
    {
        let size = match self.wanted_size(job, hash) {
            Ok(size) => size,
            Err(fault) => return Err(fault),
        };
        match holder_of(&self.started, job, hash) {
            Some(other) => Err(LibFault::HeldBy { hash, job: other }),
            None => Ok(size),
        }
    }

    // Looks at a file on a settled library.
    pub(crate) fn salvage_settled(&mut self, job: JobId, hash: Hash) -> Result<bool, LibFault>
        requires settled { self.old.pending ≡ None }
        ensures refused { RefusesOr (salvage_fault self.old.state self.old.started job hash) result }
        ensures unchanged { IfErr result (λ fault. fault ≢ LibFault.Disk → self.new ≡ self.old) }
        ensures rows { KeepsRows self.old self.new }
        ensures was_sealed { salvage_fault self.old.state self.old.started job hash ≡ None → seal_at self.old.seals hash ≢ None → (result ≡ Ok true) × (self.new ≡ self.old) }
        ensures value { IfOk result (λ is. seal_at self.old.seals hash ≡ None → TellsPlace (D.reads self.old.disk) hash (size_in hash (job_manifest job self.old.state)) is) }
        ensures sealed { IfOk result (λ is. is ≡ true → seal_at self.old.seals hash ≡ None → ForSome (size_in hash (job_manifest job self.old.state)) (λ size. SealsIt hash size (seal_at self.old.seals) (seal_at self.new.seals))) }
        ensures not_sealed { IfOk result (λ is. is ≡ false → self.new.seals ≡ self.old.seals) }
        ensures failed { IfErr result (λ fault. self.new.seals ≡ self.old.seals) }
        ensures started { salvage_fault self.old.state self.old.started job hash ≡ None → seal_at self.old.seals hash ≡ None → self.new.started ≡ without_own job hash self.old.started }
        ensures same { D.reads self.new.disk ≡ D.reads self.old.disk }
        ensures stands { ForSome (D.reads self.old.disk) (λ _. LeavesOnly D.moment D.left_since self.old.disk self.new.disk (StandsOr self.old.state None)) }
        ensures opens { EachOpensSome (D.may_leave self.old.start) → ForSome (D.reads self.old.disk) (λ _. LeavesOnly D.moment D.left_since self.old.disk self.new.disk (OpensOr self.old.state None)) }
        ensures later { D.faults self.old.disk ≤ D.faults self.new.disk }
        ensures cause { IsErrOf result LibFault.Disk → Rose (D.faults self.old.disk) (D.faults self.new.disk) }
    {
        let size = match self.salvage_size(job, hash) {
            Ok(size) => size,
            Err(fault) => return Err(fault),
        };
        if self.counts.sealed(hash).is_some() {
            return Ok(true);
        }
        show_bytes(hash);
        leave_own(&mut self.started, job, hash);
        match salvage(&mut self.disk, hash, size) {
            Ok(true) => {
                seal(&self.contents, &mut self.counts, hash, size);
                Ok(true)
            }
            Ok(false) => Ok(false),
            Err(_) => Err(LibFault::Disk),
        }
    }

    /// Whether the place of a hash that an unfinished job wants has its file: that is read whole, made durable, and sealed if it is
    /// right. Once the library is settled a sealed hash answers true, no device is called, and nothing has changed. The first cause
    /// that holds is answered, and then nothing has changed: `NoJob`, `Unwanted`, `HeldBy`. The job's own started file of this hash is
    /// given up first. It takes no memory.
    pub fn salvage(&mut self, job: JobId, hash: Hash) -> Result<bool, LibFault>
        ensures call { WorksOrStays D.reads (λ started. started) (λ mid new. Salvages D.reads job hash mid new result) self.old self.new result }
        ensures places { Told KeepsPlaces (D.reads self.old.disk) (D.reads self.new.disk) }
        // A crash at any moment leaves the state.
        ensures any_moment { ForSome (D.reads self.old.disk) (λ files. (found : State) → look files ≡ Opened found → AnyMoment D.moment D.left_since StandsOr (λ _. None) self.old.disk self.new.disk self.old.state self.old.pending found) }
        // With all files of its versions, where each image opened to some state at the opening.
        ensures opens { EachOpensSome (D.may_leave self.old.start) → ForSome (D.reads self.old.disk) (λ files. (found : State) → look files ≡ Opened found → AnyMoment D.moment D.left_since OpensOr (λ _. None) self.old.disk self.new.disk self.old.state self.old.pending found) }
        ensures later { D.faults self.old.disk ≤ D.faults self.new.disk }
        ensures cause { IsErrOf result LibFault.Disk → Rose (D.faults self.old.disk) (D.faults self.new.disk) }
    {
        self.tells();
        match self.settle() {
            Ok(_) => {}
            Err(fault) => return Err(fault),
        }
        self.salvage_settled(job, hash)
    }
}
