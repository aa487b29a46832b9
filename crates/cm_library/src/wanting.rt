//! What a job still wants, and what it gives up.
ghost use Rattle.std.specs.Prelude.{◌≡◌, ◌≢◌, ◌≤◌, None, is_some, IfOk, IsErrOf};
ghost use Rattle.std.specs.Option.{ForSome};
ghost use Rattle.std.specs.Result.{result_err};
ghost use Rattle.cm_base.specs.Causes.{Rose};
ghost use Rattle.cm_pkglib.specs.Counts.{seal_at};
ghost use Rattle.cm_state.specs.Adding.{Told};
ghost use Rattle.cm_state.specs.Look.{Opened, look};
ghost use Rattle.cm_state.specs.Opens.{OpensOr, StandsOr, EachOpensSome};
ghost use Rattle.cm_state.specs.State.{State};
ghost use Rattle.cm_contents.specs.Seals.{job_manifest};
ghost use Rattle.cm_contents.specs.Wants.{IsNextWanted};
ghost use Rattle.cm_library.specs.Calls.{AnyMoment, WorksOrStays};
ghost use Rattle.cm_library.specs.Filing.{KeepsRows, Wants};
ghost use Rattle.cm_library.specs.Placing.{KeepsPlaces};
ghost use Rattle.cm_library.specs.Started.{started_by, without_file, no_job};

use crate::library::Library;
use crate::started::{leave_file, started_of};
use cm_base::{Hash, JobId};
use cm_disk::Disk;
use cm_state::LibFault;

impl<D: Disk> Library<D> {
    // What a job wants next, as the library is in memory.
    pub(crate) fn next_wanted(
        &self,
        job: JobId,
        after: Option<Hash>,
    ) -> Result<Option<(Hash, u32)>, LibFault>
        ensures refused { result_err result ≡ no_job job self.now.state }
        ensures next { IfOk result (λ next. IsNextWanted (seal_at self.now.seals) (job_manifest job self.now.state) after next) }
    {
        if !self.contents.is_unfinished(job) {
            return Err(LibFault::NoJob);
        }
        Ok(self.contents.next_wanted(&self.counts, job, after))
    }

    /// The least hash above another that an unfinished job names and that is not sealed, with the size of the first entry that has it.
    /// None exactly where there is none left. `NoJob` if and only if the job is not unfinished. It takes no memory.
    pub fn wanted(
        &mut self,
        job: JobId,
        after: Option<Hash>,
    ) -> Result<Option<(Hash, u32)>, LibFault>
        ensures call { WorksOrStays D.reads (λ started. started) (λ mid new. Wants job after mid new result) self.old self.new result }
        ensures places { Told KeepsPlaces (D.reads self.old.disk) (D.reads self.new.disk) }
        // A crash at any moment leaves the state.
        ensures any_moment { ForSome (D.reads self.old.disk) (λ files. (found : State) → look files ≡ Opened found → AnyMoment D.moment D.left_since StandsOr (λ _. None) self.old.disk self.new.disk self.old.state self.old.pending found) }
        // With all files of its versions, where each image opened to some state at the opening.
        ensures opens { EachOpensSome (D.may_leave self.old.start) → ForSome (D.reads self.old.disk) (λ files. (found : State) → look files ≡ Opened found → AnyMoment D.moment D.left_since OpensOr (λ _. None) self.old.disk self.new.disk self.old.state self.old.pending found) }
        ensures later { D.faults self.old.disk ≤ D.faults self.new.disk }
        ensures cause { IsErrOf result LibFault.Disk → Rose (D.faults self.old.disk) (D.faults self.new.disk) }
    {
        self.tells();
        match self.settle() {
            Ok(_) => {}
            Err(fault) => return Err(fault),
        }
        let next = self.next_wanted(job, after);
        self.tells();
        next
    }

    // A job gives up its started file.
    pub(crate) fn leave_started(&mut self, job: JobId)
        ensures started { self.new.started ≡ without_file job self.old.started }
        ensures rows { KeepsRows self.old self.new }
        ensures seals { self.new.seals ≡ self.old.seals }
        ensures disk { self.new.disk ≡ self.old.disk }
    {
        leave_file(&mut self.started, job);
    }

    /// Gives up the started file of a job. False exactly where it has none. It calls no device.
    pub fn give_up(&mut self, job: JobId) -> bool
        ensures had { result ≡ is_some (started_by job self.old.started) }
        ensures started { self.new.started ≡ without_file job self.old.started }
        ensures rows { KeepsRows self.old self.new }
        ensures seals { self.new.seals ≡ self.old.seals }
        ensures disk { self.new.disk ≡ self.old.disk }
    {
        let had = started_of(&self.started, job).is_some();
        self.leave_started(job);
        had
    }
}
