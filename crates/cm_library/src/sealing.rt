//! A job seals its file.
ghost use Rattle.std.specs.Prelude.{◌≡◌, ◌≢◌, ◌⊎◌, ◌≤◌, Some, None, IfSome, IfErr, OnOk, IsErrOf};
ghost use Rattle.std.specs.Option.{ForSome};
ghost use Rattle.cm_base.specs.Causes.{Rose};
ghost use Rattle.cm_disk.specs.Disk.{LeavesOnly};
ghost use Rattle.cm_pkglib.specs.Counts.{seal_at};
ghost use Rattle.cm_filelib.specs.Writings.{hash_of, size_of};
ghost use Rattle.cm_state.specs.Adding.{Told};
ghost use Rattle.cm_state.specs.Faults.{RefusesOr};
ghost use Rattle.cm_state.specs.Look.{Opened, look};
ghost use Rattle.cm_state.specs.Opens.{OpensOr, StandsOr, EachOpensSome};
ghost use Rattle.cm_state.specs.State.{State};
ghost use Rattle.cm_library.specs.Calls.{AnyMoment, WorksOrStays};
ghost use Rattle.cm_library.specs.Filing.{KeepsRows, SealsIt, AreRight, AreWrong, Seals};
ghost use Rattle.cm_library.specs.Placing.{KeepsPlaces};
ghost use Rattle.cm_library.specs.Started.{started_by, without_file, file_fault};

use crate::library::Library;
use crate::started::take_file;
use cm_base::JobId;
use cm_contents::seal as count_seal;
use cm_disk::Disk;
use cm_filelib::{SealFault, seal};
use cm_state::LibFault;

impl<D: Disk> Library<D> {
    // Seals a file on a settled library.
    pub(crate) fn seal_settled(&mut self, job: JobId) -> Result<(), LibFault>
        requires settled { self.old.pending ≡ None }
        ensures refused { IfSome (file_fault self.old.state self.old.started job) (λ fault. RefusesOr (Some fault) result × (self.new ≡ self.old)) }
        ensures rows { KeepsRows self.old self.new }
        ensures sealed { OnOk result (ForSome (started_by job self.old.started) (λ was. AreRight was × SealsIt (hash_of was) (size_of was) (seal_at self.old.seals) (seal_at self.new.seals))) }
        ensures failed { IfErr result (λ fault. (self.new.seals ≡ self.old.seals) × (file_fault self.old.state self.old.started job ≡ None → ForSome (started_by job self.old.started) (λ was. ((fault ≡ LibFault.Disk) × AreRight was) ⊎ AreWrong was fault))) }
        ensures started { file_fault self.old.state self.old.started job ≡ None → self.new.started ≡ without_file job self.old.started }
        ensures same { D.reads self.new.disk ≡ D.reads self.old.disk }
        ensures stands { ForSome (D.reads self.old.disk) (λ _. LeavesOnly D.moment D.left_since self.old.disk self.new.disk (StandsOr self.old.state None)) }
        ensures opens { EachOpensSome (D.may_leave self.old.start) → ForSome (D.reads self.old.disk) (λ _. LeavesOnly D.moment D.left_since self.old.disk self.new.disk (OpensOr self.old.state None)) }
        ensures later { D.faults self.old.disk ≤ D.faults self.new.disk }
        ensures cause { IsErrOf result LibFault.Disk → Rose (D.faults self.old.disk) (D.faults self.new.disk) }
    {
        match self.file_fault(job) {
            Some(fault) => return Err(fault),
            None => {}
        }
        let Some(writing) = take_file(&mut self.started, job) else {
            unreachable!()
        };
        let hash = writing.hash();
        let size = writing.size();
        match seal(writing, &mut self.disk) {
            Ok(()) => {
                count_seal(&self.contents, &mut self.counts, hash, size);
                Ok(())
            }
            Err(
                SealFault::WrongBytes {
                    named,
                    size,
                    got,
                    put,
                },
            ) => Err(LibFault::WrongBytes {
                named,
                size,
                got,
                put,
            }),
            Err(SealFault::Disk) => Err(LibFault::Disk),
        }
    }

    /// Seals a job's started file: its bytes are compared with the hash and the size that it was to have, and are durable at Ok. It is
    /// never written again while a version or an unfinished job names it. The first cause that holds is answered: `NoJob` and
    /// `NotStarted`, and then nothing has changed; `WrongBytes` if and only if other bytes were put. After `WrongBytes` and `Disk` the file
    /// is given up. It takes no memory.
    pub fn seal(&mut self, job: JobId) -> Result<(), LibFault>
        ensures call { WorksOrStays D.reads (without_file job) (λ mid new. Seals D.reads job mid new result) self.old self.new result }
        ensures places { Told KeepsPlaces (D.reads self.old.disk) (D.reads self.new.disk) }
        // A crash at any moment leaves the state.
        ensures any_moment { ForSome (D.reads self.old.disk) (λ files. (found : State) → look files ≡ Opened found → AnyMoment D.moment D.left_since StandsOr (λ _. None) self.old.disk self.new.disk self.old.state self.old.pending found) }
        // With all files of its versions, where each image opened to some state at the opening.
        ensures opens { EachOpensSome (D.may_leave self.old.start) → ForSome (D.reads self.old.disk) (λ files. (found : State) → look files ≡ Opened found → AnyMoment D.moment D.left_since OpensOr (λ _. None) self.old.disk self.new.disk self.old.state self.old.pending found) }
        ensures later { D.faults self.old.disk ≤ D.faults self.new.disk }
        ensures cause { IsErrOf result LibFault.Disk → Rose (D.faults self.old.disk) (D.faults self.new.disk) }
    {
        self.tells();
        match self.settle() {
            Ok(_) => {}
            Err(fault) => {
                self.leave_started(job);
                return Err(fault);
            }
        }
        self.seal_settled(job)
    }
}
