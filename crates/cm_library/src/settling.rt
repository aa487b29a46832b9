//! A failed call is settled.
ghost use Rattle.std.specs.Prelude.{◌≡◌, Ok, None, IfOk, OnOk, IfErr, IsErrOf};
ghost use Rattle.std.specs.Option.{ForSome};
ghost use Rattle.cm_base.specs.Causes.{Rose};
ghost use Rattle.cm_disk.specs.Disk.{Files, IsImage};
ghost use Rattle.cm_log.specs.Frames.{OnlyReads};
ghost use Rattle.cm_state.specs.Look.{Opened, look};
ghost use Rattle.cm_state.specs.Opens.{OpensOr, StandsOr, EachOpensSome};
ghost use Rattle.cm_state.specs.Sound.{IsSound};
ghost use Rattle.cm_contents.specs.Seals.{SealsNeeded, AreVersionsSealed};
ghost use Rattle.cm_library.specs.Calls.{Finds, StaysUnsettled, Tells};
ghost use Rattle.cm_library.specs.Kept.{AreSealsSure, AreSealsSureSince};
ghost use Rattle.cm_library.specs.Started.{AreStarted};
ghost use Rattle.cm_pkglib.specs.Counts.{seal_at};

use crate::commits::settle_pending;
use crate::library::Library;
use cm_disk::Disk;
use cm_pkglib::Change;
use cm_state::LibFault;

impl<D: Disk> Library<D> {
    /// Settles what became of a call that the disk failed: the record of its change where that was committed. None where it
    /// was not, or where no call had failed. It takes no memory, and reads and syncs alone. Each call that may answer `Disk`
    /// does this first.
    pub fn settle(&mut self) -> Result<Option<Change>, LibFault>
        ensures found { OnOk result (Finds D.reads self.old self.new) }
        ensures told { IfOk result (λ told. Tells self.old.pending self.old.state self.new.state told) }
        ensures failed { IfErr result (λ fault. (fault ≡ LibFault.Disk) × StaysUnsettled (λ started. started) self.old self.new) }
        ensures was_settled { self.old.pending ≡ None → (result ≡ Ok None) × (self.new ≡ self.old) }
        ensures only { OnlyReads D.reads D.may_leave D.moment D.left_since D.faults self.old.disk self.new.disk }
        ensures cause { IsErrOf result LibFault.Disk → Rose (D.faults self.old.disk) (D.faults self.new.disk) }
    {
        match settle_pending(
            &self.start,
            &mut self.disk,
            &mut self.log,
            &mut self.contents,
            &mut self.counts,
            &mut self.pending,
        ) {
            Ok(change) => Ok(change),
            Err(_) => Err(LibFault::Disk),
        }
    }

    /// Says, to contracts alone, what a crash leaves now: the library in its state, or where a call has failed in that before its
    /// change or after it. Each hash of a version is sealed, and each sealed hash is one that a version or an unfinished job names. The
    /// file of each hash that was sealed since the opening is whole; and where each image opened to some state at the opening, so are
    /// those of all sealed hashes and of the versions.
    pub fn tells(&self)
        ensures sound { IsSound self.now.state }
        ensures files { ForSome (D.reads self.now.disk) (λ files. self.now.pending ≡ None → look files ≡ Opened self.now.state) }
        ensures stands { ForSome (D.reads self.now.disk) (λ _. (image : Files) → IsImage (D.may_leave self.now.disk) image → StandsOr self.now.state self.now.pending image) }
        ensures opens { EachOpensSome (D.may_leave self.now.start) → ForSome (D.reads self.now.disk) (λ _. (image : Files) → IsImage (D.may_leave self.now.disk) image → OpensOr self.now.state self.now.pending image) }
        // Of the state as last settled, also while the change of a failed call is in question.
        ensures needed { SealsNeeded (seal_at self.now.seals) self.now.state }
        ensures versions { AreVersionsSealed (seal_at self.now.seals) self.now.state }
        ensures since { ForSome (D.reads self.now.disk) (λ _. AreSealsSureSince (D.may_leave self.now.disk) (seal_at self.now.seals)) }
        // Each started file is one that its unfinished job wants; it is not sealed, no other job has started its hash, and its place reads as
        // the bytes that were put so far.
        ensures started { AreStarted (D.reads self.now.disk) self.now.state (seal_at self.now.seals) self.now.pending self.now.started }
        ensures sealed { EachOpensSome (D.may_leave self.now.start) → ForSome (D.reads self.now.disk) (λ _. AreSealsSure (D.may_leave self.now.disk) (seal_at self.now.seals)) }
    {
        let _log = &self.log;
    }
}
