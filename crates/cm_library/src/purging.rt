//! What no version or unfinished job needs is purged.
ghost use Rattle.std.specs.Prelude.{◌≡◌, ◌≢◌, ℕ, List, ◌+◌, ◌-◌, ◌^◌, ◌<◌, ◌≤◌, min, true, false, if◌then◌else◌, None, Some, is_some, IfOk, IfSome, OnOk, IsErrOf};
ghost use Rattle.std.specs.List.{list_any};
ghost use Rattle.std.specs.Option.{ForSome};
ghost use Rattle.std.specs.Str.{bytes_eq};
ghost use Rattle.cm_base.specs.Causes.{Rose};
ghost use Rattle.cm_disk.specs.Disk.{File, is_above, removed, Does, IsNext, Only};
ghost use Rattle.cm_disk.specs.Ranks.{ahead};
ghost use Rattle.cm_datalib.specs.Places.{is_manifest_place};
ghost use Rattle.cm_filelib.specs.Places.{is_file_place};
ghost use Rattle.cm_log.specs.Frames.{OnlyReads, LeavesAlone};
ghost use Rattle.cm_state.specs.Adding.{Told};
ghost use Rattle.cm_state.specs.Faults.{RefusesOr};
ghost use Rattle.cm_state.specs.Look.{Opened, look};
ghost use Rattle.cm_state.specs.Needed.{needed};
ghost use Rattle.cm_state.specs.Opens.{OpensOr, StandsOr, EachOpensSome};
ghost use Rattle.cm_state.specs.Purged.{is_loose, Clears};
ghost use Rattle.cm_state.specs.State.{State};
ghost use Rattle.cm_library.specs.Calls.{AnyMoment, WorksOrStays};
ghost use Rattle.cm_library.specs.Placing.{KeepsPlaces};
ghost use Rattle.cm_library.specs.Purging.{in_store, stored_place, IsOther, IsFirm, KeepsAll, StepsOn, Purges, TellsLoose};

use crate::library::Library;
use crate::started::show_bytes;
use crate::stored::{Stored, erase_at, next_in_folders, show_version, stored_at};
use cm_base::Place;
use cm_datalib::version_at;
use cm_disk::Disk;
use cm_filelib::hash_at;
use cm_state::LibFault;

/// A step of a purge: the place that was looked at, None behind the last one, and whether it was removed.
#[derive(Clone, Copy)]
pub struct PurgeStep {
    pub at: Option<Place>,
    pub removed: bool,
}

/// How many stored files and manifests a purge has removed. A count that stands at 4,294,967,295 stays there.
#[derive(Clone, Copy, Debug, PartialEq, Eq)]
pub struct Purged {
    pub files: u32,
    pub manifests: u32,
}

// One place more is counted, by its kind.
fn with_place(purged: Purged, place: &Place) -> Purged
    ensures files { result.files ≡ min (purged.files + (if is_file_place place.now then 1 else 0)) (2 ^ 32 - 1) }
    ensures manifests { result.manifests ≡ min (purged.manifests + (if is_manifest_place place.now then 1 else 0)) (2 ^ 32 - 1) }
{
    let mut files = purged.files;
    if hash_at(place).is_some() {
        files = files.saturating_add(1);
    }
    let mut manifests = purged.manifests;
    if version_at(place).is_some() {
        manifests = manifests.saturating_add(1);
    }
    Purged { files, manifests }
}

impl<D: Disk> Library<D> {
    // The next place of the two folders.
    fn next_in_store(&mut self, after: Option<Place>) -> Result<Option<Place>, LibFault>
        requires settled { self.old.pending ≡ None }
        ensures refused { RefusesOr None result }
        ensures least { IfOk result (λ next. ForSome (D.reads self.old.disk) (λ files. IsNext (in_store files) after next)) }
        ensures above { IfOk result (λ next. IfSome next (λ at. is_above after at ≡ true)) }
        ensures nearer { IfOk result (λ next. IfSome next (λ at. ahead (Some at) < ahead after)) }
        ensures all { KeepsAll self.old self.new }
        ensures only { OnlyReads D.reads D.may_leave D.moment D.left_since D.faults self.old.disk self.new.disk }
        ensures cause { IsErrOf result LibFault.Disk → Rose (D.faults self.old.disk) (D.faults self.new.disk) }
    {
        match next_in_folders(&mut self.disk, after) {
            Ok(next) => Ok(next),
            Err(_) => Err(LibFault::Disk),
        }
    }

    // Whether a version or an unfinished job needs what is stored.
    fn needs(&self, stored: Stored) -> bool
        requires settled { self.now.pending ≡ None }
        ensures { result ≡ list_any (bytes_eq (stored_place stored)) (needed self.now.state) }
    {
        match stored {
            Stored::Manifest { package, version } => {
                show_version(package, version);
                self.contents.holds(package, version)
            }
            Stored::File { hash } => {
                show_bytes(hash);
                self.counts.of(hash) > 0
            }
        }
    }

    // Whether nothing needs what is stored at a place.
    fn is_loose(&self, place: &Place) -> bool
        requires settled { self.now.pending ≡ None }
        ensures { result ≡ is_loose self.now.state place.now }
    {
        match stored_at(place) {
            Some(stored) => !self.needs(stored),
            None => false,
        }
    }

    // Removes what is stored at a loose place, durably.
    fn erase_loose(&mut self, place: &Place) -> Result<(), LibFault>
        requires settled { self.old.pending ≡ None }
        requires loose { is_loose self.old.state place.now ≡ true }
        ensures refused { RefusesOr None result }
        ensures work { Does (D.reads self.old.disk) (D.reads self.new.disk) place.now removed result }
        ensures durable { OnOk result (ForSome (D.reads self.old.disk) (λ _. Only None (D.may_leave self.new.disk place.now))) }
        ensures all { KeepsAll self.old self.new }
        ensures alone { LeavesAlone (IsOther place.now) D.reads D.may_leave D.moment D.left_since D.faults self.old.disk self.new.disk }
        ensures cause { IsErrOf result LibFault.Disk → Rose (D.faults self.old.disk) (D.faults self.new.disk) }
    {
        match erase_at(&mut self.disk, place) {
            Ok(()) => Ok(()),
            Err(_) => Err(LibFault::Disk),
        }
    }

    // A step of a purge on a settled library.
    fn step_settled(&mut self, after: Option<Place>) -> Result<PurgeStep, LibFault>
        requires settled { self.old.pending ≡ None }
        ensures steps { StepsOn D.reads D.may_leave after self.old self.new result }
        ensures nearer { IfOk result (λ step. IfSome step.at (λ at. ahead (Some at) < ahead after)) }
        ensures others { IfOk result (λ step. (q : List ℕ) (file : File) → Some q ≢ step.at → D.may_leave self.new.disk q file → D.may_leave self.old.disk q file) }
        ensures alone { LeavesAlone (IsFirm self.old.state) D.reads D.may_leave D.moment D.left_since D.faults self.old.disk self.new.disk }
        ensures cause { IsErrOf result LibFault.Disk → Rose (D.faults self.old.disk) (D.faults self.new.disk) }
    {
        let next = match self.next_in_store(after) {
            Ok(next) => next,
            Err(fault) => return Err(fault),
        };
        let Some(at) = next else {
            return Ok(PurgeStep {
                at: None,
                removed: false,
            });
        };
        if !self.is_loose(&at) {
            return Ok(PurgeStep {
                at: Some(at),
                removed: false,
            });
        }
        match self.erase_loose(&at) {
            Ok(()) => {}
            Err(fault) => return Err(fault),
        }
        Ok(PurgeStep {
            at: Some(at),
            removed: true,
        })
    }

    // All steps on a settled library.
    fn purge_settled(&mut self) -> Result<Purged, LibFault>
        requires settled { self.old.pending ≡ None }
        ensures purges { Purges D.reads D.may_leave self.old self.new result }
        ensures alone { LeavesAlone (IsFirm self.old.state) D.reads D.may_leave D.moment D.left_since D.faults self.old.disk self.new.disk }
        ensures cause { IsErrOf result LibFault.Disk → Rose (D.faults self.old.disk) (D.faults self.new.disk) }
    {
        let mut purged = Purged {
            files: 0,
            manifests: 0,
        };
        let mut after = None;
        'steps: loop {
            let step = match self.step_settled(after) {
                Ok(step) => step,
                Err(fault) => return Err(fault),
            };
            let Some(at) = step.at else {
                return Ok(purged);
            };
            if step.removed {
                purged = with_place(purged, &at);
            }
            after = Some(at);
        }
    }

    // The next loose place of a settled library.
    fn next_loose_settled(&mut self, after: Option<Place>) -> Result<Option<Place>, LibFault>
        requires settled { self.old.pending ≡ None }
        ensures tells { TellsLoose D.reads after self.old self.new result }
        ensures only { OnlyReads D.reads D.may_leave D.moment D.left_since D.faults self.old.disk self.new.disk }
        ensures cause { IsErrOf result LibFault.Disk → Rose (D.faults self.old.disk) (D.faults self.new.disk) }
    {
        let mut from = after;
        'places: loop {
            let next = match self.next_in_store(from) {
                Ok(next) => next,
                Err(fault) => return Err(fault),
            };
            let Some(at) = next else {
                return Ok(None);
            };
            if self.is_loose(&at) {
                return Ok(Some(at));
            }
            from = Some(at);
        }
    }

    /// One step of a purge: looks at the next place of the folders `DataLib` and `FileLib` above `after`, and erases it where it is
    /// that of a stored manifest or file that no version or unfinished job names. `at` is None behind the last place. It takes no
    /// memory. After `Disk` any part of what was to be erased may be there, and nothing else has changed.
    pub fn purge_step(&mut self, after: Option<Place>) -> Result<PurgeStep, LibFault>
        ensures call { WorksOrStays D.reads (λ started. started) (λ mid new. StepsOn D.reads D.may_leave after mid new result) self.old self.new result }
        ensures places { Told (λ files now. (found : State) → look files ≡ Opened found → Clears found files now) (D.reads self.old.disk) (D.reads self.new.disk) }
        // A crash at any moment leaves the state.
        ensures any_moment { ForSome (D.reads self.old.disk) (λ files. (found : State) → look files ≡ Opened found → AnyMoment D.moment D.left_since StandsOr (λ _. None) self.old.disk self.new.disk self.old.state self.old.pending found) }
        // With all files of its versions, where each image opened to some state at the opening.
        ensures opens { EachOpensSome (D.may_leave self.old.start) → ForSome (D.reads self.old.disk) (λ files. (found : State) → look files ≡ Opened found → AnyMoment D.moment D.left_since OpensOr (λ _. None) self.old.disk self.new.disk self.old.state self.old.pending found) }
        ensures later { D.faults self.old.disk ≤ D.faults self.new.disk }
        ensures cause { IsErrOf result LibFault.Disk → Rose (D.faults self.old.disk) (D.faults self.new.disk) }
    {
        self.tells();
        match self.settle() {
            Ok(_) => {}
            Err(fault) => return Err(fault),
        }
        self.tells();
        self.step_settled(after)
    }

    /// All steps of a purge in one call, and how many files and manifests they erased. It takes no memory. After `Disk` some places
    /// that nothing needs are gone, of one of them any part may be there, and nothing else has changed.
    pub fn purge(&mut self) -> Result<Purged, LibFault>
        ensures call { WorksOrStays D.reads (λ started. started) (λ mid new. Purges D.reads D.may_leave mid new result) self.old self.new result }
        ensures places { Told (λ files now. (found : State) → look files ≡ Opened found → Clears found files now) (D.reads self.old.disk) (D.reads self.new.disk) }
        // A crash at any moment leaves the state.
        ensures any_moment { ForSome (D.reads self.old.disk) (λ files. (found : State) → look files ≡ Opened found → AnyMoment D.moment D.left_since StandsOr (λ _. None) self.old.disk self.new.disk self.old.state self.old.pending found) }
        // With all files of its versions, where each image opened to some state at the opening.
        ensures opens { EachOpensSome (D.may_leave self.old.start) → ForSome (D.reads self.old.disk) (λ files. (found : State) → look files ≡ Opened found → AnyMoment D.moment D.left_since OpensOr (λ _. None) self.old.disk self.new.disk self.old.state self.old.pending found) }
        ensures later { D.faults self.old.disk ≤ D.faults self.new.disk }
        ensures cause { IsErrOf result LibFault.Disk → Rose (D.faults self.old.disk) (D.faults self.new.disk) }
    {
        self.tells();
        match self.settle() {
            Ok(_) => {}
            Err(fault) => return Err(fault),
        }
        self.tells();
        self.purge_settled()
    }

    /// The next place above `after` that a purge would erase. None exactly where there is none. It takes no memory.
    pub fn next_loose(&mut self, after: Option<Place>) -> Result<Option<Place>, LibFault>
        ensures call { WorksOrStays D.reads (λ started. started) (λ mid new. TellsLoose D.reads after mid new result) self.old self.new result }
        ensures places { Told KeepsPlaces (D.reads self.old.disk) (D.reads self.new.disk) }
        // A crash at any moment leaves the state.
        ensures any_moment { ForSome (D.reads self.old.disk) (λ files. (found : State) → look files ≡ Opened found → AnyMoment D.moment D.left_since StandsOr (λ _. None) self.old.disk self.new.disk self.old.state self.old.pending found) }
        // With all files of its versions, where each image opened to some state at the opening.
        ensures opens { EachOpensSome (D.may_leave self.old.start) → ForSome (D.reads self.old.disk) (λ files. (found : State) → look files ≡ Opened found → AnyMoment D.moment D.left_since OpensOr (λ _. None) self.old.disk self.new.disk self.old.state self.old.pending found) }
        ensures later { D.faults self.old.disk ≤ D.faults self.new.disk }
        ensures cause { IsErrOf result LibFault.Disk → Rose (D.faults self.old.disk) (D.faults self.new.disk) }
    {
        self.tells();
        match self.settle() {
            Ok(_) => {}
            Err(fault) => return Err(fault),
        }
        self.tells();
        self.next_loose_settled(after)
    }
}
