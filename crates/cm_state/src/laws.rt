//! The laws of states and images.
ghost use Rattle.std.specs.Prelude.{◌≡◌, ◌≢◌, ◌<◌, ◌^◌, ℕ, List, length, None, Some};
ghost use Rattle.std.specs.Option.{ForSome};
ghost use Rattle.cm_disk.specs.Disk.{Files, IsImage, LeavesNoMore};
ghost use Rattle.cm_log.specs.declared.shelf.Shelf.TheVariants.{PkgLib};
ghost use Rattle.cm_log.specs.Logs.{shelved};
ghost use Rattle.cm_log.specs.Settled.{shelf_of, place_of, end_of, IsBeforeOrAfter};
ghost use Rattle.cm_pkglib.specs.Changes.{spelled};
ghost use Rattle.cm_pkglib.specs.Rows.{opened_fault};
ghost use Rattle.cm_datalib.specs.Places.{manifest_place};
ghost use Rattle.cm_state.specs.Changes.{StateChange, record_of};
ghost use Rattle.cm_state.specs.Commits.{MayCommit, BringsManifest, BringsFiles, StandsUnsettled};
ghost use Rattle.cm_state.specs.Sound.{AreNamed};
ghost use Rattle.cm_state.specs.Standing.{StandsIn};
ghost use Rattle.cm_state.specs.State.{State, rows_of};
ghost use Rattle.cm_state.specs.Sure.{AreManifestsSure, AreVersionsSure};
ghost use Rattle.cm_state.specs.Needs.{NeedsAreEnough};
ghost use Rattle.cm_state.specs.Purged.{Clears};
ghost use Rattle.cm_state.specs.Opens.{OpensToOne, Opens, OpensOr, EachOpens, EachOpensSome, Stands};
ghost use Rattle.cm_state.specs.Steps.{EachImageIsPrefixed};
ghost use Rattle.cm_state.specs.Whole.{TreesAreWhole, TreesOpen};

use cm_disk::Disk;
use cm_log::Log;

/// Files open to one state at most.
pub fn files_open_to_one_state()
    ensures { OpensToOne }
{}

/// What a state needs is enough: other files that agree at the log's places and at those that the state needs open to it as well.
pub fn needs_are_enough()
    ensures { NeedsAreEnough }
{}

/// Where some loose places are gone and nothing else has changed, files that opened to a state open to it, and those that stood in it
/// stand in it.
pub fn clearing_keeps_what_opens()
    ensures opens { (state : State) (files now : Files) → Clears state files now → Opens files state → Opens now state }
    ensures stands { (state : State) (files now : Files) → Clears state files now → Stands files state → Stands now state }
{}

/// Whatever calls, disk faults, crashes and openings follow one another, each image opens to the replay of a prefix of the
/// committed changes, which has each acknowledged one.
pub fn every_image_opens_to_a_prefix()
    ensures { EachImageIsPrefixed }
{}

/// Files that open to the manifests of trees have these trees, unless two byte strings have one hash and differ.
pub fn trees_are_whole()
    ensures { TreesAreWhole }
{}

/// Files that have whole trees open to their manifests.
pub fn a_tree_opens()
    ensures { TreesOpen }
{}

/// Whatever a crash leaves of a library at rest opens to its state, where the manifests that the state needs and the files of its
/// versions are there whatever a crash leaves.
pub fn each_image_opens<D: Disk>(disk: &D, log: &Log)
    ensures { (state : State) → shelf_of log.now ≡ PkgLib → ForSome (D.reads disk.now) (λ files. StandsIn files (D.may_leave disk.now) log.now state → AreManifestsSure (D.may_leave disk.now) state → AreVersionsSure (D.may_leave disk.now) state
        → EachOpens (D.may_leave disk.now) state) }
{
    let _disk = disk;
    let _log = log;
}

/// While the manifest of a version is stored that may begin, whatever a crash leaves opens to the state.
pub fn storing_opens<D: Disk>(disk: &D, log: &Log)
    ensures { (state : State) (id : List ℕ) (version entries : ℕ) → shelf_of log.now ≡ PkgLib → ForSome (D.reads disk.now) (λ files. StandsIn files (D.may_leave disk.now) log.now state → AreManifestsSure (D.may_leave disk.now) state → AreVersionsSure (D.may_leave disk.now) state
        → AreNamed (rows_of state) → opened_fault (rows_of state) state.next id version entries ≡ None → length id ≡ 8 → version < 2 ^ 32
        → (image : Files) → ((q : List ℕ) → q ≢ manifest_place id version → D.may_leave disk.now q (image q)) → Opens image state) }
{
    let _disk = disk;
    let _log = log;
}

/// While the record of any of the four changes is added, whatever a crash leaves opens to the state before it or after.
pub fn a_commit_opens_or<D: Disk>(disk: &D, log: &Log)
    ensures { (state : State) (change : StateChange) → shelf_of log.now ≡ PkgLib → MayCommit (end_of log.now) state change → ForSome (D.reads disk.now) (λ files. StandsIn files (D.may_leave disk.now) log.now state → AreManifestsSure (D.may_leave disk.now) state → AreVersionsSure (D.may_leave disk.now) state
        → BringsManifest (D.may_leave disk.now) change → BringsFiles (D.may_leave disk.now) state change
        → (image : Files) → IsBeforeOrAfter (shelf_of log.now) (place_of log.now) (D.may_leave disk.now) (shelved (shelf_of log.now) files) (spelled (record_of change)) image → OpensOr state (Some change) image) }
{
    let _disk = disk;
    let _log = log;
}

/// After an append that failed, whatever a crash leaves opens to the state before the change or after it.
pub fn a_failed_commit_opens_or<D: Disk>(disk: &D, log: &Log)
    ensures { (state : State) (change : StateChange) → shelf_of log.now ≡ PkgLib → MayCommit (end_of log.now) state change → ForSome (D.reads disk.now) (λ files. StandsUnsettled files (D.may_leave disk.now) log.now state change → AreManifestsSure (D.may_leave disk.now) state → AreVersionsSure (D.may_leave disk.now) state
        → BringsFiles (D.may_leave disk.now) state change
        → (image : Files) → IsImage (D.may_leave disk.now) image → OpensOr state (Some change) image) }
{
    let _disk = disk;
    let _log = log;
}

/// Where each image opened to some state at the opening, and no more is left now, the files of the versions that are found are
/// there whatever a crash leaves.
pub fn found_files_are_sure<D: Disk>(start: &D, disk: &D)
    ensures { EachOpensSome (D.may_leave start.now) → LeavesNoMore (D.may_leave start.now) (D.may_leave disk.now) → ForSome (D.reads disk.now) (λ files. (state : State) → Stands files state → AreVersionsSure (D.may_leave disk.now) state) }
{
    let _start = start;
    let _disk = disk;
}
