//! A library is opened.
ghost use Rattle.std.specs.Prelude.{◌≡◌, ◌≤◌, ℕ, List, [], None, IfOk, IfErr, MatchResult, IsErrOf};
ghost use Rattle.std.specs.Option.{ForSome};
ghost use Rattle.cm_base.specs.Causes.{Rose};
ghost use Rattle.cm_disk.specs.Disk.{IsImage, LeavesOnly};
ghost use Rattle.cm_log.specs.Frames.{OnlyReads};
ghost use Rattle.cm_state.specs.Look.{Missing, Unreadable, look, has_room};
ghost use Rattle.cm_state.specs.Opens.{EachOpens, EachOpensSome};
ghost use Rattle.cm_state.specs.Sure.{AreManifestsSure};
ghost use Rattle.cm_base.specs.declared.hash.Hash.{Hash as a_hash};
ghost use Rattle.cm_pkglib.specs.Counts.{sealed_of};
ghost use Rattle.cm_contents.specs.Seals.{IsCounted, found_seal, version_entries};
ghost use Rattle.cm_library.specs.Opening.{HasFound};
ghost use Rattle.cm_state.specs.Standing.{StandsIn, IsReady};

use crate::library::Library;
use crate::loading::load_all;
use crate::records::{of_log, read_rows};
use crate::started::none_started;
use cm_contents::{Contents, count_all};
use cm_disk::Disk;
use cm_log::{Log, LogReader, Shelf};
use cm_pkglib::{Counts, Rows};
use cm_state::OpenFault;
use std::alloc::Global;
use std::snapshot::Snapshot;

/// The greatest place of a closed gate of a log.
const MOST: u64 = (1 << 40) - 1;

// Whether the closed gate leaves the room that the ends of versions and jobs may want.
fn leaves_room(end: u64, rows: &Rows) -> bool
    ensures { result ≡ has_room end rows.now.rows }
{
    let versions = rows.versions().len() as u64;
    let jobs = rows.jobs().len() as u64;
    end <= MOST - (18 * versions + 36 * jobs)
}

// The log of a library's disk and what is kept of it.
fn read_library<D: Disk>(alloc: Global, disk: &mut D) -> Result<(Log, Contents, Counts), OpenFault>
    ensures ready { IfOk result (λ found. IsReady found.0 found.1.state) }
    ensures taken { IfOk result (λ found. found.1.taken ≡ None) }
    ensures counted { IfOk result (λ found. IsCounted found.2 found.1.state []) }
    ensures seals { IfOk result (λ found. (hash : a_hash) → sealed_of found.2 hash ≡ found_seal None hash (version_entries found.1.state)) }
    ensures stands { IfOk result (λ found. ForSome (D.reads disk.new) (λ files. StandsIn files (D.may_leave disk.new) found.0 found.1.state)) }
    // A crash preserves the stored manifests.
    ensures manifests { IfOk result (λ found. ForSome (D.reads disk.new) (λ _. AreManifestsSure (D.may_leave disk.new) found.1.state)) }
    ensures missing { IsErrOf result OpenFault.NoLibrary → ForSome (D.reads disk.old) (λ files. look files ≡ Missing) }
    ensures unreadable { (place : List ℕ) (at : ℕ) → IsErrOf result (OpenFault.Unreadable place at) → ForSome (D.reads disk.old) (λ files. look files ≡ Unreadable place at) }
    ensures only { OnlyReads D.reads D.may_leave D.moment D.left_since D.faults disk.old disk.new }
    ensures cause { IsErrOf result OpenFault.Disk → Rose (D.faults disk.old) (D.faults disk.new) }
{
    let mut reader = match LogReader::open(disk, Shelf::PkgLib) {
        Ok(reader) => reader,
        Err(fault) => return Err(of_log(fault)),
    };
    let place = reader.place();
    let rows = match read_rows(alloc, disk, &mut reader) {
        Ok(rows) => rows,
        Err(fault) => return Err(fault),
    };
    let log = reader.done();
    let end = log.end();
    if !leaves_room(end, &rows) {
        return Err(OpenFault::Unreadable { place, at: end });
    }
    let manifests = match load_all(alloc, disk, &rows) {
        Ok(manifests) => manifests,
        Err(fault) => return Err(fault),
    };
    let contents = match Contents::of(alloc, rows, manifests) {
        Ok(contents) => contents,
        Err(_) => return Err(OpenFault::Memory),
    };
    match count_all(alloc, &contents) {
        Ok(counts) => Ok((log, contents, counts)),
        Err(_) => Err(OpenFault::Memory),
    }
}

impl<D: Disk> Library<D> {
    /// Opens the library of a disk: reads the records of its log one by one, and the manifests that they name. The hashes of the
    /// versions are sealed, each with the size of the first entry that has it. The disk is
    /// given back with a fault. `Disk` comes only where the disk failed.
    pub fn open(alloc: Global, disk: D) -> Result<Library<D>, (D, OpenFault)>
        // The state is that of the files, and the log ends where it ends there. They read as before.
        ensures found { IfOk result (λ library. HasFound (D.reads disk) (D.reads library.disk) (D.may_leave library.disk) disk library) }
        ensures missing { IfErr result (λ refused. refused.1 ≡ OpenFault.NoLibrary → ForSome (D.reads disk) (λ files. look files ≡ Missing)) }
        ensures unreadable { IfErr result (λ refused. (place : List ℕ) (at : ℕ) → refused.1 ≡ OpenFault.Unreadable place at → ForSome (D.reads disk) (λ files. look files ≡ Unreadable place at)) }
        ensures given_back { IfErr result (λ refused. D.reads refused.0 ≡ D.reads disk) }
        // While the library is opened, and after a fault, a crash leaves what it might have left before.
        ensures any_moment { MatchResult result (λ library. LeavesOnly D.moment D.left_since disk library.disk (IsImage (D.may_leave disk))) (λ refused. LeavesOnly D.moment D.left_since disk refused.0 (IsImage (D.may_leave disk))) }
        // Where each image opened to some state, each opens now to the state that was found.
        ensures whole { IfOk result (λ library. EachOpensSome (D.may_leave disk) → ForSome (D.reads disk) (λ _. EachOpens (D.may_leave library.disk) library.state)) }
        ensures later { MatchResult result (λ library. D.faults disk ≤ D.faults library.disk) (λ refused. D.faults disk ≤ D.faults refused.0) }
        ensures cause { IfErr result (λ refused. refused.1 ≡ OpenFault.Disk → Rose (D.faults disk) (D.faults refused.0)) }
    {
        let start = Snapshot::of(&disk);
        let mut disk = disk;
        let started = match none_started(alloc) {
            Ok(started) => started,
            Err(_) => return Err((disk, OpenFault::Memory)),
        };
        match read_library(alloc, &mut disk) {
            Ok((log, contents, counts)) => Ok(Library {
                alloc,
                disk,
                start,
                log,
                contents,
                counts,
                started,
                pending: None,
            }),
            Err(fault) => Err((disk, fault)),
        }
    }
}
