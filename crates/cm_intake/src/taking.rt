//! A folder is taken in as a version.
ghost use Rattle.std.specs.Prelude.{◌≡◌, ◌<◌, ◌≤◌, ℕ, true, List, [], length, None, Ok, Err, is_some, IfOk, IfErr, IsErrOf};
ghost use Rattle.std.specs.List.{AllByRecursion};
ghost use Rattle.cm_base.specs.Causes.{Rose};
ghost use Rattle.cm_base.specs.declared.hash.Hash.{Hash as a_hash};
ghost use Rattle.cm_contents.specs.Seals.{job_manifest};
ghost use Rattle.cm_pkglib.specs.Counts.{seal_at};
ghost use Rattle.cm_pkglib.specs.Rows.{last_of};
ghost use Rattle.cm_state.specs.Adding.{Told};
ghost use Rattle.cm_state.specs.Needed.{is_named};
ghost use Rattle.cm_state.specs.State.{held_by_job};
ghost use Rattle.cm_tree.specs.Trees.{File as a_file, manifest_of};
ghost use Rattle.cm_tree.specs.declared.entry.Entry.{Entry as an_entry};
ghost use Rattle.cm_library.specs.Placing.{KeepsPlaces};
ghost use Rattle.cm_intake.specs.Ending.{EndsJob, TakesScanned};
ghost use Rattle.cm_intake.specs.Firsts.{AreFirsts};
ghost use Rattle.cm_intake.specs.Intake.{IsAbove, TakesIn, of_scan};

use crate::beginning::begin;
use crate::ending::{drop_job, finish, taken_of};
use crate::filling::fill;
use crate::firsts::Firsts;
use crate::rereading::PIECE;
use crate::{IntakeFault, Taken};
use cm_base::{JobId, Memory, PackageId, Version};
use cm_disk::Disk;
use cm_library::Library;
use cm_tree::{Entry, Folder, Manifest, ScanFault, scan};
use std::alloc::Global;

/// Why the first reading gives no manifest.
fn of_scan(fault: ScanFault) -> IntakeFault
    ensures { result ≡ of_scan fault }
{
    match fault {
        ScanFault::Folder => IntakeFault::Folder,
        ScanFault::TooManyFiles => IntakeFault::TooManyFiles,
        ScanFault::BadPath { entry } => IntakeFault::BadPath { entry },
        ScanFault::SamePath { entry } => IntakeFault::SamePath { entry },
        ScanFault::FileTooLong { entry } => IntakeFault::FileTooLong { entry },
        ScanFault::Memory => IntakeFault::Memory,
    }
}

/// What is made before a job begins, so that no memory is taken after.
#[derive(Drop)]
struct Prepared {
    firsts: Firsts,
    copy: Manifest,
    piece: Vec<u8>,
}

fn prepare(alloc: Global, manifest: &Manifest) -> Result<Prepared, Memory>
    ensures firsts { IfOk result (λ made. AreFirsts made.firsts manifest.now) }
    ensures copy { IfOk result (λ made. made.copy ≡ manifest.now) }
    ensures piece { IfOk result (λ made. length made.piece.items ≡ 65536) }
{
    let firsts = Firsts::of(alloc, manifest.entries())?;
    let copy = manifest.copy(alloc)?;
    let piece = vec![in alloc; 0u8; PIECE]?;
    Ok(Prepared {
        firsts,
        copy,
        piece,
    })
}

/// Fills a job that has begun, and ends it.
fn fill_and_end<F: Folder, D: Disk + Drop>(
    library: &mut Library<D>,
    folder: &mut F,
    job: JobId,
    entries: &[Entry],
    firsts: &Firsts,
    piece: &mut [u8],
) -> Result<Taken, IntakeFault>
    requires settled { library.old.pending ≡ None }
    requires free { library.old.started ≡ [] }
    requires unfinished { is_some (held_by_job job library.old.state.jobs) ≡ true }
    requires manifest { job_manifest job library.old.state ≡ entries.now }
    requires sealed { AllByRecursion (λ (entry : an_entry). is_some (seal_at library.old.seals entry.hash) ≡ is_named entry.hash.0 library.old.state) entries.now }
    requires few { length entries.now ≤ 20000 }
    requires firsts { AreFirsts firsts.now entries.now }
    requires piece { length piece.old ≡ 65536 }
    requires read { (k : ℕ) → k < length entries.now → (F.shows folder.old).now k ≡ (F.shows folder.old).later k }
    ensures ends { EndsJob D.reads D.may_leave D.moment D.left_since (F.shows folder.old) (F.faults folder.old) (F.faults folder.new) entries.now job library.old library.new result }
    ensures places { Told KeepsPlaces (D.reads library.old.disk) (D.reads library.new.disk) }
    ensures folder_later { F.faults folder.old ≤ F.faults folder.new }
    ensures later { D.faults library.old.disk ≤ D.faults library.new.disk }
    ensures cause { IsErrOf result IntakeFault.Disk → Rose (D.faults library.old.disk) (D.faults library.new.disk) }
{
    match fill(library, folder, job, entries, firsts, piece) {
        Ok(None) => match finish(library, job) {
            Ok(()) => Ok(taken_of(entries)),
            Err(fault) => Err(fault),
        },
        Ok(Some(cause)) => match drop_job(library, job) {
            Ok(()) => Err(cause),
            Err(fault) => Err(fault),
        },
        Err(_) => Err(IntakeFault::Disk),
    }
}

/// Takes a folder in whose first reading gave a manifest.
fn take_scanned<F: Folder, D: Disk + Drop>(
    alloc: Global,
    library: &mut Library<D>,
    folder: &mut F,
    package: PackageId,
    version: Version,
    manifest: &Manifest,
) -> Result<Taken, IntakeFault>
    requires settled { library.old.pending ≡ None }
    requires free { library.old.started ≡ [] }
    requires sealed { (hash : a_hash) → is_some (seal_at library.old.seals hash) ≡ is_named hash.0 library.old.state }
    requires fresh { IsAbove version (last_of «package» library.old.state.lasts) }
    requires read { (k : ℕ) → k < length manifest.now → (F.shows folder.old).now k ≡ (F.shows folder.old).later k }
    ensures takes { (files : List a_file) → manifest.now ≡ manifest_of files → TakesScanned D.reads D.may_leave D.moment D.left_since «package» version (F.shows folder.old) (F.faults folder.old) (F.faults folder.new) files library.old library.new result }
    ensures places { Told KeepsPlaces (D.reads library.old.disk) (D.reads library.new.disk) }
    ensures folder_later { F.faults folder.old ≤ F.faults folder.new }
    ensures later { D.faults library.old.disk ≤ D.faults library.new.disk }
    ensures cause { IsErrOf result IntakeFault.Disk → Rose (D.faults library.old.disk) (D.faults library.new.disk) }
{
    library.tells();
    let (firsts, copy, mut piece) = match prepare(alloc, manifest) {
        Ok(
            Prepared {
                firsts,
                copy,
                piece,
            },
        ) => (firsts, copy, piece),
        Err(_) => return Err(IntakeFault::Memory),
    };
    let job = match begin(library, package, version, copy) {
        Ok(job) => job,
        Err(fault) => return Err(fault),
    };
    let entries = manifest.entries();
    fill_and_end(library, folder, job, entries, &firsts, &mut piece)
}

/// Takes a folder in as a version of a package, by two readings, with no file held in memory. The first reading gives the manifest,
/// with which a job begins. Each hash that no version names is then read again, in rising order, from its first entry: at most the
/// bytes of the entry's size, which are put as they are read and sealed if they are of its size and hash. Last the job is finished.
///
/// The first cause that holds is answered: those of the first reading, then the limits of the library, and nothing has changed then.
/// `Changed` comes if and only if a file that is read again has other bytes, and tells the first one that was met. After `Changed`,
/// and after `Folder` where the folder failed as it was read again, the job is dropped. After `Memory` nothing has changed, unless one
/// hash has two sizes: then the job stays unfinished. After `Disk` some of the changes are committed.
pub fn take_in<F: Folder, D: Disk + Drop>(
    alloc: Global,
    library: &mut Library<D>,
    folder: &mut F,
    package: PackageId,
    version: Version,
) -> Result<Taken, IntakeFault>
    // The library is settled, as an opening left it: no job has started a file, and the hashes of its versions are sealed.
    requires settled { library.old.pending ≡ None }
    requires free { library.old.started ≡ [] }
    requires sealed { (hash : a_hash) → is_some (seal_at library.old.seals hash) ≡ is_named hash.0 library.old.state }
    requires fresh { IsAbove version (last_of «package» library.old.state.lasts) }
    ensures takes { TakesIn D.reads D.may_leave D.moment D.left_since «package» version (F.shows folder.old) (F.faults folder.old) (F.faults folder.new) library.old library.new result }
    ensures places { Told KeepsPlaces (D.reads library.old.disk) (D.reads library.new.disk) }
    ensures folder_later { F.faults folder.old ≤ F.faults folder.new }
    ensures later { D.faults library.old.disk ≤ D.faults library.new.disk }
    ensures cause { IsErrOf result IntakeFault.Disk → Rose (D.faults library.old.disk) (D.faults library.new.disk) }
{
    library.tells();
    let manifest = match scan(alloc, folder) {
        Ok(manifest) => manifest,
        Err(fault) => return Err(of_scan(fault)),
    };
    take_scanned(alloc, library, folder, package, version, &manifest)
}
