//! The libraries that the tests begin with, and what they hold.
use crate::calls::{ABC, Answer, Call, ONE, Reply, answered, are_answered, package};
use cm_disk::MemDisk;
use cm_library::Library;
use std::alloc::Global;

/// The unfinished jobs, each by its number and its version, and the versions.
pub type Rows = (&'static [(u64, u32)], &'static [u32]);

/// Whether a library has exactly these jobs and versions, all of the one package.
pub fn has(library: &Library<MemDisk>, rows: Rows) -> bool {
    let (jobs, versions) = rows;
    has_jobs(library, jobs) && has_versions(library, versions)
}

fn has_jobs(library: &Library<MemDisk>, jobs: &[(u64, u32)]) -> bool {
    let rows = library.jobs();
    rows.len() == jobs.len()
        && rows.iter().zip(jobs).all(|(row, job)| {
            Some(row.package) == package() && (row.job.number(), row.version.number()) == *job
        })
}

fn has_versions(library: &Library<MemDisk>, versions: &[u32]) -> bool {
    let rows = library.versions();
    rows.len() == versions.len()
        && rows.iter().zip(versions).all(|(row, version)| {
            Some(row.package) == package() && row.version.number() == *version
        })
}

// Job 1 makes version 1 of `ONE`.
const ADDING: [Reply; 5] = [
    (Call::Begin(1, ONE), Answer::Begun(1)),
    (Call::Start(1, ABC), Answer::Done),
    (Call::Put(1, 0, b"abc"), Answer::Done),
    (Call::Seal(1), Answer::Done),
    (Call::Finish(1), Answer::Done),
];

/// Whether job 1 makes version 1 of `ONE`, in a library that had no job.
pub fn add_first(alloc: Global, library: &mut Library<MemDisk>) -> bool {
    are_answered(alloc, library, &ADDING)
}

/// The library of a disk.
pub fn opened(alloc: Global, disk: MemDisk) -> Option<Library<MemDisk>> {
    match Library::open(alloc, disk) {
        Ok(library) => Some(library),
        Err(_) => None,
    }
}

/// Whether each image of a crash opens to a library with these rows.
pub fn opens_to(alloc: Global, disk: &MemDisk, rows: Rows) -> Option<bool> {
    for pick in 0..3u8 {
        let library = opened(alloc, disk.crash(pick).ok()?)?;
        if !has(&library, rows) {
            return Some(false);
        }
    }
    Some(true)
}

/// An empty library on an empty disk, or the disk where it failed.
pub fn empty_on(alloc: Global, disk: MemDisk) -> Result<Library<MemDisk>, MemDisk> {
    let mut disk = disk;
    if Library::init(&mut disk).is_err() {
        return Err(disk);
    }
    match Library::open(alloc, disk) {
        Ok(library) => Ok(library),
        Err((disk, _)) => Err(disk),
    }
}

/// An empty library.
pub fn empty(alloc: Global) -> Option<Library<MemDisk>> {
    empty_on(alloc, MemDisk::new(alloc, Vec::new(alloc)).ok()?).ok()
}

/// What `begun_with` makes.
pub const BEGUN: Rows = (&[(1, 1)], &[]);

/// A library with job 1 for version 1 with a manifest.
pub fn begun_with(alloc: Global, manifest: &'static [u8]) -> Option<Library<MemDisk>> {
    let mut library = empty(alloc)?;
    let answer = answered(alloc, &mut library, Call::Begin(1, manifest))?;
    (answer == Answer::Begun(1)).then_some(library)
}

/// A library that has version 1 of `ONE`, which job 1 made.
pub fn installed(alloc: Global) -> Option<Library<MemDisk>> {
    let mut library = empty(alloc)?;
    add_first(alloc, &mut library).then_some(library)
}

/// What `prepared` makes.
pub const PREPARED: Rows = (&[(2, 2)], &[1]);

// Whether version 1 was added, and job 2 begun for version 2 with a manifest.
fn prepare(alloc: Global, library: &mut Library<MemDisk>, manifest: &'static [u8]) -> bool {
    add_first(alloc, library)
        && answered(alloc, library, Call::Begin(2, manifest)) == Some(Answer::Begun(2))
}

/// A library on an empty disk that has version 1 of `ONE` and the unfinished job 2 for version 2 with the same manifest. The
/// disk where something failed.
pub fn prepared(alloc: Global, disk: MemDisk) -> Result<Library<MemDisk>, MemDisk> {
    prepared_with(alloc, disk, ONE)
}

/// The same with another manifest for the job.
pub fn prepared_with(
    alloc: Global,
    disk: MemDisk,
    manifest: &'static [u8],
) -> Result<Library<MemDisk>, MemDisk> {
    let mut library = empty_on(alloc, disk)?;
    if prepare(alloc, &mut library, manifest) {
        Ok(library)
    } else {
        Err(library.close())
    }
}
