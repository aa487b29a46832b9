//! The files that jobs have started.
ghost use Rattle.std.specs.Prelude.{◌≡◌, ◌<◌, ◌≤◌, ◌++◌, ◌∷◌, [], length, option_map, IfOk, vec_capacity};
ghost use Rattle.hex.specs.Hex.{IsBytes};
ghost use Rattle.cm_library.specs.Started.{started_by, without_file, without_own, holder_of, AreAllApart, IsFileAt};

use cm_base::{Hash, JobId, Memory};
use cm_filelib::Writing;
use std::alloc::Global;

/// The most jobs that are unfinished at once: each has at most one started file.
const MOST: usize = 256;

/// No file is started, and there is room for those of all jobs.
pub(crate) fn none_started(alloc: Global) -> Result<Vec<(JobId, Writing)>, Memory>
    ensures none { IfOk result (λ started. started.items ≡ []) }
    ensures room { IfOk result (λ started. 256 ≤ vec_capacity started) }
{
    let started = Vec::with_capacity(alloc, MOST)?;
    Ok(started)
}

// Where the started file of a job stands.
fn find_file(started: &[(JobId, Writing)], job: JobId) -> Option<usize>
    ensures there { IsFileAt job started.now result }
{
    for (i, file) in started.iter().enumerate() {
        if file.0 == job {
            return Some(i);
        }
    }
    None
}

/// Takes the started file of a job.
pub(crate) fn take_file(started: &mut Vec<(JobId, Writing)>, job: JobId) -> Option<Writing>
    requires apart { AreAllApart started.old.items }
    ensures found { result ≡ started_by job started.old.items }
    ensures rest { started.new.items ≡ without_file job started.old.items }
    ensures capacity { vec_capacity started.new ≡ vec_capacity started.old }
{
    match find_file(started, job) {
        Some(at) => {
            let (_, writing) = started.remove(at);
            Some(writing)
        }
        None => None,
    }
}

/// The started file of a job.
pub(crate) fn started_of(started: &[(JobId, Writing)], job: JobId) -> Option<&Writing>
    ensures { option_map (λ writing. writing.now) result ≡ started_by job started.now }
{
    for file in started {
        if file.0 == job {
            return Some(&file.1);
        }
    }
    None
}

/// A job gives up its started file.
pub(crate) fn leave_file(started: &mut Vec<(JobId, Writing)>, job: JobId)
    ensures rest { started.new.items ≡ without_file job started.old.items }
    ensures capacity { vec_capacity started.new ≡ vec_capacity started.old }
{
    started.retain(|file| file.0 != job);
}

/// A job gives up its started file, if it is of this hash.
pub(crate) fn leave_own(started: &mut Vec<(JobId, Writing)>, job: JobId, hash: Hash)
    ensures rest { started.new.items ≡ without_own job hash started.old.items }
    ensures capacity { vec_capacity started.new ≡ vec_capacity started.old }
{
    started.retain(|file| file.0 != job || file.1.hash() != hash);
}

/// A job has started a file.
pub(crate) fn add_file(started: &mut Vec<(JobId, Writing)>, job: JobId, writing: Writing)
    requires room { length started.old.items < vec_capacity started.old }
    ensures more { started.new.items ≡ started.old.items ++ (job, writing) ∷ [] }
    ensures capacity { vec_capacity started.old ≤ vec_capacity started.new }
{
    let _pushed = started.push((job, writing));
}

/// The other job that has started a file of this hash.
pub(crate) fn holder_of(started: &[(JobId, Writing)], job: JobId, hash: Hash) -> Option<JobId>
    ensures { result ≡ holder_of job hash started.now }
{
    for file in started {
        if file.0 != job && file.1.hash() == hash {
            return Some(file.0);
        }
    }
    None
}

/// A hash is 32 bytes, which is said here alone.
pub(crate) fn show_bytes(hash: Hash)
    ensures bytes { IsBytes hash.0 }
    ensures long { length hash.0 ≡ 32 }
{
    let _hash = hash;
}
