//! The rows that a library tells are made and changed.
ghost use Rattle.std.specs.Prelude.{◌≡◌, ◌+◌, ◌^◌, ◌<◌, ◌≤◌, ◌==◌, ◌++◌, ◌∷◌, length, take, drop, map, find, filter, not, IsSome, vec_capacity, IfOk};
ghost use Rattle.cm_contents.specs.Contents.{held_with, job_held_with, manifest_in_map, told_before, with_told, with_told_done, without_told};
ghost use Rattle.cm_state.specs.State.{bytes_of, version_row, job_row};
ghost use Rattle.cm_state.specs.declared.row.JobRow.{JobRow as told_job_row};

use crate::contents::Manifests;
use cm_base::{JobId, Memory, PackageId, Version};
use cm_pkglib::PkgRow;
use cm_state::{JobRow, VersionRow};
use cm_tree::{Entry, Manifest};
use std::alloc::Global;

// The bytes of the files of a manifest, together.
fn total(entries: &[Entry]) -> u64
    requires { length entries.now ≤ 20000 }
    ensures { result ≡ bytes_of entries.now }
{
    let mut total: u64 = 0;
    for entry in entries {
        total += u64::from(entry.size);
    }
    total
}

pub(crate) fn manifest_bytes(manifest: &Manifest) -> u64
    ensures { result ≡ bytes_of manifest.now }
{
    total(manifest.entries())
}

fn kept_bytes(manifests: &Manifests, id: PackageId, version: Version) -> u64
    ensures { result ≡ bytes_of (manifest_in_map manifests.now id version) }
{
    match manifests.get(&(id, version)) {
        Some(manifest) => manifest_bytes(manifest),
        None => 0,
    }
}

fn version_told(row: &PkgRow, manifests: &Manifests) -> VersionRow
    ensures { result ≡ version_row (held_with (manifest_in_map manifests.now) row.now) }
{
    VersionRow {
        package: row.package,
        version: row.version,
        entries: row.entries,
        bytes: kept_bytes(manifests, row.package, row.version),
        hash: row.hash,
    }
}

pub(crate) fn job_told(job: JobId, row: &PkgRow, manifests: &Manifests) -> JobRow
    ensures { result ≡ job_row (job_held_with (manifest_in_map manifests.now) (job, row.now)) }
{
    JobRow {
        job,
        package: row.package,
        version: row.version,
        entries: row.entries,
        bytes: kept_bytes(manifests, row.package, row.version),
        hash: row.hash,
    }
}

/// The told rows of versions, with room for so many more.
pub(crate) fn versions_told(
    alloc: Global,
    rows: &[PkgRow],
    manifests: &Manifests,
    more: usize,
) -> Result<Vec<VersionRow>, Memory>
    requires { length rows.now + more < 2 ^ 32 }
    ensures told { IfOk result (λ told. told.items ≡ map (λ row. version_row (held_with (manifest_in_map manifests.now) row)) rows.now) }
    ensures room { IfOk result (λ told. length rows.now + more ≤ vec_capacity told) }
{
    let mut told = Vec::with_capacity(alloc, rows.len() + more)?;
    for row in rows {
        told.push(version_told(row, manifests))?;
    }
    Ok(told)
}

/// The told rows of unfinished jobs.
pub(crate) fn jobs_told(
    alloc: Global,
    jobs: &[(JobId, PkgRow)],
    manifests: &Manifests,
) -> Result<Vec<JobRow>, Memory>
    ensures { IfOk result (λ told. told.items ≡ map (λ job. job_row (job_held_with (manifest_in_map manifests.now) job)) jobs.now) }
{
    let mut told = Vec::new(alloc);
    for job in jobs {
        told.push(job_told(job.0, &job.1, manifests))?;
    }
    Ok(told)
}

fn stands_before(a: &VersionRow, b: &VersionRow) -> bool
    ensures { result ≡ told_before a.now b.now }
{
    a.package
        .cmp(&b.package)
        .then(a.version.cmp(&b.version))
        .is_lt()
}

// Where a told version is to stand.
fn told_place(rows: &[VersionRow], row: &VersionRow) -> usize
    ensures within { result ≤ length rows.now }
    ensures place { with_told row.now rows.now ≡ take result rows.now ++ row.now ∷ drop result rows.now }
{
    for (i, other) in rows.iter().enumerate() {
        if stands_before(row, other) {
            return i;
        }
    }
    rows.len()
}

fn put_told(rows: &mut Vec<VersionRow>, row: VersionRow)
    requires { length rows.old.items < vec_capacity rows.old }
    ensures rows { rows.new.items ≡ with_told row rows.old.items }
    ensures capacity { vec_capacity rows.old ≤ vec_capacity rows.new }
{
    let at = told_place(rows, &row);
    let _put = rows.insert(at, row);
}

/// Puts the told version of a finished job at its place, where there is room for it.
pub(crate) fn put_finished(rows: &mut Vec<VersionRow>, job: Option<JobRow>)
    requires { IsSome job → length rows.old.items < vec_capacity rows.old }
    ensures rows { rows.new.items ≡ with_told_done job rows.old.items }
    ensures capacity { vec_capacity rows.old ≤ vec_capacity rows.new }
{
    if let Some(job) = job {
        let row = VersionRow {
            package: job.package,
            version: job.version,
            entries: job.entries,
            bytes: job.bytes,
            hash: job.hash,
        };
        put_told(rows, row);
    }
}

fn told_job(jobs: &[JobRow], job: JobId) -> Option<JobRow>
    ensures { result ≡ find (λ (row : told_job_row). row.job == job) jobs.now }
{
    for row in jobs {
        if row.job == job {
            return Some(*row);
        }
    }
    None
}

/// Takes the told row of a job away, and answers it.
pub(crate) fn take_told(jobs: &mut Vec<JobRow>, job: JobId) -> Option<JobRow>
    ensures found { result ≡ find (λ (row : told_job_row). row.job == job) jobs.old.items }
    ensures rest { jobs.new.items ≡ filter (λ (row : told_job_row). not (row.job == job)) jobs.old.items }
    ensures capacity { vec_capacity jobs.new ≡ vec_capacity jobs.old }
{
    let found = told_job(jobs, job);
    jobs.retain(|row| row.job != job);
    found
}

/// Takes the told row of a version away.
pub(crate) fn drop_told(rows: &mut Vec<VersionRow>, package: PackageId, version: Version)
    ensures rows { rows.new.items ≡ without_told «package» version rows.old.items }
    ensures capacity { vec_capacity rows.new ≡ vec_capacity rows.old }
{
    rows.retain(|row| row.package != package || row.version != version);
}
