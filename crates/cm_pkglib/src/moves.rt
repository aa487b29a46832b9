//! Rows that rise are changed in place.
ghost use Rattle.std.specs.Prelude.{◌≡◌, ◌+◌, ◌<◌, ◌≤◌, vec_len, vec_capacity, max, true, false, Some, ◌∷◌, [], ◌++◌, OnOk};
ghost use Rattle.std.specs.List.{list_any};
ghost use Rattle.cm_pkglib.specs.Rows.{is_of, is_unfinished, row_of_job, without_job, without_version, version_row, with_row, with_last};
ghost use Rattle.cm_pkglib.specs.Valid.{VersionsRise, JobsRise, LastsRise};

use crate::PkgRow;
use crate::search::{job_place, last_place, version_place};
use cm_base::{JobId, Memory, PackageId, Version};

// Takes an unfinished job away, and answers its row.
pub fn take_job(jobs: &mut Vec<(JobId, PkgRow)>, job: JobId) -> PkgRow
    requires rising { JobsRise jobs.old.items }
    requires there { is_unfinished job jobs.old.items ≡ true }
    ensures row { row_of_job job jobs.old.items ≡ Some result }
    ensures rest { jobs.new.items ≡ without_job job jobs.old.items }
    ensures len { vec_len jobs.new + 1 ≡ vec_len jobs.old }
    ensures capacity { vec_capacity jobs.new ≡ vec_capacity jobs.old }
{
    match job_place(jobs, job) {
        Ok(at) => jobs.remove(at).1,
        Err(_) => unreachable!(),
    }
}

// Takes the row of a version away, and answers it.
pub fn take_row(rows: &mut Vec<PkgRow>, id: PackageId, version: Version) -> PkgRow
    requires rising { VersionsRise rows.old.items }
    requires there { list_any (is_of id version) rows.old.items ≡ true }
    ensures row { version_row id version rows.old.items ≡ Some result }
    ensures rest { rows.new.items ≡ without_version id version rows.old.items }
    ensures len { vec_len rows.new + 1 ≡ vec_len rows.old }
    ensures capacity { vec_capacity rows.new ≡ vec_capacity rows.old }
{
    match version_place(rows, id, version) {
        Ok(at) => rows.remove(at),
        Err(_) => unreachable!(),
    }
}

// Puts a row at its place, where there is room for it.
pub fn put_row(rows: &mut Vec<PkgRow>, row: PkgRow)
    requires rising { VersionsRise rows.old.items }
    requires absent { list_any (is_of row.package row.version) rows.old.items ≡ false }
    requires room { vec_len rows.old < vec_capacity rows.old }
    ensures rows { rows.new.items ≡ with_row row rows.old.items }
    ensures len { vec_len rows.new ≡ vec_len rows.old + 1 }
    ensures capacity { vec_capacity rows.old ≤ vec_capacity rows.new }
{
    match version_place(rows, row.package, row.version) {
        Ok(_) => unreachable!(),
        Err(at) => {
            let _put = rows.insert(at, row);
        }
    }
}

fn greater(a: Version, b: Version) -> Version
    ensures { result ≡ max a b }
{
    if a < b { b } else { a }
}

// Notes that a version of a package was opened, where there is room for one package more.
pub fn put_last(lasts: &mut Vec<(PackageId, Version)>, id: PackageId, version: Version)
    requires rising { LastsRise lasts.old.items }
    requires room { vec_len lasts.old < vec_capacity lasts.old }
    ensures lasts { lasts.new.items ≡ with_last id version lasts.old.items }
    ensures len { vec_len lasts.new ≤ vec_len lasts.old + 1 }
    ensures capacity { vec_capacity lasts.old ≤ vec_capacity lasts.new }
{
    match last_place(lasts, id) {
        Ok(at) => {
            let last = &mut lasts[at];
            last.1 = greater(last.1, version);
        }
        Err(at) => {
            let _put = lasts.insert(at, (id, version));
        }
    }
}

// Puts an unfinished job behind the others, where there is room for it.
pub fn put_job(jobs: &mut Vec<(JobId, PkgRow)>, job: JobId, row: PkgRow)
    requires { vec_len jobs.old < vec_capacity jobs.old }
    ensures jobs { jobs.new.items ≡ jobs.old.items ++ (job, row) ∷ [] }
    ensures len { vec_len jobs.new ≡ vec_len jobs.old + 1 }
    ensures capacity { vec_capacity jobs.old ≤ vec_capacity jobs.new }
{
    let _put = jobs.push((job, row));
}

// Makes room for one job more, for its package, and among the versions for all jobs and this one.
pub fn make_room(
    jobs: &mut Vec<(JobId, PkgRow)>,
    lasts: &mut Vec<(PackageId, Version)>,
    versions: &mut Vec<PkgRow>,
) -> Result<(), Memory>
    ensures jobs { jobs.new.items ≡ jobs.old.items }
    ensures lasts { lasts.new.items ≡ lasts.old.items }
    ensures versions { versions.new.items ≡ versions.old.items }
    ensures jobs_len { vec_len jobs.new ≡ vec_len jobs.old }
    ensures lasts_len { vec_len lasts.new ≡ vec_len lasts.old }
    ensures versions_len { vec_len versions.new ≡ vec_len versions.old }
    ensures jobs_capacity { vec_capacity jobs.old ≤ vec_capacity jobs.new }
    ensures lasts_capacity { vec_capacity lasts.old ≤ vec_capacity lasts.new }
    ensures versions_capacity { vec_capacity versions.old ≤ vec_capacity versions.new }
    ensures jobs_room { OnOk result (vec_len jobs.new < vec_capacity jobs.new) }
    ensures lasts_room { OnOk result (vec_len lasts.new < vec_capacity lasts.new) }
    ensures versions_room { OnOk result (vec_len versions.new + vec_len jobs.new + 1 ≤ vec_capacity versions.new) }
{
    jobs.reserve(1)?;
    lasts.reserve(1)?;
    let unfinished = jobs.len();
    versions.reserve(unfinished + 1)?;
    Ok(())
}
