//! Rows that rise are searched by halves.
ghost use Rattle.std.specs.Prelude.{◌≡◌, ℕ, List};
ghost use Rattle.std.specs.List.{list_any};
ghost use Rattle.std.specs.Ordering.{nat_cmp};
ghost use Rattle.std.specs.Cmp.Lexicographic.{slice_cmp};
ghost use Rattle.cm_pkglib.specs.Places.{IsPlace};
ghost use Rattle.cm_pkglib.specs.Rows.{version_cmp, is_of, job_with, last_of, is_unfinished};
ghost use Rattle.cm_pkglib.specs.Valid.{VersionsRise, JobsRise, LastsRise};

use crate::PkgRow;
use cm_base::{JobId, PackageId, Version};

// Where a version stands, or is to stand.
pub fn version_place(rows: &[PkgRow], id: PackageId, version: Version) -> Result<usize, usize>
    requires { VersionsRise rows.now }
    ensures { IsPlace (version_cmp id version) rows.now result }
{
    rows.binary_search_by(|row| { row.package.cmp(&id).then(row.version.cmp(&version)) })
}

// Where an unfinished job stands, or is to stand.
pub fn job_place(jobs: &[(JobId, PkgRow)], job: JobId) -> Result<usize, usize>
    requires { JobsRise jobs.now }
    ensures { IsPlace (λ (u : ℕ × PkgRow). nat_cmp u.0 job) jobs.now result }
{
    jobs.binary_search_by(|unfinished| unfinished.0.cmp(&job))
}

// Where a package stands, or is to stand.
pub fn last_place(lasts: &[(PackageId, Version)], id: PackageId) -> Result<usize, usize>
    requires { LastsRise lasts.now }
    ensures { IsPlace (λ (l : List ℕ × ℕ). slice_cmp nat_cmp l.0 id) lasts.now result }
{
    lasts.binary_search_by(|last| last.0.cmp(&id))
}

pub fn has_row(rows: &[PkgRow], id: PackageId, version: Version) -> bool
    requires { VersionsRise rows.now }
    ensures { result ≡ list_any (is_of id version) rows.now }
{
    version_place(rows, id, version).is_ok()
}

pub fn has_job(jobs: &[(JobId, PkgRow)], job: JobId) -> bool
    requires { JobsRise jobs.now }
    ensures { result ≡ is_unfinished job jobs.now }
{
    job_place(jobs, job).is_ok()
}

fn is_row_of(row: &PkgRow, id: PackageId, version: Version) -> bool
    ensures { result ≡ is_of id version row.now }
{
    row.package == id && row.version == version
}

pub fn job_of_version(jobs: &[(JobId, PkgRow)], id: PackageId, version: Version) -> Option<JobId>
    ensures { result ≡ job_with id version jobs.now }
{
    for unfinished in jobs {
        if is_row_of(&unfinished.1, id, version) {
            return Some(unfinished.0);
        }
    }
    None
}

pub fn last_version(lasts: &[(PackageId, Version)], id: PackageId) -> Option<Version>
    requires { LastsRise lasts.now }
    ensures { result ≡ last_of id lasts.now }
{
    match last_place(lasts, id) {
        Ok(at) => Some(lasts[at].1),
        Err(_) => None,
    }
}
