//! The rows of a library, and the changes that they take.
ghost use Rattle.std.specs.Prelude.{◌≡◌, ◌+◌, ◌-◌, ◌^◌, ◌<◌, ◌≤◌, max, false, None, OnOk, OnErr, IsOk};
ghost use Rattle.std.specs.Result.{result_err};
ghost use Rattle.cm_pkglib.specs.declared.change.Change.TheVariants.{Opened, Done, Dropped, Removed};
ghost use Rattle.cm_pkglib.specs.Rows.{no_rows, fault_of, opened_fault, last_of, all_entries, after, is_opened};
ghost use Rattle.cm_pkglib.specs.InMemory.{needed_room, with_room, applied};
ghost use Rattle.cm_pkglib.specs.Valid.{AreValid};

use crate::moves::{make_room, put_job, put_last, put_row, take_job, take_row};
use crate::search::{has_job, has_row, job_of_version, last_version};
use crate::{Change, PkgRow, RowFault};
use cm_base::{JobId, Memory, PackageId, Version};
use std::alloc::Global;
use std::marker::Model;

const MOST_VERSIONS: usize = 8192;

const MOST_JOBS: usize = 256;

const MOST_ENTRIES: u32 = 400_000;

/// The versions and the unfinished jobs of a library, the next job's number, and the greatest version opened of each package.
/// Contracts see these four, and for how many further jobs memory is taken.
#[derive(Drop)]
pub struct Rows {
    versions: Vec<PkgRow>,
    jobs: Vec<(JobId, PkgRow)>,
    next: JobId,
    lasts: Vec<(PackageId, Version)>,
    // of versions and jobs together
    entries: u32,
    // for how many further jobs each list has memory
    room: u32,
}

impl Model for Rows {
    ghost use Rattle.std.specs.Prelude.{vec_len, vec_capacity};
    ghost use Rattle.cm_pkglib.specs.InMemory.{RowsInMemory};
    ghost use Rattle.cm_pkglib.specs.Kept.{AreKept};

    ghost Value = { RowsInMemory };

    ghost view = { λ r. record { rows = record { versions = r.versions.items; jobs = r.jobs.items; next = r.next; lasts = r.lasts.items }; room = r.room } };

    ghost invariant = { λ r. AreKept (record { versions = r.versions.items; jobs = r.jobs.items; next = r.next; lasts = r.lasts.items }) r.entries r.room (record { len = vec_len r.jobs; capacity = vec_capacity r.jobs }) (record { len = vec_len r.lasts; capacity = vec_capacity r.lasts }) (record { len = vec_len r.versions; capacity = vec_capacity r.versions }) };
}

// The number behind a job's.
fn job_behind(job: JobId) -> JobId
    requires { job < 2 ^ 64 - 1 }
    ensures { result ≡ job + 1 }
{
    match JobId::new(job.number() + 1) {
        Some(next) => next,
        None => unreachable!(),
    }
}

impl Rows {
    /// The rows of an empty library, without memory.
    pub fn new(alloc: Global) -> Rows
        ensures rows { result.rows ≡ no_rows }
        ensures room { result.room ≡ 0 }
    {
        let next = match JobId::new(1) {
            Some(next) => next,
            None => unreachable!(),
        };
        Rows {
            versions: Vec::new(alloc),
            jobs: Vec::new(alloc),
            next,
            lasts: Vec::new(alloc),
            entries: 0,
            room: 0,
        }
    }

    /// The versions, rising by package and version.
    pub fn versions(&self) -> &[PkgRow]
        ensures value { result.now ≡ self.now.rows.versions }
        ensures valid { AreValid self.now.rows }
    {
        &self.versions
    }

    /// The unfinished jobs, rising by number, each with the version that it is to make.
    pub fn jobs(&self) -> &[(JobId, PkgRow)]
        ensures value { result.now ≡ self.now.rows.jobs }
        ensures valid { AreValid self.now.rows }
    {
        &self.jobs
    }

    /// The next job's number.
    pub fn next(&self) -> JobId
        ensures { result ≡ self.now.rows.next }
    {
        self.next
    }

    /// The greatest version opened of each package, rising by package.
    pub fn lasts(&self) -> &[(PackageId, Version)]
        ensures value { result.now ≡ self.now.rows.lasts }
        ensures valid { AreValid self.now.rows }
    {
        &self.lasts
    }

    /// The greatest version opened of a package. None exactly where none was ever opened.
    pub fn last(&self, id: PackageId) -> Option<Version>
        ensures { result ≡ last_of id self.now.rows.lasts }
    {
        last_version(&self.lasts, id)
    }

    /// The number of entries of all versions and unfinished jobs together, at most 400,000.
    pub fn entries(&self) -> u32
        ensures { result ≡ all_entries self.now.rows }
    {
        self.entries
    }

    fn opened_fault(
        &self,
        job: JobId,
        id: PackageId,
        version: Version,
        entries: u32,
    ) -> Option<RowFault>
        ensures { result ≡ opened_fault self.now.rows job id version entries }
    {
        if has_row(&self.versions, id, version) {
            return Some(RowFault::VersionThere);
        }
        if let Some(job) = job_of_version(&self.jobs, id, version) {
            return Some(RowFault::JobThere { job });
        }
        if self.versions.len() + self.jobs.len() >= MOST_VERSIONS {
            return Some(RowFault::TooManyVersions);
        }
        if entries > MOST_ENTRIES - self.entries {
            return Some(RowFault::TooManyEntries);
        }
        if self.jobs.len() >= MOST_JOBS {
            return Some(RowFault::TooManyJobs);
        }
        if job != self.next || job.number() >= u64::MAX {
            return Some(RowFault::WrongJob);
        }
        None
    }

    fn job_fault(&self, job: JobId) -> Option<RowFault>
        ensures done { result ≡ fault_of self.now.rows (Done job) }
        ensures dropped { result ≡ fault_of self.now.rows (Dropped job) }
    {
        if has_job(&self.jobs, job) {
            None
        } else {
            Some(RowFault::NoJob)
        }
    }

    fn removed_fault(&self, id: PackageId, version: Version) -> Option<RowFault>
        ensures { result ≡ fault_of self.now.rows (Removed id version) }
    {
        if has_row(&self.versions, id, version) {
            None
        } else {
            Some(RowFault::NoVersion)
        }
    }

    fn fault(&self, change: &Change) -> Option<RowFault>
        ensures { result ≡ fault_of self.now.rows change.now }
    {
        match change {
            Change::Opened {
                job,
                package,
                version,
                entries,
                ..
            } => self.opened_fault(*job, *package, *version, *entries),
            Change::Done { job } => self.job_fault(*job),
            Change::Dropped { job } => self.job_fault(*job),
            Change::Removed { package, version } => self.removed_fault(*package, *version),
        }
    }

    /// Whether the rows take the change. An Err has the first cause, in the order of [`RowFault`], for which they do not.
    pub fn check(&self, change: &Change) -> Result<(), RowFault>
        ensures { result_err result ≡ fault_of self.now.rows change.now }
    {
        match self.fault(change) {
            None => Ok(()),
            Some(fault) => Err(fault),
        }
    }

    // Room for one further job at least.
    fn have_room(&mut self) -> Result<(), Memory>
        ensures ok { OnOk result (self.new ≡ with_room 1 self.old) }
        ensures memory { OnErr result (self.new ≡ self.old) }
        ensures in_room { 1 ≤ self.old.room → IsOk result }
    {
        if self.room == 0 {
            make_room(&mut self.jobs, &mut self.lasts, &mut self.versions)?;
            self.room = 1;
        }
        Ok(())
    }

    /// Takes the memory that a change will need, that of its job's end too, and keeps it until the change is applied. Only the
    /// opening of a job needs any. After an Err the rows are as before.
    pub fn make_room(&mut self, change: &Change) -> Result<(), Memory>
        ensures ok { OnOk result (self.new ≡ with_room (needed_room change.now) self.old) }
        ensures memory { OnErr result (self.new ≡ self.old) }
        ensures in_room { needed_room change.now ≤ self.old.room → IsOk result }
    {
        match change {
            Change::Opened { .. } => self.have_room(),
            _ => Ok(()),
        }
    }

    fn open(&mut self, job: JobId, row: PkgRow)
        requires free { fault_of self.old.rows (Opened job row.package row.version row.entries row.size row.hash) ≡ None }
        requires room { 1 ≤ self.old.room }
        ensures { self.new ≡ applied (Opened job row.package row.version row.entries row.size row.hash) self.old }
    {
        self.room -= 1;
        self.entries += row.entries;
        self.next = job_behind(job);
        put_last(&mut self.lasts, row.package, row.version);
        put_job(&mut self.jobs, job, row);
    }

    fn finish(&mut self, job: JobId)
        requires { fault_of self.old.rows (Done job) ≡ None }
        ensures { self.new ≡ applied (Done job) self.old }
    {
        let row = take_job(&mut self.jobs, job);
        put_row(&mut self.versions, row);
    }

    fn give_up(&mut self, job: JobId)
        requires { fault_of self.old.rows (Dropped job) ≡ None }
        ensures { self.new ≡ applied (Dropped job) self.old }
    {
        let row = take_job(&mut self.jobs, job);
        self.entries -= row.entries;
    }

    fn remove(&mut self, id: PackageId, version: Version)
        requires { fault_of self.old.rows (Removed id version) ≡ None }
        ensures { self.new ≡ applied (Removed id version) self.old }
    {
        let row = take_row(&mut self.versions, id, version);
        self.entries -= row.entries;
    }

    /// Makes a change that [`Rows::check`] takes. It takes no memory where there is room for it, as after [`Rows::make_room`],
    /// and else only for the opening of a job, also that which its end will need. After an Err the rows are as before.
    pub fn apply(&mut self, change: &Change) -> Result<(), Memory>
        requires { fault_of self.old.rows change.now ≡ None }
        ensures ok { OnOk result (self.new ≡ applied change.now self.old) }
        ensures memory { OnErr result (self.new ≡ self.old) }
        ensures in_room { needed_room change.now ≤ self.old.room → IsOk result }
        ensures opened_alone { is_opened change.now ≡ false → IsOk result }
    {
        match change {
            Change::Opened {
                job,
                package,
                version,
                entries,
                size,
                hash,
            } => {
                self.have_room()?;
                self.open(
                    *job,
                    PkgRow {
                        package: *package,
                        version: *version,
                        entries: *entries,
                        size: *size,
                        hash: *hash,
                    },
                );
            }
            Change::Done { job } => self.finish(*job),
            Change::Dropped { job } => self.give_up(*job),
            Change::Removed { package, version } => self.remove(*package, *version),
        }
        Ok(())
    }
}
