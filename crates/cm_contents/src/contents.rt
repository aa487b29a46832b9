//! What a library keeps in memory, and how it changes.
ghost use Rattle.std.specs.Prelude.{◌≡◌, ◌+◌, ◌<◌, ◌≤◌, None, Some, List, ℕ, length, IfOk, IfSome, OnErr, OnOk, [], is_some, option_map, unwrap_or, find, vec_len, vec_capacity};
ghost use Rattle.std.specs.Result.{result_err};
ghost use Rattle.cm_pkglib.specs.Counts.{sealed_of};
ghost use Rattle.cm_pkglib.specs.declared.change.Change.TheVariants.{Done as done_change, Dropped as dropped_change, Removed as removed_change};
ghost use Rattle.cm_pkglib.specs.Rows.{last_of, fault_of, opened_fault, row_of_job, is_of};
ghost use Rattle.cm_pkglib.specs.Valid.{AreValid};
ghost use Rattle.cm_state.specs.Changes.{Begun, Finished, Dropped, Removed, changed};
ghost use Rattle.cm_state.specs.Needed.{holds};
ghost use Rattle.cm_state.specs.State.{Held as a_held, held_of, rows_of, version_rows, job_rows, count_in, entries_in, held_by_job};
ghost use Rattle.cm_tree.specs.Manifests.{IsManifest};
ghost use Rattle.cm_contents.specs.Contents.{state_with, manifest_in_map, PutsManifest, change_in, is_of_version, IsTakenFor};
ghost use Rattle.cm_contents.specs.Seals.{job_manifest, version_manifest};
ghost use Rattle.cm_contents.specs.Wants.{size_in, HasHashes, IsNextWanted};

use crate::told::{drop_told, job_told, jobs_told, put_finished, take_told, versions_told};
use crate::wants::{JobWants, Wants, drop_wants, jobs_want, keep_wants};
use cm_base::{Hash, JobId, Memory, PackageId, Version};
use cm_pkglib::{Change, Counts, PkgRow, RowFault, Rows};
use cm_state::{JobRow, VersionRow};
use cm_tree::{Entry, Manifest};
use std::alloc::Global;
use std::collections::BTreeMap;
use std::marker::Model;

/// The manifests that are kept, by package and version.
pub type Manifests = BTreeMap<(PackageId, Version), Manifest>;

/// The versions and the unfinished jobs, each with its manifest, and the rows that are told. Contracts see the state, and what a
/// job is to begin with for which memory is taken.
#[derive(Drop)]
pub struct Contents {
    pub(crate) rows: Rows,
    pub(crate) manifests: Manifests,
    pub(crate) versions: Vec<VersionRow>,
    pub(crate) jobs: Vec<JobRow>,
    // what each unfinished job wants; under the next number what the job wants that is to begin
    pub(crate) wants: JobWants,
    // the version of a job that is to begin, for which memory is taken; its manifest is in the map
    pub(crate) taken: Option<(PackageId, Version)>,
}

impl Model for Contents {
    ghost use Rattle.std.specs.Prelude.{vec_capacity};
    ghost use Rattle.std.specs.BTreeMap.{get};
    ghost use Rattle.std.specs.Ordering.{nat_cmp};
    ghost use Rattle.cm_contents.specs.Contents.{InMemory, kept_with, manifest_in_map, has_manifest, IsInMemory};

    ghost Value = { InMemory };

    ghost view = { λ c. kept_with (manifest_in_map c.manifests) c.rows.rows c.taken };

    ghost invariant = { λ c. IsInMemory (kept_with (manifest_in_map c.manifests) c.rows.rows c.taken) (get nat_cmp c.wants) (has_manifest c.manifests c.taken) c.rows.room c.versions.items c.jobs.items (vec_capacity c.versions) (vec_capacity c.jobs) };
}

// Room for one more told job, and for the end of each.
fn make_room(versions: &mut Vec<VersionRow>, jobs: &mut Vec<JobRow>) -> Result<(), Memory>
    ensures versions { versions.new.items ≡ versions.old.items }
    ensures jobs { jobs.new.items ≡ jobs.old.items }
    ensures versions_capacity { vec_capacity versions.old ≤ vec_capacity versions.new }
    ensures versions_room { OnOk result (length versions.new.items + length jobs.new.items + 1 ≤ vec_capacity versions.new) }
    ensures jobs_room { OnOk result (vec_len jobs.new < vec_capacity jobs.new) }
{
    jobs.reserve(1)?;
    let unfinished = jobs.len();
    versions.reserve(unfinished + 1)?;
    Ok(())
}

// A manifest more is kept.
fn keep_manifest(
    manifests: &mut Manifests,
    key: (PackageId, Version),
    manifest: Manifest,
) -> Result<(), Memory>
    ensures put { OnOk result (PutsManifest manifests.old manifests.new key.0 key.1 manifest) }
    ensures same { OnErr result ((id : List ℕ) (version : ℕ) → manifest_in_map manifests.new id version ≡ manifest_in_map manifests.old id version) }
{
    match manifests.insert(key, manifest) {
        Ok(_) => Ok(()),
        Err(_) => Err(Memory),
    }
}

// Takes the memory for a job that begins for a version with this manifest, and for its end. The manifest joins the map.
fn take_room(
    rows: &mut Rows,
    manifests: &mut Manifests,
    versions: &mut Vec<VersionRow>,
    jobs: &mut Vec<JobRow>,
    key: (PackageId, Version),
    manifest: Manifest,
) -> Result<(), Memory>
    ensures rows { rows.new.rows ≡ rows.old.rows }
    ensures rows_room { OnOk result (1 ≤ rows.new.room) }
    ensures versions { versions.new.items ≡ versions.old.items }
    ensures jobs { jobs.new.items ≡ jobs.old.items }
    ensures versions_capacity { vec_capacity versions.old ≤ vec_capacity versions.new }
    ensures versions_room { OnOk result (length versions.new.items + length jobs.new.items + 1 ≤ vec_capacity versions.new) }
    ensures jobs_room { OnOk result (length jobs.new.items < vec_capacity jobs.new) }
    ensures put { OnOk result (PutsManifest manifests.old manifests.new key.0 key.1 manifest) }
    ensures same { OnErr result ((id : List ℕ) (version : ℕ) → manifest_in_map manifests.new id version ≡ manifest_in_map manifests.old id version) }
{
    make_room(versions, jobs)?;
    let change = Change::Opened {
        job: rows.next(),
        package: key.0,
        version: key.1,
        entries: 0,
        size: 0,
        hash: Hash([0; 32]),
    };
    rows.make_room(&change)?;
    keep_manifest(manifests, key, manifest)
}

// The row of a version whose manifest is in the map.
fn row_for(manifests: &Manifests, key: (PackageId, Version), size: u32, hash: Hash) -> PkgRow
    ensures { result ≡ record { «package» = key.0; version = key.1; entries = length (manifest_in_map manifests.now key.0 key.1); size = size; hash = hash } }
{
    let entries = match manifests.get(&key) {
        Some(manifest) => manifest.entries().len() as u32,
        None => 0,
    };
    PkgRow {
        package: key.0,
        version: key.1,
        entries,
        size,
        hash,
    }
}

// The version is there, or an unfinished job is to make it.
fn is_of_version(fault: &RowFault) -> bool
    ensures { result ≡ is_of_version fault.now }
{
    match *fault {
        RowFault::VersionThere => true,
        RowFault::JobThere { .. } => true,
        RowFault::NoJob => false,
        RowFault::NoVersion => false,
        RowFault::TooManyVersions => false,
        RowFault::TooManyEntries => false,
        RowFault::TooManyJobs => false,
        RowFault::WrongJob => false,
    }
}

// The row of an unfinished job.
fn row_of_job(jobs: &[(JobId, PkgRow)], job: JobId) -> Option<PkgRow>
    ensures { result ≡ row_of_job job jobs.now }
{
    for unfinished in jobs {
        if unfinished.0 == job {
            return Some(unfinished.1);
        }
    }
    None
}

// The entries of a manifest, none where it is not kept.
fn entries_or_none(manifest: Option<&Manifest>) -> &[Entry]
    ensures value { result.now ≡ unwrap_or (option_map (λ manifest. manifest.now) manifest.entry) [] }
    ensures form { IsManifest result.now }
{
    match manifest {
        Some(manifest) => manifest.entries(),
        None => &[],
    }
}

impl Contents {
    /// What rows and their manifests make.
    pub fn of(alloc: Global, rows: Rows, manifests: Manifests) -> Result<Contents, Memory>
        ensures { IfOk result (λ contents. contents ≡ record { state = state_with (manifest_in_map manifests) rows.rows; taken = None }) }
    {
        let unfinished = rows.jobs();
        let versions = versions_told(alloc, rows.versions(), &manifests, unfinished.len())?;
        let jobs = jobs_told(alloc, unfinished, &manifests)?;
        let wants = jobs_want(alloc, unfinished, &manifests)?;
        Ok(Contents {
            rows,
            manifests,
            versions,
            jobs,
            wants,
            taken: None,
        })
    }

    pub fn versions(&self) -> &[VersionRow]
        ensures { result.now ≡ version_rows self.now.state }
    {
        &self.versions
    }

    pub fn jobs(&self) -> &[JobRow]
        ensures { result.now ≡ job_rows self.now.state }
    {
        &self.jobs
    }

    pub fn last(&self, package: PackageId) -> Option<Version>
        ensures { result ≡ last_of «package» self.now.state.lasts }
    {
        self.rows.last(package)
    }

    pub fn next(&self) -> JobId
        ensures { result ≡ self.now.state.next }
    {
        self.rows.next()
    }

    pub fn count(&self) -> u32
        ensures { result ≡ count_in self.now.state }
    {
        (self.rows.versions().len() + self.rows.jobs().len()) as u32
    }

    pub fn entries(&self) -> u32
        ensures { result ≡ entries_in self.now.state }
    {
        self.rows.entries()
    }

    /// Its rows are valid, which is said here alone.
    pub fn tells_valid(&self)
        ensures { AreValid (rows_of self.now.state) }
    {
        let _rising = self.rows.versions();
    }

    /// Why a change is refused.
    pub fn check(&self, change: &Change) -> Result<(), RowFault>
        ensures { result_err result ≡ fault_of (rows_of self.now.state) change.now }
    {
        self.rows.check(change)
    }

    /// Why no job may begin for a version with so many entries.
    pub fn begin_fault(&self, id: PackageId, version: Version, entries: u32) -> Option<RowFault>
        ensures { result ≡ opened_fault (rows_of self.now.state) self.now.state.next id version entries }
    {
        let change = Change::Opened {
            job: self.next(),
            package: id,
            version,
            entries,
            size: 0,
            hash: Hash([0; 32]),
        };
        match self.check(&change) {
            Ok(()) => None,
            Err(fault) => Some(fault),
        }
    }

    /// Whether a job is unfinished.
    pub fn is_unfinished(&self, job: JobId) -> bool
        ensures { result ≡ is_some (held_by_job job self.now.state.jobs) }
    {
        row_of_job(self.rows.jobs(), job).is_some()
    }

    /// Whether a version is there, or an unfinished job is to make it.
    pub fn holds(&self, package: PackageId, version: Version) -> bool
        ensures { result ≡ holds «package» version self.now.state }
    {
        match self.begin_fault(package, version, 0) {
            Some(fault) => is_of_version(&fault),
            None => false,
        }
    }

    // What an unfinished job wants. None only where its manifest has no entries, or there is no such job.
    fn job_wants(&self, job: JobId) -> Option<&Wants>
        ensures { HasHashes (option_map (λ wants. wants.now) result) (job_manifest job self.now.state) }
    {
        if !self.is_unfinished(job) {
            return None;
        }
        self.wants.get(&job)
    }

    /// The size in bytes that the first entry with a hash has in the manifest of an unfinished job. None exactly where no entry has
    /// that hash, or there is no such job.
    pub fn wanted_size(&self, job: JobId, hash: Hash) -> Option<u32>
        ensures { result ≡ size_in hash (job_manifest job self.now.state) }
    {
        match self.job_wants(job) {
            Some(wants) => wants.size(hash),
            None => None,
        }
    }

    /// The least hash above another that the manifest of an unfinished job names and that is not sealed, with the size in bytes of
    /// its first entry. None exactly where there is none, or no such job.
    pub fn next_wanted(
        &self,
        counts: &Counts,
        job: JobId,
        after: Option<Hash>,
    ) -> Option<(Hash, u32)>
        ensures { IsNextWanted (sealed_of counts.now) (job_manifest job self.now.state) after result }
    {
        match self.job_wants(job) {
            Some(wants) => wants.next(counts, after),
            None => None,
        }
    }

    // The manifest of an unfinished job. None only where that has no entries, or there is no such job.
    pub(crate) fn job_manifest(&self, job: JobId) -> Option<&Manifest>
        ensures { unwrap_or (option_map (λ manifest. manifest.now) result) [] ≡ job_manifest job self.now.state }
    {
        match row_of_job(self.rows.jobs(), job) {
            Some(row) => self.manifests.get(&(row.package, row.version)),
            None => None,
        }
    }

    // The manifest of a version. None only where that has no entries, or there is no such version.
    pub(crate) fn version_manifest(&self, package: PackageId, version: Version) -> Option<&Manifest>
        ensures { unwrap_or (option_map (λ manifest. manifest.now) result) [] ≡ version_manifest «package» version self.now.state }
    {
        match self.rows.check(&Change::Removed { package, version }) {
            Ok(()) => self.manifests.get(&(package, version)),
            Err(_) => None,
        }
    }

    /// The entries of a version's manifest. None exactly where there is no such version.
    pub fn manifest(&self, package: PackageId, version: Version) -> Option<&[Entry]>
        ensures value { option_map (λ entries. entries.now) result ≡ option_map (λ (held : a_held). held.manifest) (find (λ (held : a_held). is_of «package» version held.row) self.now.state.versions) }
        ensures form { IfSome result (λ entries. IsManifest entries.now) }
    {
        match self.rows.check(&Change::Removed { package, version }) {
            Ok(()) => Some(entries_or_none(self.manifests.get(&(package, version)))),
            Err(_) => None,
        }
    }

    /// The entries of the manifest of an unfinished job. None exactly where there is no such job.
    pub fn manifest_of_job(&self, job: JobId) -> Option<&[Entry]>
        ensures value { option_map (λ entries. entries.now) result ≡ option_map (λ (held : a_held). held.manifest) (held_by_job job self.now.state.jobs) }
        ensures form { IfSome result (λ entries. IsManifest entries.now) }
    {
        match row_of_job(self.rows.jobs(), job) {
            Some(row) => Some(entries_or_none(self.manifests.get(&(row.package, row.version)))),
            None => None,
        }
    }

    /// Takes the memory that a job for a version with this manifest needs, and that its end needs. After want of memory none is
    /// taken.
    pub fn take_memory(
        &mut self,
        alloc: Global,
        package: PackageId,
        version: Version,
        manifest: Manifest,
    ) -> Result<(), Memory>
        requires { opened_fault (rows_of self.old.state) self.old.state.next «package» version (length manifest) ≡ None }
        ensures ok { OnOk result (self.new ≡ record { state = self.old.state; taken = Some (held_of «package» version manifest) }) }
        ensures memory { OnErr result (self.new ≡ record { state = self.old.state; taken = None }) }
    {
        self.taken = None;
        // each unfinished job has a lower number than the next, so what it wants stays
        let _unfinished = self.rows.jobs();
        let job = self.rows.next();
        keep_wants(alloc, &mut self.wants, job, manifest.entries())?;
        take_room(
            &mut self.rows,
            &mut self.manifests,
            &mut self.versions,
            &mut self.jobs,
            (package, version),
            manifest,
        )?;
        self.taken = Some((package, version));
        Ok(())
    }

    /// The manifest of the job for which memory is taken.
    pub fn taken(&self) -> Option<&Manifest>
        ensures { option_map (λ manifest. manifest.now) result ≡ option_map (λ held. held.manifest) self.now.taken }
    {
        match self.taken {
            Some(key) => self.manifests.get(&key),
            None => None,
        }
    }

    /// The job begins for which memory is taken, by the size and the SHA-256 of its encoded manifest. It takes no more memory.
    pub fn begin(&mut self, size: u32, hash: Hash)
        requires free { IfSome self.old.taken (λ held. opened_fault (rows_of self.old.state) self.old.state.next held.row.package held.row.version held.row.entries ≡ None) }
        requires named { IfSome self.old.taken (λ held. (size ≡ held.row.size) × (hash ≡ held.row.hash)) }
        ensures { IfSome self.old.taken (λ held. self.new ≡ record { state = changed (Begun self.old.state.next held.row.package held.row.version held.manifest) self.old.state; taken = None }) }
    {
        let Some(key) = self.taken else {
            return;
        };
        self.taken = None;
        let row = row_for(&self.manifests, key, size, hash);
        let job = self.rows.next();
        let told = job_told(job, &row, &self.manifests);
        let change = Change::Opened {
            job,
            package: row.package,
            version: row.version,
            entries: row.entries,
            size: row.size,
            hash: row.hash,
        };
        let _applied = self.rows.apply(&change);
        let _pushed = self.jobs.push(told);
    }

    /// The version of an unfinished job is there. It takes no memory.
    pub fn finish(&mut self, job: JobId)
        requires { fault_of (rows_of self.old.state) (done_change job) ≡ None }
        ensures { self.new ≡ record { state = changed (Finished job) self.old.state; taken = self.old.taken } }
    {
        // its number is below the next, under which a job that is to begin has what it wants
        let _unfinished = self.rows.jobs();
        drop_wants(&mut self.wants, job);
        let _applied = self.rows.apply(&Change::Done { job });
        let told = take_told(&mut self.jobs, job);
        put_finished(&mut self.versions, told);
    }

    /// An unfinished job is given up. It takes no memory.
    pub fn drop_job(&mut self, job: JobId)
        requires { fault_of (rows_of self.old.state) (dropped_change job) ≡ None }
        ensures { self.new ≡ record { state = changed (Dropped job) self.old.state; taken = self.old.taken } }
    {
        // its number is below the next, under which a job that is to begin has what it wants
        let _unfinished = self.rows.jobs();
        drop_wants(&mut self.wants, job);
        let _applied = self.rows.apply(&Change::Dropped { job });
        let _told = take_told(&mut self.jobs, job);
    }

    /// A version is removed. It takes no memory.
    pub fn remove(&mut self, package: PackageId, version: Version)
        requires { fault_of (rows_of self.old.state) (removed_change «package» version) ≡ None }
        ensures { self.new ≡ record { state = changed (Removed «package» version) self.old.state; taken = self.old.taken } }
    {
        let _applied = self.rows.apply(&Change::Removed { package, version });
        drop_told(&mut self.versions, package, version);
    }

    /// Makes a change that the rows allow. It takes no memory: a job begins for which memory is taken.
    pub fn apply(&mut self, change: &Change)
        requires free { fault_of (rows_of self.old.state) change.now ≡ None }
        requires taken { IsTakenFor self.old.taken change.now }
        ensures { self.new.state ≡ changed (change_in self.old.taken change.now) self.old.state }
    {
        match *change {
            Change::Opened {
                job: _,
                package: _,
                version: _,
                entries: _,
                size,
                hash,
            } => self.begin(size, hash),
            Change::Done { job } => self.finish(job),
            Change::Dropped { job } => self.drop_job(job),
            Change::Removed { package, version } => self.remove(package, version),
        }
    }
}
