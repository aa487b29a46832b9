//! How often hashes are named is counted, and the hashes of versions are sealed.
ghost use Rattle.std.specs.Prelude.{◌≡◌, ◌+◌, ◌-◌, ◌*◌, ◌^◌, ◌<◌, ◌≤◌, [], ◌∷◌, ℕ, None, Some, length, sum_by, if◌then◌else◌, true, IfOk, OnErr, OnOk};
ghost use Rattle.std.specs.Str.{bytes_eq};
ghost use Rattle.std.specs.List.{AllByRecursion, flat_map};
ghost use Rattle.cm_base.specs.declared.hash.Hash.{Hash as a_hash};
ghost use Rattle.cm_pkglib.specs.Counts.{count_of, sealed_of, seal_kept, times};
ghost use Rattle.cm_pkglib.specs.declared.row.PkgRow.{PkgRow as a_row};
ghost use Rattle.cm_pkglib.specs.Rows.{fault_of};
ghost use Rattle.cm_tree.specs.declared.entry.Entry.{Entry as an_entry};
ghost use Rattle.cm_state.specs.Changes.{changed};
ghost use Rattle.cm_state.specs.Needed.{is_needed};
ghost use Rattle.cm_state.specs.State.{rows_of};
ghost use Rattle.cm_contents.specs.Contents.{manifest_in_map, taken_manifest, change_in, IsTakenFor};
ghost use Rattle.cm_contents.specs.Seals.{is_stored, not_stored, if_needed, job_manifest, brought, taken_away, IsCounted, AreStored, found_seal, version_entries};

use crate::contents::{Contents, Manifests};
use cm_base::{Hash, JobId, Memory};
use cm_pkglib::{Change, Counts, PkgRow, Seal, sealed_are_named};
use cm_tree::Entry;
use std::alloc::Global;

// The manifest of a row is counted.
fn count_row(counts: &mut Counts, manifests: &Manifests, row: &PkgRow) -> Result<(), Memory>
    requires { (hash : a_hash) → count_of counts.old hash + 20000 < 2 ^ 32 }
    ensures counts { OnOk result ((hash : a_hash) → count_of counts.new hash ≡ count_of counts.old hash + times hash (manifest_in_map manifests.now row.now.package row.now.version)) }
    ensures small { length (manifest_in_map manifests.now row.now.package row.now.version) ≤ 20000 }
    ensures seals { (hash : a_hash) → sealed_of counts.new hash ≡ sealed_of counts.old hash }
{
    match manifests.get(&(row.package, row.version)) {
        Some(manifest) => {
            let _entries = manifest.entries();
            counts.add(manifest)
        }
        None => Ok(()),
    }
}

// The manifests of rows are counted.
fn count_versions(counts: &mut Counts, manifests: &Manifests, rows: &[PkgRow]) -> Result<(), Memory>
    requires { (hash : a_hash) → count_of counts.old hash + 20000 * length rows.now < 2 ^ 32 }
    ensures counts { OnOk result ((hash : a_hash) → count_of counts.new hash ≡ count_of counts.old hash + sum_by (λ (row : a_row). times hash (manifest_in_map manifests.now row.package row.version)) rows.now) }
    ensures small { OnOk result (AllByRecursion (λ (row : a_row). length (manifest_in_map manifests.now row.package row.version) ≤ 20000) rows.now) }
    ensures seals { (hash : a_hash) → sealed_of counts.new hash ≡ sealed_of counts.old hash }
{
    for row in rows {
        count_row(counts, manifests, row)?;
    }
    Ok(())
}

// The manifests of unfinished jobs are counted.
fn count_jobs(
    counts: &mut Counts,
    manifests: &Manifests,
    jobs: &[(JobId, PkgRow)],
) -> Result<(), Memory>
    requires { (hash : a_hash) → count_of counts.old hash + 20000 * length jobs.now < 2 ^ 32 }
    ensures counts { OnOk result ((hash : a_hash) → count_of counts.new hash ≡ count_of counts.old hash + sum_by (λ (job : ℕ × a_row). times hash (manifest_in_map manifests.now job.1.package job.1.version)) jobs.now) }
    ensures small { OnOk result (AllByRecursion (λ (job : ℕ × a_row). length (manifest_in_map manifests.now job.1.package job.1.version) ≤ 20000) jobs.now) }
    ensures seals { (hash : a_hash) → sealed_of counts.new hash ≡ sealed_of counts.old hash }
{
    for job in jobs {
        count_row(counts, manifests, &job.1)?;
    }
    Ok(())
}

// The hash of an entry is sealed, unless it is.
fn seal_entry(counts: &mut Counts, entry: &Entry)
    requires { 1 ≤ count_of counts.old entry.now.hash }
    ensures counts { (hash : a_hash) → count_of counts.new hash ≡ count_of counts.old hash }
    ensures seals { (hash : a_hash) → sealed_of counts.new hash ≡ found_seal (sealed_of counts.old hash) hash (entry.now ∷ []) }
{
    if counts.sealed(entry.hash).is_none() {
        let seal = Seal {
            size: entry.size,
            since: false,
        };
        counts.seal(entry.hash, seal);
    }
}

// So is that of each of several entries.
fn seal_entries(counts: &mut Counts, entries: &[Entry])
    requires { AllByRecursion (λ (entry : an_entry). 1 ≤ count_of counts.old entry.hash) entries.now }
    ensures counts { (hash : a_hash) → count_of counts.new hash ≡ count_of counts.old hash }
    ensures seals { (hash : a_hash) → sealed_of counts.new hash ≡ found_seal (sealed_of counts.old hash) hash entries.now }
{
    for entry in entries {
        seal_entry(counts, entry);
    }
}

// So are those of the manifest of a row.
fn seal_row(counts: &mut Counts, manifests: &Manifests, row: &PkgRow)
    requires { AllByRecursion (λ (entry : an_entry). 1 ≤ count_of counts.old entry.hash) (manifest_in_map manifests.now row.now.package row.now.version) }
    ensures counts { (hash : a_hash) → count_of counts.new hash ≡ count_of counts.old hash }
    ensures seals { (hash : a_hash) → sealed_of counts.new hash ≡ found_seal (sealed_of counts.old hash) hash (manifest_in_map manifests.now row.now.package row.now.version) }
{
    match manifests.get(&(row.package, row.version)) {
        Some(manifest) => seal_entries(counts, manifest.entries()),
        None => {}
    }
}

// The hashes of the manifests of rows are sealed.
fn seal_versions(counts: &mut Counts, manifests: &Manifests, rows: &[PkgRow])
    requires { AllByRecursion (λ (entry : an_entry). 1 ≤ count_of counts.old entry.hash) (flat_map (λ (row : a_row). manifest_in_map manifests.now row.package row.version) rows.now) }
    ensures counts { (hash : a_hash) → count_of counts.new hash ≡ count_of counts.old hash }
    ensures seals { (hash : a_hash) → sealed_of counts.new hash ≡ found_seal (sealed_of counts.old hash) hash (flat_map (λ (row : a_row). manifest_in_map manifests.now row.package row.version) rows.now) }
{
    for row in rows {
        seal_row(counts, manifests, row);
    }
}

/// Counts how often each hash is named by the versions and the unfinished jobs, and seals the hashes of the versions, each with
/// the size of the first entry that has it.
pub fn count_all(alloc: Global, contents: &Contents) -> Result<Counts, Memory>
    ensures counted { IfOk result (λ counts. IsCounted counts contents.now.state []) }
    ensures seals { IfOk result (λ counts. (hash : a_hash) → sealed_of counts hash ≡ found_seal None hash (version_entries contents.now.state)) }
{
    sealed_are_named();
    let mut counts = Counts::new(alloc);
    let versions = contents.rows.versions();
    count_versions(&mut counts, &contents.manifests, versions)?;
    count_jobs(&mut counts, &contents.manifests, contents.rows.jobs())?;
    seal_versions(&mut counts, &contents.manifests, versions);
    Ok(counts)
}

fn is_stored(counts: &Counts, entry: &Entry) -> bool
    ensures { result ≡ is_stored (sealed_of counts.now) entry.now }
{
    match counts.sealed(entry.hash) {
        Some(seal) => seal.size == entry.size,
        None => false,
    }
}

fn find_not_stored(counts: &Counts, entries: &[Entry]) -> Option<Hash>
    ensures { result ≡ not_stored (sealed_of counts.now) entries.now }
{
    for entry in entries {
        if !is_stored(counts, entry) {
            return Some(entry.hash);
        }
    }
    None
}

/// The first hash of the manifest of an unfinished job that is not sealed, or is sealed with another size than its entry's.
pub fn not_stored(contents: &Contents, counts: &Counts, job: JobId) -> Option<Hash>
    ensures { result ≡ not_stored (sealed_of counts.now) (job_manifest job contents.now.state) }
{
    match contents.job_manifest(job) {
        Some(manifest) => find_not_stored(counts, manifest.entries()),
        None => None,
    }
}

// The manifest that a change takes away is counted no more.
fn uncount(contents: &Contents, counts: &mut Counts, change: &Change)
    requires { (hash : a_hash) → times hash (taken_away (change_in contents.now.taken change.now) contents.now.state) ≤ count_of counts.old hash }
    ensures counts { (hash : a_hash) → count_of counts.new hash ≡ count_of counts.old hash - times hash (taken_away (change_in contents.now.taken change.now) contents.now.state) }
    ensures seals { (hash : a_hash) → sealed_of counts.new hash ≡ seal_kept (count_of counts.new hash) (sealed_of counts.old hash) }
{
    sealed_are_named();
    let manifest = match *change {
        Change::Opened { .. } => None,
        Change::Done { .. } => None,
        Change::Dropped { job } => contents.job_manifest(job),
        Change::Removed { package, version } => contents.version_manifest(package, version),
    };
    if let Some(manifest) = manifest {
        counts.take(manifest);
    }
}

/// Makes a change that the rows allow, in what is kept and in what is counted. It takes no memory: a job begins for which memory
/// is taken, and whose manifest is counted. What is needed no more is sealed no more.
pub fn make(contents: &mut Contents, counts: &mut Counts, change: &Change)
    requires free { fault_of (rows_of contents.old.state) change.now ≡ None }
    requires taken { IsTakenFor contents.old.taken change.now }
    requires counted { IsCounted counts.old contents.old.state (brought (Some (change_in contents.old.taken change.now))) }
    requires stored { AreStored (sealed_of counts.old) (change_in contents.old.taken change.now) contents.old.state }
    ensures state { contents.new.state ≡ changed (change_in contents.old.taken change.now) contents.old.state }
    ensures counted { IsCounted counts.new contents.new.state [] }
    ensures seals { (hash : a_hash) → sealed_of counts.new hash ≡ if_needed (is_needed hash.0 contents.new.state) (sealed_of counts.old hash) }
{
    contents.tells_valid();
    uncount(contents, counts, change);
    contents.apply(change);
}

/// Counts the manifest for which memory is taken. After want of memory it is not counted.
pub fn count_taken(contents: &Contents, counts: &mut Counts) -> Result<(), Memory>
    requires { IsCounted counts.old contents.now.state [] }
    ensures ok { OnOk result (IsCounted counts.new contents.now.state (taken_manifest contents.now.taken)) }
    ensures memory { OnErr result (IsCounted counts.new contents.now.state []) }
    ensures seals { (hash : a_hash) → sealed_of counts.new hash ≡ sealed_of counts.old hash }
{
    contents.tells_valid();
    match contents.taken() {
        Some(manifest) => {
            let _entries = manifest.entries();
            counts.add(manifest)
        }
        None => Ok(()),
    }
}

/// Counts the manifest for which memory is taken no more: its job did not begin.
pub fn uncount_taken(contents: &Contents, counts: &mut Counts)
    requires { IsCounted counts.old contents.now.state (taken_manifest contents.now.taken) }
    ensures counted { IsCounted counts.new contents.now.state [] }
    ensures seals { (hash : a_hash) → sealed_of counts.new hash ≡ sealed_of counts.old hash }
{
    if let Some(manifest) = contents.taken() {
        counts.take(manifest);
    }
}

/// Seals the hash of a file of this size, which a version or an unfinished job names.
pub fn seal(contents: &Contents, counts: &mut Counts, hash: Hash, size: u32)
    requires counted { IsCounted counts.old contents.now.state [] }
    requires needed { is_needed hash.0 contents.now.state ≡ true }
    ensures counted { IsCounted counts.new contents.now.state [] }
    ensures seals { (other : a_hash) → sealed_of counts.new other ≡ (if bytes_eq hash.0 other.0 then Some (record { size = size; since = true }) else sealed_of counts.old other) }
{
    let _contents = contents;
    counts.seal(hash, Seal { size, since: true });
}
