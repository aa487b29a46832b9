//! The files that a job wants.
ghost use Rattle.std.specs.Prelude.{◌≡◌, ◌==◌, ℕ, List, [], ◌∷◌, false, not, is_some, find, None, Some, IfOk, OnOk};
ghost use Rattle.std.specs.List.{AllByRecursion};
ghost use Rattle.std.specs.BTreeMap.{get};
ghost use Rattle.std.specs.Ordering.{nat_cmp};
ghost use Rattle.cm_base.specs.declared.hash.Hash.{Hash as a_hash};
ghost use Rattle.cm_pkglib.specs.Counts.{sealed_of};
ghost use Rattle.cm_pkglib.specs.declared.row.PkgRow.{PkgRow as a_row};
ghost use Rattle.cm_pkglib.specs.Valid.{JobsRise};
ghost use Rattle.cm_tree.specs.declared.entry.Entry.{Entry as an_entry};
ghost use Rattle.cm_contents.specs.Contents.{manifest_in_map};
ghost use Rattle.cm_contents.specs.Wants.{size_of, size_in, found_size, bound_above, HasHashes, IsNextWanted};

use crate::contents::Manifests;
use cm_base::{Hash, JobId, Memory};
use cm_pkglib::{Counts, PkgRow};
use cm_tree::Entry;
use std::alloc::Global;
use std::collections::BTreeMap;
use std::collections::btree_map::Range;
use std::ops::Bound;

/// The hashes that a manifest names, each with the size of its first entry in bytes.
#[derive(Drop)]
pub struct Wants {
    sizes: BTreeMap<Hash, u32>,
}

/// What unfinished jobs want, by number.
pub(crate) type JobWants = BTreeMap<JobId, Wants>;

impl Wants {
    fn add(&mut self, entry: &Entry) -> Result<(), Memory>
        ensures { OnOk result ((hash : a_hash) → size_of self.new hash ≡ found_size (size_of self.old hash) hash (entry.now ∷ [])) }
    {
        if self.size(entry.hash).is_none() {
            self.sizes.insert(entry.hash, entry.size)?;
        }
        Ok(())
    }

    /// The hashes of these entries.
    pub fn of(alloc: Global, entries: &[Entry]) -> Result<Wants, Memory>
        ensures { IfOk result (λ wants. (hash : a_hash) → size_of wants hash ≡ size_in hash entries.now) }
    {
        let mut wants = Wants {
            sizes: BTreeMap::new(alloc),
        };
        for entry in entries {
            wants.add(entry)?;
        }
        Ok(wants)
    }

    /// The size that is wanted of a hash. None exactly where it is not wanted.
    pub fn size(&self, hash: Hash) -> Option<u32>
        ensures { result ≡ size_of self.now hash }
    {
        self.sizes.get(&hash).copied()
    }

    /// The least hash above another that is wanted and not sealed, with its size in bytes. None exactly where there is none.
    pub fn next(&self, counts: &Counts, after: Option<Hash>) -> Option<(Hash, u32)>
        ensures { (manifest : List an_entry) → HasHashes (Some self.now) manifest → IsNextWanted (sealed_of counts.now) manifest after result }
    {
        let mut kept = self.sizes.range((bound_above(after), Bound::Unbounded));
        next_unsealed(&mut kept, counts)
    }
}

fn bound_above(after: Option<Hash>) -> Bound<Hash>
    ensures { result ≡ bound_above after }
{
    match after {
        Some(after) => Bound::Excluded(after),
        None => Bound::Unbounded,
    }
}

// The next of what is kept that is not sealed.
fn next_unsealed(kept: &mut Range<'_, Hash, u32>, counts: &Counts) -> Option<(Hash, u32)>
    ensures { result ≡ find (λ (wanted : a_hash × ℕ). not (is_some (sealed_of counts.now wanted.0))) kept.old }
{
    while let Some((hash, size)) = kept.next() {
        if counts.sealed(*hash).is_none() {
            return Some((*hash, *size));
        }
    }
    None
}

/// Keeps what a job wants, in the place of what was kept under its number.
pub(crate) fn keep_wants(
    alloc: Global,
    wants: &mut JobWants,
    job: JobId,
    entries: &[Entry],
) -> Result<(), Memory>
    ensures here { OnOk result (HasHashes (get nat_cmp wants.new job) entries.now) }
    ensures others { (other : ℕ) → (other == job) ≡ false → get nat_cmp wants.new other ≡ get nat_cmp wants.old other }
{
    let wanted = Wants::of(alloc, entries)?;
    match wants.insert(job, wanted) {
        Ok(_) => Ok(()),
        Err(_) => Err(Memory),
    }
}

/// Keeps no more what a job wants.
pub(crate) fn drop_wants(wants: &mut JobWants, job: JobId)
    ensures gone { get nat_cmp wants.new job ≡ None }
    ensures others { (other : ℕ) → (other == job) ≡ false → get nat_cmp wants.new other ≡ get nat_cmp wants.old other }
{
    let _dropped = wants.remove(&job);
}

// Keeps what the job of a row wants.
fn keep_row(
    alloc: Global,
    wants: &mut JobWants,
    job: JobId,
    row: &PkgRow,
    manifests: &Manifests,
) -> Result<(), Memory>
    ensures here { OnOk result (HasHashes (get nat_cmp wants.new job) (manifest_in_map manifests.now row.now.package row.now.version)) }
    ensures others { (other : ℕ) → (other == job) ≡ false → get nat_cmp wants.new other ≡ get nat_cmp wants.old other }
{
    match manifests.get(&(row.package, row.version)) {
        Some(manifest) => keep_wants(alloc, wants, job, manifest.entries()),
        None => keep_wants(alloc, wants, job, &[]),
    }
}

/// What unfinished jobs want.
pub(crate) fn jobs_want(
    alloc: Global,
    jobs: &[(JobId, PkgRow)],
    manifests: &Manifests,
) -> Result<JobWants, Memory>
    requires { JobsRise jobs.now }
    ensures { IfOk result (λ wants. AllByRecursion (λ (job : ℕ × a_row). HasHashes (get nat_cmp wants job.0) (manifest_in_map manifests.now job.1.package job.1.version)) jobs.now) }
{
    let mut wants = BTreeMap::new(alloc);
    for job in jobs {
        keep_row(alloc, &mut wants, job.0, &job.1, manifests)?;
    }
    Ok(wants)
}
