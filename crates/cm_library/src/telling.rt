//! What a library tells.
ghost use Rattle.std.specs.Prelude.{◌≡◌, find, option_map, IfSome};
ghost use Rattle.cm_pkglib.specs.Rows.{last_of, is_of};
ghost use Rattle.cm_state.specs.State.{Held as a_held, version_rows, job_rows, count_in, entries_in, held_by_job};
ghost use Rattle.cm_tree.specs.Manifests.{IsManifest};

use crate::library::Library;
use cm_base::{JobId, PackageId, Version};
use cm_disk::Disk;
use cm_state::{JobRow, VersionRow};
use cm_tree::Entry;

impl<D: Disk> Library<D> {
    /// The versions, by package and version.
    pub fn versions(&self) -> &[VersionRow]
        ensures { result.now ≡ version_rows self.now.state }
    {
        self.contents.versions()
    }

    /// The unfinished jobs, by number.
    pub fn jobs(&self) -> &[JobRow]
        ensures { result.now ≡ job_rows self.now.state }
    {
        self.contents.jobs()
    }

    /// The greatest version ever opened of a package. None exactly where none was opened.
    pub fn last(&self, package: PackageId) -> Option<Version>
        ensures { result ≡ last_of «package» self.now.state.lasts }
    {
        self.contents.last(package)
    }

    /// How many versions and unfinished jobs there are, at most 8,192.
    pub fn count(&self) -> u32
        ensures { result ≡ count_in self.now.state }
    {
        self.contents.count()
    }

    /// How many entries all versions and unfinished jobs have together, at most 400,000.
    pub fn entries(&self) -> u32
        ensures { result ≡ entries_in self.now.state }
    {
        self.contents.entries()
    }

    /// The entries of a version's manifest, in the order of their paths. None exactly where there is no such version.
    pub fn manifest(&self, package: PackageId, version: Version) -> Option<&[Entry]>
        ensures value { option_map (λ entries. entries.now) result ≡ option_map (λ (held : a_held). held.manifest) (find (λ (held : a_held). is_of «package» version held.row) self.now.state.versions) }
        ensures form { IfSome result (λ entries. IsManifest entries.now) }
    {
        self.contents.manifest(package, version)
    }

    /// The same of an unfinished job. None exactly where there is no such job.
    pub fn job_manifest(&self, job: JobId) -> Option<&[Entry]>
        ensures value { option_map (λ entries. entries.now) result ≡ option_map (λ (held : a_held). held.manifest) (held_by_job job self.now.state.jobs) }
        ensures form { IfSome result (λ entries. IsManifest entries.now) }
    {
        self.contents.manifest_of_job(job)
    }

    /// How often the disk has failed.
    pub fn faults(&self) -> u64
        ensures { result ≡ D.faults self.now.disk }
    {
        self.disk.faults()
    }

    /// Gives the disk back.
    pub fn close(self) -> D
        ensures { result ≡ self.disk }
    {
        let Library {
            alloc: _,
            disk,
            start: _,
            log: _,
            contents: _,
            counts: _,
            started: _,
            pending: _,
        } = self;
        disk
    }
}
