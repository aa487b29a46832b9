//! Jobs begin.
ghost use Rattle.std.specs.Prelude.{◌≡◌, ◌≢◌, ◌⊎◌, ◌+◌, ◌<◌, ◌≤◌, ◌^◌, true, length, Some, None, OnOk, OnErr, IfOk, IfErr, IsErrOf};
ghost use Rattle.std.specs.Option.{ForSome};
ghost use Rattle.cm_base.specs.Causes.{Rose, HasCause};
ghost use Rattle.cm_base.specs.Names.{is_package_id};
ghost use Rattle.cm_disk.specs.Disk.{LeavesOnly};
ghost use Rattle.cm_log.specs.Settled.{end_of};
ghost use Rattle.cm_pkglib.specs.Changes.{spelled};
ghost use Rattle.cm_pkglib.specs.Counts.{sealed_of};
ghost use Rattle.cm_state.specs.Changes.{Begun, record_of, changed, if_allowed};
ghost use Rattle.cm_state.specs.Adding.{Told, KeepsStore};
ghost use Rattle.cm_state.specs.Look.{Opened, look};
ghost use Rattle.cm_state.specs.Opens.{OpensOr, StandsOr, EachOpensSome};
ghost use Rattle.cm_state.specs.State.{State, held_of};
ghost use Rattle.cm_state.specs.Faults.{begin_fault, Refuses};
ghost use Rattle.cm_contents.specs.Contents.{taken_manifest};
ghost use Rattle.cm_contents.specs.Seals.{IsCounted};
ghost use Rattle.cm_library.specs.Begins.{MayBegin};
ghost use Rattle.cm_library.specs.Calls.{KeepsNeeded, KeepsSeals, StaysSame, AnyMoment, Ends, EndsOrStays};
ghost use Rattle.cm_library.specs.Kept.{IsStanding, AreSure, IsKept};
ghost use Rattle.cm_library.specs.Placing.{KeepsPlaces};

use crate::commits::commit;
use crate::ending::of_rows;
use crate::library::Library;
use cm_base::{JobId, PackageId, Version};
use cm_contents::{Contents, count_taken, uncount_taken};
use cm_datalib::store;
use cm_disk::{Disk, DiskFault};
use cm_log::Log;
use cm_pkglib::{Change, Counts};
use cm_state::LibFault;
use cm_tree::Manifest;
use std::snapshot::Snapshot;

/// The greatest place of the closed gate at which a job begins.
const MOST_END: u64 = (1 << 40) - 1_048_576;

// What a record names is in its ranges, which is said here alone.
fn are_recordable(job: JobId, id: PackageId, version: Version)
    ensures job { (1 ≤ job) × (job < 2 ^ 64) }
    ensures long { length id ≡ 8 }
    ensures version { (1 ≤ version) × (version < 2 ^ 32) }
    ensures form { is_package_id id ≡ true }
{
    let _job = job.number();
    let _version = version.number();
    let _bytes = id.as_bytes();
}

// Stores the manifest for which memory is taken and which is counted, and then commits that its job begins.
fn store_and_commit<D: Disk>(
    start: &Snapshot<D>,
    disk: &mut D,
    log: &mut Log,
    contents: &mut Contents,
    counts: &mut Counts,
    pending: &mut Option<Change>,
    job: JobId,
    package: PackageId,
    version: Version,
) -> Result<(), DiskFault>
    requires standing { IsStanding D.reads D.may_leave disk.old log.old contents.old pending.old }
    requires idle { pending.old ≡ None }
    requires counted { IsCounted counts.old contents.old.state (taken_manifest contents.old.taken) }
    requires sure { AreSure D.reads D.may_leave start.now.value disk.old contents.old.state counts.old }
    requires may { MayBegin (end_of log.old) contents.old.state job «package» version (taken_manifest contents.old.taken) }
    requires taken { contents.old.taken ≡ Some (held_of «package» version (taken_manifest contents.old.taken)) }
    ensures kept { IsKept D.reads D.may_leave start.now.value disk.new log.new contents.new counts.new pending.new }
    ensures done { OnOk result ((contents.new.state ≡ changed (Begun job «package» version (taken_manifest contents.old.taken)) contents.old.state)
        × (end_of log.new ≡ end_of log.old + 5 + length (spelled (record_of (Begun job «package» version (taken_manifest contents.old.taken))))) × (pending.new ≡ None) × KeepsNeeded contents.new.state (sealed_of counts.old) (sealed_of counts.new)) }
    ensures failed { OnErr result ((contents.new ≡ contents.old) × (end_of log.new ≡ end_of log.old)
        × ((pending.new ≡ None) ⊎ (pending.new ≡ Some (record_of (Begun job «package» version (taken_manifest contents.old.taken))))) × KeepsSeals (sealed_of counts.old) (sealed_of counts.new)) }
    ensures stands { ForSome (D.reads disk.old) (λ _. LeavesOnly D.moment D.left_since disk.old disk.new (StandsOr contents.old.state (Some (Begun job «package» version (taken_manifest contents.old.taken))))) }
    ensures opens { EachOpensSome (D.may_leave start.now.value) → ForSome (D.reads disk.old) (λ _. LeavesOnly D.moment D.left_since disk.old disk.new (OpensOr contents.old.state (Some (Begun job «package» version (taken_manifest contents.old.taken))))) }
    ensures store { Told KeepsStore (D.reads disk.old) (D.reads disk.new) }
    ensures places { Told KeepsPlaces (D.reads disk.old) (D.reads disk.new) }
    ensures silent { D.reads disk.old ≡ None → D.reads disk.new ≡ None }
    ensures cause { HasCause (D.faults disk.old) (D.faults disk.new) result }
{
    let manifest = match contents.taken() {
        Some(manifest) => manifest,
        None => unreachable!(),
    };
    let entries = manifest.entries().len() as u32;
    let (size, hash) = match store(disk, package, version, manifest) {
        Ok(named) => named,
        Err(fault) => {
            uncount_taken(contents, counts);
            return Err(fault);
        }
    };
    let change = Change::Opened {
        job,
        package,
        version,
        entries,
        size,
        hash,
    };
    commit(start, disk, log, contents, counts, pending, &change)
}

impl<D: Disk> Library<D> {
    // Why no job may begin for a version with so many entries.
    pub(crate) fn begin_fault(
        &self,
        id: PackageId,
        version: Version,
        entries: u32,
    ) -> Option<LibFault>
        ensures { result ≡ begin_fault self.now.state self.now.end id version entries }
    {
        match self.contents.begin_fault(id, version, entries) {
            Some(fault) => Some(of_rows(fault)),
            None => {
                if self.log.end() > MOST_END {
                    Some(LibFault::Spent)
                } else {
                    None
                }
            }
        }
    }

    // Begins a job on a settled library.
    pub(crate) fn begin_settled(
        &mut self,
        package: PackageId,
        version: Version,
        manifest: Manifest,
    ) -> Result<JobId, LibFault>
        requires { self.old.pending ≡ None }
        ensures job { IfOk result (λ job. job ≡ self.old.state.next) }
        ensures ends { Ends self.old (Begun self.old.state.next «package» version manifest) self.new result }
        ensures refused { Refuses (begin_fault self.old.state self.old.end «package» version (length manifest)) result }
        ensures unchanged { IfErr result (λ fault. fault ≢ LibFault.Disk → StaysSame self.old self.new) }
        ensures store { Told KeepsStore (D.reads self.old.disk) (D.reads self.new.disk) }
        ensures places { Told KeepsPlaces (D.reads self.old.disk) (D.reads self.new.disk) }
        ensures stands { ForSome (D.reads self.old.disk) (λ _. LeavesOnly D.moment D.left_since self.old.disk self.new.disk (StandsOr self.old.state (if_allowed (Begun self.old.state.next «package» version manifest) self.old.state))) }
        ensures opens { EachOpensSome (D.may_leave self.old.start) → ForSome (D.reads self.old.disk) (λ _. LeavesOnly D.moment D.left_since self.old.disk self.new.disk (OpensOr self.old.state (if_allowed (Begun self.old.state.next «package» version manifest) self.old.state))) }
        ensures later { D.faults self.old.disk ≤ D.faults self.new.disk }
        ensures cause { IsErrOf result LibFault.Disk → Rose (D.faults self.old.disk) (D.faults self.new.disk) }
    {
        let entries = manifest.entries().len() as u32;
        match self.begin_fault(package, version, entries) {
            Some(fault) => return Err(fault),
            None => {}
        }
        let job = self.contents.next();
        are_recordable(job, package, version);
        match self
            .contents
            .take_memory(self.alloc, package, version, manifest)
        {
            Ok(()) => {}
            Err(_) => return Err(LibFault::Memory),
        }
        match count_taken(&self.contents, &mut self.counts) {
            Ok(()) => {}
            Err(_) => return Err(LibFault::Memory),
        }
        match store_and_commit(
            &self.start,
            &mut self.disk,
            &mut self.log,
            &mut self.contents,
            &mut self.counts,
            &mut self.pending,
            job,
            package,
            version,
        ) {
            Ok(()) => Ok(job),
            Err(_) => Err(LibFault::Disk),
        }
    }

    /// Begins a job for a version: its manifest is stored, and the job is unfinished. The first cause that holds is answered,
    /// and then nothing has changed; nothing has changed after `Memory` either. All memory is taken before the disk is written.
    /// After `Disk` the rows are told as before the call, and the change may be committed.
    pub fn begin(
        &mut self,
        package: PackageId,
        version: Version,
        manifest: Manifest,
    ) -> Result<JobId, LibFault>
        ensures call { EndsOrStays D.reads (λ found. Begun found.next «package» version manifest) (λ mid answer. Refuses (begin_fault mid.state mid.end «package» version (length manifest)) answer × IfOk answer (λ job. job ≡ mid.state.next)) self.old self.new result }
        ensures unchanged { self.old.pending ≡ None → IfErr result (λ fault. fault ≢ LibFault.Disk → StaysSame self.old self.new) }
        ensures same { IfErr result (λ fault. fault ≢ LibFault.Disk → D.reads self.new.disk ≡ D.reads self.old.disk) }
        ensures store { Told KeepsStore (D.reads self.old.disk) (D.reads self.new.disk) }
        ensures places { Told KeepsPlaces (D.reads self.old.disk) (D.reads self.new.disk) }
        // A crash at any moment leaves the state before the change or after it.
        ensures any_moment { ForSome (D.reads self.old.disk) (λ files. (found : State) → look files ≡ Opened found → AnyMoment D.moment D.left_since StandsOr (λ s. if_allowed (Begun s.next «package» version manifest) s) self.old.disk self.new.disk self.old.state self.old.pending found) }
        // With all files of its versions, where each image opened to some state at the opening.
        ensures opens { EachOpensSome (D.may_leave self.old.start) → ForSome (D.reads self.old.disk) (λ files. (found : State) → look files ≡ Opened found → AnyMoment D.moment D.left_since OpensOr (λ s. if_allowed (Begun s.next «package» version manifest) s) self.old.disk self.new.disk self.old.state self.old.pending found) }
        ensures later { D.faults self.old.disk ≤ D.faults self.new.disk }
        ensures cause { IsErrOf result LibFault.Disk → Rose (D.faults self.old.disk) (D.faults self.new.disk) }
    {
        self.tells();
        match self.settle() {
            Ok(_) => {}
            Err(fault) => return Err(fault),
        }
        self.begin_settled(package, version, manifest)
    }
}
