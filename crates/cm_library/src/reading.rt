//! The file of an entry is read.
ghost use Rattle.std.specs.Prelude.{◌≡◌, ◌⊎◌, ◌+◌, ◌≤◌, ◌^◌, None, Some, length, slice_get, IfOk, IfErr, IsErrOf};
ghost use Rattle.std.specs.Option.{ForSome};
ghost use Rattle.cm_base.specs.Causes.{Rose};
ghost use Rattle.cm_contents.specs.Seals.{version_manifest};
ghost use Rattle.cm_log.specs.Frames.{OnlyReads};
ghost use Rattle.cm_state.specs.Adding.{Told};
ghost use Rattle.cm_state.specs.Look.{Opened, look};
ghost use Rattle.cm_state.specs.Opens.{OpensOr, StandsOr, EachOpensSome};
ghost use Rattle.cm_state.specs.State.{State};
ghost use Rattle.cm_tree.specs.declared.entry.Entry.{Entry as an_entry};
ghost use Rattle.cm_library.specs.Calls.{AnyMoment, WorksOrStays};
ghost use Rattle.cm_library.specs.Placing.{KeepsPlaces};
ghost use Rattle.cm_library.specs.Reading.{entry_fault, SizeOf, ReadOf, TellsEntry};

use crate::library::Library;
use cm_base::{Hash, PackageId, Version};
use cm_disk::Disk;
use cm_state::LibFault;

impl<D: Disk> Library<D> {
    // The hash that an entry of a version names.
    fn entry_hash(&self, package: PackageId, version: Version, entry: u32) -> Result<Hash, LibFault>
        ensures found { IfOk result (λ hash. (entry_fault self.now.state «package» version entry ≡ None) × ((e : an_entry) × (slice_get (version_manifest «package» version self.now.state) entry ≡ Some e) × (e.hash ≡ hash))) }
        ensures refused { IfErr result (λ fault. entry_fault self.now.state «package» version entry ≡ Some fault) }
    {
        let Some(entries) = self.manifest(package, version) else {
            return Err(LibFault::NoVersion);
        };
        match entries.get(entry as usize) {
            Some(found) => Ok(found.hash),
            None => Err(LibFault::NoEntry { entry }),
        }
    }

    // The size of the file of an entry, on a settled library.
    fn file_size_settled(
        &mut self,
        package: PackageId,
        version: Version,
        entry: u32,
    ) -> Result<u64, LibFault>
        requires settled { self.old.pending ≡ None }
        ensures tells { TellsEntry D.reads «package» version entry (λ file hash. SizeOf file hash result) self.old self.new result }
        ensures bound { IfOk result (λ size. size ≤ 2 ^ 40 + 131072) }
        ensures only { OnlyReads D.reads D.may_leave D.moment D.left_since D.faults self.old.disk self.new.disk }
        ensures cause { IsErrOf result LibFault.Disk → Rose (D.faults self.old.disk) (D.faults self.new.disk) }
    {
        let hash = match self.entry_hash(package, version, entry) {
            Ok(hash) => hash,
            Err(fault) => return Err(fault),
        };
        match cm_filelib::file_size(&mut self.disk, hash) {
            Ok(Some(size)) => Ok(size),
            Ok(None) => Err(LibFault::Gone { hash }),
            Err(_) => Err(LibFault::Disk),
        }
    }

    // Reads the file of an entry, on a settled library.
    fn read_settled(
        &mut self,
        package: PackageId,
        version: Version,
        entry: u32,
        offset: u64,
        buf: &mut [u8],
    ) -> Result<usize, LibFault>
        requires settled { self.old.pending ≡ None }
        ensures tells { TellsEntry D.reads «package» version entry (λ file hash. ReadOf file hash offset buf.new result) self.old self.new result }
        ensures fits { IfOk result (λ count. count ≤ length buf.new) }
        ensures only { OnlyReads D.reads D.may_leave D.moment D.left_since D.faults self.old.disk self.new.disk }
        ensures cause { IsErrOf result LibFault.Disk → Rose (D.faults self.old.disk) (D.faults self.new.disk) }
    {
        let hash = match self.entry_hash(package, version, entry) {
            Ok(hash) => hash,
            Err(fault) => return Err(fault),
        };
        match cm_filelib::read_at(&mut self.disk, hash, offset, buf) {
            Ok(Some(count)) => Ok(count),
            Ok(None) => Err(LibFault::Gone { hash }),
            Err(_) => Err(LibFault::Disk),
        }
    }

    /// The size in bytes of the file at the place of an entry's hash, at most 2^40 + 131,072. Entries of a version are numbered from 0.
    /// The first cause that holds is answered: `NoVersion`, `NoEntry`; or `Gone` where there is no file. It takes no memory.
    pub fn file_size(
        &mut self,
        package: PackageId,
        version: Version,
        entry: u32,
    ) -> Result<u64, LibFault>
        ensures call { WorksOrStays D.reads (λ started. started) (λ mid new. TellsEntry D.reads «package» version entry (λ file hash. SizeOf file hash result) mid new result) self.old self.new result }
        ensures bound { IfOk result (λ size. size ≤ 2 ^ 40 + 131072) }
        // It writes nothing.
        ensures only { OnlyReads D.reads D.may_leave D.moment D.left_since D.faults self.old.disk self.new.disk }
        ensures places { Told KeepsPlaces (D.reads self.old.disk) (D.reads self.new.disk) }
        // A crash at any moment leaves the state.
        ensures any_moment { ForSome (D.reads self.old.disk) (λ files. (found : State) → look files ≡ Opened found → AnyMoment D.moment D.left_since StandsOr (λ _. None) self.old.disk self.new.disk self.old.state self.old.pending found) }
        // With all files of its versions, where each image opened to some state at the opening.
        ensures opens { EachOpensSome (D.may_leave self.old.start) → ForSome (D.reads self.old.disk) (λ files. (found : State) → look files ≡ Opened found → AnyMoment D.moment D.left_since OpensOr (λ _. None) self.old.disk self.new.disk self.old.state self.old.pending found) }
        ensures later { D.faults self.old.disk ≤ D.faults self.new.disk }
        ensures cause { IsErrOf result LibFault.Disk → Rose (D.faults self.old.disk) (D.faults self.new.disk) }
    {
        self.tells();
        match self.settle() {
            Ok(_) => {}
            Err(fault) => return Err(fault),
        }
        self.tells();
        self.file_size_settled(package, version, entry)
    }

    /// Reads the file at the place of an entry's hash from an offset on, as much as the buffer and the file allow, and gives the number of
    /// bytes read. Entries of a version are numbered from 0. The first cause that holds is answered: `NoVersion`, `NoEntry`; or `Gone`
    /// where there is no file. What is read is compared with nothing. It takes no memory.
    pub fn read(
        &mut self,
        package: PackageId,
        version: Version,
        entry: u32,
        offset: u64,
        buf: &mut [u8],
    ) -> Result<usize, LibFault>
        ensures call { WorksOrStays D.reads (λ started. started) (λ mid new. TellsEntry D.reads «package» version entry (λ file hash. ReadOf file hash offset buf.new result) mid new result) self.old self.new result }
        ensures fits { IfOk result (λ count. count ≤ length buf.new) }
        ensures length { length buf.new ≡ length buf.old }
        // It writes nothing.
        ensures only { OnlyReads D.reads D.may_leave D.moment D.left_since D.faults self.old.disk self.new.disk }
        ensures places { Told KeepsPlaces (D.reads self.old.disk) (D.reads self.new.disk) }
        // A crash at any moment leaves the state.
        ensures any_moment { ForSome (D.reads self.old.disk) (λ files. (found : State) → look files ≡ Opened found → AnyMoment D.moment D.left_since StandsOr (λ _. None) self.old.disk self.new.disk self.old.state self.old.pending found) }
        // With all files of its versions, where each image opened to some state at the opening.
        ensures opens { EachOpensSome (D.may_leave self.old.start) → ForSome (D.reads self.old.disk) (λ files. (found : State) → look files ≡ Opened found → AnyMoment D.moment D.left_since OpensOr (λ _. None) self.old.disk self.new.disk self.old.state self.old.pending found) }
        ensures later { D.faults self.old.disk ≤ D.faults self.new.disk }
        ensures cause { IsErrOf result LibFault.Disk → Rose (D.faults self.old.disk) (D.faults self.new.disk) }
    {
        self.tells();
        match self.settle() {
            Ok(_) => {}
            Err(fault) => return Err(fault),
        }
        self.tells();
        self.read_settled(package, version, entry, offset, buf)
    }
}
