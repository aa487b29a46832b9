//! The files of a folder are stored under their hashes.
ghost use Rattle.std.specs.Prelude.{◌≡◌, ◌≤◌, length, false, OnOk};
ghost use Rattle.std.specs.Option.{ForSome};
ghost use Rattle.cm_filelib.specs.Stored.{IsKept};
ghost use Rattle.cm_filelib.specs.Writings.{hash_of, size_of, next_of, is_spent, IsWriting};

use cm_base::Memory;
use cm_disk::{Disk, DiskFault};
use cm_filelib::{FileFault, SealFault, Writing, put, seal, start};
use cm_tree::{Entry, Folder, FolderFault, ScanFault, scan};
use std::alloc::{AllocError, Global};

// The bytes of a piece.
const PIECE: usize = 65536;

/// What was stored.
#[derive(Clone, Copy, Debug, PartialEq, Eq)]
pub struct Stored {
    /// How many files.
    pub files: u32,
    /// How many bytes they have together.
    pub bytes: u64,
}

/// Why a folder is not stored, or not all of it.
#[derive(Clone, Copy, Debug, PartialEq, Eq)]
pub enum StoreFault {
    /// The folder failed, or has too many files, a path or a file that no tree takes.
    Folder,
    /// A file changed between its two readings.
    Changed,
    /// The disk failed.
    Disk,
    /// Want of memory.
    Memory,
}

impl StoreFault {
    /// The fault in words.
    pub fn text(&self) -> &'static str {
        match self {
            StoreFault::Folder => "the folder cannot be read as a tree",
            StoreFault::Changed => "a file changed while it was read",
            StoreFault::Disk => "the disk failed",
            StoreFault::Memory => "want of memory",
        }
    }
}

impl From<Memory> for StoreFault {
    fn from(_: Memory) -> StoreFault {
        StoreFault::Memory
    }
}

impl From<AllocError> for StoreFault {
    fn from(_: AllocError) -> StoreFault {
        StoreFault::Memory
    }
}

impl From<DiskFault> for StoreFault {
    fn from(_: DiskFault) -> StoreFault {
        StoreFault::Disk
    }
}

impl From<FolderFault> for StoreFault {
    fn from(_: FolderFault) -> StoreFault {
        StoreFault::Folder
    }
}

// Why a folder has no manifest.
fn of_scan(fault: ScanFault) -> StoreFault {
    match fault {
        ScanFault::Memory => StoreFault::Memory,
        _ => StoreFault::Folder,
    }
}

// Puts the bytes of file number n behind one another.
fn put_file<D: Disk, F: Folder>(
    writing: &mut Writing,
    disk: &mut D,
    folder: &mut F,
    n: u32,
    size: u32,
    piece: &mut [u8],
) -> Result<(), StoreFault>
    requires small { length piece.old ≤ 65536 }
    requires idle { is_spent writing.old ≡ false }
    requires front { next_of writing.old ≡ 0 }
    requires stands { ForSome (D.reads disk.old) (λ files. IsWriting files writing.old) }
    ensures idle { OnOk result (is_spent writing.new ≡ false) }
    ensures stands { OnOk result (ForSome (D.reads disk.new) (λ files. IsWriting files writing.new)) }
    ensures named { (hash_of writing.new ≡ hash_of writing.old) × (size_of writing.new ≡ size_of writing.old) }
{
    let mut offset = 0u64;
    while offset < u64::from(size) {
        let count = folder.read_at(n, offset, piece)?;
        if count == 0 {
            return Err(StoreFault::Changed);
        }
        match put(writing, disk, offset, &piece[..count]) {
            Ok(()) => {}
            Err(FileFault::Disk) => return Err(StoreFault::Disk),
            Err(_) => return Err(StoreFault::Changed),
        }
        offset += count as u64;
    }
    Ok(())
}

// Stores file number n, which has that entry. Then it is whole, whatever a stop leaves.
fn store_file<D: Disk, F: Folder>(
    disk: &mut D,
    folder: &mut F,
    n: u32,
    entry: &Entry,
    piece: &mut [u8],
) -> Result<(), StoreFault>
    requires { length piece.old ≤ 65536 }
    ensures kept { OnOk result (ForSome (D.reads disk.new) (λ files. IsKept files (D.may_leave disk.new) entry.now.hash.0 entry.now.size)) }
{
    let mut writing = start(disk, entry.hash, entry.size)?;
    put_file(&mut writing, disk, folder, n, entry.size, piece)?;
    match seal(writing, disk) {
        Ok(()) => Ok(()),
        Err(SealFault::Disk) => Err(StoreFault::Disk),
        Err(_) => Err(StoreFault::Changed),
    }
}

// Stores the files of these entries, which are all of a folder's.
fn store_each<D: Disk, F: Folder>(
    disk: &mut D,
    folder: &mut F,
    entries: &[Entry],
    piece: &mut [u8],
) -> Result<Stored, StoreFault>
    requires { length piece.old ≤ 65536 }
{
    let mut stored = Stored { files: 0, bytes: 0 };
    for entry in entries {
        store_file(disk, folder, stored.files, entry, piece)?;
        stored.files = stored.files.saturating_add(1);
        stored.bytes = stored.bytes.saturating_add(u64::from(entry.size));
    }
    Ok(stored)
}

/// Stores each file of a folder under its hash: reads it once for its manifest, and once more for its bytes. A file of more than 4,294,967,295 bytes, more than 20,000 files, and a path that no tree takes are
/// faults of the folder.
pub fn store_folder<D: Disk, F: Folder>(
    alloc: Global,
    disk: &mut D,
    folder: &mut F,
) -> Result<Stored, StoreFault> {
    let manifest = match scan(alloc, folder) {
        Ok(manifest) => manifest,
        Err(fault) => return Err(of_scan(fault)),
    };
    let mut piece = vec![in alloc; 0u8; PIECE]?;
    store_each(disk, folder, manifest.entries(), &mut piece)
}
