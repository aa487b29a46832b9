//! The manifest of a folder.
ghost use Rattle.std.specs.Prelude.{◌<◌, ◌≤◌, List, length, IfOk, IfErr, OnOk, OnErr, IsErrOf};
ghost use Rattle.cm_base.specs.Causes.{Rose};
ghost use Rattle.cm_tree.specs.Trees.{File};
ghost use Rattle.cm_tree.specs.Folders.{Tells, WasRead, MayBeRead};
ghost use Rattle.cm_tree.specs.Scans.{Scans, scanned, HasFault, Answers};

use crate::taken::Taken;
use crate::walk::{PIECE, has_room, hashed_file, next_path};
use crate::{Entry, Folder, Manifest, ScanFault};
use std::alloc::Global;

/// The most files of a tree.
const MOST_FILES: u32 = 20_000;

/// The manifest of a folder that has no more than the most files, each read once.
fn scan_of_room<F: Folder>(
    alloc: Global,
    folder: &mut F,
    most_files: u32,
    most_bytes: u32,
    piece: &mut [u8],
) -> Result<Manifest, ScanFault>
    requires most { most_files ≤ 20000 }
    requires room { 0 < length piece.old }
    requires small { length piece.old ≤ 65536 }
    requires few { length (F.shows folder.old).paths ≤ most_files }
    ensures manifest { IfOk result (λ entries. Scans most_files most_bytes (F.shows folder.old) entries) }
    ensures fault { IfErr result (HasFault most_files most_bytes (F.shows folder.old)) }
    ensures read { OnOk result (WasRead (F.shows folder.old) (F.shows folder.new)) }
    ensures failed { OnErr result (MayBeRead (F.shows folder.old) (F.shows folder.new)) }
    ensures later { F.faults folder.old ≤ F.faults folder.new }
    ensures cause { IsErrOf result ScanFault.Folder → Rose (F.faults folder.old) (F.faults folder.new) }
{
    let mut entries = Vec::new(alloc);
    let mut taken = Taken::new(alloc);
    for n in 0..most_files {
        let path = match next_path(folder, &mut taken, n) {
            Ok(Some(path)) => path,
            Ok(None) => return Ok(Manifest::of(entries)),
            Err(fault) => return Err(fault),
        };
        let (size, hash) = match hashed_file(folder, n, most_bytes, piece) {
            Ok(found) => found,
            Err(fault) => return Err(fault),
        };
        entries.push(Entry { path, size, hash })?;
    }
    Ok(Manifest::of(entries))
}

/// Reads each file of a folder once, in pieces of 65,536 bytes, and gives their manifest, within these limits of their number, at most
/// 20,000, and of the bytes of each. The path past the most is asked for first, and `TooManyFiles` comes exactly where it is there. Then the
/// files are taken in order: `BadPath`, `SamePath`, `FileTooLong`. `Folder` comes only where the folder failed in this call, and `Memory`
/// for want of memory.
pub fn scan_within<F: Folder>(
    alloc: Global,
    folder: &mut F,
    most_files: u32,
    most_bytes: u32,
) -> Result<Manifest, ScanFault>
    requires { most_files ≤ 20000 }
    // The manifest is that of the folder's files, as they read at the call, and none of them has a fault.
    ensures manifest { IfOk result (λ entries. Scans most_files most_bytes (F.shows folder.old) entries) }
    // A fault of the files is their first.
    ensures fault { IfErr result (HasFault most_files most_bytes (F.shows folder.old)) }
    ensures read { OnOk result (WasRead (F.shows folder.old) (F.shows folder.new)) }
    ensures failed { OnErr result (MayBeRead (F.shows folder.old) (F.shows folder.new)) }
    ensures later { F.faults folder.old ≤ F.faults folder.new }
    ensures cause { IsErrOf result ScanFault.Folder → Rose (F.faults folder.old) (F.faults folder.new) }
{
    match has_room(folder, most_files) {
        Ok(()) => {
            let mut piece = vec![in alloc; 0u8; PIECE]?;
            scan_of_room(alloc, folder, most_files, most_bytes, &mut piece)
        }
        Err(fault) => Err(fault),
    }
}

/// The same within the limits of the product: at most 20,000 files of at most 4,294,967,295 bytes.
pub fn scan<F: Folder>(alloc: Global, folder: &mut F) -> Result<Manifest, ScanFault>
    // The manifest is that of the folder's files, as they read at the call, and none of them has a fault.
    ensures manifest { IfOk result (λ entries. Scans 20000 4294967295 (F.shows folder.old) entries) }
    // A fault of the files is their first.
    ensures fault { IfErr result (HasFault 20000 4294967295 (F.shows folder.old)) }
    // So it is the answer of the files that the folder tells.
    ensures told { (files : List File) → Tells (F.shows folder.old) files → Answers (λ entries. entries) result (scanned 20000 4294967295 files) }
    ensures read { OnOk result (WasRead (F.shows folder.old) (F.shows folder.new)) }
    ensures failed { OnErr result (MayBeRead (F.shows folder.old) (F.shows folder.new)) }
    ensures later { F.faults folder.old ≤ F.faults folder.new }
    ensures cause { IsErrOf result ScanFault.Folder → Rose (F.faults folder.old) (F.faults folder.new) }
{
    scan_within(alloc, folder, MOST_FILES, u32::MAX)
}
