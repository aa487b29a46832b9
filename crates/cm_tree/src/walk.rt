//! Steps of a walk over a folder.
ghost use Rattle.std.specs.Prelude.{◌≡◌, ◌<◌, ◌≤◌, ℕ, List, ◌∷◌, ◌++◌, [], length, Option, None, Some, true, IfOk, IfErr, OnOk, OnErr, IfSome, IsErrOf};
ghost use Rattle.cm_base.specs.Causes.{Rose};
ghost use Rattle.cm_tree.specs.Folders.{Stays, Turns};
ghost use Rattle.cm_tree.specs.Paths.{is_file_path};
ghost use Rattle.cm_tree.specs.Taking.{HasTaken};
ghost use Rattle.cm_tree.specs.Walks.{MayTurn, JoinsTaken, IsPathFault, IsNextPath, IsHashOf, IsReadFault, IsRoomFault};

use crate::taken::Taken;
use crate::{FilePath, Folder, ScanFault};
use cm_base::{FileHasher, Hash};

/// How many bytes are asked for at once.
pub(crate) const PIECE: usize = 65_536;

/// A path behind those that are taken.
fn joined(taken: &mut Taken, n: u32, text: &[u8]) -> Result<FilePath, ScanFault>
    ensures exact { JoinsTaken taken.old n text.now result }
    ensures form { IfOk result (λ path. (path ≡ text.now) × (is_file_path text.now ≡ true)) }
    ensures kind { IfErr result IsPathFault }
    ensures taken { IfOk result (λ path. (before : List (List ℕ)) → HasTaken taken.old before → HasTaken taken.new (before ++ path ∷ [])) }
{
    let Some(path) = FilePath::read(text) else {
        return Err(ScanFault::BadPath { entry: n });
    };
    if taken.take(&path)? {
        Ok(path)
    } else {
        Err(ScanFault::SamePath { entry: n })
    }
}

/// That a folder has no more files than these.
pub(crate) fn has_room<F: Folder>(folder: &mut F, most_files: u32) -> Result<(), ScanFault>
    ensures few { OnOk result (length (F.shows folder.old).paths ≤ most_files) }
    ensures fault { IfErr result (IsRoomFault most_files (length (F.shows folder.old).paths)) }
    ensures same { Stays (F.shows folder.old) (F.shows folder.new) }
    ensures later { F.faults folder.old ≤ F.faults folder.new }
    ensures cause { IsErrOf result ScanFault.Folder → Rose (F.faults folder.old) (F.faults folder.new) }
{
    match folder.path_at(most_files) {
        Ok(None) => Ok(()),
        Ok(Some(_)) => Err(ScanFault::TooManyFiles),
        Err(_) => Err(ScanFault::Folder),
    }
}

/// The path of a file, behind those that are taken. None past the last file.
pub(crate) fn next_path<F: Folder>(
    folder: &mut F,
    taken: &mut Taken,
    n: u32,
) -> Result<Option<FilePath>, ScanFault>
    ensures exact { IsNextPath (F.shows folder.old) taken.old n result }
    ensures taken { IfOk result (λ path. IfSome path (λ path. (before : List (List ℕ)) → HasTaken taken.old before → HasTaken taken.new (before ++ path ∷ []))) }
    ensures same { Stays (F.shows folder.old) (F.shows folder.new) }
    ensures later { F.faults folder.old ≤ F.faults folder.new }
    ensures cause { IsErrOf result ScanFault.Folder → Rose (F.faults folder.old) (F.faults folder.new) }
{
    match folder.path_at(n) {
        Ok(None) => Ok(None),
        Ok(Some(raw)) => match joined(taken, n, raw.as_bytes()) {
            Ok(path) => Ok(Some(path)),
            Err(fault) => Err(fault),
        },
        Err(_) => Err(ScanFault::Folder),
    }
}

/// The size and the hash of a file, read to its end in pieces.
pub(crate) fn hashed_file<F: Folder>(
    folder: &mut F,
    n: u32,
    most_bytes: u32,
    piece: &mut [u8],
) -> Result<(u32, Hash), ScanFault>
    requires room { 0 < length piece.old }
    requires small { length piece.old ≤ 65536 }
    ensures hash { IfOk result (λ found. IsHashOf ((F.shows folder.old).now n) most_bytes found.0 found.1.0) }
    ensures fault { IfErr result (IsReadFault most_bytes n ((F.shows folder.old).now n)) }
    ensures read { OnOk result (Turns n true (F.shows folder.old) (F.shows folder.new)) }
    ensures failed { OnErr result (MayTurn n (F.shows folder.old) (F.shows folder.new)) }
    ensures later { F.faults folder.old ≤ F.faults folder.new }
    ensures cause { IsErrOf result ScanFault.Folder → Rose (F.faults folder.old) (F.faults folder.new) }
{
    let mut hasher = FileHasher::new();
    let mut at: u64 = 0;
    'pieces: loop {
        match folder.read_at(n, at, piece) {
            Ok(0) => {
                let done = hasher.done();
                return Ok((at as u32, done.1));
            }
            Ok(count) => {
                hasher.feed(&piece[..count]);
                at += count as u64;
            }
            Err(_) => return Err(ScanFault::Folder),
        }
        if at > most_bytes as u64 {
            return Err(ScanFault::FileTooLong { entry: n });
        }
    }
}
