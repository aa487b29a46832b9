//! Files of a folder in memory, in the order of their paths.
ghost use Rattle.std.specs.Prelude.{◌≡◌, true, false, IfOk, OnOk, option_map};
ghost use Rattle.std.specs.Option.{option_copied};
ghost use Rattle.std.specs.List.{find};
ghost use Rattle.std.specs.Str.{bytes_eq};
ghost use Rattle.cm_tree.specs.Paths.{is_rising, is_before};
ghost use Rattle.cm_tree.specs.MemFolders.{bytes_named, is_kept_path, kept_paths};
ghost use Rattle.cm_tree.specs.MemPlaces.{IsPlaceOf, IsPut, IsJoinedBy};

use crate::mem_file::MemFile;
use cm_base::Memory;
use std::alloc::Global;

/// Whether a file has this path.
fn is_kept(files: &[MemFile], path: &[u8]) -> bool
    ensures { result ≡ is_kept_path files.now path.now }
{
    files.iter().any(|file| path == file.path.as_slice())
}

/// Whether a file stands before a path.
fn stands_before(file: &MemFile, path: &[u8]) -> bool
    ensures { result ≡ is_before file.now.path.items path.now }
{
    file.path.as_slice().cmp(path).is_lt()
}

/// How many files stand before a path that none of them has.
fn place_of(files: &[MemFile], path: &[u8]) -> usize
    ensures { IsPlaceOf files.now path.now result }
{
    let mut at = files.len();
    while at > 0 {
        if stands_before(&files[at - 1], path) {
            return at;
        }
        at -= 1;
    }
    at
}

/// Puts a file of a new path at its place.
fn put(files: &mut Vec<MemFile>, file: MemFile) -> Result<(), Memory>
    requires rising { is_rising (kept_paths files.old.items) ≡ true }
    requires fresh { is_kept_path files.old.items file.path.items ≡ false }
    ensures rising { OnOk result (is_rising (kept_paths files.new.items) ≡ true) }
    ensures put { OnOk result (IsPut file files.old.items files.new.items) }
{
    let at = place_of(files, &file.path);
    files.insert(at, file)?;
    Ok(())
}

/// The first of these that has this path.
fn found<'a>(pairs: &'a [(Vec<u8>, Vec<u8>)], path: &[u8]) -> Option<&'a (Vec<u8>, Vec<u8>)>
    ensures { option_copied result ≡ find (λ pair. bytes_eq path.now pair.0.items) pairs.now }
{
    pairs.iter().find(|pair| path == pair.0.as_slice())
}

/// The bytes of the first of these that has this path.
fn named(
    alloc: Global,
    pairs: &[(Vec<u8>, Vec<u8>)],
    path: &[u8],
) -> Result<Option<Vec<u8>>, Memory>
    ensures { IfOk result (λ found. option_map (λ bytes. bytes.items) found ≡ bytes_named pairs.now path.now) }
{
    match found(pairs, path) {
        Some(pair) => Ok(Some(Vec::from_slice(alloc, &pair.1)?)),
        None => Ok(None),
    }
}

/// The file of a pair joins, unless its path is there.
pub(crate) fn join(
    alloc: Global,
    files: &mut Vec<MemFile>,
    later: &[(Vec<u8>, Vec<u8>)],
    pair: &(Vec<u8>, Vec<u8>),
) -> Result<(), Memory>
    requires { is_rising (kept_paths files.old.items) ≡ true }
    ensures rising { OnOk result (is_rising (kept_paths files.new.items) ≡ true) }
    ensures joined { OnOk result (IsJoinedBy later.now pair.now files.old.items files.new.items) }
{
    if is_kept(files, &pair.0) {
        return Ok(());
    }
    let path = Vec::from_slice(alloc, &pair.0)?;
    let bytes = Vec::from_slice(alloc, &pair.1)?;
    let later = named(alloc, later, &pair.0)?;
    put(files, MemFile { path, bytes, later })
}
