//! Entries from bytes.
ghost use Rattle.std.specs.Prelude.{◌≡◌, ◌+◌, ◌*◌, ◌^◌, ◌<◌, ◌≤◌, [], ◌∷◌, ◌++◌, length, IfOk};
ghost use Rattle.std.specs.Int.{w8, w32};
ghost use Rattle.cm_tree.specs.Manifests.{paths_of};
ghost use Rattle.cm_tree.specs.Taking.{HasTaken};
ghost use Rattle.cm_tree.specs.Reading.{Gives, Reads, number_at, bytes_at, text_at, row_at, is_behind, joined as joined_of, entry_at, entries_at, magic_at, form_at, count_at, header_at, end_at, read_manifest};

use crate::taken::Taken;
use crate::{Entry, FilePath, TreeFault};
use cm_base::Hash;
use std::alloc::Global;

/// The most entries of a manifest.
const MOST_ENTRIES: u32 = 20_000;

// Each reader is given how many bytes there are in all, and those that are left.

#[tactic(auto, unfolding(crate::specs::Reading::bytes_at))]
fn bytes_of(count: usize, total: usize, bytes: &[u8]) -> Result<(&[u8], &[u8]), TreeFault>
    requires within { length bytes.now ≤ total }
    requires low { total + count < length bytes.now + 2 ^ 24 }
    ensures exact { Reads (λ x. (x.0.now, x.1.now)) result (bytes_at count total bytes.now) }
    ensures front { IfOk result (λ x. length x.0.now ≡ count) }
    ensures rest { IfOk result (λ x. length x.1.now + count ≡ length bytes.now) }
{
    if bytes.len() < count {
        return Err(TreeFault::BadForm { at: total as u32 });
    }
    Ok(bytes.split_at(count))
}

#[tactic(auto, unfolding(crate::specs::Reading::number_at, crate::specs::Reading::bytes_at))]
fn u8_of(total: usize, bytes: &[u8]) -> Result<(u8, &[u8]), TreeFault>
    requires within { length bytes.now ≤ total }
    requires low { total < length bytes.now + 2 ^ 23 }
    ensures exact { Reads (λ x. (x.0, x.1.now)) result (number_at w8 total bytes.now) }
    ensures rest { IfOk result (λ x. length x.1.now + 1 ≡ length bytes.now) }
{
    let (front, rest) = bytes_of(1, total, bytes)?;
    Ok((front[0], rest))
}

#[tactic(auto, unfolding(crate::specs::Reading::number_at, crate::specs::Reading::bytes_at))]
fn u32_of(total: usize, bytes: &[u8]) -> Result<(u32, &[u8]), TreeFault>
    requires within { length bytes.now ≤ total }
    requires low { total < length bytes.now + 2 ^ 23 }
    ensures exact { Reads (λ x. (x.0, x.1.now)) result (number_at w32 total bytes.now) }
    ensures rest { IfOk result (λ x. length x.1.now + 4 ≡ length bytes.now) }
{
    let (front, rest) = bytes_of(4, total, bytes)?;
    let number = u32::from_le_bytes([front[0], front[1], front[2], front[3]]);
    Ok((number, rest))
}

fn hash_of(total: usize, bytes: &[u8]) -> Result<(Hash, &[u8]), TreeFault>
    requires within { length bytes.now ≤ total }
    requires low { total < length bytes.now + 2 ^ 23 }
    ensures exact { Reads (λ x. (x.0.0, x.1.now)) result (bytes_at 32 total bytes.now) }
    ensures rest { IfOk result (λ x. length x.1.now + 32 ≡ length bytes.now) }
{
    let (front, rest) = bytes_of(32, total, bytes)?;
    let mut hash = [0; 32];
    hash.copy_from_slice(front);
    Ok((Hash(hash), rest))
}

#[tactic(auto, unfolding(crate::specs::Reading::text_at))]
fn text_of(total: usize, bytes: &[u8]) -> Result<(&[u8], &[u8]), TreeFault>
    requires within { length bytes.now ≤ total }
    requires low { total < length bytes.now + 2 ^ 23 }
    ensures exact { Reads (λ x. (x.0.now, x.1.now)) result (text_at total bytes.now) }
    ensures least { IfOk result (λ x. length x.1.now ≤ length bytes.now) }
    ensures most { IfOk result (λ x. length bytes.now ≤ length x.1.now + 241) }
{
    let (len, rest) = u8_of(total, bytes)?;
    if len == 0 || len > 240 {
        return Err(TreeFault::BadForm {
            at: (total - bytes.len()) as u32,
        });
    }
    bytes_of(len as usize, total, rest)
}

#[tactic(auto, unfolding(crate::specs::Reading::row_at))]
fn row_of(total: usize, bytes: &[u8]) -> Result<(&[u8], u32, Hash, &[u8]), TreeFault>
    requires within { length bytes.now ≤ total }
    requires low { total + 277 < length bytes.now + 2 ^ 23 }
    ensures exact { Reads (λ x. (x.0.now, x.1, x.2.0, x.3.now)) result (row_at total bytes.now) }
    ensures least { IfOk result (λ x. length x.3.now ≤ length bytes.now) }
    ensures most { IfOk result (λ x. length bytes.now ≤ length x.3.now + 277) }
{
    let (path, rest) = text_of(total, bytes)?;
    let (size, rest) = u32_of(total, rest)?;
    let (hash, rest) = hash_of(total, rest)?;
    Ok((path, size, hash, rest))
}

/// Whether a path stands behind the last of some entries.
pub(crate) fn is_last(before: &[Entry], path: &FilePath) -> bool
    ensures { result ≡ is_behind (paths_of before.now) path.now }
{
    match before.last() {
        None => true,
        Some(last) => last.path < *path,
    }
}

/// An entry behind those before it.
#[tactic(auto, unfolding(crate::specs::Reading::joined))]
fn joined(
    before: &[Entry],
    taken: &mut Taken,
    path: &[u8],
    size: u32,
    hash: Hash,
) -> Result<Entry, TreeFault>
    requires few { length before.now < 2 ^ 32 }
    requires taken { HasTaken taken.old (paths_of before.now) }
    ensures exact { Gives (λ e. e) result (joined_of before.now path.now size hash.0) }
    ensures more { IfOk result (λ entry. HasTaken taken.new (paths_of before.now ++ entry.path ∷ [])) }
{
    let number = before.len() as u32;
    let Some(path) = FilePath::read(path) else {
        return Err(TreeFault::BadPath { entry: number });
    };
    if !is_last(before, &path) {
        return Err(TreeFault::Unsorted { entry: number });
    }
    if !taken.take(&path)? {
        return Err(TreeFault::SamePath { entry: number });
    }
    Ok(Entry { path, size, hash })
}

#[tactic(auto, unfolding(crate::specs::Reading::entry_at))]
fn entry_of<'a>(
    before: &[Entry],
    taken: &mut Taken,
    total: usize,
    bytes: &'a [u8],
) -> Result<(Entry, &'a [u8]), TreeFault>
    requires within { length bytes.now ≤ total }
    requires low { total + 277 < length bytes.now + 2 ^ 23 }
    requires few { length before.now < 2 ^ 32 }
    requires taken { HasTaken taken.old (paths_of before.now) }
    ensures exact { Gives (λ x. (x.0, x.1.now)) result (entry_at before.now total bytes.now) }
    ensures more { IfOk result (λ x. HasTaken taken.new (paths_of before.now ++ x.0.path ∷ [])) }
    ensures least { IfOk result (λ x. length x.1.now ≤ length bytes.now) }
    ensures most { IfOk result (λ x. length bytes.now ≤ length x.1.now + 277) }
{
    let (path, size, hash, rest) = row_of(total, bytes)?;
    let entry = joined(before, taken, path, size, hash)?;
    Ok((entry, rest))
}

fn entries_of(
    alloc: Global,
    count: u32,
    total: usize,
    bytes: &[u8],
) -> Result<(Vec<Entry>, &[u8]), TreeFault>
    requires within { length bytes.now ≤ total }
    requires low { total ≤ length bytes.now + 9 }
    requires few { count ≤ 20000 }
    ensures exact { Gives (λ x. (x.0.items, x.1.now)) result (entries_at count total [] bytes.now) }
    ensures least { IfOk result (λ x. length x.1.now ≤ length bytes.now) }
    ensures most { IfOk result (λ x. total ≤ length x.1.now + 9 + 277 * count) }
{
    let mut entries = Vec::new(alloc);
    let mut taken = Taken::new(alloc);
    let mut rest = bytes;
    for _ in 0..count {
        match entry_of(&entries, &mut taken, total, rest) {
            Ok((entry, after)) => {
                entries.push(entry)?;
                rest = after;
            }
            Err(fault) => return Err(fault),
        }
    }
    Ok((entries, rest))
}

#[tactic(auto, unfolding(crate::specs::Reading::magic_at))]
fn after_magic(total: usize, bytes: &[u8]) -> Result<&[u8], TreeFault>
    requires { length bytes.now ≡ total }
    ensures exact { Reads (λ x. x.now) result (magic_at total bytes.now) }
    ensures rest { IfOk result (λ x. length x.now + 4 ≡ length bytes.now) }
{
    let (magic, rest) = bytes_of(4, total, bytes)?;
    if magic == b"CMDL".as_slice() {
        Ok(rest)
    } else {
        Err(TreeFault::BadForm { at: 0 })
    }
}

#[tactic(auto, unfolding(crate::specs::Reading::form_at))]
fn after_form(total: usize, bytes: &[u8]) -> Result<&[u8], TreeFault>
    requires { length bytes.now + 4 ≡ total }
    ensures exact { Reads (λ x. x.now) result (form_at total bytes.now) }
    ensures rest { IfOk result (λ x. length x.now + 1 ≡ length bytes.now) }
{
    let (form, rest) = u8_of(total, bytes)?;
    if form == 1 {
        Ok(rest)
    } else {
        Err(TreeFault::BadForm { at: 4 })
    }
}

#[tactic(auto, unfolding(crate::specs::Reading::count_at))]
fn count_of(total: usize, bytes: &[u8]) -> Result<(u32, &[u8]), TreeFault>
    requires { length bytes.now + 5 ≡ total }
    ensures exact { Reads (λ x. (x.0, x.1.now)) result (count_at total bytes.now) }
    ensures rest { IfOk result (λ x. length x.1.now + 4 ≡ length bytes.now) }
    ensures few { IfOk result (λ x. x.0 ≤ 20000) }
{
    let (count, rest) = u32_of(total, bytes)?;
    if count > MOST_ENTRIES {
        return Err(TreeFault::TooManyFiles);
    }
    Ok((count, rest))
}

#[tactic(auto, unfolding(crate::specs::Reading::header_at))]
fn header_of(total: usize, bytes: &[u8]) -> Result<(u32, &[u8]), TreeFault>
    requires { length bytes.now ≡ total }
    ensures exact { Reads (λ x. (x.0, x.1.now)) result (header_at total bytes.now) }
    ensures rest { IfOk result (λ x. length x.1.now + 9 ≡ length bytes.now) }
    ensures few { IfOk result (λ x. x.0 ≤ 20000) }
{
    let rest = after_magic(total, bytes)?;
    let rest = after_form(total, rest)?;
    count_of(total, rest)
}

/// The entries of the manifest that all of the bytes spell.
#[tactic(auto, unfolding(crate::specs::Reading::read_manifest, crate::specs::Reading::end_at))]
pub(crate) fn all_entries(alloc: Global, bytes: &[u8]) -> Result<Vec<Entry>, TreeFault>
    ensures { Gives (λ entries. entries.items) result (read_manifest bytes.now) }
{
    let total = bytes.len();
    let (count, rest) = header_of(total, bytes)?;
    let (entries, rest) = entries_of(alloc, count, total, rest)?;
    if !rest.is_empty() {
        return Err(TreeFault::BadForm {
            at: (total - rest.len()) as u32,
        });
    }
    Ok(entries)
}
