//! Readings of a file in memory.
ghost use Rattle.std.specs.Prelude.{◌≡◌, ◌≤◌, length, if◌then◌else◌};
ghost use Rattle.std.specs.Option.{ForSome};
ghost use Rattle.cm_tree.specs.Folders.{GivesPart, Turns, is_end, raw_path};
ghost use Rattle.cm_tree.specs.MemFolders.{kept_now, kept_later, kept_paths, kept_shown};

use crate::RawPath;
use crate::mem_file::MemFile;

/// Copies what there is from an offset on.
pub(crate) fn copied(bytes: &[u8], offset: u64, buf: &mut [u8]) -> usize
    ensures fits { result ≤ length buf.new }
    ensures part { GivesPart bytes.now offset buf.new result }
{
    if offset >= bytes.len() as u64 {
        return 0;
    }
    let rest = &bytes[offset as usize..];
    let count = rest.len().min(buf.len());
    buf[..count].copy_from_slice(&rest[..count]);
    count
}

/// The file was read to its end: its later bytes are those now.
pub(crate) fn turned(file: &mut MemFile)
    ensures path { file.new.path ≡ file.old.path }
    ensures now { kept_now file.new ≡ kept_later file.old }
    ensures later { kept_later file.new ≡ kept_later file.old }
{
    if let Some(later) = file.later.take() {
        file.bytes = later;
    }
}

/// A reading of a file.
fn read_file(file: &mut MemFile, offset: u64, buf: &mut [u8]) -> usize
    ensures fits { result ≤ length buf.new }
    ensures part { GivesPart (kept_now file.old) offset buf.new result }
    ensures path { file.new.path ≡ file.old.path }
    ensures after { kept_now file.new ≡ (if is_end (Ok result) (length buf.new) then kept_later file.old else kept_now file.old) }
    ensures later { kept_later file.new ≡ kept_later file.old }
{
    let count = copied(&file.bytes, offset, buf);
    if count > 0 || buf.is_empty() {
        return count;
    }
    turned(file);
    0
}

/// A reading of one of the files.
pub(crate) fn read_kept(files: &mut [MemFile], n: u32, offset: u64, buf: &mut [u8]) -> usize
    ensures fits { result ≤ length buf.new }
    ensures part { ForSome ((kept_shown files.old).now n) (λ bytes. GivesPart bytes offset buf.new result) }
    ensures none { length files.old ≤ n → result ≡ 0 }
    ensures paths { kept_paths files.new ≡ kept_paths files.old }
    ensures after { Turns n (is_end (Ok result) (length buf.new)) (kept_shown files.old) (kept_shown files.new) }
{
    let at = n as usize;
    if at >= files.len() {
        return 0;
    }
    let file = &mut files[at];
    read_file(file, offset, buf)
}

/// The path of one of the files.
pub(crate) fn path_kept(files: &[MemFile], n: u32) -> Option<RawPath>
    ensures { result ≡ raw_path (kept_shown files.now) n }
{
    let at = n as usize;
    if at >= files.len() {
        return None;
    }
    let file = &files[at];
    Some(RawPath::first_of(&file.path))
}
