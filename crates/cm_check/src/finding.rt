//! What is found of the files of a version.
ghost use Rattle.std.specs.Prelude.{◌≡◌, ◌==◌, ◌&&◌};
ghost use Rattle.std.specs.Str.{bytes_eq};
ghost use Rattle.cm_disk.specs.Disk.{File as a_file};
ghost use Rattle.cm_disk.specs.Hashed.{hashed as hash_of_file};
ghost use Rattle.cm_check.specs.Findings.{finding_in};

use cm_base::Hash;
use cm_tree::{Entry, FilePath};

/// A file of a version that is not what the manifest says.
#[derive(Clone, Copy)]
pub struct Finding {
    /// Where the file stands in the tree.
    pub path: FilePath,
    pub kind: FindingKind,
}

/// What is wrong with a file.
#[derive(Clone, Copy)]
pub enum FindingKind {
    /// There is no file at the place of its hash.
    Missing,
    /// The file there has another size or another SHA-256 than the manifest says. Sizes are in bytes.
    Differs {
        named: Hash,
        size: u32,
        got: Hash,
        found: u64,
    },
}

/// Whether a file has the size and the SHA-256 of an entry.
fn is_named(entry: &Entry, size: u64, hash: Hash) -> bool
    ensures { result ≡ (size == entry.now.size && bytes_eq hash.0 entry.now.hash.0) }
{
    size == u64::from(entry.size) && hash == entry.hash
}

/// What is found of an entry's file that has this size and this SHA-256, or is absent.
pub(crate) fn finding_in(entry: &Entry, hashed: Option<(u64, Hash)>) -> Option<Finding>
    ensures { (file : a_file) → hashed ≡ hash_of_file file → result ≡ finding_in file entry.now }
{
    let Some(file) = hashed else {
        return Some(Finding {
            path: entry.path,
            kind: FindingKind::Missing,
        });
    };
    let (found, got) = file;
    if is_named(entry, found, got) {
        return None;
    }
    Some(Finding {
        path: entry.path,
        kind: FindingKind::Differs {
            named: entry.hash,
            size: entry.size,
            got,
            found,
        },
    })
}
