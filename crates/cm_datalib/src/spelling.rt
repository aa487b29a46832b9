//! A manifest is spelled piece by piece, with no memory.
ghost use Rattle.std.specs.Prelude.{◌≡◌, ◌≤◌, ◌<◌, ◌+◌, ◌-◌, ◌*◌, ◌++◌, length, take};
ghost use Rattle.std.specs.List.{flat_map};
ghost use Rattle.cm_tree.specs.Manifests.{entry_bytes};
ghost use Rattle.cm_datalib.specs.Spellings.{header};

use crate::putting::put;
use cm_tree::Entry;

/// How many bytes a piece has at most.
pub(crate) const PIECE: usize = 65536;

// Puts the bytes that spell an entry, and tells where they end.
fn put_entry(piece: &mut [u8; PIECE], at: usize, entry: &Entry) -> usize
    requires { at + 277 ≤ 65536 }
    ensures most { result ≤ at + 277 }
    ensures bytes { take result piece.new ≡ take at piece.old ++ entry_bytes entry.now }
{
    let path = entry.path.as_bytes();
    let text_at = put(piece, at, &[path.len() as u8]);
    let size_at = put(piece, text_at, path);
    let hash_at = put(piece, size_at, &entry.size.to_le_bytes());
    put(piece, hash_at, &entry.hash.0)
}

/// Fills a piece with the spellings of the entries from this number on, as many as have room. Gives the number of the entry behind
/// them, and how many bytes there are.
pub(crate) fn fill(piece: &mut [u8; PIECE], entries: &[Entry], from: usize) -> (usize, usize)
    requires { from < length entries.now }
    ensures goes_on { from < result.0 }
    ensures within { result.0 ≤ length entries.now }
    ensures fits { result.1 ≤ 65536 }
    ensures most { result.1 ≤ 277 * (result.0 - from) }
    ensures bytes { flat_map entry_bytes (take result.0 entries.now) ≡ flat_map entry_bytes (take from entries.now) ++ take result.1 piece.new }
{
    let mut to = from;
    let mut count = 0;
    while to < entries.len() && count <= 65259 {
        count = put_entry(piece, count, &entries[to]);
        to += 1;
    }
    (to, count)
}

/// `CMDL`, the form 1 and the number of entries in four bytes.
pub(crate) fn header_of(entries: &[Entry]) -> [u8; 9]
    requires { length entries.now ≤ 20000 }
    ensures { result ≡ header entries.now }
{
    let mut bytes = *b"CMDL\x010000";
    bytes[5..].copy_from_slice(&(entries.len() as u32).to_le_bytes());
    bytes
}
