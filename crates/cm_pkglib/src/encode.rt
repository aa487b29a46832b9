//! A change is written as bytes.
ghost use Rattle.std.specs.Prelude.{◌≡◌, ◌+◌, ◌≤◌, ◌++◌, length, take};
ghost use Rattle.cm_pkglib.specs.Changes.{IsRecord, spelled};

use crate::Change;

// Puts a piece at a place, and answers the place behind it.
fn put(out: &mut [u8; 61], at: usize, piece: &[u8]) -> usize
    requires { at + length piece.now ≤ 61 }
    ensures end { result ≡ at + length piece.now }
    ensures bytes { take result out.new ≡ take at out.old ++ piece.now }
{
    let end = at + piece.len();
    out[at..end].copy_from_slice(piece);
    end
}

impl Change {
    /// Writes the one spelling of the change to the front of the buffer, and answers its length in bytes: 61 of an opening,
    /// 13 of a removal, else 9. What stands behind it in the buffer means nothing.
    pub fn encode(&self, out: &mut [u8; 61]) -> usize
        ensures fits { result ≤ 61 }
        ensures length { result ≡ length (spelled self.now) }
        ensures bytes { take result out.new ≡ spelled self.now }
        ensures record { IsRecord self.now (take result out.new) }
    {
        match self {
            Change::Opened {
                job,
                package,
                version,
                entries,
                size,
                hash,
            } => {
                let at = put(out, 0, &[1]);
                let at = put(out, at, &job.number().to_le_bytes());
                let at = put(out, at, package.as_bytes());
                let at = put(out, at, &version.number().to_le_bytes());
                let at = put(out, at, &entries.to_le_bytes());
                let at = put(out, at, &size.to_le_bytes());
                put(out, at, &hash.0)
            }
            Change::Done { job } => {
                let at = put(out, 0, &[2]);
                put(out, at, &job.number().to_le_bytes())
            }
            Change::Dropped { job } => {
                let at = put(out, 0, &[3]);
                put(out, at, &job.number().to_le_bytes())
            }
            Change::Removed { package, version } => {
                let at = put(out, 0, &[4]);
                let at = put(out, at, package.as_bytes());
                put(out, at, &version.number().to_le_bytes())
            }
        }
    }
}
