//! A folder that a tree comes from.
ghost use Rattle.std.specs.Prelude.{◌≡◌, ◌≤◌, ℕ, length, true, IfOk};
ghost use Rattle.std.specs.Option.{ForSome};
ghost use Rattle.cm_base.specs.Causes.{HasCause};
ghost use Rattle.cm_tree.specs.Paths.{is_rising};
ghost use Rattle.cm_tree.specs.Folders.{Shown, raw_path, Stays, is_end, Turns, GivesPart};

use crate::RawPath;

/// The folder failed.
#[derive(Clone, Copy, Debug, PartialEq, Eq)]
pub struct FolderFault;

/// A folder that a tree comes from: files by number, from 0, in the order of the bytes of their paths.
pub trait Folder {
    /// The paths, and for each file the bytes that reads give now, and those that they give once it was read to its end.
    ghost shows: { Self → Shown };

    /// How often it has failed.
    ghost faults: { Self → ℕ };

    /// The first 241 bytes of a path. None past the last.
    fn path_at(&mut self, n: u32) -> Result<Option<RawPath>, FolderFault>
        ensures path { IfOk result (λ path. path ≡ raw_path (shows self.old) n) }
        ensures same { Stays (shows self.old) (shows self.new) }
        ensures cause { HasCause (faults self.old) (faults self.new) result };

    /// Reads a file from an offset on. It gives at least one byte where there is one and the buffer has room. Past the last
    /// file it gives none. Once it gave none into a buffer with room, reads of that file give its later bytes.
    fn read_at(&mut self, n: u32, offset: u64, buf: &mut [u8]) -> Result<usize, FolderFault>
        ensures fits { IfOk result (λ count. count ≤ length buf.new) }
        ensures bytes { IfOk result (λ count. ForSome ((shows self.old).now n) (λ bytes. GivesPart bytes offset buf.new count)) }
        ensures none { IfOk result (λ count. length (shows self.old).paths ≤ n → count ≡ 0) }
        ensures after { Turns n (is_end result (length buf.new)) (shows self.old) (shows self.new) }
        ensures cause { HasCause (faults self.old) (faults self.new) result };

    /// Each path stands before the next, and so each stands once.
    ghost rising: { (folder : Self) → is_rising (shows folder).paths ≡ true };
}
