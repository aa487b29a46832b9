//! A file is read again.
ghost use Rattle.std.specs.Prelude.{◌≡◌, ◌<◌, ◌≤◌, true, is_some, length, take, [], None, Some, OnOk, IfOk, IfErr};
ghost use Rattle.std.specs.Option.{ForSome};
ghost use Rattle.cm_base.specs.declared.hash.Hash.{Hash as a_hash};
ghost use Rattle.cm_contents.specs.Seals.{job_manifest};
ghost use Rattle.cm_contents.specs.Wants.{size_in};
ghost use Rattle.cm_library.specs.Started.{holder_of};
ghost use Rattle.cm_pkglib.specs.Counts.{seal_at};
ghost use Rattle.cm_state.specs.State.{held_by_job};
ghost use Rattle.cm_tree.specs.Folders.{GivesPart};
ghost use Rattle.cm_intake.specs.Filling.{HasPut, KeepsState, StaysRead, IsUnread, HasRoom, PutsMore, PutsAgain, ReadsAgain};

use crate::calls::{put, seal, start};
use cm_base::{Hash, JobId};
use cm_disk::Disk;
use cm_library::Library;
use cm_tree::Folder;

/// The most bytes that are read and put at once.
pub(crate) const PIECE: usize = 65_536;

/// Why a file is not read again.
#[derive(Clone, Copy)]
pub(crate) enum Unread {
    /// The folder failed.
    Folder,
    /// The library's disk failed.
    Disk,
}

/// Reads the next piece of a file into a buffer, and puts it. Gives how many bytes it has, 0 where the file has ended.
fn put_piece<F: Folder, D: Disk + Drop>(
    library: &mut Library<D>,
    folder: &mut F,
    job: JobId,
    n: u32,
    at: u64,
    room: &mut [u8],
) -> Result<usize, Unread>
    requires settled { library.old.pending ≡ None }
    requires unfinished { is_some (held_by_job job library.old.state.jobs) ≡ true }
    requires piece { length room.old ≤ 65536 }
    requires room { HasRoom job at (length room.old) library.old.started }
    ensures keeps { KeepsState D.reads D.may_leave D.moment D.left_since job library.old library.new }
    ensures seals { library.new.seals ≡ library.old.seals }
    ensures fits { IfOk result (λ count. count ≤ length room.new) }
    ensures bytes { IfOk result (λ count. ForSome ((F.shows folder.old).now n) (λ bytes. GivesPart bytes at room.new count)) }
    ensures put { IfOk result (λ count. PutsMore job (take count room.new) library.old.started library.new.started) }
    ensures shown { StaysRead (F.shows folder.old) (F.shows folder.new) }
    ensures folder_later { F.faults folder.old ≤ F.faults folder.new }
    ensures later { D.faults library.old.disk ≤ D.faults library.new.disk }
    ensures cause { IfErr result (IsUnread (F.faults folder.old) (F.faults folder.new) (D.faults library.old.disk) (D.faults library.new.disk)) }
{
    library.tells();
    match folder.read_at(n, at, room) {
        Ok(0) => Ok(0),
        Ok(count) => match put(library, job, at, &room[..count]) {
            Ok(()) => Ok(count),
            Err(_) => Err(Unread::Disk),
        },
        Err(_) => Err(Unread::Folder),
    }
}

/// Reads a file again in pieces, and puts its bytes, as many as a size allows.
fn put_again<F: Folder, D: Disk + Drop>(
    library: &mut Library<D>,
    folder: &mut F,
    job: JobId,
    n: u32,
    size: u32,
    piece: &mut [u8],
) -> Result<(), Unread>
    requires settled { library.old.pending ≡ None }
    requires unfinished { is_some (held_by_job job library.old.state.jobs) ≡ true }
    requires piece { length piece.old ≡ 65536 }
    requires empty { (hash : a_hash) × HasPut job hash size [] library.old.started }
    requires read { (F.shows folder.old).now n ≡ (F.shows folder.old).later n }
    ensures keeps { KeepsState D.reads D.may_leave D.moment D.left_since job library.old library.new }
    ensures seals { library.new.seals ≡ library.old.seals }
    ensures put { OnOk result (PutsAgain ((F.shows folder.old).later n) job size library.old.started library.new.started) }
    ensures shown { StaysRead (F.shows folder.old) (F.shows folder.new) }
    ensures folder_later { F.faults folder.old ≤ F.faults folder.new }
    ensures later { D.faults library.old.disk ≤ D.faults library.new.disk }
    ensures cause { IfErr result (IsUnread (F.faults folder.old) (F.faults folder.new) (D.faults library.old.disk) (D.faults library.new.disk)) }
{
    library.tells();
    let mut at: u64 = 0;
    while at < u64::from(size) {
        // A file that has grown is cut at the size.
        let left = (u64::from(size) - at).min(PIECE as u64) as usize;
        match put_piece(library, folder, job, n, at, &mut piece[..left]) {
            Ok(0) => return Ok(()),
            Ok(count) => at += count as u64,
            Err(fault) => return Err(fault),
        }
    }
    Ok(())
}

/// Reads the file of a hash again, and seals the hash if the file has the same bytes, up to its size. Else it tells which it has.
pub(crate) fn store_again<F: Folder, D: Disk + Drop>(
    library: &mut Library<D>,
    folder: &mut F,
    job: JobId,
    n: u32,
    hash: Hash,
    size: u32,
    piece: &mut [u8],
) -> Result<Option<(Hash, u32)>, Unread>
    requires settled { library.old.pending ≡ None }
    requires unfinished { is_some (held_by_job job library.old.state.jobs) ≡ true }
    requires wanted { size_in hash (job_manifest job library.old.state) ≡ Some size }
    requires unsealed { seal_at library.old.seals hash ≡ None }
    requires free { holder_of job hash library.old.started ≡ None }
    requires piece { length piece.old ≡ 65536 }
    requires read { (F.shows folder.old).now n ≡ (F.shows folder.old).later n }
    ensures keeps { KeepsState D.reads D.may_leave D.moment D.left_since job library.old library.new }
    ensures again { IfOk result (ReadsAgain ((F.shows folder.old).later n) hash size (seal_at library.old.seals) (seal_at library.new.seals)) }
    ensures shown { StaysRead (F.shows folder.old) (F.shows folder.new) }
    ensures folder_later { F.faults folder.old ≤ F.faults folder.new }
    ensures later { D.faults library.old.disk ≤ D.faults library.new.disk }
    ensures cause { IfErr result (IsUnread (F.faults folder.old) (F.faults folder.new) (D.faults library.old.disk) (D.faults library.new.disk)) }
{
    match start(library, job, hash) {
        Ok(()) => {}
        Err(_) => return Err(Unread::Disk),
    }
    match put_again(library, folder, job, n, size, piece) {
        Ok(()) => {}
        Err(fault) => return Err(fault),
    }
    match seal(library, job) {
        Ok(got) => Ok(got),
        Err(_) => Err(Unread::Disk),
    }
}
