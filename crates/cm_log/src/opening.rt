//! A log is opened for reading.
ghost use Rattle.std.specs.Prelude.{◌≡◌, ◌≢◌, List, ℕ, Err, OnOk, IfOk, IsErrOf};
ghost use Rattle.std.specs.Option.{ForSome};
ghost use Rattle.cm_base.specs.Causes.{Rose, HasCause};
ghost use Rattle.cm_disk.specs.Disk.{Only};
ghost use Rattle.cm_log.specs.declared.shelf.Side.{Side as LogSide};
ghost use Rattle.cm_log.specs.Frames.{OnlyReads};
ghost use Rattle.cm_log.specs.Shelves.{log_place};
ghost use Rattle.cm_log.specs.Logs.{NoLog, Unread, Live, head_at, shelved, IsLook};
ghost use Rattle.cm_log.specs.Settled.{reader_shelf, reader_place, rest_of, IsReading, Rests};

use crate::faults::LogFault;
use crate::head::{Choice, Head, choose, read_head};
use crate::position::{Block, LogReader};
use crate::shelf::{Shelf, Side, log_at, ready_at};
use cm_base::Place;
use cm_disk::{Disk, DiskFault};

impl LogReader {
    /// Finds the live log of a shelf, once its three places are durable. It reads the two heads. `NoLibrary` exactly
    /// where `ready` is absent, `Unreadable` exactly where no live log of a known form can be told, `Disk` only where
    /// the disk failed.
    pub fn open<D: Disk>(disk: &mut D, shelf: Shelf) -> Result<LogReader, LogFault>
        ensures live { IfOk result (λ reader. ForSome (D.reads disk.old) (λ files. shelved shelf files ≡ Live (reader_place reader) (rest_of files reader))) }
        ensures shelf { IfOk result (λ reader. reader_shelf reader ≡ shelf) }
        ensures reading { IfOk result (λ reader. ForSome (D.reads disk.new) (λ files. IsReading files (D.may_leave disk.new) reader)) }
        ensures no_library { IsErrOf result LogFault.NoLibrary → ForSome (D.reads disk.old) (λ files. shelved shelf files ≡ NoLog) }
        ensures unreadable { (place : List ℕ) (at : ℕ) → IsErrOf result (LogFault.Unreadable place at) → ForSome (D.reads disk.old) (λ files. shelved shelf files ≡ Unread place at) }
        // Except after a fault of the disk a crash preserves the three places.
        ensures rests { result ≢ Err LogFault.Disk → ForSome (D.reads disk.new) (λ files. Rests shelf files (D.may_leave disk.new)) }
        ensures only { OnlyReads D.reads D.may_leave D.moment D.left_since D.faults disk.old disk.new }
        ensures cause { IsErrOf result LogFault.Disk → Rose (D.faults disk.old) (D.faults disk.new) }
    {
        sync_places(disk, shelf)?;
        match look(disk, shelf)? {
            Some(Choice::Chosen { side }) => Ok(LogReader {
                shelf,
                place: log_at(shelf, side),
                at: 10,
                number: 0,
                ended: false,
                block: Block::none(),
            }),
            Some(Choice::Refused { side, at }) => Err(LogFault::Unreadable {
                place: log_at(shelf, side),
                at,
            }),
            None => Err(LogFault::NoLibrary),
        }
    }
}

// The three places become durable.
fn sync_places<D: Disk>(disk: &mut D, shelf: Shelf) -> Result<(), DiskFault>
    ensures rests { OnOk result (ForSome (D.reads disk.new) (λ files. Rests shelf files (D.may_leave disk.new))) }
    ensures only { OnlyReads D.reads D.may_leave D.moment D.left_since D.faults disk.old disk.new }
    ensures cause { HasCause (D.faults disk.old) (D.faults disk.new) result }
{
    disk.sync(&ready_at(shelf))?;
    sync_logs(disk, shelf)?;
    Ok(())
}

/// Both logs become durable.
pub(crate) fn sync_logs<D: Disk>(disk: &mut D, shelf: Shelf) -> Result<(), DiskFault>
    ensures durable { OnOk result (ForSome (D.reads disk.old) (λ files. (side : LogSide) → Only (files (log_place shelf side)) (D.may_leave disk.new (log_place shelf side)))) }
    ensures only { OnlyReads D.reads D.may_leave D.moment D.left_since D.faults disk.old disk.new }
    ensures cause { HasCause (D.faults disk.old) (D.faults disk.new) result }
{
    let first = log_at(shelf, Side::First);
    let second = log_at(shelf, Side::Second);
    let is_first = disk.sync(&first);
    is_first?;
    disk.sync(&second)?;
    Ok(())
}

// Which log is live, None where there is no log.
fn look<D: Disk>(disk: &mut D, shelf: Shelf) -> Result<Option<Choice>, DiskFault>
    ensures value { IfOk result (λ found. ForSome (D.reads disk.old) (λ files. IsLook found shelf files)) }
    ensures only { OnlyReads D.reads D.may_leave D.moment D.left_since D.faults disk.old disk.new }
    ensures cause { HasCause (D.faults disk.old) (D.faults disk.new) result }
{
    if disk.size(&ready_at(shelf))?.is_none() {
        return Ok(None);
    }
    let live = log_at(shelf, Side::First);
    let other = log_at(shelf, Side::Second);
    let read = head_on(disk, &live);
    let first = read?;
    let second = head_on(disk, &other)?;
    Ok(Some(choose(&first, &second)))
}

// The head of a file.
fn head_on<D: Disk>(disk: &mut D, place: &Place) -> Result<Head, DiskFault>
    ensures value { IfOk result (λ head. ForSome (D.reads disk.old) (λ files. head ≡ head_at files place.now)) }
    ensures only { OnlyReads D.reads D.may_leave D.moment D.left_since D.faults disk.old disk.new }
    ensures cause { HasCause (D.faults disk.old) (D.faults disk.new) result }
{
    let mut bytes = [0u8; 10];
    let count = disk.read_at(place, 0, &mut bytes)?;
    Ok(read_head(&bytes[..count]))
}
