//! Records are read one after another.
ghost use Rattle.std.specs.Prelude.{◌≡◌, ◌≤◌, List, ℕ, [], ◌∷◌, true, take, IfOk, IsErrOf, OnErr, IfSome, IfNone};
ghost use Rattle.std.specs.Option.{ForSome};
ghost use Rattle.cm_base.specs.Causes.{Rose};
ghost use Rattle.cm_disk.specs.Disk.{Files};
ghost use Rattle.cm_log.specs.Frames.{OnlyReads};
ghost use Rattle.cm_log.specs.Logs.{Closed, Broken, ended, following};
ghost use Rattle.cm_log.specs.Outcomes.{IsWhere};
ghost use Rattle.cm_log.specs.Settled.{reader_shelf, reader_place, reader_at, has_ended, rest_of, shelf_of, place_of, end_of, is_settled, IsAt, IsReading, EndsIn};

use crate::faults::LogFault;
use crate::position::LogReader;
use crate::prefix::{Prefix, read_prefix};
use crate::state::Log;
use cm_base::Place;
use cm_disk::Disk;

impl LogReader {
    /// The place of the log's file.
    pub fn place(&self) -> Place
        ensures { result ≡ reader_place self.now }
    {
        self.place
    }

    /// The place of the gate of the record that comes next.
    pub fn at(&self) -> u64
        ensures { result ≡ reader_at self.now }
    {
        self.at
    }

    /// The next record's body, at the front of the buffer: how many bytes it has. None at the closed gate, where it
    /// stays. `Unreadable` exactly where the file ends or has a length above 65,536 there.
    pub fn next<D: Disk>(
        &mut self,
        disk: &mut D,
        buf: &mut [u8; 65536],
    ) -> Result<Option<usize>, LogFault>
        requires reading { ForSome (D.reads disk.old) (λ files. IsReading files (D.may_leave disk.old) self.old) }
        ensures reading { ForSome (D.reads disk.new) (λ files. IsReading files (D.may_leave disk.new) self.new) }
        ensures some { IfOk result (λ found. IfSome found (λ count. (count ≤ 65536) × ForSome (D.reads disk.old) (λ files. rest_of files self.old ≡ following (record { gate = reader_at self.old; body = take count buf.new } ∷ []) (rest_of files self.new)))) }
        ensures none { IfOk result (λ found. IfNone found (ForSome (D.reads disk.old) (λ files. rest_of files self.old ≡ ended (Closed (reader_at self.old))))) }
        ensures ended { IfOk result (λ found. IfNone found (has_ended self.new ≡ true)) }
        ensures unreadable { (place : List ℕ) (at : ℕ) → IsErrOf result (LogFault.Unreadable place at) → (place ≡ reader_place self.old) × ForSome (D.reads disk.old) (λ files. rest_of files self.old ≡ ended (Broken at)) }
        ensures library { IsErrOf result LogFault.NoLibrary → ⊥ }
        // After a fault the reader is where it was.
        ensures stays { OnErr result (IsWhere self.old self.new) }
        ensures shelf { reader_shelf self.new ≡ reader_shelf self.old }
        ensures place { reader_place self.new ≡ reader_place self.old }
        ensures only { OnlyReads D.reads D.may_leave D.moment D.left_since D.faults disk.old disk.new }
        ensures cause { IsErrOf result LogFault.Disk → Rose (D.faults disk.old) (D.faults disk.new) }
    {
        let place = self.place;
        let mut start = [0u8; 5];
        let count = self.block.read_at(disk, &place, self.at, &mut start)?;
        match read_prefix(&start[..count]) {
            Prefix::Shut => {
                self.ended = true;
                Ok(None)
            }
            Prefix::Cut => Err(LogFault::Unreadable {
                place,
                at: self.at + count as u64,
            }),
            Prefix::TooLong => Err(LogFault::Unreadable {
                place,
                at: self.at + 1,
            }),
            Prefix::Body { len } => {
                let len = len as usize;
                let count = self
                    .block
                    .read_at(disk, &place, self.at + 5, &mut buf[..len])?;
                if count < len {
                    return Err(LogFault::Unreadable {
                        place,
                        at: self.at + 5 + count as u64,
                    });
                }
                self.at = self.at + 5 + len as u64;
                self.number = self.number + 1;
                Ok(Some(len))
            }
        }
    }

    /// The log, once `next` has answered None.
    pub fn done(self) -> Log
        requires { has_ended self ≡ true }
        ensures ends { (files : Files) → IsAt files self → EndsIn files result }
        ensures idle { is_settled result ≡ true }
        ensures shelf { shelf_of result ≡ reader_shelf self }
        ensures place { place_of result ≡ reader_place self }
        ensures end { end_of result ≡ reader_at self }
    {
        Log {
            shelf: self.shelf,
            place: self.place,
            end: self.at,
            end_with: self.at,
            number: self.number,
        }
    }
}
