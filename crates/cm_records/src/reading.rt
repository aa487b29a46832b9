//! The records of a log are read, one note after another.
ghost use Rattle.std.specs.Prelude.{◌≡◌, ◌≤◌, ℕ, List, true, false, Some, None, Ok, Err, IfOk, OnOk, IsErrOf};
ghost use Rattle.std.specs.Option.{ForSome};
ghost use Rattle.cm_base.specs.Causes.{Rose};
ghost use Rattle.cm_disk.specs.Disk.{Only};
ghost use Rattle.cm_log.specs.Frames.{OnlyReads};
ghost use Rattle.cm_log.specs.Logs.{shelved};
ghost use Rattle.cm_log.specs.Settled.{reader_shelf, reader_place, has_ended, rest_of, IsReading};
ghost use Rattle.cm_log.specs.declared.shelf.Shelf.TheVariants.{Site};
ghost use Rattle.cm_notes.specs.Reading.{read_note};
ghost use Rattle.cm_notes.specs.declared.note.Note.TheVariants as note;
ghost use Rattle.cm_register.specs.AfterNote.{after_note};
ghost use Rattle.cm_register.specs.Look.{Unreadable, after_read, register_from, topology_named};
ghost use Rattle.cm_register.specs.Records.{no_records};
ghost use Rattle.cm_register.specs.Texts.{is_of};
ghost use Rattle.cm_textlib.specs.Places.{topology_place};
ghost use Rattle.cm_state.specs.Faults.{of_log_fault};
ghost use Rattle.cm_records.specs.Opening.{AreTextsSureOr};

use cm_base::{Hash, Place};
use cm_disk::Disk;
use cm_log::{LogFault, LogReader};
use cm_notes::Note;
use cm_register::Kept;
use cm_state::OpenFault;
use cm_textlib::{TextFault, load, text_at};
use cm_topo::{TopoFault, Topology, read_topology};
use std::alloc::Global;

/// Why records are not opened whose log is not read.
pub(crate) fn of_log(fault: LogFault) -> OpenFault
    ensures { result ≡ of_log_fault fault }
{
    match fault {
        LogFault::Disk => OpenFault::Disk,
        LogFault::NoLibrary => OpenFault::NoLibrary,
        LogFault::Unreadable { place, at } => OpenFault::Unreadable { place, at },
    }
}

// The topology of a record, once its text is durable. `Unreadable` names the place of the text, at 0, where that is absent, is not
// what the record names, or says no topology.
fn load_topology<D: Disk>(
    alloc: Global,
    disk: &mut D,
    number: u32,
    size: u32,
    hash: Hash,
) -> Result<Topology, OpenFault>
    ensures found { IfOk result (λ topology. ForSome (D.reads disk.old) (λ files. topology_named size hash (files (topology_place number)) ≡ Some topology)) }
    ensures unreadable { (q : List ℕ) (n : ℕ) → IsErrOf result (OpenFault.Unreadable q n) → ForSome (D.reads disk.old) (λ files. (q ≡ topology_place number) × (n ≡ 0) × (topology_named size hash (files (topology_place number)) ≡ None)) }
    ensures library { IsErrOf result OpenFault.NoLibrary → ⊥ }
    // A crash preserves the text.
    ensures durable { OnOk result (ForSome (D.reads disk.old) (λ files. Only (files (topology_place number)) (D.may_leave disk.new (topology_place number)))) }
    ensures only { OnlyReads D.reads D.may_leave D.moment D.left_since D.faults disk.old disk.new }
    ensures cause { IsErrOf result OpenFault.Disk → Rose (D.faults disk.old) (D.faults disk.new) }
{
    let place = text_at(number);
    match load(alloc, disk, number, size, hash) {
        Ok(Some(text)) => match read_topology(alloc, text.items()) {
            Ok(topology) => Ok(topology),
            Err(TopoFault::Memory) => Err(OpenFault::Memory),
            Err(TopoFault::NotToml) => Err(OpenFault::Unreadable { place, at: 0 }),
            Err(TopoFault::WrongShape { .. }) => Err(OpenFault::Unreadable { place, at: 0 }),
            Err(TopoFault::Rule { .. }) => Err(OpenFault::Unreadable { place, at: 0 }),
        },
        Ok(None) => Err(OpenFault::Unreadable { place, at: 0 }),
        Err(TextFault::Memory) => Err(OpenFault::Memory),
        Err(TextFault::Disk) => Err(OpenFault::Disk),
    }
}

// Takes what a record says whose gate stands at that place. `Unreadable` names the gate where the body is off the grammar or of a
// kind that is not written yet, and the text of a topology where that is wrong.
fn take_body<D: Disk>(
    alloc: Global,
    disk: &mut D,
    place: Place,
    at: u64,
    body: &[u8],
    kept: &mut Kept,
) -> Result<(), OpenFault>
    ensures taken { OnOk result (ForSome (D.reads disk.old) (λ files. after_read files (place, at) (read_note body.now) kept.old ≡ Ok kept.new)) }
    ensures unreadable { (q : List ℕ) (n : ℕ) → IsErrOf result (OpenFault.Unreadable q n) → ForSome (D.reads disk.old) (λ files. after_read files (place, at) (read_note body.now) kept.old ≡ Err (q, n)) }
    ensures library { IsErrOf result OpenFault.NoLibrary → ⊥ }
    ensures texts { OnOk result (ForSome (D.reads disk.old) (λ files. (number : ℕ) → is_of number (read_note body.now) ≡ true → Only (files (topology_place number)) (D.may_leave disk.new (topology_place number)))) }
    ensures only { OnlyReads D.reads D.may_leave D.moment D.left_since D.faults disk.old disk.new }
    ensures cause { IsErrOf result OpenFault.Disk → Rose (D.faults disk.old) (D.faults disk.new) }
{
    match Note::decode(body) {
        Some(
            Note::Topology {
                number,
                size,
                hash,
                ..
            },
        ) => match load_topology(alloc, disk, number, size, hash) {
            Ok(topology) => {
                kept.take(number, topology);
                Ok(())
            }
            Err(fault) => Err(fault),
        },
        Some(_) => Err(OpenFault::Unreadable { place, at }),
        None => Err(OpenFault::Unreadable { place, at }),
    }
}

// Takes the next record. False at the closed gate.
fn take_record<D: Disk>(
    alloc: Global,
    disk: &mut D,
    reader: &mut LogReader,
    buf: &mut [u8; 65536],
    kept: &mut Kept,
) -> Result<bool, OpenFault>
    requires { ForSome (D.reads disk.old) (λ files. IsReading files (D.may_leave disk.old) reader.old) }
    ensures reading { ForSome (D.reads disk.new) (λ files. IsReading files (D.may_leave disk.new) reader.new) }
    ensures goes_on { OnOk result (ForSome (D.reads disk.old) (λ files. register_from files (reader_place reader.old) (Ok kept.old) (rest_of files reader.old) ≡ register_from files (reader_place reader.old) (Ok kept.new) (rest_of files reader.new))) }
    ensures texts { OnOk result (ForSome (D.reads disk.old) (λ files. AreTextsSureOr files (D.may_leave disk.old) (rest_of files reader.old) → AreTextsSureOr files (D.may_leave disk.new) (rest_of files reader.new))) }
    ensures ended { result ≡ Ok false → has_ended reader.new ≡ true }
    ensures unreadable { (q : List ℕ) (n : ℕ) → IsErrOf result (OpenFault.Unreadable q n) → ForSome (D.reads disk.old) (λ files. register_from files (reader_place reader.old) (Ok kept.old) (rest_of files reader.old) ≡ Unreadable q n) }
    ensures library { IsErrOf result OpenFault.NoLibrary → ⊥ }
    ensures shelf { reader_shelf reader.new ≡ reader_shelf reader.old }
    ensures place { reader_place reader.new ≡ reader_place reader.old }
    ensures only { OnlyReads D.reads D.may_leave D.moment D.left_since D.faults disk.old disk.new }
    ensures cause { IsErrOf result OpenFault.Disk → Rose (D.faults disk.old) (D.faults disk.new) }
{
    let place = reader.place();
    let at = reader.at();
    match reader.next(disk, buf) {
        Ok(Some(count)) => match take_body(alloc, disk, place, at, &buf[..count], kept) {
            Ok(()) => Ok(true),
            Err(fault) => Err(fault),
        },
        Ok(None) => Ok(false),
        Err(fault) => Err(of_log(fault)),
    }
}

/// What all records make. `Unreadable` where the log ends inside a record, a record is wrong, or the text of a topology is,
/// whichever comes first.
pub(crate) fn read_kept<D: Disk>(
    alloc: Global,
    disk: &mut D,
    reader: &mut LogReader,
) -> Result<Kept, OpenFault>
    requires { ForSome (D.reads disk.old) (λ files. IsReading files (D.may_leave disk.old) reader.old) }
    ensures reading { ForSome (D.reads disk.new) (λ files. IsReading files (D.may_leave disk.new) reader.new) }
    ensures kept { IfOk result (λ kept. ForSome (D.reads disk.old) (λ files. register_from files (reader_place reader.old) (Ok no_records) (rest_of files reader.old) ≡ register_from files (reader_place reader.old) (Ok kept) (rest_of files reader.new))) }
    ensures texts { OnOk result (ForSome (D.reads disk.old) (λ files. AreTextsSureOr files (D.may_leave disk.old) (rest_of files reader.old) → AreTextsSureOr files (D.may_leave disk.new) (rest_of files reader.new))) }
    ensures ended { OnOk result (has_ended reader.new ≡ true) }
    ensures unreadable { (q : List ℕ) (n : ℕ) → IsErrOf result (OpenFault.Unreadable q n) → ForSome (D.reads disk.old) (λ files. register_from files (reader_place reader.old) (Ok no_records) (rest_of files reader.old) ≡ Unreadable q n) }
    ensures library { IsErrOf result OpenFault.NoLibrary → ⊥ }
    ensures shelf { reader_shelf reader.new ≡ reader_shelf reader.old }
    ensures place { reader_place reader.new ≡ reader_place reader.old }
    ensures only { OnlyReads D.reads D.may_leave D.moment D.left_since D.faults disk.old disk.new }
    ensures cause { IsErrOf result OpenFault.Disk → Rose (D.faults disk.old) (D.faults disk.new) }
{
    let mut kept = Kept::new();
    let mut buf = [0u8; 65536];
    for _record in 0..u64::MAX {
        match take_record(alloc, disk, reader, &mut buf, &mut kept) {
            Ok(true) => {}
            Ok(false) => return Ok(kept),
            Err(fault) => return Err(fault),
        }
    }
    // A log has fewer records than that.
    Err(OpenFault::Memory)
}
