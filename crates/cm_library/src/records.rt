//! The records of a library's log are read.
ghost use Rattle.std.specs.Prelude.{◌≡◌, ◌≤◌, ℕ, List, true, false, Some, None, Ok, IfOk, IfErr, OnOk, IsErrOf};
ghost use Rattle.std.specs.Option.{ForSome};
ghost use Rattle.cm_base.specs.Causes.{Rose};
ghost use Rattle.cm_log.specs.Frames.{OnlyReads};
ghost use Rattle.cm_log.specs.Settled.{reader_shelf, reader_place, has_ended, rest_of, IsReading};
ghost use Rattle.cm_pkglib.specs.Rows.{no_rows, fault_of, after};
ghost use Rattle.cm_state.specs.Sound.{AreFit, NamesVersion};
ghost use Rattle.cm_state.specs.Look.{Unreadable, rows_after_body, library_from};
ghost use Rattle.cm_state.specs.Faults.{of_log_fault};

use cm_disk::Disk;
use cm_log::{LogFault, LogReader};
use cm_pkglib::{Change, Rows};
use cm_state::OpenFault;
use std::alloc::Global;

// Makes a change that the rows take.
fn apply_change(rows: &mut Rows, change: &Change) -> Result<(), OpenFault>
    requires fit { AreFit rows.old.rows }
    requires names { NamesVersion change.now }
    requires free { fault_of rows.old.rows change.now ≡ None }
    ensures fit { AreFit rows.new.rows }
    ensures ok { OnOk result (rows.new.rows ≡ after change.now rows.old.rows) }
    ensures fault { IfErr result (λ fault. fault ≡ OpenFault.Memory) }
{
    // Its clause says that the rows are valid.
    let _rising = rows.versions();
    match rows.apply(change) {
        Ok(()) => Ok(()),
        Err(_) => Err(OpenFault::Memory),
    }
}

// Makes the change that a record says. False where it says none, or the rows refuse it.
fn take_body(rows: &mut Rows, body: &[u8]) -> Result<bool, OpenFault>
    requires { AreFit rows.old.rows }
    ensures fit { AreFit rows.new.rows }
    ensures taken { result ≡ Ok true → rows_after_body body.now rows.old.rows ≡ Some rows.new.rows }
    ensures refused { result ≡ Ok false → rows_after_body body.now rows.old.rows ≡ None }
    ensures fault { IfErr result (λ fault. fault ≡ OpenFault.Memory) }
{
    let change = match Change::decode(body) {
        Some(change) => change,
        None => return Ok(false),
    };
    match rows.check(&change) {
        Ok(()) => {}
        Err(_) => return Ok(false),
    }
    apply_change(rows, &change)?;
    Ok(true)
}

/// Why a library is not opened whose log is not read.
pub(crate) fn of_log(fault: LogFault) -> OpenFault
    ensures { result ≡ of_log_fault fault }
{
    match fault {
        LogFault::Disk => OpenFault::Disk,
        LogFault::NoLibrary => OpenFault::NoLibrary,
        LogFault::Unreadable { place, at } => OpenFault::Unreadable { place, at },
    }
}

// Takes the next record into the rows. False at the closed gate.
fn take_record<D: Disk>(
    disk: &mut D,
    reader: &mut LogReader,
    buf: &mut [u8; 65536],
    rows: &mut Rows,
) -> Result<bool, OpenFault>
    requires reading { ForSome (D.reads disk.old) (λ files. IsReading files (D.may_leave disk.old) reader.old) }
    requires fit { AreFit rows.old.rows }
    ensures reading { ForSome (D.reads disk.new) (λ files. IsReading files (D.may_leave disk.new) reader.new) }
    ensures fit { AreFit rows.new.rows }
    ensures goes_on { OnOk result (ForSome (D.reads disk.old) (λ files. library_from files (reader_place reader.old) (Ok rows.old.rows) (rest_of files reader.old) ≡ library_from files (reader_place reader.old) (Ok rows.new.rows) (rest_of files reader.new))) }
    ensures ended { result ≡ Ok false → has_ended reader.new ≡ true }
    ensures unreadable { (place : List ℕ) (at : ℕ) → IsErrOf result (OpenFault.Unreadable place at) → ForSome (D.reads disk.old) (λ files. library_from files (reader_place reader.old) (Ok rows.old.rows) (rest_of files reader.old) ≡ Unreadable place at) }
    ensures library { IsErrOf result OpenFault.NoLibrary → ⊥ }
    ensures shelf { reader_shelf reader.new ≡ reader_shelf reader.old }
    ensures place { reader_place reader.new ≡ reader_place reader.old }
    ensures only { OnlyReads D.reads D.may_leave D.moment D.left_since D.faults disk.old disk.new }
    ensures cause { IsErrOf result OpenFault.Disk → Rose (D.faults disk.old) (D.faults disk.new) }
{
    let place = reader.place();
    let gate = reader.at();
    match reader.next(disk, buf) {
        Ok(Some(count)) => match take_body(rows, &buf[..count]) {
            Ok(true) => Ok(true),
            Ok(false) => Err(OpenFault::Unreadable { place, at: gate }),
            Err(_) => Err(OpenFault::Memory),
        },
        Ok(None) => Ok(false),
        Err(fault) => Err(of_log(fault)),
    }
}

/// The rows that all records make. `Unreadable` where the log ends inside a record, or a record is off the grammar or refused
/// by the rows, whichever comes first.
pub(crate) fn read_rows<D: Disk>(
    alloc: Global,
    disk: &mut D,
    reader: &mut LogReader,
) -> Result<Rows, OpenFault>
    requires { ForSome (D.reads disk.old) (λ files. IsReading files (D.may_leave disk.old) reader.old) }
    ensures reading { ForSome (D.reads disk.new) (λ files. IsReading files (D.may_leave disk.new) reader.new) }
    ensures fit { IfOk result (λ rows. AreFit rows.rows) }
    ensures rows { IfOk result (λ rows. ForSome (D.reads disk.old) (λ files. library_from files (reader_place reader.old) (Ok no_rows) (rest_of files reader.old) ≡ library_from files (reader_place reader.old) (Ok rows.rows) (rest_of files reader.new))) }
    ensures ended { OnOk result (has_ended reader.new ≡ true) }
    ensures unreadable { (place : List ℕ) (at : ℕ) → IsErrOf result (OpenFault.Unreadable place at) → ForSome (D.reads disk.old) (λ files. library_from files (reader_place reader.old) (Ok no_rows) (rest_of files reader.old) ≡ Unreadable place at) }
    ensures library { IsErrOf result OpenFault.NoLibrary → ⊥ }
    ensures shelf { reader_shelf reader.new ≡ reader_shelf reader.old }
    ensures place { reader_place reader.new ≡ reader_place reader.old }
    ensures only { OnlyReads D.reads D.may_leave D.moment D.left_since D.faults disk.old disk.new }
    ensures cause { IsErrOf result OpenFault.Disk → Rose (D.faults disk.old) (D.faults disk.new) }
{
    let mut rows = Rows::new(alloc);
    let mut buf = [0u8; 65536];
    for _record in 0..u64::MAX {
        match take_record(disk, reader, &mut buf, &mut rows) {
            Ok(true) => {}
            Ok(false) => return Ok(rows),
            Err(fault) => return Err(fault),
        }
    }
    // A log has fewer records than that.
    Err(OpenFault::Memory)
}
