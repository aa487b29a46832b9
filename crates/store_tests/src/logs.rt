//! A log on a disk in memory: its bytes, its refusals, and what a stop at each device call leaves.
ghost use Rattle.std.specs.Prelude.{◌≡◌, true, IfOk};
ghost use Rattle.std.specs.Option.{ForSome};
ghost use Rattle.cm_log.specs.Settled.{is_settled, IsSettled};

use cm_base::Place;
use cm_disk::{Disk, MemDisk};
use cm_log::{AppendFault, CreateFault, Log, LogFault, LogReader, Shelf, create};
use std::alloc::Global;
use std::test::Fail;

// One of the two logs of a shelf.
#[derive(Clone, Copy)]
enum Side {
    First,
    Second,
}

fn ready_at(shelf: Shelf) -> Place {
    let place = match shelf {
        Shelf::PkgLib => Place::read(b"PkgLib/ready"),
        Shelf::Site => Place::read(b"Site/ready"),
    };
    match place {
        Some(place) => place,
        None => unreachable!(),
    }
}

fn log_at(shelf: Shelf, side: Side) -> Place {
    let place = match (shelf, side) {
        (Shelf::PkgLib, Side::First) => Place::read(b"PkgLib/log.0"),
        (Shelf::PkgLib, Side::Second) => Place::read(b"PkgLib/log.1"),
        (Shelf::Site, Side::First) => Place::read(b"Site/log.0"),
        (Shelf::Site, Side::Second) => Place::read(b"Site/log.1"),
    };
    match place {
        Some(place) => place,
        None => unreachable!(),
    }
}

// The log behind all its records.
fn last<D: Disk>(disk: &mut D, shelf: Shelf) -> Result<Log, LogFault>
    ensures idle { IfOk result (λ log. is_settled log ≡ true) }
    ensures settled { IfOk result (λ log. ForSome (D.reads disk.new) (λ files. IsSettled files (D.may_leave disk.new) log)) }
{
    let mut buf = [0u8; 65536];
    let mut reader = LogReader::open(disk, shelf)?;
    for _ in 0..20_000 {
        match reader.next(disk, &mut buf) {
            Ok(Some(_)) => {}
            Ok(None) => return Ok(reader.done()),
            Err(fault) => return Err(fault),
        }
    }
    Err(LogFault::Disk)
}

// How many records there are, each of which is the next of these.
fn records<D: Disk>(disk: &mut D, shelf: Shelf, bodies: &[&[u8]]) -> Result<usize, LogFault> {
    let mut buf = [0u8; 65536];
    let mut reader = LogReader::open(disk, shelf)?;
    let mut count = 0;
    for body in bodies {
        match reader.next(disk, &mut buf)? {
            Some(len) if len <= 65536 && &buf[..len] == *body => count += 1,
            Some(_) => return Err(LogFault::Disk),
            None => return Ok(count),
        }
    }
    match reader.next(disk, &mut buf)? {
        Some(_) => Err(LogFault::Disk),
        None => Ok(count),
    }
}

fn add<D: Disk>(disk: &mut D, shelf: Shelf, body: &[u8]) -> Option<Result<u64, AppendFault>> {
    match last(disk, shelf) {
        Ok(mut log) => Some(log.append(disk, body)),
        Err(_) => None,
    }
}

fn holds<D: Disk>(disk: &mut D, place: &Place, bytes: &[u8]) -> bool {
    let mut buf = [0u8; 64];
    let Ok(count) = disk.read_at(place, 0, &mut buf) else {
        return false;
    };
    &buf[..count] == bytes
}

#[test]
fn bytes_of_a_log(rt: HostRuntime) -> Result<(), Fail> {
    for shelf in [Shelf::PkgLib, Shelf::Site] {
        let mut disk = MemDisk::new(rt.alloc(), Vec::new(rt.alloc()))?;
        assert!(rt; records(&mut disk, shelf, &[]) == Err(LogFault::NoLibrary));
        assert_eq!(rt; create(&mut disk, shelf), Ok(()));
        assert_eq!(rt; create(&mut disk, shelf), Err(CreateFault::AlreadyThere));
        assert!(rt; holds(&mut disk, &ready_at(shelf), b""));
        assert!(rt;
            holds(
                &mut disk,
                &log_at(shelf, Side::First),
                b"\x01\x01\x01\0\0\0\0\0\0\0\0"
            )
        );
        assert!(rt;
            holds(
                &mut disk,
                &log_at(shelf, Side::Second),
                b"\0\x01\0\0\0\0\0\0\0\0\0"
            )
        );
        assert_eq!(rt; add(&mut disk, shelf, b"abc"), Some(Ok(0)));
        assert_eq!(rt; add(&mut disk, shelf, b""), Some(Ok(1)));
        assert!(rt;
            holds(
                &mut disk,
                &log_at(shelf, Side::First),
                b"\x01\x01\x01\0\0\0\0\0\0\0\x01\x03\0\0\0abc\x01\0\0\0\0\0",
            )
        );
        assert!(rt; records(&mut disk, shelf, &[b"abc", b""]) == Ok(2));
    }
    Ok(())
}

#[test]
fn long_bodies(rt: HostRuntime) -> Result<(), Fail> {
    let bytes = [7u8; 65537];
    let mut disk = MemDisk::new(rt.alloc(), Vec::new(rt.alloc()))?;
    assert_eq!(rt; create(&mut disk, Shelf::PkgLib), Ok(()));
    assert_eq!(rt;
        add(&mut disk, Shelf::PkgLib, &bytes),
        Some(Err(AppendFault::TooLong { len: 65537 }))
    );
    assert_eq!(rt; add(&mut disk, Shelf::PkgLib, &bytes[..65536]), Some(Ok(0)));
    assert_eq!(rt; add(&mut disk, Shelf::PkgLib, b""), Some(Ok(1)));
    assert!(rt; records(&mut disk, Shelf::PkgLib, &[&bytes[..65536], b""]) == Ok(2));
    Ok(())
}

fn lay<D: Disk>(disk: &mut D, place: &Place, bytes: Option<&[u8]>) -> bool {
    match bytes {
        Some(bytes) if bytes.len() < 1000 => disk.write_at(place, 0, bytes).is_ok(),
        _ => true,
    }
}

fn lay_behind<D: Disk>(disk: &mut D, place: &Place, bytes: &[u8]) -> bool {
    match disk.size(place) {
        Ok(Some(at)) if at < 1_000_000 && bytes.len() < 10_000 => {
            disk.write_at(place, at, bytes).is_ok()
        }
        _ => false,
    }
}

const HEAD: &[u8] = b"\x01\x01\x01\0\0\0\0\0\0\0";

const LIVE: &[u8] = b"\x01\x01\x01\0\0\0\0\0\0\0\0";

const IDLE: &[u8] = b"\0\x01\0\0\0\0\0\0\0\0\0";

// The two logs of a shelf that has `ready`, and how many records it has, or the side and the place that are unreadable.
type Laid = (
    Option<&'static [u8]>,
    Option<&'static [u8]>,
    Result<usize, (Side, u64)>,
);

// Absent, empty or cut short, neither live, both live of one generation, a live log of an unknown form; and two logs of
// which only the live one of the greater generation counts.
const HEADS: [Laid; 16] = [
    (None, Some(IDLE), Err((Side::First, 0))),
    (Some(b""), Some(IDLE), Err((Side::First, 0))),
    (Some(LIVE), None, Err((Side::Second, 0))),
    (Some(LIVE), Some(b""), Err((Side::Second, 0))),
    (None, None, Err((Side::First, 0))),
    (Some(IDLE), Some(IDLE), Err((Side::First, 0))),
    (Some(b"\x02"), Some(b"\x02"), Err((Side::First, 0))),
    (Some(LIVE), Some(LIVE), Err((Side::First, 0))),
    (
        Some(b"\x01\x02\x01\0\0\0\0\0\0\0\0"),
        Some(IDLE),
        Err((Side::First, 1)),
    ),
    (Some(b"\x01"), Some(IDLE), Err((Side::First, 1))),
    (Some(b"\x01\x01\x01"), Some(IDLE), Err((Side::First, 3))),
    (
        Some(IDLE),
        Some(b"\x01\x03\0\0\0\0\0\0\0\0\0"),
        Err((Side::Second, 1)),
    ),
    (
        Some(LIVE),
        Some(b"\x01\x02\x02\0\0\0\0\0\0\0\0"),
        Err((Side::Second, 1)),
    ),
    (Some(LIVE), Some(b"\0\xff"), Ok(0)),
    (
        Some(b"\x01\x01\x02\0\0\0\0\0\0\0\0"),
        Some(b"\x01\x09\x01"),
        Ok(0),
    ),
    (
        Some(LIVE),
        Some(b"\x01\x01\0\x01\0\0\0\0\0\0\x01\x01\0\0\0a\xff"),
        Ok(1),
    ),
];

// What stands behind the head of a live log, and how many records it has, or the place that is unreadable: no gate, the
// length or the body cut short, a length above 65,536. Bytes behind a closed gate mean nothing.
const RECORDS: [(&[u8], Result<usize, u64>); 9] = [
    (b"", Err(10)),
    (b"\x01", Err(11)),
    (b"\x01\0\0\0", Err(14)),
    (b"\x01\x02\0\0\0a", Err(16)),
    (b"\x01\x01\0\0\0a", Err(16)),
    (b"\x01\x01\0\x01\0", Err(11)),
    (b"\x01\x01\0\0\0a\x01\0\0\0\x01", Err(17)),
    (b"\x02\x01\x01", Ok(0)),
    (b"\x01\x01\0\0\0a\x02\x01\0\0\0\0", Ok(1)),
];

// Whether a shelf with these two logs, of which the first goes on behind, is read so.
fn reads_as(alloc: Global, laid: Laid, behind: &[u8]) -> Result<bool, Fail> {
    let (first, second, expected) = laid;
    let shelf = Shelf::PkgLib;
    let mut disk = MemDisk::new(alloc, Vec::new(alloc))?;
    let all = lay(&mut disk, &ready_at(shelf), Some(b"anything"))
        && lay(&mut disk, &log_at(shelf, Side::First), first)
        && lay(&mut disk, &log_at(shelf, Side::Second), second)
        && (behind.is_empty() || lay_behind(&mut disk, &log_at(shelf, Side::First), behind));
    let found = records(&mut disk, shelf, &[b"a", b"b"]);
    Ok(
        all && match expected {
            Ok(count) => found == Ok(count),
            Err((side, at)) => {
                let place = log_at(shelf, side);
                found == Err(LogFault::Unreadable { place, at })
            }
        },
    )
}

#[test]
fn laid_logs(rt: HostRuntime) -> Result<(), Fail> {
    for (row, laid) in HEADS.iter().enumerate() {
        assert!(rt; reads_as(rt.alloc(), *laid, b"")?, "head {row}");
    }
    for (row, (behind, expected)) in RECORDS.iter().enumerate() {
        let expected = match expected {
            Ok(count) => Ok(*count),
            Err(at) => Err((Side::First, *at)),
        };
        let laid = (Some(HEAD), Some(IDLE), expected);
        assert!(rt; reads_as(rt.alloc(), laid, behind)?, "record {row}");
    }
    Ok(())
}

// How far a log came: 1 where it was made, and one more for each record that was acknowledged.
fn grow<D: Disk>(disk: &mut D, shelf: Shelf, bodies: &[&[u8]]) -> usize {
    if create(disk, shelf).is_err() {
        return 0;
    }
    let mut done: usize = 1;
    for body in bodies {
        match add(disk, shelf, body) {
            Some(Ok(_)) => done = done.saturating_add(1),
            _ => return done,
        }
    }
    done
}

// Whether a stop now leaves as many records as were acknowledged, or one more; and no library only where none was made.
fn leaves_all(disk: &MemDisk, shelf: Shelf, bodies: &[&[u8]], done: usize) -> Result<bool, Fail> {
    for pick in [0u8, 1, 2] {
        let mut image = disk.crash(pick)?;
        let good = match records(&mut image, shelf, bodies) {
            Ok(count) => count == done.saturating_sub(1) || count == done,
            Err(LogFault::NoLibrary) => done == 0,
            Err(_) => false,
        };
        if !good {
            return Ok(false);
        }
    }
    Ok(true)
}

#[test]
fn a_stop_at_each_call(rt: HostRuntime) -> Result<(), Fail> {
    let shelf = Shelf::PkgLib;
    let bodies = [b"first".as_slice(), b"", b"the third"];
    let mut calls = 0;
    // Until a run meets no failing call.
    for at in 0..1000 {
        let mut disk = MemDisk::stopping(rt.alloc(), at)?;
        let done = grow(&mut disk, shelf, &bodies);
        assert!(rt; leaves_all(&disk, shelf, &bodies, done)?, "stopped at {at}");
        calls = at;
        if done == 4 {
            break;
        }
    }
    // 11 calls make the log; then each record takes 6 to open, 1 to read the closed gate, 1 for what stands before it, and 4.
    assert_eq!(rt; calls, 11 + 11 + 12 + 12);
    Ok(())
}

// Lays 100 times 100 records of 61 bytes behind the head of a log, and a closed gate.
fn lay_many<D: Disk>(disk: &mut D, place: &Place) -> bool {
    let mut hundred = [7u8; 6600];
    for i in 0..100usize {
        hundred[66 * i..66 * i + 5].copy_from_slice(b"\x01\x3d\0\0\0");
    }
    for _ in 0..100 {
        if !lay_behind(disk, place, &hundred) {
            return false;
        }
    }
    lay_behind(disk, place, &[0])
}

#[test]
fn many_records(rt: HostRuntime) -> Result<(), Fail> {
    let shelf = Shelf::PkgLib;
    let first = log_at(shelf, Side::First);
    // 205 calls lay the log; the 100th one after them fails.
    let mut disk = MemDisk::stopping(rt.alloc(), 205 + 99)?;
    assert!(rt; lay(&mut disk, &first, Some(HEAD)) && lay_many(&mut disk, &first));
    assert!(rt; lay(&mut disk, &log_at(shelf, Side::Second), Some(IDLE)));
    assert!(rt; lay(&mut disk, &ready_at(shelf), Some(b"")));
    match last(&mut disk, shelf) {
        Ok(log) => assert_eq!(rt; log.end(), 660_010),
        Err(_) => assert!(rt; false, "a log of many records"),
    }
    Ok(())
}

// Whether a record was acknowledged, and whether it is there.
fn add_and_settle<D: Disk>(disk: &mut D, shelf: Shelf, body: &[u8]) -> Option<(bool, bool)> {
    let Ok(mut log) = last(disk, shelf) else {
        return None;
    };
    match log.append(disk, body) {
        Ok(_) => Some((true, true)),
        Err(AppendFault::Disk) => match log.settle(disk) {
            Ok(there) => Some((false, there)),
            Err(_) => None,
        },
        Err(_) => None,
    }
}

#[test]
fn a_failed_append_is_settled(rt: HostRuntime) -> Result<(), Fail> {
    let shelf = Shelf::Site;
    // The calls of an append come behind 11 of `create` and 7 that open the log.
    for (at, there) in [(18, false), (19, false), (20, false), (21, true)] {
        let mut fail = Vec::new(rt.alloc());
        fail.push(at)?;
        let mut disk = MemDisk::new(rt.alloc(), fail)?;
        assert_eq!(rt; create(&mut disk, shelf), Ok(()));
        assert_eq!(rt;
            add_and_settle(&mut disk, shelf, b"body"),
            Some((false, there)),
            "at {at}"
        );
        let count = if there { 1 } else { 0 };
        assert!(rt; records(&mut disk, shelf, &[b"body"]) == Ok(count));
        assert!(rt; records(&mut disk.crash(0)?, shelf, &[b"body"]) == Ok(count));
        assert!(rt; records(&mut disk.crash(2)?, shelf, &[b"body"]) == Ok(count));
    }
    Ok(())
}

#[test]
fn reads_after_a_failed_create(rt: HostRuntime) -> Result<(), Fail> {
    let shelf = Shelf::Site;
    let mut calls = 0;
    // Until a run meets no failing call.
    for at in 0..1000 {
        let mut fail = Vec::new(rt.alloc());
        fail.push(at)?;
        let mut disk = MemDisk::new(rt.alloc(), fail)?;
        let made = create(&mut disk, shelf);
        calls = at;
        if made == Ok(()) {
            break;
        }
        assert_eq!(rt; made, Err(CreateFault::Disk), "at {at}");
        // No log until `ready` is made, and then a whole new one.
        let found = records(&mut disk, shelf, &[]);
        if at < 9 {
            assert!(rt; found == Err(LogFault::NoLibrary), "at {at}");
        } else {
            assert!(rt; found == Ok(0), "at {at}");
        }
    }
    assert_eq!(rt; calls, 11);
    Ok(())
}

#[test]
fn reads_after_a_failed_create_beside_a_log(rt: HostRuntime) -> Result<(), Fail> {
    let shelf = Shelf::Site;
    let mut calls = 0;
    for at in 0..1000 {
        // 11 calls make the log, and 11 add a record.
        let mut fail = Vec::new(rt.alloc());
        fail.push(22 + at)?;
        let mut disk = MemDisk::new(rt.alloc(), fail)?;
        assert_eq!(rt; create(&mut disk, shelf), Ok(()));
        assert_eq!(rt; add(&mut disk, shelf, b"body"), Some(Ok(0)));
        let again = create(&mut disk, shelf);
        calls = at;
        if again == Err(CreateFault::AlreadyThere) {
            break;
        }
        assert_eq!(rt; again, Err(CreateFault::Disk), "at {at}");
        assert!(rt; records(&mut disk, shelf, &[b"body"]) == Ok(1), "at {at}");
    }
    assert_eq!(rt; calls, 4);
    Ok(())
}

#[test]
fn a_second_create(rt: HostRuntime) -> Result<(), Fail> {
    let shelf = Shelf::PkgLib;
    // The first one fails as it makes `ready`, cuts it or syncs it; the second one stops at each of its calls.
    for first in 8..11 {
        for at in first + 1..first + 13 {
            let mut fail = Vec::new(rt.alloc());
            fail.push(first)?;
            for later in at..40 {
                fail.push(later)?;
            }
            let mut disk = MemDisk::new(rt.alloc(), fail)?;
            assert_eq!(rt; create(&mut disk, shelf), Err(CreateFault::Disk));
            let again = create(&mut disk, shelf);
            let done = if again == Err(CreateFault::Disk) {
                0
            } else {
                1
            };
            assert!(rt; leaves_all(&disk, shelf, &[], done)?, "{first} and {at}");
        }
    }
    Ok(())
}
