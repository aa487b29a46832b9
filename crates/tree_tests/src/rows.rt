//! The worked example of a library's rows, and records of one wrong byte.
ghost use Rattle.std.specs.Prelude.{◌<◌};

use cm_base::{Hash, JobId, Memory, PackageId, Version};
use cm_pkglib::{Change, Counts, PkgRow, RowFault, Rows, Seal};
use cm_tree::Manifest;
use std::alloc::Global;
use std::test::Fail;

// Opened(1, PS100001, 1, 3 entries, 140 bytes) with a hash of 32 times 0xab.
const OPENED: [u8; 61] = [
    1, 1, 0, 0, 0, 0, 0, 0, 0, 0x50, 0x53, 0x31, 0x30, 0x30, 0x30, 0x30, 0x31, 1, 0, 0, 0, 3, 0, 0,
    0, 0x8c, 0, 0, 0, 0xab, 0xab, 0xab, 0xab, 0xab, 0xab, 0xab, 0xab, 0xab, 0xab, 0xab, 0xab, 0xab,
    0xab, 0xab, 0xab, 0xab, 0xab, 0xab, 0xab, 0xab, 0xab, 0xab, 0xab, 0xab, 0xab, 0xab, 0xab, 0xab,
    0xab, 0xab, 0xab,
];

const DONE: [u8; 9] = [2, 7, 1, 0, 0, 0, 0, 0, 0];

const DROPPED: [u8; 9] = [3, 255, 255, 255, 255, 255, 255, 255, 255];

const REMOVED: [u8; 13] = [
    4, 0x50, 0x53, 0x31, 0x30, 0x30, 0x30, 0x30, 0x31, 0, 0, 0, 0x80,
];

// The bytes are no record.
#[derive(Clone, Copy)]
struct Off<'a> {
    record: &'a [u8],
    at: usize,
    byte: u8,
}

// A record with one byte changed is none, or, at its end, with one byte more.
fn is_off(off: Off) -> bool {
    let mut bytes = [0; 64];
    let len = off.record.len().max(off.at.saturating_add(1));
    if len > bytes.len() || off.at >= len {
        return false;
    }
    bytes[..off.record.len()].copy_from_slice(off.record);
    bytes[off.at] = off.byte;
    Change::decode(&bytes[..len]).is_none()
}

// A record without its last byte is none.
fn is_cut_off(record: &[u8]) -> bool {
    !record.is_empty() && Change::decode(&record[..record.len() - 1]).is_none()
}

// A record is read, and written again as the same bytes.
fn comes_back(record: &[u8]) -> bool {
    match Change::decode(record) {
        Some(change) => is_written(&change, record),
        None => false,
    }
}

fn is_written(change: &Change, record: &[u8]) -> bool {
    let mut out = [0; 61];
    let len = change.encode(&mut out);
    &out[..len] == record
}

fn is_first(change: &Change) -> bool {
    match change {
        Change::Opened {
            job,
            package,
            version,
            entries,
            size,
            hash,
        } => {
            job.number() == 1
                && package.as_bytes() == b"PS100001".as_slice()
                && version.number() == 1
                && *entries == 3
                && *size == 140
                && hash.0 == [0xab; 32]
        }
        _ => false,
    }
}

#[test]
fn records(rt: HostRuntime) -> Result<(), Fail> {
    let first = Change::decode(&OPENED).ok_or("no opening")?;
    assert!(rt; is_first(&first));
    let lines = [
        (Line::Open(1, b'1', 1, 3), OPENED.as_slice()),
        (Line::Done(263), DONE.as_slice()),
        (Line::Drop(u64::MAX), DROPPED.as_slice()),
        (Line::Remove(b'1', 0x8000_0000), REMOVED.as_slice()),
    ];
    for (line, record) in lines.iter() {
        assert!(rt; is_written(&change_of(*line)?, *record));
        assert!(rt; comes_back(*record));
        assert!(rt; is_cut_off(*record));
        let more = Off {
            record: *record,
            at: record.len(),
            byte: 0,
        };
        assert!(rt; is_off(more));
    }
    assert!(rt; Change::decode(&[]).is_none(), "no byte");
    Ok(())
}

#[test]
fn one_wrong_byte(rt: HostRuntime) {
    let opened = OPENED.as_slice();
    let done = DONE.as_slice();
    let removed = REMOVED.as_slice();
    let first = [1, 1, 0, 0, 0, 0, 0, 0, 0];
    let lines = [
        // kinds
        (opened, 0, 0),
        (opened, 0, 5),
        (opened, 0, 2),
        (done, 0, 0),
        (done, 0, 5),
        // the job 0
        (opened, 1, 0),
        // a lower-case letter of the id, and no hexadecimal digit
        (opened, 9, b'p'),
        (opened, 12, b'G'),
        (removed, 8, b'a'),
        // the version 0
        (opened, 17, 0),
        (removed, 12, 0),
    ];
    for (record, at, byte) in lines.iter() {
        let off = Off {
            record: *record,
            at: *at,
            byte: *byte,
        };
        assert!(rt; is_off(off));
    }
    for kind in [2, 3] {
        let mut bytes = first;
        bytes[0] = kind;
        assert!(rt; Change::decode(&bytes).is_some());
        bytes[1] = 0;
        assert!(rt; Change::decode(&bytes).is_none(), "job 0");
    }
}

fn job_of(number: u64) -> Result<JobId, Fail> {
    match JobId::new(number) {
        Some(job) => Ok(job),
        None => Err(Fail::new("no job")),
    }
}

fn package_of(text: &[u8]) -> Result<PackageId, Fail> {
    match PackageId::read(text) {
        Some(package) => Ok(package),
        None => Err(Fail::new("no package")),
    }
}

fn version_of(number: u32) -> Result<Version, Fail> {
    match Version::new(number) {
        Some(version) => Ok(version),
        None => Err(Fail::new("no version")),
    }
}

// A change in plain numbers: the job, the package's last digit, the version, the entries.
#[derive(Clone, Copy)]
enum Line {
    Open(u64, u8, u32, u32),
    Done(u64),
    Drop(u64),
    Remove(u8, u32),
}

fn package_at(digit: u8) -> Result<PackageId, Fail> {
    package_of(&[b'P', b'S', b'1', b'0', b'0', b'0', b'0', digit])
}

fn change_of(line: Line) -> Result<Change, Fail> {
    Ok(match line {
        Line::Open(job, digit, version, entries) => Change::Opened {
            job: job_of(job)?,
            package: package_at(digit)?,
            version: version_of(version)?,
            entries,
            size: 140,
            hash: Hash([0xab; 32]),
        },
        Line::Done(job) => Change::Done { job: job_of(job)? },
        Line::Drop(job) => Change::Dropped { job: job_of(job)? },
        Line::Remove(digit, version) => Change::Removed {
            package: package_at(digit)?,
            version: version_of(version)?,
        },
    })
}

// The cause for which the rows refuse the change; where there is none, room is made and then the change.
fn step(rows: &mut Rows, change: &Change) -> Result<Option<RowFault>, Memory> {
    match rows.check(change) {
        Err(fault) => Ok(Some(fault)),
        Ok(()) => {
            rows.make_room(change)?;
            rows.apply(change)?;
            Ok(None)
        }
    }
}

// The first line, from 0, whose answer is another than the one beside it; the number of lines where there is none.
fn first_other(rows: &mut Rows, lines: &[(Line, Option<RowFault>)]) -> Result<usize, Fail> {
    for (at, (line, wanted)) in lines.iter().enumerate() {
        let change = change_of(*line)?;
        if step(rows, &change)? != *wanted {
            return Ok(at);
        }
    }
    Ok(lines.len())
}

fn is_row(row: Option<&PkgRow>, digit: u8, version: u32) -> bool {
    match row {
        Some(row) => {
            row.package.as_bytes() == [b'P', b'S', b'1', b'0', b'0', b'0', b'0', digit].as_slice()
                && row.version.number() == version
        }
        None => false,
    }
}

#[test]
fn rows_take_changes(rt: HostRuntime) -> Result<(), Fail> {
    let mut rows = Rows::new(rt.alloc());
    let lines = [
        (Line::Open(1, b'1', 1, 3), None),
        (Line::Done(1), None),
        (Line::Open(2, b'3', 1, 4), None),
        (Line::Drop(2), None),
    ];
    assert_eq!(rt; first_other(&mut rows, &lines)?, 4);
    assert_eq!(rt; rows.entries(), 3);
    assert_eq!(rt; rows.versions().len(), 1);
    assert!(rt; is_row(rows.versions().get(0), b'1', 1));
    let lines = [(Line::Remove(b'1', 1), None)];
    assert_eq!(rt; first_other(&mut rows, &lines)?, 1);
    assert_eq!(rt; rows.versions().len(), 0);
    assert_eq!(rt; rows.jobs().len(), 0);
    assert_eq!(rt; rows.next().number(), 3);
    assert_eq!(rt; rows.lasts().len(), 2);
    assert_eq!(rt; rows.last(package_at(b'3')?), Version::new(1));
    assert_eq!(rt; rows.last(package_at(b'2')?), None);
    Ok(())
}

#[test]
fn rows_keep_their_order(rt: HostRuntime) -> Result<(), Fail> {
    let mut rows = Rows::new(rt.alloc());
    let lines = [
        (Line::Open(1, b'2', 7, 1), None),
        (Line::Open(2, b'1', 9, 1), None),
        (Line::Open(3, b'2', 3, 1), None),
        (Line::Done(3), None),
        (Line::Done(1), None),
        (Line::Done(2), None),
    ];
    assert_eq!(rt; first_other(&mut rows, &lines)?, 6);
    assert!(rt; is_row(rows.versions().get(0), b'1', 9));
    assert!(rt; is_row(rows.versions().get(1), b'2', 3));
    assert!(rt; is_row(rows.versions().get(2), b'2', 7));
    assert_eq!(rt; rows.last(package_at(b'2')?), Version::new(7));
    Ok(())
}

#[test]
fn rows_refuse(rt: HostRuntime) -> Result<(), Fail> {
    let mut rows = Rows::new(rt.alloc());
    let job = job_of(1)?;
    let lines = [
        (Line::Done(1), Some(RowFault::NoJob)),
        (Line::Drop(1), Some(RowFault::NoJob)),
        (Line::Remove(b'1', 1), Some(RowFault::NoVersion)),
        (Line::Open(2, b'1', 1, 1), Some(RowFault::WrongJob)),
        (Line::Open(u64::MAX, b'1', 1, 1), Some(RowFault::WrongJob)),
        (
            Line::Open(1, b'1', 1, 400_001),
            Some(RowFault::TooManyEntries),
        ),
        (
            Line::Open(1, b'1', 1, u32::MAX),
            Some(RowFault::TooManyEntries),
        ),
        (Line::Open(1, b'1', 1, 399_999), None),
        (Line::Open(9, b'1', 1, 2), Some(RowFault::JobThere { job })),
        (Line::Done(1), None),
        (Line::Open(9, b'1', 1, 2), Some(RowFault::VersionThere)),
        (Line::Open(9, b'1', 2, 2), Some(RowFault::TooManyEntries)),
        (Line::Open(2, b'1', 2, 1), None),
        (Line::Open(3, b'1', 3, 0), None),
    ];
    assert_eq!(rt; first_other(&mut rows, &lines)?, 14);
    assert_eq!(rt; rows.entries(), 400_000);
    Ok(())
}

// Opens jobs and ends them, one after another; the number of the first that was refused, or the end.
fn fill(rows: &mut Rows, from: u64, end: u64, finish: bool) -> Result<u64, Fail> {
    for n in from..end {
        let version = u32::try_from(n).unwrap_or(1);
        let opened = change_of(Line::Open(n, b'1', version, 0))?;
        if step(rows, &opened)?.is_some() {
            return Ok(n);
        }
        if finish && step(rows, &change_of(Line::Done(n))?)?.is_some() {
            return Ok(n);
        }
    }
    Ok(end)
}

#[test]
fn rows_have_limits(rt: HostRuntime) -> Result<(), Fail> {
    let mut rows = Rows::new(rt.alloc());
    assert_eq!(rt; fill(&mut rows, 1, 7937, true)?, 7937);
    assert_eq!(rt; fill(&mut rows, 7937, 9999, false)?, 8193);
    assert_eq!(rt; rows.versions().len(), 7936);
    assert_eq!(rt; rows.jobs().len(), 256);
    let lines = [
        (
            Line::Open(1, b'2', 1, 999_999),
            Some(RowFault::TooManyVersions),
        ),
        (Line::Remove(b'1', 1), None),
        (Line::Open(1, b'2', 1, 0), Some(RowFault::TooManyJobs)),
        (Line::Done(7937), None),
        (Line::Open(8193, b'2', 1, 0), None),
    ];
    assert_eq!(rt; first_other(&mut rows, &lines)?, 5);
    Ok(())
}

// The manifest of files of 7 bytes, each by its path of one letter and the byte that its hash is made of.
fn manifest_of(alloc: Global, files: &[(u8, u8)]) -> Result<Manifest, Fail> {
    let mut bytes = Vec::new(alloc);
    bytes.extend_from_slice(b"CMDL\x01")?;
    bytes.push(files.len().min(255) as u8)?;
    bytes.extend_from_slice(&[0, 0, 0])?;
    for (path, byte) in files.iter() {
        bytes.extend_from_slice(&[1, *path, 7, 0, 0, 0])?;
        bytes.extend_from_slice(&[*byte; 32])?;
    }
    Manifest::decode(alloc, &bytes).map_err(|_| Fail::new("no manifest"))
}

#[test]
fn counts_are_counted(rt: HostRuntime) -> Result<(), Fail> {
    let one = Hash([1; 32]);
    let two = Hash([2; 32]);
    let manifest = manifest_of(rt.alloc(), &[(b'a', 1), (b'b', 2), (b'c', 1)])?;
    let mut counts = Counts::new(rt.alloc());
    counts.add(&manifest)?;
    assert!(rt; counts.of(one) == 2);
    assert!(rt; counts.sealed(one).is_none());
    let seal = Seal {
        size: 7,
        since: true,
    };
    counts.seal(one, seal);
    counts.add(&manifest)?;
    assert!(rt; counts.of(one) == 4);
    assert!(rt; counts.sealed(one) == Some(seal));
    counts.take(&manifest);
    assert!(rt; counts.of(two) == 1);
    assert!(rt; counts.sealed(one) == Some(seal));
    counts.take(&manifest);
    assert!(rt; counts.of(one) == 0);
    assert!(rt; counts.sealed(one).is_none());
    Ok(())
}
