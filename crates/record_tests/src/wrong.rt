//! Logs and texts that are no records: the first place that is wrong is told.
use crate::calls::{ONE, made, replaced};
use cm_base::{Hash, Place};
use cm_disk::{Disk, MemDisk};
use cm_records::{OpenFault, Records};
use cm_textlib::store;
use std::alloc::Global;
use std::test::Fail;

const TEXT: &[u8] = b"Site/topology.1";

const LOG: &[u8] = b"Site/log.0";

// A text that is no topology. Its SHA-256 is by another program.
const NO_TOPOLOGY: &[u8; 15] = b"a shorter text\n";

const NO_TOPOLOGY_HASH: &[u8; 64] =
    b"c9df809b4f3974899b21c833341a41398246543891d585094572207aa2da8562";

// A version is sent to a point: its record as it stands in a log, with the closed gate behind it.
const SENT: &[u8] = b"\x01\x1a\0\0\0\x02PS100001\x01\0\0\0\0\x03dp1\0\0\0\0\0\0\0\0\0";

// Puts bytes over those of a file, from there on.
fn lay<D: Disk>(disk: &mut D, place: &[u8], at: u64, bytes: &[u8]) -> bool {
    let Some(place) = Place::read(place) else {
        return false;
    };
    match disk.size(&place) {
        Ok(Some(size)) if at <= size && size < 1000 && bytes.len() < 1000 => {
            disk.write_at(&place, at, bytes).is_ok()
        }
        _ => false,
    }
}

fn without<D: Disk>(disk: &mut D, place: &[u8]) -> bool {
    match Place::read(place) {
        Some(place) => disk.remove(&place).is_ok(),
        None => false,
    }
}

// The record of the second topology, whose text is no topology, as it stands in the log with the closed gate behind it.
fn second_record() -> Option<[u8; 55]> {
    let hash = Hash::read(NO_TOPOLOGY_HASH)?;
    let mut bytes = [0; 55];
    bytes[..14].copy_from_slice(b"\x01\x31\0\0\0\x01\x02\0\0\0\x0f\0\0\0");
    bytes[14..46].copy_from_slice(&hash.0);
    Some(bytes)
}

// What is wrong of records with one topology.
#[derive(Clone, Copy)]
enum Wrong {
    Damaged,
    Absent,
    NoTopology,
    Sent,
    OffGrammar,
    Cut,
    // A damaged text, and then a record of another kind.
    TextFirst,
}

fn lay_wrong<D: Disk>(disk: &mut D, wrong: Wrong) -> bool {
    match wrong {
        Wrong::Damaged => lay(disk, TEXT, 0, b"x"),
        Wrong::Absent => without(disk, TEXT),
        Wrong::NoTopology => match second_record() {
            Some(bytes) => store(disk, 2, NO_TOPOLOGY).is_ok() && lay(disk, LOG, 64, &bytes),
            None => false,
        },
        Wrong::Sent => lay(disk, LOG, 64, SENT),
        Wrong::OffGrammar => lay(disk, LOG, 64, b"\x01\x01\0\0\0\x0a\0"),
        Wrong::Cut => lay(disk, LOG, 64, b"\x01\x31\0\0\0\x01"),
        Wrong::TextFirst => lay(disk, LOG, 64, SENT) && lay(disk, TEXT, 0, b"x"),
    }
}

// A disk with one topology, of which that is wrong.
fn laid(alloc: Global, wrong: Wrong) -> Option<MemDisk> {
    let disk = MemDisk::new(alloc, Vec::new(alloc)).ok()?;
    let mut records = made(alloc, disk).ok()?;
    if replaced(alloc, &mut records, ONE) != Some(Ok(())) {
        return None;
    }
    let mut disk = records.close();
    if lay_wrong(&mut disk, wrong) {
        Some(disk)
    } else {
        None
    }
}

fn is_at(fault: &OpenFault, place: &[u8], byte: u64) -> bool {
    match fault {
        OpenFault::Unreadable { place: found, at } => found.as_bytes() == place && *at == byte,
        _ => false,
    }
}

// Whether such records are refused at this place, from this byte on.
fn is_told(alloc: Global, wrong: Wrong, place: &[u8], byte: u64) -> bool {
    let Some(disk) = laid(alloc, wrong) else {
        return false;
    };
    match Records::open(alloc, disk) {
        Ok(_) => false,
        Err((_disk, fault)) => is_at(&fault, place, byte),
    }
}

#[test]
fn the_first_place_that_is_wrong(rt: HostRuntime) -> Result<(), Fail> {
    let alloc = rt.alloc();
    assert!(rt; is_told(alloc, Wrong::Damaged, TEXT, 0));
    assert!(rt; is_told(alloc, Wrong::Absent, TEXT, 0));
    assert!(rt; is_told(alloc, Wrong::NoTopology, b"Site/topology.2", 0));
    assert!(rt; is_told(alloc, Wrong::Sent, LOG, 64));
    assert!(rt; is_told(alloc, Wrong::OffGrammar, LOG, 64));
    assert!(rt; is_told(alloc, Wrong::Cut, LOG, 70));
    assert!(rt; is_told(alloc, Wrong::TextFirst, TEXT, 0));
    Ok(())
}
