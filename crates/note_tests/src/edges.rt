//! Each field at its edges.
use crate::cases::{
    CACHED, DELETED, INSTALLED, PEER_STATE, TO_GROUP, TO_POINT, TRIED, is_record, is_taken, name,
    package, version,
};
use cm_base::Hash;
use cm_notes::Note;
use std::test::Fail;

// A record, a place in it, and the byte that is put there.
type Case = (&'static [u8], usize, u8);

const TAKEN: [Case; 11] = [
    // names: the least and the greatest of each range
    (INSTALLED, 2, b'a'),
    (INSTALLED, 2, b'z'),
    (INSTALLED, 2, b'0'),
    (INSTALLED, 2, b'.'),
    // a label: blanks, upper case, the last printable byte
    (TO_GROUP, 15, b' '),
    (TO_GROUP, 15, b'Z'),
    (TO_GROUP, 22, b'~'),
    // no low battery, and any load
    (PEER_STATE, 7, 0),
    (PEER_STATE, 8, 255),
    // another package, and any byte of a hash
    (INSTALLED, 6, b'0'),
    (CACHED, 50, 255),
];

const OFF: [Case; 14] = [
    // a name in upper case, with a byte of no name, or longer than what is left
    (INSTALLED, 2, b'D'),
    (INSTALLED, 2, b':'),
    (INSTALLED, 1, 255),
    // a label with a byte that is not printable
    (TO_GROUP, 15, 31),
    (TO_GROUP, 22, 127),
    // a point by a name that is a label alone
    (TO_GROUP, 13, 0),
    // receivers
    (TO_POINT, 13, 2),
    (TO_GROUP, 13, 255),
    // a package in lower case, and one that is not hexadecimal
    (INSTALLED, 6, b'p'),
    (DELETED, 8, b'G'),
    // the version 0
    (INSTALLED, 14, 0),
    (DELETED, 12, 0),
    // low battery
    (PEER_STATE, 7, 2),
    // another kind of another length
    (TRIED, 0, 3),
];

#[test]
fn bytes_that_are_taken(rt: HostRuntime) {
    for (record, at, byte) in TAKEN.iter() {
        assert!(rt; is_taken(*record, *at, *byte));
    }
}

#[test]
fn bytes_that_are_off(rt: HostRuntime) {
    for (record, at, byte) in OFF.iter() {
        assert!(rt; !is_taken(*record, *at, *byte));
    }
}

// Whether the removal from a point whose name is so many times that byte is read.
fn has_name(byte: u8, count: u8) -> bool {
    let len = usize::from(count);
    if len > 64 {
        return false;
    }
    let mut bytes = [byte; 128];
    bytes[0] = 6;
    bytes[1] = count;
    bytes[2 + len..14 + len].copy_from_slice(b"PS100001\x01\x00\x00\x00");
    Note::decode(&bytes[..14 + len]).is_some()
}

// Whether a sending to a group whose label is so many times that byte is read.
fn has_label(byte: u8, count: u8) -> bool {
    let len = usize::from(count);
    if len > 64 {
        return false;
    }
    let mut bytes = [byte; 128];
    bytes[..15].copy_from_slice(b"\x02PS100001\x01\x00\x00\x00\x01\x00");
    bytes[14] = count;
    bytes[15 + len..23 + len].copy_from_slice(&[0; 8]);
    Note::decode(&bytes[..23 + len]).is_some()
}

#[test]
fn lengths_of_names(rt: HostRuntime) {
    assert!(rt; !has_name(b'a', 0));
    assert!(rt; has_name(b'a', 1) && has_name(b'-', 63));
    assert!(rt; !has_name(b'a', 64));
    assert!(rt; !has_label(b' ', 0));
    assert!(rt; has_label(b' ', 1) && has_label(b'A', 63));
    assert!(rt; !has_label(b' ', 64));
}

#[test]
fn greatest_numbers(rt: HostRuntime) -> Result<(), Fail> {
    let topology = Note::Topology {
        number: u32::MAX,
        size: u32::MAX,
        hash: Hash([255; 32]),
        minute: u64::MAX,
    };
    let mut record = [255; 49];
    record[0] = 1;
    assert!(rt; is_record(&topology, &record));
    let never = Note::Tried {
        point: name(b"a")?,
        package: package(b"ZZZFFFFF")?,
        version: version(u32::MAX)?,
        due: u64::MAX,
    };
    let record = b"\x04\x01aZZZFFFFF\xff\xff\xff\xff\xff\xff\xff\xff\xff\xff\xff\xff";
    assert!(rt; is_record(&never, record));
    Ok(())
}

#[test]
fn greatest_state(rt: HostRuntime) -> Result<(), Fail> {
    let state = Note::PeerState {
        name: name(b"a")?,
        low: false,
        load: 255,
        queue: u16::MAX,
        used: u16::MAX,
    };
    assert!(rt; is_record(&state, b"\x08\x01a\x00\xff\xff\xff\xff\xff"));
    Ok(())
}
