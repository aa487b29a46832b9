//! What a case asks of a note and of bytes.
use cm_base::{Hash, Label, PackageId, ServerName, Version};
use cm_notes::Note;
use std::test::Fail;

pub(crate) const TOPOLOGY: &[u8] = b"\x01\x02\x00\x00\x00\x8c\x00\x00\x00\
    \xab\xab\xab\xab\xab\xab\xab\xab\xab\xab\xab\xab\xab\xab\xab\xab\
    \xab\xab\xab\xab\xab\xab\xab\xab\xab\xab\xab\xab\xab\xab\xab\xab\
    \x00\x00\x00\x00\x00\x01\x00\x00";

pub(crate) const TO_POINT: &[u8] =
    b"\x02PS100001\x01\x00\x00\x00\x00\x04dp-1\x3c\x00\x00\x00\x00\x00\x00\x00";

pub(crate) const TO_GROUP: &[u8] =
    b"\x02PS1000FF\x00\x01\x00\x00\x01\x08All <EU>\x00\x01\x00\x00\x00\x00\x00\x00";

pub(crate) const INSTALLED: &[u8] = b"\x03\x04dp-1PS100001\x01\x00\x00\x00";

pub(crate) const TRIED: &[u8] =
    b"\x04\x04dp-1PS100001\x01\x00\x00\x00\x78\x00\x00\x00\x00\x00\x00\x00";

pub(crate) const LEAVING: &[u8] = b"\x05\x04dp-1PS100001\x01\x00\x00\x00";

pub(crate) const GONE: &[u8] = b"\x06\x04dp-1PS100001\x01\x00\x00\x00";

pub(crate) const DELETED: &[u8] = b"\x07PS100001\x00\x00\x00\x80";

pub(crate) const PEER_STATE: &[u8] = b"\x08\x05pc_10\x01\x50\x0a\x00\x00\x02";

pub(crate) const CACHED: &[u8] = b"\x09\x05pc_10PS100001\x01\x00\x00\x00\
    \x00\x01\x02\x03\x04\x05\x06\x07\x08\x09\x0a\x0b\x0c\x0d\x0e\x0f\
    \x10\x11\x12\x13\x14\x15\x16\x17\x18\x19\x1a\x1b\x1c\x1d\x1e\x1f";

pub(crate) const ALL: [&[u8]; 10] = [
    TOPOLOGY, TO_POINT, TO_GROUP, INSTALLED, TRIED, LEAVING, GONE, DELETED, PEER_STATE, CACHED,
];

pub(crate) fn package(text: &[u8]) -> Result<PackageId, Fail> {
    match PackageId::read(text) {
        Some(package) => Ok(package),
        None => Err(Fail::new("no package")),
    }
}

pub(crate) fn version(number: u32) -> Result<Version, Fail> {
    match Version::new(number) {
        Some(version) => Ok(version),
        None => Err(Fail::new("no version")),
    }
}

pub(crate) fn name(text: &[u8]) -> Result<ServerName, Fail> {
    match ServerName::read(text) {
        Some(name) => Ok(name),
        None => Err(Fail::new("no name")),
    }
}

pub(crate) fn label(text: &[u8]) -> Result<Label, Fail> {
    match Label::read(text) {
        Some(label) => Ok(label),
        None => Err(Fail::new("no label")),
    }
}

pub(crate) fn rising() -> Hash {
    let mut bytes = [0; 32];
    for i in 0..32u8 {
        bytes[usize::from(i)] = i;
    }
    Hash(bytes)
}

fn is_read(note: &Note, record: &[u8]) -> bool {
    match Note::decode(record) {
        Some(read) => read == *note,
        None => false,
    }
}

fn is_written(note: &Note, record: &[u8]) -> bool {
    let mut out = [0xee; 128];
    let len = note.encode(&mut out);
    &out[..len] == record
}

// The bytes are those of the note, both ways.
pub(crate) fn is_record(note: &Note, record: &[u8]) -> bool {
    is_read(note, record) && is_written(note, record)
}

// Without its last byte a record is none.
pub(crate) fn is_cut_off(record: &[u8]) -> bool {
    !record.is_empty() && Note::decode(&record[..record.len() - 1]).is_none()
}

// Whether bytes are a record where one of them is another, or, at their end, where there is one more.
pub(crate) fn is_taken(record: &[u8], at: usize, byte: u8) -> bool {
    let mut bytes = [0; 128];
    let len = record.len().max(at.saturating_add(1));
    if len > bytes.len() || at >= len {
        return false;
    }
    bytes[..record.len()].copy_from_slice(record);
    bytes[at] = byte;
    Note::decode(&bytes[..len]).is_some()
}
