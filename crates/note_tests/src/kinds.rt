//! One record of each kind.
use crate::cases::{
    ALL, CACHED, DELETED, GONE, INSTALLED, LEAVING, PEER_STATE, TO_GROUP, TO_POINT, TOPOLOGY,
    TRIED, is_cut_off, is_record, is_taken, label, name, package, rising, version,
};
use cm_base::Hash;
use cm_notes::{Note, To};
use std::test::Fail;

#[test]
fn topology(rt: HostRuntime) {
    let note = Note::Topology {
        number: 2,
        size: 140,
        hash: Hash([0xab; 32]),
        minute: 1 << 40,
    };
    assert!(rt; is_record(&note, TOPOLOGY));
}

#[test]
fn sent_to_a_point(rt: HostRuntime) -> Result<(), Fail> {
    let note = Note::Sent {
        package: package(b"PS100001")?,
        version: version(1)?,
        to: To::Point {
            name: name(b"dp-1")?,
        },
        minute: 60,
    };
    assert!(rt; is_record(&note, TO_POINT));
    Ok(())
}

#[test]
fn sent_to_a_group(rt: HostRuntime) -> Result<(), Fail> {
    let note = Note::Sent {
        package: package(b"PS1000FF")?,
        version: version(256)?,
        to: To::Group {
            name: label(b"All <EU>")?,
        },
        minute: 256,
    };
    assert!(rt; is_record(&note, TO_GROUP));
    Ok(())
}

#[test]
fn installed(rt: HostRuntime) -> Result<(), Fail> {
    let note = Note::Installed {
        point: name(b"dp-1")?,
        package: package(b"PS100001")?,
        version: version(1)?,
    };
    assert!(rt; is_record(&note, INSTALLED));
    Ok(())
}

#[test]
fn tried(rt: HostRuntime) -> Result<(), Fail> {
    let note = Note::Tried {
        point: name(b"dp-1")?,
        package: package(b"PS100001")?,
        version: version(1)?,
        due: 120,
    };
    assert!(rt; is_record(&note, TRIED));
    Ok(())
}

#[test]
fn leaving(rt: HostRuntime) -> Result<(), Fail> {
    let note = Note::Leaving {
        point: name(b"dp-1")?,
        package: package(b"PS100001")?,
        version: version(1)?,
    };
    assert!(rt; is_record(&note, LEAVING));
    Ok(())
}

#[test]
fn gone(rt: HostRuntime) -> Result<(), Fail> {
    let note = Note::Gone {
        point: name(b"dp-1")?,
        package: package(b"PS100001")?,
        version: version(1)?,
    };
    assert!(rt; is_record(&note, GONE));
    Ok(())
}

#[test]
fn deleted(rt: HostRuntime) -> Result<(), Fail> {
    let note = Note::Deleted {
        package: package(b"PS100001")?,
        version: version(0x8000_0000)?,
    };
    assert!(rt; is_record(&note, DELETED));
    Ok(())
}

#[test]
fn peer_state(rt: HostRuntime) -> Result<(), Fail> {
    let note = Note::PeerState {
        name: name(b"pc_10")?,
        low: true,
        load: 80,
        queue: 10,
        used: 512,
    };
    assert!(rt; is_record(&note, PEER_STATE));
    Ok(())
}

#[test]
fn cached(rt: HostRuntime) -> Result<(), Fail> {
    let note = Note::Cached {
        name: name(b"pc_10")?,
        package: package(b"PS100001")?,
        version: version(1)?,
        hash: rising(),
    };
    assert!(rt; is_record(&note, CACHED));
    Ok(())
}

#[test]
fn other_lengths_and_kinds(rt: HostRuntime) {
    assert!(rt; Note::decode(&[]).is_none());
    for record in ALL.iter() {
        assert!(rt; is_cut_off(*record));
        assert!(rt; !is_taken(*record, record.len(), 0));
        assert!(rt; !is_taken(*record, 0, 0));
        assert!(rt; !is_taken(*record, 0, 10));
    }
}
