//! The answers of peers as a table, and walks over a link in memory.
use cm_base::{Hash, List, PackageId, ServerName, Version};
use cm_peer::{
    Answer, Cached, Cause, Kind, MemLink, PeerState, Refused, SourceRow, Want, Why, walk,
};
use std::test::Fail;

const WANTED: Hash = Hash([7; 32]);

const OTHER: Hash = Hash([8; 32]);

fn wanted() -> Option<Want> {
    Some(Want {
        package: PackageId::read(b"PS100001")?,
        version: Version::new(2)?,
        hash: WANTED,
    })
}

/// A state of a peer that has the rows of the wanted version with two manifests, behind a row of another version.
fn state(
    rt: &HostRuntime,
    low_battery: bool,
    load: u8,
    queue: u16,
    used: u16,
) -> Result<PeerState, Fail> {
    let package = PackageId::read(b"PS100001").ok_or("package")?;
    let version = Version::new(2).ok_or("version")?;
    let before = Version::new(1).ok_or("version")?;
    let rows = [(before, OTHER), (version, WANTED), (version, OTHER)];
    let mut cached = Vec::new(rt.alloc());
    for (version, hash) in rows {
        cached.push(Cached {
            package,
            version,
            hash,
        })?;
    }
    Ok(PeerState {
        low_battery,
        load,
        queue,
        used,
        cached: List::of(cached),
    })
}

#[test]
fn the_first_cause_is_answered(rt: HostRuntime) -> Result<(), Fail> {
    let want = wanted().ok_or("want")?;
    let rows = [
        (false, 80, 10, 3, Answer::Serve { hash: WANTED }),
        (
            false,
            81,
            10,
            3,
            Answer::Refused(Cause::Processor { load: 81 }),
        ),
        (
            false,
            80,
            11,
            3,
            Answer::Refused(Cause::DiskQueue { length: 11 }),
        ),
        (
            false,
            80,
            10,
            4,
            Answer::Refused(Cause::NoConnection { limit: 4 }),
        ),
        (
            false,
            80,
            10,
            5,
            Answer::Refused(Cause::NoConnection { limit: 4 }),
        ),
        (true, 81, 10, 0, Answer::Refused(Cause::LowBattery)),
        (true, 81, 11, 5, Answer::Refused(Cause::LowBattery)),
        (
            false,
            81,
            11,
            5,
            Answer::Refused(Cause::Processor { load: 81 }),
        ),
        (
            false,
            0,
            11,
            5,
            Answer::Refused(Cause::DiskQueue { length: 11 }),
        ),
    ];
    for (low, load, queue, used, answer) in rows {
        let peer = state(&rt, low, load, queue, used)?;
        assert_eq!(rt; peer.answer(4, &want), answer);
    }
    Ok(())
}

#[test]
fn what_is_not_cached_is_refused(rt: HostRuntime) -> Result<(), Fail> {
    let mut want = wanted().ok_or("want")?;
    let none = PeerState::new(rt.alloc());
    assert_eq!(rt; none.answer(4, &want), Answer::Refused(Cause::NotCached));
    assert_eq!(rt;
        none.answer(0, &want),
        Answer::Refused(Cause::NoConnection { limit: 0 })
    );
    let peer = state(&rt, false, 0, 0, 0)?;
    want.package = PackageId::read(b"PS100002").ok_or("package")?;
    assert_eq!(rt; peer.answer(4, &want), Answer::Refused(Cause::NotCached));
    Ok(())
}

fn source(name: &str, kind: Kind, rank: u8) -> Result<SourceRow, Fail> {
    let name = ServerName::read(name.as_bytes()).ok_or("name")?;
    Ok(SourceRow { rank, kind, name })
}

fn sources() -> Result<[SourceRow; 5], Fail> {
    Ok([
        source("pc7", Kind::Peer, 2)?,
        source("pc8", Kind::Peer, 2)?,
        source("pc9", Kind::Peer, 2)?,
        source("dp4", Kind::Point, 3)?,
        source("dp5", Kind::Point, 9)?,
    ])
}

/// `pc7` is busy, `pc9` has another manifest, and the points serve.
fn link(rt: &HostRuntime, fail: &[u64]) -> Result<MemLink, Fail> {
    let busy = Answer::Refused(Cause::Processor { load: 81 });
    let rows = [
        ("pc7", busy),
        ("pc8", Answer::Serve { hash: WANTED }),
        ("pc9", Answer::Serve { hash: OTHER }),
        ("dp4", Answer::Serve { hash: WANTED }),
        ("dp5", Answer::Serve { hash: WANTED }),
    ];
    let mut answers = Vec::new(rt.alloc());
    for (name, answer) in rows {
        answers.push((ServerName::read(name.as_bytes()).ok_or("name")?, answer))?;
    }
    Ok(MemLink::new(rt.alloc(), answers, fail.to_vec(rt.alloc())?))
}

#[test]
fn a_walk_goes_on_to_the_first_that_serves(rt: HostRuntime) -> Result<(), Fail> {
    let want = wanted().ok_or("want")?;
    let mut link = link(&rt, &[1])?;
    let walked = walk(rt.alloc(), &sources()?, &mut link, &want)?;
    let refusals = [
        Refused {
            source: 0,
            why: Why::Cause(Cause::Processor { load: 81 }),
        },
        Refused {
            source: 1,
            why: Why::Link,
        },
        Refused {
            source: 2,
            why: Why::OtherManifest { got: OTHER },
        },
    ];
    assert_eq!(rt; walked.got, Some(3));
    assert!(rt; walked.refusals.items() == refusals.as_slice());
    Ok(())
}

#[test]
fn a_walk_goes_on_where_the_link_fails(rt: HostRuntime) -> Result<(), Fail> {
    let want = wanted().ok_or("want")?;
    let serves = Answer::Serve { hash: WANTED };
    let both = [
        source("pc9", Kind::Peer, 2)?,
        source("dp4", Kind::Point, 3)?,
    ];
    let mut answers = Vec::new(rt.alloc());
    for row in &both {
        answers.push((row.name, serves))?;
    }
    let mut link = MemLink::new(rt.alloc(), answers, [0].to_vec(rt.alloc())?);
    let walked = walk(rt.alloc(), &both, &mut link, &want)?;
    assert_eq!(rt; walked.got, Some(1));
    let failed = Refused {
        source: 0,
        why: Why::Link,
    };
    assert!(rt; walked.refusals.items() == [failed].as_slice());
    Ok(())
}

#[test]
fn a_walk_may_find_no_source(rt: HostRuntime) -> Result<(), Fail> {
    let mut want = wanted().ok_or("want")?;
    want.hash = Hash([9; 32]);
    let mut link = link(&rt, &[])?;
    let walked = walk(rt.alloc(), &sources()?, &mut link, &want)?;
    assert_eq!(rt; walked.got, None);
    assert_eq!(rt; walked.refusals.items().len(), 5);
    let none = walk(rt.alloc(), &[], &mut link, &want)?;
    assert_eq!(rt; none.got, None);
    assert!(rt; none.refusals.items().is_empty());
    Ok(())
}
