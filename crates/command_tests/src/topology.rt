//! The command `topology`.
use crate::fakes::{ran, ran_site};
use cm_base::MemSource;
use cm_disk::MemDisk;
use std::alloc::Global;
use std::process::Abort;
use std::test::Fail;

const BAYS: &[&str] = &["site", "records", "dp1", "dp2", "dp3", "dp4", "dp5"];

const CODE: &str = "code = \"PS1\"\n";

const BOUNDARY: &str = "[[boundary]]\nname = \"paris-lan\"\n";

const NET: &str = "at = \"subnet:10.1.2.0/24\"\n";

/// A net of which a bit behind its length is set.
const OFF_NET: &str = "at = \"subnet:10.1.2.1/24\"\n";

const REST: &str = r#"[[boundary]]
name = "paris-site"
at = "site:Paris"
[[boundary]]
name = "lyon-range"
at = "range:10.2.0.10-10.2.0.20"
[[boundary]]
name = "lyon-v6"
at = "prefix:2001:db8:1::/48"
[[group]]
name = "Paris"
boundaries = ["paris-lan", "paris-site"]
points = ["dp1", "dp2"]
[[group.relation]]
to = "Lyon"
minutes = 30
[[group]]
name = "Floor3"
boundaries = ["paris-lan"]
points = ["dp3"]
prefer_points = true
[[group]]
name = "Lyon"
boundaries = ["lyon-range", "lyon-v6"]
points = ["dp4"]
[[group.relation]]
to = "Default-Site-Boundary-Group<PS1>"
minutes = 10
[default]
points = ["dp5"]
[[point]]
name = "dp1"
address = "10.1.2.10"
site = "Paris"
[[point]]
name = "dp2"
address = "10.1.9.10"
site = "Paris"
[[point]]
name = "dp3"
address = "10.1.8.10"
[[point]]
name = "dp4"
address = "10.2.0.10"
site = "Lyon"
[[point]]
name = "dp5"
address = "10.9.0.10"
sources = [{ from = "dp4", priority = 1 }, { from = "dp1", priority = 1 }]
[[point_group]]
name = "all-france"
members = ["dp1", "dp4"]
[[peer]]
name = "pc7"
address = "10.1.2.77"
site = "Paris"
connections = 10
[[peer]]
name = "pc8"
address = "10.1.7.8"
site = "Paris"
connections = 10
[[peer]]
name = "pc9"
address = "10.2.0.15"
site = "Lyon"
connections = 4
"#;

// A source of these texts, one behind another, whose calls in `fail` fail.
fn source_of(alloc: Global, texts: &[&str], fail: &[u64]) -> Result<MemSource, Fail> {
    let mut bytes = Vec::new(alloc);
    for text in texts {
        bytes.extend_from_slice(text.as_bytes())?;
    }
    Ok(MemSource::new(bytes, 1000, fail.to_vec(alloc)?))
}

// So many disks without files, on which `init` has made the libraries of as many bays and the records.
fn made(rt: &impl Abort, alloc: Global, names: &[&str]) -> Result<Vec<MemDisk>, Fail> {
    let mut disks = Vec::new(alloc);
    for _name in names {
        disks.push(MemDisk::new(alloc, Vec::new(alloc))?)?;
    }
    let mut input = source_of(alloc, &[], &[])?;
    let (status, _) = ran_site(rt, alloc, &["init"], &mut input, names, &mut disks)?;
    assert!(rt; status == 0);
    Ok(disks)
}

// How `topology` ends over these texts.
fn answered(
    rt: &impl Abort,
    alloc: Global,
    texts: &[&str],
    names: &[&str],
    disks: &mut Vec<MemDisk>,
) -> Result<(u8, Vec<u8>), Fail> {
    let mut input = source_of(alloc, texts, &[])?;
    ran_site(rt, alloc, &["topology"], &mut input, names, disks)
}

#[test]
fn makes_each_bay(rt: HostRuntime) -> Result<(), Fail> {
    let alloc = rt.alloc();
    let mut disks = Vec::new(alloc);
    for _name in BAYS {
        disks.push(MemDisk::new(alloc, Vec::new(alloc))?)?;
    }
    let mut input = source_of(alloc, &[], &[])?;
    for (words, wanted) in [
        (
            ["init", "dp2", "records"].as_slice(),
            b"made 2\n".as_slice(),
        ),
        (&["list", "dp2"], b"library site missing\n"),
        (&["init", "dp1", "dp6"], b"refused 10 NoBay dp6\n"),
        (&["init"], b"made 5\n"),
        (&["init"], b"made 0\n"),
        (&["list", "dp5"], b""),
        (&["list", "records"], b"refused 10 NoBay records\n"),
        (&["list", "dp6"], b"refused 10 NoBay dp6\n"),
    ] {
        let (_, text) = ran_site(&rt, alloc, words, &mut input, BAYS, &mut disks)?;
        assert!(rt; text.as_slice() == wanted);
    }
    Ok(())
}

#[test]
fn replaces_the_topology(rt: HostRuntime) -> Result<(), Fail> {
    let alloc = rt.alloc();
    let mut disks = made(&rt, alloc, BAYS)?;
    for _time in 0..2u8 {
        let texts = [CODE, BOUNDARY, NET, REST];
        let (status, text) = answered(&rt, alloc, &texts, BAYS, &mut disks)?;
        assert!(rt; status == 0);
        assert!(rt;
            text.as_slice()
                == b"topology boundaries 4 groups 3 points 5 peers 3 joined 0\n".as_slice()
        );
    }
    let mut input = source_of(alloc, &[], &[])?;
    let (status, text) = ran_site(&rt, alloc, &["list", "site"], &mut input, BAYS, &mut disks)?;
    assert!(rt; status == 0 && text.is_empty());
    disks.pop();
    let (status, text) = ran_site(
        &rt,
        alloc,
        &["list", "site"],
        &mut input,
        &BAYS[..6],
        &mut disks,
    )?;
    assert!(rt; status == 7 && text.as_slice() == b"library dp5 nobay\n".as_slice());
    Ok(())
}

// The first cause is told, and no topology is replaced.
#[test]
fn refuses_texts(rt: HostRuntime) -> Result<(), Fail> {
    let alloc = rt.alloc();
    let names = &BAYS[..6];
    let mut disks = made(&rt, alloc, names)?;
    for (texts, wanted) in [
        (
            [BOUNDARY, NET, REST].as_slice(),
            b"refused 24 WrongShape 0 0\n".as_slice(),
        ),
        (
            &[CODE, BOUNDARY, OFF_NET, REST],
            b"refused 25 TopologyRule 4 1 0\n",
        ),
        (&["code = "], b"refused 23 NotToml\n"),
        (&[CODE, BOUNDARY, NET, REST], b"refused 10 NoBay dp5\n"),
    ] {
        let (status, text) = answered(&rt, alloc, texts, names, &mut disks)?;
        assert!(rt; status == 1 && text.as_slice() == wanted);
    }
    let (status, text) = answered(&rt, alloc, &[CODE], names, &mut disks)?;
    assert!(rt; status == 0);
    assert!(rt;
        text.as_slice() == b"topology boundaries 0 groups 0 points 0 peers 0 joined 0\n".as_slice()
    );
    Ok(())
}

#[test]
fn refuses_a_long_input(rt: HostRuntime) -> Result<(), Fail> {
    let alloc = rt.alloc();
    let names = &BAYS[..2];
    let mut disks = made(&rt, alloc, names)?;
    let bytes = vec![in alloc; b'#'; 4_194_305]?;
    let mut input = MemSource::new(bytes, 65_536, Vec::new(alloc));
    let (status, text) = ran_site(&rt, alloc, &["topology"], &mut input, names, &mut disks)?;
    assert!(rt; status == 1 && text.as_slice() == b"refused 27 InputTooLong\n".as_slice());
    Ok(())
}

// An input that fails at its first call is read where the records are handed in, and is not read where they are not.
#[test]
fn reads_the_input(rt: HostRuntime) -> Result<(), Fail> {
    let alloc = rt.alloc();
    for (count, wanted) in [
        (2, (3, b"source\n".as_slice())),
        (1, (1, b"refused 10 NoBay records\n".as_slice())),
    ] {
        let names = &BAYS[..count];
        let mut disks = made(&rt, alloc, names)?;
        let mut input = source_of(alloc, &[CODE], &[0])?;
        let (status, text) = ran_site(&rt, alloc, &["topology"], &mut input, names, &mut disks)?;
        assert!(rt; (status, text.as_slice()) == wanted);
    }
    let disk = MemDisk::new(alloc, Vec::new(alloc))?;
    let (status, text, _) = ran(&rt, alloc, &["topology"], disk, &[])?;
    assert!(rt; status == 7 && text.as_slice() == b"library site missing\n".as_slice());
    Ok(())
}
