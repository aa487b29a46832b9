//! Texts that are no TOML, the code, keys that are unknown, and arrays that are absent.

use super::base::{fault, fault_of};
use cm_groups::Groups;
use cm_net::Address;
use cm_topo::{TopoFault, Topology, read_topology};
use std::alloc::Global;
use std::test::Fail;

/// Texts that the grammar of TOML refuses.
const NOT_TOML: [&str; 16] = [
    "code = ",
    "code",
    "= 1",
    "code = PS1",
    "code = \"PS1",
    "code = \"PS1\" x = 1",
    "code = \"PS1\"\ncode = \"PS1\"",
    "code = \"\\q\"",
    "code = \"P\u{1}\"",
    "code = 01",
    "[group\nname = \"G\"",
    "[[group]\nname = \"G\"",
    "group = 1\n[[group]]",
    "group = []\n[[group]]",
    "group = [1, 2",
    "point = { name = \"a\" address = \"::1\" }",
];

/// A text with keys that mean nothing in each of its tables.
const UNKNOWN_KEYS: &str = r#"
code = "PS1"
window = 1
boundary = [{ name = "a", at = "site:a", bits = "x" }]
point_group = [{ name = "all", members = ["p", "p"], Name = 1 }]
peer = [{ name = "c", address = "::1", connections = 0, Connections = -1 }]
[default]
boundaries = 1
points = ["p", "q", "p"]
[[group]]
name = "G"
boundaries = ["a", "a"]
point = 1
[[group.relation]]
to = "H"
minute = -1
[[group]]
name = "H"
[[point]]
name = "p"
address = "::1"
connections = -1
sources = [{ from = "q", priority = 0, to = 1 }, { from = "q", priority = 255 }]
[[point]]
name = "q"
address = "::1"
[other.table]
name = 1
"#;

#[test]
fn texts_that_are_not_toml(rt: HostRuntime) -> Result<(), Fail> {
    for text in NOT_TOML {
        assert_eq!(rt;
            fault_of(rt.alloc(), text),
            Some(TopoFault::NotToml),
            "{text}"
        );
    }
    let found = read_topology(rt.alloc(), b"code = \"\xff\"");
    assert!(rt; matches!(found, Err(TopoFault::NotToml)));
    Ok(())
}

#[test]
fn the_code_comes_first(rt: HostRuntime) -> Result<(), Fail> {
    let rows = [
        ("", Some(fault(0, 0, 0))),
        ("code = 1", Some(fault(0, 0, 0))),
        ("code = \"ps1\"", Some(fault(16, 0, 0))),
        ("code = \"PS12\"", Some(fault(16, 0, 0))),
        ("boundary = 1", Some(fault(0, 0, 0))),
        ("boundary = 1\ncode = \"\"", Some(fault(16, 0, 0))),
        ("code = \"PS1\"", None),
    ];
    for (text, fault) in rows {
        assert_eq!(rt; fault_of(rt.alloc(), text), fault, "{text}");
    }
    Ok(())
}

#[test]
fn unknown_keys_are_passed_over(rt: HostRuntime) -> Result<(), Fail> {
    let Ok(topology) = read_topology(rt.alloc(), UNKNOWN_KEYS.as_bytes()) else {
        return Err(Fail::new("no topology"));
    };
    assert_eq!(rt; topology.points.items().len(), 2);
    assert_eq!(rt; topology.point_groups.items().len(), 1);
    assert_eq!(rt; topology.peers.items().len(), 1);
    assert_eq!(rt; topology.boundary_count, 1);
    assert_eq!(rt; topology.group_count, 2);
    Ok(())
}

/// Whether the topology has this code, and no points, point groups and peers.
fn is_bare(topology: &Topology, code: &[u8]) -> bool {
    topology.code.as_bytes() == code
        && topology.points.items().is_empty()
        && topology.point_groups.items().is_empty()
        && topology.peers.items().is_empty()
}

/// Whether the groups are the default one alone, without points, which a client reaches that is in no group.
fn is_default_alone(alloc: Global, groups: &Groups) -> Result<bool, Fail> {
    let Ok(current) = groups.current(alloc, Address::V4(0), None) else {
        return Err(Fail::new("no memory"));
    };
    let Ok(reached) = groups.reach(alloc, &current, 0, true, true) else {
        return Err(Fail::new("no memory"));
    };
    let is_bare = groups.len() == 1 && groups.points(0).is_empty();
    Ok(is_bare && current.is_empty() && reached.as_slice() == [0].as_slice())
}

#[test]
fn all_but_the_code_may_be_absent(rt: HostRuntime) -> Result<(), Fail> {
    let Ok(topology) = read_topology(rt.alloc(), b"code = \"0Z9\"") else {
        return Err(Fail::new("no topology"));
    };
    assert!(rt; is_bare(&topology, b"0Z9"));
    assert!(rt; is_default_alone(rt.alloc(), &topology.groups)?);
    Ok(())
}
