//! Each shape and each rule once, with its part and entry.

use super::base::{Row, are_faults};
use std::test::Fail;

/// Faults of boundaries.
const BOUNDARIES: [Row; 13] = [
    ("boundary = 1", 0, 1, 0),
    ("boundary = [1]", 0, 1, 0),
    (
        "boundary = [{ name = \"a\", at = \"site:a\" }, { at = \"site:a\" }]",
        0,
        1,
        1,
    ),
    ("boundary = [{ name = 1, at = \"site:a\" }]", 0, 1, 0),
    ("boundary = [{ name = \"\", at = \"site:a\" }]", 16, 1, 0),
    ("boundary = [{ name = \"a\" }]", 0, 1, 0),
    ("boundary = [{ name = \"a\", at = 1 }]", 0, 1, 0),
    (
        "boundary = [{ name = \"a\", at = \"subnet:10.1.2/24\" }]",
        1,
        1,
        0,
    ),
    (
        "boundary = [{ name = \"a\", at = \"subnet:10.1.2.0/33\" }]",
        2,
        1,
        0,
    ),
    (
        "boundary = [{ name = \"a\", at = \"range:10.0.0.2-10.0.0.1\" }]",
        3,
        1,
        0,
    ),
    (
        "boundary = [{ name = \"a\", at = \"subnet:10.1.2.1/24\" }]",
        4,
        1,
        0,
    ),
    (
        "boundary = [{ name = \"a\", at = \"range:10.0.0.2-::1\" }]",
        5,
        1,
        0,
    ),
    (
        "boundary = [{ name = \"a\", at = \"site:a\" }, { name = \"a\", at = \"site:b\" }]",
        6,
        1,
        1,
    ),
];

/// Faults of groups.
const GROUPS: [Row; 19] = [
    ("group = 1", 0, 2, 0),
    ("group = [{ name = \"G\" }, 1]", 0, 2, 1),
    ("group = [{}]", 0, 2, 0),
    ("group = [{ name = 1 }]", 0, 2, 0),
    ("group = [{ name = \"\" }]", 16, 2, 0),
    ("group = [{ name = \"G\", boundaries = 1 }]", 0, 2, 0),
    (
        "group = [{ name = \"G\", boundaries = [\"a\", 1] }]",
        0,
        2,
        0,
    ),
    ("group = [{ name = \"G\", boundaries = [\"\"] }]", 16, 2, 0),
    ("group = [{ name = \"G\", points = 1 }]", 0, 2, 0),
    ("group = [{ name = \"G\", points = [1] }]", 0, 2, 0),
    ("group = [{ name = \"G\", points = [\"a b\"] }]", 16, 2, 0),
    ("group = [{ name = \"G\", peers = 1 }]", 0, 2, 0),
    ("group = [{ name = \"G\", same_subnet_only = 1 }]", 0, 2, 0),
    ("group = [{ name = \"G\", prefer_points = 1 }]", 0, 2, 0),
    ("group = [{ name = \"G\" }, { name = \"G\" }]", 6, 2, 1),
    (
        "group = [{ name = \"Default-Site-Boundary-Group<PS1>\" }]",
        6,
        2,
        0,
    ),
    ("group = [{ name = \"G\", boundaries = [\"a\"] }]", 8, 2, 0),
    (
        "boundary = [{ name = \"a\", at = \"site:a\" }]\ngroup = [{ name = \"G\", boundaries = [\"A\"] }]",
        8,
        2,
        0,
    ),
    ("group = [{ name = \"G\", points = [\"a\"] }]", 12, 2, 0),
];

/// Faults of relations.
const RELATIONS: [Row; 13] = [
    (
        "group = [{ name = \"G\" }, { name = \"H\", relation = 1 }]",
        0,
        3,
        1,
    ),
    ("group = [{ name = \"G\", relation = [1] }]", 0, 3, 0),
    (
        "group = [{ name = \"G\", relation = [{ minutes = 1 }] }]",
        0,
        3,
        0,
    ),
    (
        "group = [{ name = \"G\", relation = [{ to = 1 }] }]",
        0,
        3,
        0,
    ),
    (
        "group = [{ name = \"G\", relation = [{ to = \"\" }] }]",
        16,
        3,
        0,
    ),
    (
        "group = [{ name = \"G\", relation = [{ to = \"H\", minutes = true }] }]",
        0,
        3,
        0,
    ),
    (
        "group = [{ name = \"G\", relation = [{ to = \"H\", minutes = 1.0 }] }]",
        0,
        3,
        0,
    ),
    (
        "group = [{ name = \"G\", relation = [{ to = \"H\", minutes = -1 }] }]",
        11,
        3,
        0,
    ),
    (
        "group = [{ name = \"G\", relation = [{ to = \"H\", minutes = 10001 }] }]",
        11,
        3,
        0,
    ),
    (
        "group = [{ name = \"G\", relation = [{ to = \"H\", minutes = \"Never\" }] }]",
        11,
        3,
        0,
    ),
    (
        "group = [{ name = \"G\", relation = [{ to = \"g\", minutes = \"never\" }] }]",
        7,
        3,
        0,
    ),
    (
        "group = [{ name = \"G\", relation = [{ to = \"G\", minutes = 10000 }] }]",
        9,
        3,
        0,
    ),
    (
        "group = [{ name = \"G\" }, { name = \"H\", relation = [{ to = \"G\" }, { to = \"G\" }] }]",
        10,
        3,
        1,
    ),
];

/// Faults of points.
const POINTS: [Row; 13] = [
    ("point = 1", 0, 4, 0),
    ("point = [{ name = \"a\", address = \"::1\" }, 1]", 0, 4, 1),
    ("point = [{ address = \"::1\" }]", 0, 4, 0),
    ("point = [{ name = 1, address = \"::1\" }]", 0, 4, 0),
    ("point = [{ name = \"a/b\", address = \"::1\" }]", 16, 4, 0),
    ("point = [{ name = \"Site\", address = \"::1\" }]", 16, 4, 0),
    (
        "point = [{ name = \"records\", address = \"::1\" }]",
        16,
        4,
        0,
    ),
    ("point = [{ name = \"a\" }]", 0, 4, 0),
    ("point = [{ name = \"a\", address = 1 }]", 0, 4, 0),
    ("point = [{ name = \"a\", address = \"10.0.0\" }]", 1, 4, 0),
    (
        "point = [{ name = \"a\", address = \"::1\", site = 1 }]",
        0,
        4,
        0,
    ),
    (
        "point = [{ name = \"a\", address = \"::1\", site = \"\" }]",
        16,
        4,
        0,
    ),
    (
        "point = [{ name = \"a\", address = \"::1\" }, { name = \"A\", address = \"::1\" }]",
        6,
        4,
        1,
    ),
];

/// Faults of sources.
const SOURCES: [Row; 13] = [
    (
        "point = [{ name = \"a\", address = \"::1\", sources = 1 }]",
        0,
        4,
        0,
    ),
    (
        "point = [{ name = \"a\", address = \"::1\", sources = [] }]",
        14,
        4,
        0,
    ),
    (
        "point = [{ name = \"a\", address = \"::1\", sources = [1] }]",
        0,
        4,
        0,
    ),
    (
        "point = [{ name = \"a\", address = \"::1\", sources = [{ priority = 0 }] }]",
        0,
        4,
        0,
    ),
    (
        "point = [{ name = \"a\", address = \"::1\", sources = [{ from = 1, priority = 0 }] }]",
        0,
        4,
        0,
    ),
    (
        "point = [{ name = \"a\", address = \"::1\", sources = [{ from = \"\", priority = 0 }] }]",
        16,
        4,
        0,
    ),
    (
        "point = [{ name = \"a\", address = \"::1\", sources = [{ from = \"a\" }] }]",
        0,
        4,
        0,
    ),
    (
        "point = [{ name = \"a\", address = \"::1\", sources = [{ from = \"a\", priority = \"0\" }] }]",
        0,
        4,
        0,
    ),
    (
        "point = [{ name = \"a\", address = \"::1\", sources = [{ from = \"a\", priority = -1 }] }]",
        16,
        4,
        0,
    ),
    (
        "point = [{ name = \"a\", address = \"::1\", sources = [{ from = \"a\", priority = 256 }] }]",
        16,
        4,
        0,
    ),
    (
        "point = [{ name = \"a\", address = \"::1\", sources = [{ from = \"b\", priority = 0 }] }]",
        12,
        4,
        0,
    ),
    (
        "point = [{ name = \"a\", address = \"::1\", sources = [{ from = \"site\", priority = 0 }] }]",
        12,
        4,
        0,
    ),
    (
        "point = [{ name = \"a\", address = \"::1\", sources = [{ from = \"A\", priority = 0 }] }]",
        13,
        4,
        0,
    ),
];

/// Faults of point groups.
const POINT_GROUPS: [Row; 10] = [
    ("point_group = 1", 0, 5, 0),
    ("point_group = [{ name = \"a\" }, 1]", 0, 5, 1),
    ("point_group = [{ members = [] }]", 0, 5, 0),
    ("point_group = [{ name = 1 }]", 0, 5, 0),
    ("point_group = [{ name = \"\" }]", 16, 5, 0),
    ("point_group = [{ name = \"a\", members = 1 }]", 0, 5, 0),
    ("point_group = [{ name = \"a\", members = [1] }]", 0, 5, 0),
    (
        "point_group = [{ name = \"a\", members = [\"\"] }]",
        16,
        5,
        0,
    ),
    (
        "point_group = [{ name = \"a\" }, { name = \"a\" }]",
        6,
        5,
        1,
    ),
    (
        "point_group = [{ name = \"a\", members = [\"b\"] }]",
        12,
        5,
        0,
    ),
];

/// Faults of peers and of the default points.
const PEERS: [Row; 20] = [
    ("peer = 1", 0, 6, 0),
    (
        "peer = [{ name = \"a\", address = \"::1\", connections = 1 }, 1]",
        0,
        6,
        1,
    ),
    ("peer = [{ address = \"::1\", connections = 1 }]", 0, 6, 0),
    (
        "peer = [{ name = 1, address = \"::1\", connections = 1 }]",
        0,
        6,
        0,
    ),
    (
        "peer = [{ name = \"\", address = \"::1\", connections = 1 }]",
        16,
        6,
        0,
    ),
    ("peer = [{ name = \"a\", connections = 1 }]", 0, 6, 0),
    (
        "peer = [{ name = \"a\", address = 1, connections = 1 }]",
        0,
        6,
        0,
    ),
    (
        "peer = [{ name = \"a\", address = \"\", connections = 1 }]",
        1,
        6,
        0,
    ),
    (
        "peer = [{ name = \"a\", address = \"::1\", site = 1, connections = 1 }]",
        0,
        6,
        0,
    ),
    (
        "peer = [{ name = \"a\", address = \"::1\", site = \"\", connections = 1 }]",
        16,
        6,
        0,
    ),
    ("peer = [{ name = \"a\", address = \"::1\" }]", 0, 6, 0),
    (
        "peer = [{ name = \"a\", address = \"::1\", connections = \"1\" }]",
        0,
        6,
        0,
    ),
    (
        "peer = [{ name = \"a\", address = \"::1\", connections = -1 }]",
        16,
        6,
        0,
    ),
    (
        "peer = [{ name = \"a\", address = \"::1\", connections = 65536 }]",
        16,
        6,
        0,
    ),
    (
        "peer = [{ name = \"a\", address = \"::1\", connections = 1 }, { name = \"a\", address = \"::1\", connections = 1 }]",
        6,
        6,
        1,
    ),
    ("default = 1", 0, 7, 0),
    ("default = { points = 1 }", 0, 7, 0),
    ("default = { points = [1] }", 0, 7, 0),
    ("default = { points = [\"a b\"] }", 16, 7, 0),
    ("default = { points = [\"a\"] }", 12, 7, 0),
];

#[test]
fn each_fault_has_its_place(rt: HostRuntime) -> Result<(), Fail> {
    let alloc = rt.alloc();
    are_faults(&rt, alloc, &BOUNDARIES)?;
    are_faults(&rt, alloc, &GROUPS)?;
    are_faults(&rt, alloc, &RELATIONS)?;
    are_faults(&rt, alloc, &POINTS)?;
    are_faults(&rt, alloc, &SOURCES)?;
    are_faults(&rt, alloc, &POINT_GROUPS)?;
    are_faults(&rt, alloc, &PEERS)
}
