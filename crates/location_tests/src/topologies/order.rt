//! Two faults in neighbouring places: the one that comes first in the order is answered, wherever it stands in the text.

use super::base::{Row, are_faults};
use std::test::Fail;

/// The first pass through boundaries, groups and relations.
const GROUPS_FIRST: [Row; 16] = [
    ("boundary = [{ at = 1, name = \"\" }]", 16, 1, 0),
    (
        "boundary = [{ name = \"a\", at = \"subnet:10.1.2.1/24\" }, { name = 1 }]",
        4,
        1,
        0,
    ),
    (
        "group = [{ name = \"\" }]\nboundary = [{ name = \"a\", at = 1 }]",
        0,
        1,
        0,
    ),
    ("group = 1\nboundary = 1", 0, 1, 0),
    ("group = [{ boundaries = 1, name = \"\" }]", 16, 2, 0),
    (
        "group = [{ name = \"G\", boundaries = [\"\", 1] }]",
        16,
        2,
        0,
    ),
    (
        "group = [{ name = \"G\", boundaries = [1, \"\"] }]",
        0,
        2,
        0,
    ),
    (
        "group = [{ name = \"G\", points = 1, boundaries = [\"\"] }]",
        16,
        2,
        0,
    ),
    (
        "group = [{ name = \"G\", peers = 1, points = [\"\"] }]",
        16,
        2,
        0,
    ),
    (
        "group = [{ name = \"G\", prefer_points = 1 }, { name = \"\" }]",
        0,
        2,
        0,
    ),
    (
        "group = [{ name = \"G\", relation = [{ to = \"\" }], prefer_points = 1 }]",
        0,
        2,
        0,
    ),
    ("group = [{ name = \"G\", relation = 1 }, 1]", 0, 2, 1),
    (
        "group = [{ name = \"G\", relation = [{ minutes = true, to = \"\" }] }]",
        16,
        3,
        0,
    ),
    (
        "group = [{ name = \"G\", relation = [{ to = \"H\", minutes = -1 }, { to = 1 }] }]",
        11,
        3,
        0,
    ),
    (
        "group = [{ name = \"G\", relation = [{ to = \"H\", minutes = -1 }] }, { name = \"H\", relation = 1 }]",
        11,
        3,
        0,
    ),
    (
        "point = 1\ngroup = [{ name = \"G\", relation = [{ to = 1 }] }]",
        0,
        3,
        0,
    ),
];

/// The first pass through points, point groups, peers and default points.
const SERVERS_FIRST: [Row; 17] = [
    ("point = [{ address = 1, name = \"site\" }]", 16, 4, 0),
    (
        "point = [{ name = \"a\", site = 1, address = \"\" }]",
        1,
        4,
        0,
    ),
    (
        "point = [{ name = \"a\", address = \"::1\", sources = 1, site = \"\" }]",
        16,
        4,
        0,
    ),
    (
        "point = [{ name = \"a\", address = \"::1\", sources = [], site = 1 }]",
        0,
        4,
        0,
    ),
    (
        "point = [{ name = \"a\", address = \"::1\", sources = [{ priority = true, from = \"\" }] }]",
        16,
        4,
        0,
    ),
    (
        "point = [{ name = \"a\", address = \"::1\", sources = [{ from = \"b\", priority = 256 }, { from = 1 }] }]",
        16,
        4,
        0,
    ),
    (
        "point = [{ name = \"a\", address = \"::1\", sources = [] }, { name = 1 }]",
        14,
        4,
        0,
    ),
    ("point_group = 1\npoint = 1", 0, 4, 0),
    ("point_group = [{ members = 1, name = \"\" }]", 16, 5, 0),
    (
        "point_group = [{ name = \"a\", members = [\"\"] }, 1]",
        16,
        5,
        0,
    ),
    ("peer = 1\npoint_group = 1", 0, 5, 0),
    ("peer = [{ address = 1, name = \"\" }]", 16, 6, 0),
    (
        "peer = [{ name = \"a\", site = 1, address = \"\" }]",
        1,
        6,
        0,
    ),
    (
        "peer = [{ name = \"a\", address = \"::1\", connections = true, site = \"\" }]",
        16,
        6,
        0,
    ),
    (
        "peer = [{ name = \"a\", address = \"::1\", connections = -1 }, 1]",
        16,
        6,
        0,
    ),
    ("default = 1\npeer = 1", 0, 6, 0),
    (
        "default = { points = [\"\"] }\nboundary = [{ name = \"a\", at = \"site:a\" }, { name = \"a\", at = \"site:a\" }]",
        16,
        7,
        0,
    ),
];

/// The second pass through boundaries, groups and relations.
const GROUPS_SECOND: [Row; 10] = [
    (
        "group = [{ name = \"G\" }, { name = \"G\" }]\nboundary = [{ name = \"a\", at = \"site:a\" }, { name = \"a\", at = \"site:a\" }]",
        6,
        1,
        1,
    ),
    (
        "group = [{ name = \"G\" }, { name = \"G\", boundaries = [\"x\"] }]",
        6,
        2,
        1,
    ),
    (
        "group = [{ name = \"G\", points = [\"y\"], boundaries = [\"x\"] }]",
        8,
        2,
        0,
    ),
    (
        "group = [{ name = \"G\", points = [\"y\"] }, { name = \"G\" }]",
        12,
        2,
        0,
    ),
    (
        "group = [{ name = \"G\", relation = [{ to = \"x\" }] }, { name = \"H\", points = [\"y\"] }]",
        12,
        2,
        1,
    ),
    (
        "group = [{ name = \"G\", relation = [{ to = \"x\" }, { to = \"G\" }] }]",
        7,
        3,
        0,
    ),
    (
        "group = [{ name = \"G\", relation = [{ to = \"G\" }, { to = \"x\" }] }]",
        9,
        3,
        0,
    ),
    (
        "group = [{ name = \"G\" }, { name = \"H\", relation = [{ to = \"G\" }, { to = \"G\" }, { to = \"x\" }] }]",
        10,
        3,
        1,
    ),
    (
        "group = [{ name = \"G\", relation = [{ to = \"G\" }] }, { name = \"H\", relation = [{ to = \"x\" }] }]",
        9,
        3,
        0,
    ),
    (
        "point = [{ name = \"a\", address = \"::1\" }, { name = \"a\", address = \"::1\" }]\ngroup = [{ name = \"G\", relation = [{ to = \"x\" }] }]",
        7,
        3,
        0,
    ),
];

/// The second pass through points, point groups, peers and default points.
const SERVERS_SECOND: [Row; 9] = [
    (
        "point = [{ name = \"a\", address = \"::1\" }, { name = \"a\", address = \"::1\", sources = [{ from = \"x\", priority = 0 }] }]",
        6,
        4,
        1,
    ),
    (
        "point = [{ name = \"a\", address = \"::1\", sources = [{ from = \"x\", priority = 0 }, { from = \"a\", priority = 0 }] }]",
        12,
        4,
        0,
    ),
    (
        "point = [{ name = \"a\", address = \"::1\", sources = [{ from = \"a\", priority = 0 }, { from = \"x\", priority = 0 }] }]",
        13,
        4,
        0,
    ),
    (
        "point = [{ name = \"a\", address = \"::1\", sources = [{ from = \"a\", priority = 0 }] }, { name = \"a\", address = \"::1\" }]",
        13,
        4,
        0,
    ),
    (
        "point_group = [{ name = \"a\" }, { name = \"a\" }]\npoint = [{ name = \"a\", address = \"::1\", sources = [{ from = \"x\", priority = 0 }] }]",
        12,
        4,
        0,
    ),
    (
        "point_group = [{ name = \"p\" }, { name = \"p\", members = [\"x\"] }]",
        6,
        5,
        1,
    ),
    (
        "point_group = [{ name = \"p\", members = [\"x\"] }, { name = \"p\" }]",
        12,
        5,
        0,
    ),
    (
        "peer = [{ name = \"a\", address = \"::1\", connections = 1 }, { name = \"a\", address = \"::1\", connections = 1 }]\npoint_group = [{ name = \"p\", members = [\"x\"] }]",
        12,
        5,
        0,
    ),
    (
        "default = { points = [\"x\"] }\npeer = [{ name = \"a\", address = \"::1\", connections = 1 }, { name = \"a\", address = \"::1\", connections = 1 }]",
        6,
        6,
        1,
    ),
];

#[test]
fn the_first_of_two_faults_is_answered(rt: HostRuntime) -> Result<(), Fail> {
    let alloc = rt.alloc();
    are_faults(&rt, alloc, &GROUPS_FIRST)?;
    are_faults(&rt, alloc, &SERVERS_FIRST)?;
    are_faults(&rt, alloc, &GROUPS_SECOND)?;
    are_faults(&rt, alloc, &SERVERS_SECOND)
}
