//! The worked rows, through the public calls.
ghost use Rattle.std.specs.Prelude.{◌≡◌, ◌+◌, ◌<◌, ◌≤◌};
ghost use Rattle.cm_net.specs.Boundaries.{is_of_family, is_site, rows_of};

use arrayvec::ArrayVec;
use cm_net::{Address, Boundary, Index, NetFault, SiteName, Steps, inside};
use std::marker::Brand;
use std::process::Abort;
use std::sync::ledger::{Blank, Ledger};
use std::test::Fail;

fn fault_of(text: &str) -> Option<NetFault> {
    match Boundary::read(text.as_bytes()) {
        Ok(_) => None,
        Err(fault) => Some(fault),
    }
}

#[test]
fn boundaries_are_read_and_written(rt: HostRuntime) {
    let rows = [
        ("subnet:10.1.2.1/24", NetFault::HostBitsSet),
        ("subnet:10.1.2.0/33", NetFault::BadLength),
        ("subnet:10.1.2.0", NetFault::BadLength),
        ("subnet:10.1.2.0/", NetFault::BadLength),
        ("subnet:10.1.2.0/024", NetFault::BadLength),
        ("subnet:10.1.2.0/24x", NetFault::BadLength),
        ("prefix:2001:db8::/129", NetFault::BadLength),
        ("prefix:::", NetFault::BadLength),
        ("prefix:2001:db8::1/64", NetFault::HostBitsSet),
        ("range:10.0.0.9-10.0.0.1", NetFault::RangeBackwards),
        ("range:10.0.0.1-::1", NetFault::MixedFamilies),
        ("range:::2-10.0.0.1", NetFault::MixedFamilies),
        ("net:10.0.0.0/8", NetFault::BadAddress { at: 0 }),
        ("subx", NetFault::BadAddress { at: 0 }),
        ("sub", NetFault::BadAddress { at: 3 }),
        ("", NetFault::BadAddress { at: 0 }),
        ("subnet:10.1.256.0/24", NetFault::BadAddress { at: 14 }),
        ("subnet:10.1.2", NetFault::BadAddress { at: 13 }),
        ("subnet:10.1.02.0/24", NetFault::BadAddress { at: 13 }),
        ("subnet:10.1.2.0x", NetFault::BadAddress { at: 15 }),
        ("subnet:10.1.2/24", NetFault::BadAddress { at: 13 }),
        ("prefix:1::2::3/8", NetFault::BadAddress { at: 12 }),
        ("range:10.0.0.1", NetFault::BadAddress { at: 14 }),
        ("range:10.0.0.1-", NetFault::BadAddress { at: 15 }),
        ("range:10.0.0.1-1.2.3.4-", NetFault::BadAddress { at: 22 }),
        ("site:", NetFault::BadAddress { at: 5 }),
        ("site:a b", NetFault::BadAddress { at: 6 }),
    ];
    for (text, fault) in rows {
        assert!(rt; fault_of(text) == Some(fault), "{text}");
    }
    let spellings = [
        ("prefix:2001:DB8::/32", "prefix:2001:db8:0:0:0:0:0:0/32"),
        ("subnet:0.0.0.0/0", "subnet:0.0.0.0/0"),
        ("subnet:255.255.255.255/32", "subnet:255.255.255.255/32"),
        ("range:10.0.0.1-10.0.0.1", "range:10.0.0.1-10.0.0.1"),
        ("range:::-0ABC::", "range:0:0:0:0:0:0:0:0-abc:0:0:0:0:0:0:0"),
        ("site:Paris-2_x.Y", "site:paris-2_x.y"),
        (
            "range:1111:1111:1111:1111:1111:1111:1111:1111-ffff:ffff:ffff:ffff:ffff:ffff:ffff:ffff",
            "range:1111:1111:1111:1111:1111:1111:1111:1111-ffff:ffff:ffff:ffff:ffff:ffff:ffff:ffff",
        ),
    ];
    for (text, spelling) in spellings {
        let mut out = ArrayVec::new();
        match Boundary::read(text.as_bytes()) {
            Ok(boundary) => boundary.write(&mut out),
            Err(_) => {}
        }
        assert!(rt; out.as_slice() == spelling.as_bytes(), "{text}");
    }
}

#[test]
fn addresses_are_read_and_written(rt: HostRuntime) {
    let rows = [
        ("0.0.0.0", Ok(Address::V4(0))),
        ("255.255.255.255", Ok(Address::V4(0xffff_ffff))),
        ("10.1.2.50", Ok(Address::V4(0x0a01_0232))),
        ("::", Ok(Address::V6(0))),
        ("::1", Ok(Address::V6(1))),
        ("1::", Ok(Address::V6(1 << 112))),
        (
            "1:2:3:4:5:6:7:8",
            Ok(Address::V6(0x0001_0002_0003_0004_0005_0006_0007_0008)),
        ),
        (
            "1:2:3:4:5:6:7::",
            Ok(Address::V6(0x0001_0002_0003_0004_0005_0006_0007_0000)),
        ),
        (
            "::2:3:4:5:6:7:8",
            Ok(Address::V6(0x0000_0002_0003_0004_0005_0006_0007_0008)),
        ),
        (
            "ffff:FFFF:ffff:ffff:ffff:ffff:ffff:ffff",
            Ok(Address::V6(u128::MAX)),
        ),
        ("1:2:3:4:5:6:7:8:9", Err(NetFault::BadAddress { at: 15 })),
        ("1:2:3:4:5:6:7:8::", Err(NetFault::BadAddress { at: 15 })),
        ("1:2:3:4:5:6:7::8", Err(NetFault::BadAddress { at: 15 })),
        ("1::2::3", Err(NetFault::BadAddress { at: 5 })),
        (":1", Err(NetFault::BadAddress { at: 1 })),
        ("256.1.1.1", Err(NetFault::BadAddress { at: 3 })),
        ("01.2.3.4", Err(NetFault::BadAddress { at: 2 })),
        ("1.2.3.4.5", Err(NetFault::BadAddress { at: 7 })),
        ("12345", Err(NetFault::BadAddress { at: 4 })),
        ("::1.2.3.4", Err(NetFault::BadAddress { at: 3 })),
        ("", Err(NetFault::BadAddress { at: 0 })),
    ];
    for (text, answer) in rows {
        assert!(rt; Address::read(text.as_bytes()) == answer, "{text}");
    }
    let spellings = [
        (Address::V4(0x0a01_0232), "10.1.2.50"),
        (Address::V4(u32::MAX), "255.255.255.255"),
        (Address::V6(1 << 112), "1:0:0:0:0:0:0:0"),
        (
            Address::V6(u128::MAX),
            "ffff:ffff:ffff:ffff:ffff:ffff:ffff:ffff",
        ),
    ];
    for (address, text) in spellings {
        let mut out = ArrayVec::new();
        address.write(&mut out);
        assert!(rt; out.as_slice() == text.as_bytes(), "{text}");
    }
}

/// Whether the boundary holds the client, whose site is none where the text is no name.
fn holds(text: &str, address: Address, site: &str) -> bool {
    let Ok(boundary) = Boundary::read(text.as_bytes()) else {
        return false;
    };
    match SiteName::read(site.as_bytes()) {
        Some(name) => inside(&boundary, address, Some(&name)),
        None => inside(&boundary, address, None),
    }
}

#[test]
fn boundaries_hold_clients(rt: HostRuntime) {
    let first = Address::V4(0x0a00_0001);
    let rows = [
        ("subnet:0.0.0.0/0", Address::V4(0), "", true),
        ("subnet:0.0.0.0/0", Address::V4(u32::MAX), "", true),
        ("subnet:0.0.0.0/0", Address::V6(1), "", false),
        ("prefix:::/0", Address::V6(u128::MAX), "", true),
        ("prefix:::/0", first, "", false),
        ("range:10.0.0.1-10.0.0.1", first, "", true),
        (
            "range:10.0.0.1-10.0.0.1",
            Address::V4(0x0a00_0002),
            "",
            false,
        ),
        ("subnet:10.0.0.0/24", Address::V4(0x0a00_00ff), "", true),
        ("subnet:10.0.0.0/24", Address::V4(0x0a00_0100), "", false),
        ("site:Paris", first, "PARIS", true),
        ("site:Lyon", first, "PARIS", false),
        ("site:Paris", first, "", false),
    ];
    for (text, address, site, held) in rows {
        assert!(rt; holds(text, address, site) == held, "{text} {site}");
    }
}

/// Whether the index has these groups for a client by its address and by its site.
fn is_found<L: Ledger>(
    index: &Index,
    address: Address,
    site: Option<&SiteName>,
    by_address: &[u16],
    by_site: &[u16],
    steps: &mut Steps<L>,
) -> bool
    ensures three_rows { rows_of (is_of_family address) index.now ≤ 3 → rows_of is_site index.now ≡ 0 → steps.new ≤ steps.old + 3 }
    ensures no_row { rows_of (is_of_family address) index.now ≡ 0 → rows_of is_site index.now ≡ 0 → steps.new ≤ steps.old + 1 }
{
    let (by_its_address, by_its_site) = index.of(address, site, steps);
    (by_its_address == by_address) & (by_its_site == by_site)
}

fn are_counted<L: Ledger>(
    rt: &impl Abort,
    blank: Blank,
    index: &Index,
    clients: &[(Address, Option<SiteName>, &[u16], &[u16])],
)
    requires name { blank.name ≡ L.name }
    requires parts { blank.parts ≡ L.parts }
    requires some { 0 < L.parts }
{
    let mut steps = Steps::<L>::new(blank);
    for (address, site, by_address, by_site) in clients {
        let site = site.as_ref();
        assert!(rt; is_found(index, *address, site, by_address, by_site, &mut steps));
    }
}

/// The index of the rows has these groups for these clients.
fn are_found(
    rt: &impl Abort,
    index: &Index,
    clients: &[(Address, Option<SiteName>, &[u16], &[u16])],
) {
    are_counted::<Brand>(rt, Blank::new(1), index, clients);
}

#[test]
fn an_index_finds_groups(rt: HostRuntime) -> Result<(), Fail> {
    let nested = [
        (
            Boundary::Subnet {
                net: 0x0A00_0000,
                bits: 8,
            },
            1,
        ),
        (
            Boundary::Range4 {
                from: 0x0A00_0005,
                to: 0x0A00_0005,
            },
            2,
        ),
        (Boundary::Subnet { net: 0, bits: 0 }, 3),
    ];
    let clients: [(Address, Option<SiteName>, &[u16], &[u16]); 5] = [
        (Address::V4(0x0A00_0005), None, &[1, 2, 3], &[]),
        (Address::V4(0x0A00_0006), None, &[1, 3], &[]),
        (Address::V4(0), None, &[3], &[]),
        (Address::V4(u32::MAX), None, &[3], &[]),
        (Address::V6(5), None, &[], &[]),
    ];
    are_found(&rt, &Index::build(rt.alloc(), &nested)?, &clients);
    let (Some(paris), Some(lyon)) = (SiteName::read(b"Paris"), SiteName::read(b"lyon")) else {
        return Err(Fail::new("no names"));
    };
    let mixed = [
        (Boundary::Site { name: paris }, 9),
        (Boundary::Range4 { from: 10, to: 90 }, 6),
        (Boundary::Range4 { from: 20, to: 30 }, 6),
        (Boundary::Site { name: lyon }, 2),
        (Boundary::Range4 { from: 91, to: 91 }, 6),
        (Boundary::Range4 { from: 30, to: 40 }, 5),
        (Boundary::Site { name: paris }, 3),
        (
            Boundary::Range6 {
                from: 7,
                to: u128::MAX,
            },
            4,
        ),
    ];
    let clients: [(Address, Option<SiteName>, &[u16], &[u16]); 6] = [
        (Address::V4(9), SiteName::read(b"PARIS"), &[], &[3, 9]),
        (Address::V4(30), SiteName::read(b"lyon"), &[5, 6], &[2]),
        (Address::V4(41), SiteName::read(b"nice"), &[6], &[]),
        (Address::V4(91), None, &[6], &[]),
        (Address::V4(92), None, &[], &[]),
        (Address::V6(u128::MAX), None, &[4], &[]),
    ];
    are_found(&rt, &Index::build(rt.alloc(), &mixed)?, &clients);
    Ok(())
}
