//! The worked example: three groups in France, and the faults of texts.
ghost use Rattle.std.specs.Prelude.{◌≤◌, All, IfOk};
ghost use Rattle.cm_net.specs.Boundaries.{IsSound};

use cm_base::{Label, List, ServerName};
use cm_groups::{Fallback, GroupText, Groups, GroupsFault, Options, SiteCode};
use cm_net::{Address, Boundary, SiteName};
use std::alloc::Global;
use std::process::Abort;
use std::test::Fail;

const DEFAULT: &str = "Default-Site-Boundary-Group<PS1>";

fn label(text: &[u8]) -> Result<Label, Fail> {
    match Label::read(text) {
        Some(label) => Ok(label),
        None => Err(Fail::new("no label")),
    }
}

fn labels(alloc: Global, texts: &[&str]) -> Result<List<Label>, Fail> {
    let mut labels = Vec::new(alloc);
    for text in texts {
        labels.push(label(text.as_bytes())?)?;
    }
    Ok(List::of(labels))
}

fn servers(alloc: Global, texts: &[&str]) -> Result<Vec<ServerName>, Fail> {
    let mut names = Vec::new(alloc);
    for text in texts {
        match ServerName::read(text.as_bytes()) {
            Some(name) => names.push(name)?,
            None => return Err(Fail::new("no name")),
        }
    }
    Ok(names)
}

fn code() -> Result<SiteCode, Fail> {
    match SiteCode::read(b"PS1") {
        Some(code) => Ok(code),
        None => Err(Fail::new("no code")),
    }
}

/// A group with the boundaries, the point and the relations that are named.
fn text(
    alloc: Global,
    name: &str,
    boundaries: &[&str],
    point: &str,
    relations: &[(&str, Fallback)],
) -> Result<GroupText, Fail> {
    let mut leads = Vec::new(alloc);
    for (to, fallback) in relations {
        leads.push((label(to.as_bytes())?, *fallback))?;
    }
    Ok(GroupText {
        name: label(name.as_bytes())?,
        options: Options::default(),
        boundaries: labels(alloc, boundaries)?,
        points: List::of(servers(alloc, &[point])?),
        relations: List::of(leads),
    })
}

/// A boundary that a text spells.
fn boundary(text: &str) -> Result<Boundary, Fail>
    ensures { IfOk result (λ boundary. IsSound boundary) }
{
    match Boundary::read(text.as_bytes()) {
        Ok(boundary) => Ok(boundary),
        Err(_) => Err(Fail::new("no boundary")),
    }
}

fn add(rows: &mut Vec<(Label, Boundary)>, name: &str, at: &str) -> Result<(), Fail>
    requires { All (λ row. IsSound row.1) rows.old.items }
    ensures { All (λ row. IsSound row.1) rows.new.items }
{
    let row = (label(name.as_bytes())?, boundary(at)?);
    rows.push(row)?;
    Ok(())
}

fn french_boundaries(alloc: Global) -> Result<Vec<(Label, Boundary)>, Fail>
    ensures { IfOk result (λ rows. All (λ row. IsSound row.1) rows.items) }
{
    let mut rows = Vec::new(alloc);
    add(&mut rows, "paris-lan", "subnet:10.1.2.0/24")?;
    add(&mut rows, "paris-site", "site:Paris")?;
    add(&mut rows, "lyon-range", "range:10.2.0.10-10.2.0.20")?;
    add(&mut rows, "lyon-v6", "prefix:2001:db8:1::/48")?;
    Ok(rows)
}

/// The groups Paris, Floor3 and Lyon, where Paris has these relations.
fn french_groups(alloc: Global, paris: &[(&str, Fallback)]) -> Result<Groups, Fail> {
    let rows = french_boundaries(alloc)?;
    let mut texts = Vec::new(alloc);
    texts.push(text(alloc, "Paris", &["paris-lan", "paris-site"], "dp1", paris)?)?;
    texts.push(text(alloc, "Floor3", &["paris-lan"], "dp3", &[])?)?;
    let lyon = [(DEFAULT, Fallback::After(10))];
    texts.push(text(alloc, "Lyon", &["lyon-range", "lyon-v6"], "dp4", &lyon)?)?;
    let points = servers(alloc, &["dp5"])?;
    Ok(Groups::build(alloc, code()?, rows, texts, points)?)
}

/// Who asks, and the groups that are wanted: the current ones, and the reached ones after so many minutes, with leave to
/// reach neighbours and the default group.
#[derive(Clone, Copy)]
struct Row {
    address: Address,
    is_paris: bool,
    current: &'static [u16],
    elapsed: u32,
    leave: (bool, bool),
    reached: &'static [u16],
}

fn look(rt: &impl Abort, alloc: Global, groups: &Groups, row: &Row) -> Result<(), Fail> {
    let name = if row.is_paris {
        SiteName::read(b"Paris")
    } else {
        None
    };
    let current = groups.current(alloc, row.address, name.as_ref())?;
    assert!(rt; current.as_slice() == row.current);
    let reached = groups.reach(alloc, &current, row.elapsed, row.leave.0, row.leave.1)?;
    assert!(rt;
        reached.as_slice() == row.reached,
        "after {} minutes",
        row.elapsed
    );
    Ok(())
}

const PARIS: Address = Address::V4(0x0a01_0232);

const LYON: Address = Address::V4(0x0a02_0014);

const BESIDE_LYON: Address = Address::V4(0x0a02_0015);

const LAST_OF_LYON: Address = Address::V6(0x2001_0db8_0001_ffff_ffff_ffff_ffff_ffff);

const ALL: (bool, bool) = (true, true);

fn asked(
    address: Address,
    is_paris: bool,
    current: &'static [u16],
    elapsed: u32,
    leave: (bool, bool),
    reached: &'static [u16],
) -> Row {
    Row {
        address,
        is_paris,
        current,
        elapsed,
        leave,
        reached,
    }
}

#[test]
fn paris_falls_back(rt: HostRuntime) -> Result<(), Fail> {
    let groups = french_groups(rt.alloc(), &[("Lyon", Fallback::After(30))])?;
    let rows = [
        (0, ALL, &[][..]),
        (29, ALL, &[]),
        (30, ALL, &[3]),
        (119, ALL, &[3]),
        (120, ALL, &[0, 3]),
        (120, (false, true), &[0]),
        (120, (true, false), &[3]),
        (119, (false, true), &[]),
    ];
    for (elapsed, leave, reached) in rows {
        look(
            &rt,
            rt.alloc(),
            &groups,
            &asked(PARIS, true, &[1, 2], elapsed, leave, reached),
        )?;
    }
    look(
        &rt,
        rt.alloc(),
        &groups,
        &asked(BESIDE_LYON, true, &[1], 30, ALL, &[3]),
    )
}

#[test]
fn paris_has_a_relation_of_its_own(rt: HostRuntime) -> Result<(), Fail> {
    let own = [
        ("Lyon", Fallback::After(30)),
        (DEFAULT, Fallback::After(10)),
    ];
    let groups = french_groups(rt.alloc(), &own)?;
    for (elapsed, reached) in [(9, &[][..]), (10, &[0]), (29, &[0]), (30, &[0, 3])] {
        look(
            &rt,
            rt.alloc(),
            &groups,
            &asked(PARIS, true, &[1, 2], elapsed, ALL, reached),
        )?;
    }
    let never = [("Lyon", Fallback::Never), (DEFAULT, Fallback::Never)];
    let groups = french_groups(rt.alloc(), &never)?;
    look(
        &rt,
        rt.alloc(),
        &groups,
        &asked(BESIDE_LYON, true, &[1], 9999, ALL, &[]),
    )
}

#[test]
fn lyon_falls_back(rt: HostRuntime) -> Result<(), Fail> {
    let groups = french_groups(rt.alloc(), &[("Lyon", Fallback::After(30))])?;
    let rows = [
        (LYON, &[3][..], 0, ALL, &[][..]),
        (LYON, &[3], 9, ALL, &[]),
        (LYON, &[3], 10, ALL, &[0]),
        (BESIDE_LYON, &[], 0, ALL, &[0]),
        (BESIDE_LYON, &[], 0, (true, false), &[]),
        (LAST_OF_LYON, &[3], 0, ALL, &[]),
    ];
    for (address, current, elapsed, leave, reached) in rows {
        look(
            &rt,
            rt.alloc(),
            &groups,
            &asked(address, false, current, elapsed, leave, reached),
        )?;
    }
    Ok(())
}

/// The fault of groups with French boundaries.
fn fault_of(alloc: Global, texts: Vec<GroupText>) -> Result<Option<GroupsFault>, Fail> {
    let rows = french_boundaries(alloc)?;
    match Groups::build(alloc, code()?, rows, texts, Vec::new(alloc)) {
        Ok(_) => Ok(None),
        Err(fault) => Ok(Some(fault)),
    }
}

/// The fault of a group of this name, with one boundary and these relations, behind the group `First`.
fn fault_behind(
    alloc: Global,
    name: &str,
    held: &str,
    relations: &[(&str, Fallback)],
) -> Result<Option<GroupsFault>, Fail> {
    let mut texts = Vec::new(alloc);
    texts.push(text(alloc, "First", &[], "dp1", &[])?)?;
    texts.push(text(alloc, name, &[held], "dp1", relations)?)?;
    fault_of(alloc, texts)
}

const SOON: Fallback = Fallback::After(10_000);

const LATE: Fallback = Fallback::After(10_001);

/// Whether the second group has this fault.
fn has_fault(
    alloc: Global,
    name: &str,
    held: &str,
    relations: &[(&str, Fallback)],
    fault: GroupsFault,
) -> Result<bool, Fail> {
    Ok(fault_behind(alloc, name, held, relations)? == Some(fault))
}

#[test]
fn texts_have_faults(rt: HostRuntime) -> Result<(), Fail> {
    let alloc = rt.alloc();
    let (part, entry) = (1, 1);
    let lan = "paris-lan";
    let fine = fault_behind(alloc, "Next", lan, &[("First", SOON)])?;
    assert!(rt; fine == None);
    let same = GroupsFault::SameName { part, entry };
    assert!(rt; has_fault(alloc, "First", lan, &[], same)?);
    assert!(rt; has_fault(alloc, DEFAULT, lan, &[], same)?);
    let nowhere = GroupsFault::NoSuchGroup { part, entry };
    assert!(rt; has_fault(alloc, "Next", lan, &[("Third", SOON)], nowhere)?);
    let boundary = GroupsFault::NoSuchBoundary { part, entry };
    assert!(rt; has_fault(alloc, "Next", "lan", &[], boundary)?);
    let itself = GroupsFault::SelfRelation { part, entry };
    assert!(rt; has_fault(alloc, "Next", lan, &[("Next", SOON)], itself)?);
    let twice = [("First", SOON), (DEFAULT, SOON), ("First", Fallback::Never)];
    let relation = GroupsFault::SameRelation { part, entry };
    assert!(rt; has_fault(alloc, "Next", lan, &twice, relation)?);
    let long = GroupsFault::TooLongFallback { part, entry };
    assert!(rt; has_fault(alloc, "Next", lan, &[("First", LATE)], long)?);
    Ok(())
}

#[test]
fn the_least_fault_is_answered(rt: HostRuntime) -> Result<(), Fail> {
    let (part, entry) = (1, 1);
    let boundary = GroupsFault::NoSuchBoundary { part, entry };
    assert!(rt; has_fault(rt.alloc(), "Next", "lan", &[("Next", LATE)], boundary)?);
    let same = GroupsFault::SameName { part, entry };
    assert!(rt; has_fault(rt.alloc(), "First", "lan", &[("Third", LATE)], same)?);
    Ok(())
}

/// A letter and four digits.
fn numbered(letter: u8, number: u16) -> Result<Label, Fail>
    requires { number ≤ 9999 }
{
    let digits = [
        number / 1000,
        number / 100 % 10,
        number / 10 % 10,
        number % 10,
    ];
    let mut name = [letter; 5];
    for (i, digit) in digits.iter().enumerate() {
        name[i + 1] = b'0' + (*digit % 10) as u8;
    }
    label(&name)
}

/// So many boundaries of eight addresses each.
fn many_boundaries(alloc: Global, count: u16) -> Result<Vec<(Label, Boundary)>, Fail>
    requires { count ≤ 2001 }
    ensures { IfOk result (λ rows. All (λ row. IsSound row.1) rows.items) }
{
    let mut rows = Vec::new(alloc);
    for number in 0..count {
        let from = u32::from(number) * 16;
        let to = from + 7;
        rows.push((numbered(b'b', number)?, Boundary::Range4 { from, to }))?;
    }
    Ok(rows)
}

/// So many groups with four boundaries each, and each with so many relations, to the groups behind it in a circle.
fn many_groups(alloc: Global, count: u16, most: u16) -> Result<Vec<GroupText>, Fail>
    requires count { count ≤ 501 }
    requires most { most ≤ 65 }
{
    let mut texts = Vec::new(alloc);
    for number in 0..count {
        let mut held = Vec::new(alloc);
        for k in 0..4 {
            held.push(numbered(b'b', (number * 4 + k) % 2000)?)?;
        }
        let mut relations = Vec::new(alloc);
        for k in 0..most {
            let to = numbered(b'g', (number + k + 1) % count)?;
            relations.push((to, Fallback::After(k)))?;
        }
        texts.push(GroupText {
            name: numbered(b'g', number)?,
            options: Options::default(),
            boundaries: List::of(held),
            points: List::of(Vec::new(alloc)),
            relations: List::of(relations),
        })?;
    }
    Ok(texts)
}

fn many_fault(alloc: Global, rows: u16, texts: u16, most: u16) -> Result<Option<GroupsFault>, Fail>
    requires rows { rows ≤ 2001 }
    requires texts { texts ≤ 501 }
    requires most { most ≤ 65 }
{
    let rows = many_boundaries(alloc, rows)?;
    let texts = many_groups(alloc, texts, most)?;
    match Groups::build(alloc, code()?, rows, texts, Vec::new(alloc)) {
        Ok(_) => Ok(None),
        Err(fault) => Ok(Some(fault)),
    }
}

#[test]
fn limits_are_kept(rt: HostRuntime) -> Result<(), Fail> {
    let rows = [
        (
            2000,
            66,
            65,
            Some(GroupsFault::TooMany { part: 1, entry: 0 }),
        ),
        (
            2000,
            501,
            1,
            Some(GroupsFault::TooMany {
                part: 1,
                entry: 500,
            }),
        ),
        (
            2001,
            501,
            65,
            Some(GroupsFault::TooMany {
                part: 0,
                entry: 2000,
            }),
        ),
        (
            1999,
            500,
            64,
            Some(GroupsFault::NoSuchBoundary {
                part: 1,
                entry: 499,
            }),
        ),
    ];
    for (rows, texts, most, fault) in rows {
        assert!(rt;
            many_fault(rt.alloc(), rows, texts, most)? == fault,
            "{rows} {texts}"
        );
    }
    Ok(())
}

#[test]
fn all_that_may_be(rt: HostRuntime) -> Result<(), Fail> {
    let alloc = rt.alloc();
    let rows = many_boundaries(alloc, 2000)?;
    let texts = many_groups(alloc, 500, 64)?;
    let groups = Groups::build(alloc, code()?, rows, texts, servers(alloc, &["dp1"])?)?;
    look(
        &rt,
        alloc,
        &groups,
        &asked(Address::V4(0), false, &[1], 2, ALL, &[2, 3, 4]),
    )?;
    let last = Address::V4(1999 * 16 + 7);
    look(
        &rt,
        alloc,
        &groups,
        &asked(last, false, &[500], 1, ALL, &[1, 2]),
    )?;
    look(
        &rt,
        alloc,
        &groups,
        &asked(Address::V4(8), false, &[], 0, ALL, &[0]),
    )
}

#[test]
fn groups_have_options_and_points(rt: HostRuntime) -> Result<(), Fail> {
    let groups = french_groups(rt.alloc(), &[])?;
    let current = groups.current(rt.alloc(), LYON, None)?;
    assert!(rt; current.len() == 1);
    let wanted = Options {
        peers: true,
        same_subnet_only: false,
        prefer_points: false,
    };
    for number in &current {
        assert!(rt; groups.options(*number) == wanted);
        assert!(rt; groups.points(*number) == servers(rt.alloc(), &["dp4"])?.as_slice());
    }
    Ok(())
}

#[test]
fn codes_are_read(rt: HostRuntime) {
    for (text, is_code) in [
        ("PS1", true),
        ("AZ9", true),
        ("ps1", false),
        ("PS", false),
        ("PS12", false),
    ] {
        assert!(rt;
            SiteCode::read(text.as_bytes()).is_some() == is_code,
            "{text}"
        );
    }
}
