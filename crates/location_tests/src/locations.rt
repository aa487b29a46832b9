//! The worked example: who serves the clients of three groups in France.
ghost use Rattle.std.specs.Prelude.{◌≡◌, ◌≤◌, All, IfOk};
ghost use Rattle.cm_net.specs.Boundaries.{IsSound};
ghost use Rattle.cm_locate.specs.Asks.{IsPrefix};

use cm_base::{Hash, Label, List, PackageId, ServerName, Version};
use cm_groups::{Fallback, GroupText, Groups, Options, SiteCode};
use cm_locate::{Ask, locate};
use cm_net::{Address, Boundary, SiteName};
use cm_peer::{Cached, Kind, Peer, PeerState, SourceRow};
use cm_points::{Installed, Point};
use std::alloc::Global;
use std::process::Abort;
use std::test::Fail;

const DEFAULT: &str = "Default-Site-Boundary-Group<PS1>";

fn label(text: &str) -> Result<Label, Fail> {
    Ok(Label::read(text.as_bytes()).ok_or("label")?)
}

fn labels(alloc: Global, texts: &[&str]) -> Result<List<Label>, Fail> {
    let mut labels = Vec::new(alloc);
    for text in texts {
        labels.push(label(text)?)?;
    }
    Ok(List::of(labels))
}

fn server(text: &str) -> Result<ServerName, Fail> {
    Ok(ServerName::read(text.as_bytes()).ok_or("name")?)
}

fn servers(alloc: Global, texts: &[&str]) -> Result<Vec<ServerName>, Fail> {
    let mut names = Vec::new(alloc);
    for text in texts {
        names.push(server(text)?)?;
    }
    Ok(names)
}

fn package() -> Result<PackageId, Fail> {
    Ok(PackageId::read(b"PS100001").ok_or("package")?)
}

fn version(number: u32) -> Result<Version, Fail> {
    Ok(Version::new(number).ok_or("version")?)
}

/// A boundary that a text spells.
fn boundary(text: &str) -> Result<Boundary, Fail>
    ensures { IfOk result (λ boundary. IsSound boundary) }
{
    match Boundary::read(text.as_bytes()) {
        Ok(boundary) => Ok(boundary),
        Err(_) => Err(Fail::new("no boundary")),
    }
}

fn add_boundary(rows: &mut Vec<(Label, Boundary)>, name: &str, at: &str) -> Result<(), Fail>
    requires { All (λ row. IsSound row.1) rows.old.items }
    ensures { All (λ row. IsSound row.1) rows.new.items }
{
    let row = (label(name)?, boundary(at)?);
    rows.push(row)?;
    Ok(())
}

fn boundaries(alloc: Global) -> Result<Vec<(Label, Boundary)>, Fail>
    ensures { IfOk result (λ rows. All (λ row. IsSound row.1) rows.items) }
{
    let mut rows = Vec::new(alloc);
    add_boundary(&mut rows, "paris-lan", "subnet:10.1.2.0/24")?;
    add_boundary(&mut rows, "paris-site", "site:Paris")?;
    add_boundary(&mut rows, "lyon-range", "range:10.2.0.10-10.2.0.20")?;
    add_boundary(&mut rows, "lyon-v6", "prefix:2001:db8:1::/48")?;
    Ok(rows)
}

/// A group with the boundaries, the points and the relations that are named.
fn text(
    alloc: Global,
    name: &str,
    boundaries: &[&str],
    points: &[&str],
    relations: &[(&str, u16)],
) -> Result<GroupText, Fail> {
    let mut leads = Vec::new(alloc);
    for (to, minutes) in relations {
        leads.push((label(to)?, Fallback::After(*minutes)))?;
    }
    Ok(GroupText {
        name: label(name)?,
        options: Options::default(),
        boundaries: labels(alloc, boundaries)?,
        points: List::of(servers(alloc, points)?),
        relations: List::of(leads),
    })
}

fn paris(alloc: Global, relations: &[(&str, u16)]) -> Result<GroupText, Fail> {
    let both = ["paris-lan", "paris-site"];
    text(alloc, "Paris", &both, &["dp1", "dp2"], relations)
}

fn floor(alloc: Global) -> Result<GroupText, Fail> {
    let mut floor = text(alloc, "Floor3", &["paris-lan"], &["dp3"], &[])?;
    floor.options.prefer_points = true;
    Ok(floor)
}

fn lyon(alloc: Global, points: &[&str]) -> Result<GroupText, Fail> {
    let own = ["lyon-range", "lyon-v6"];
    text(alloc, "Lyon", &own, points, &[(DEFAULT, 10)])
}

fn groups_of(alloc: Global, texts: Vec<GroupText>) -> Result<Groups, Fail> {
    let rows = boundaries(alloc)?;
    let code = SiteCode::read(b"PS1").ok_or("code")?;
    Ok(Groups::build(alloc, code, rows, texts, servers(alloc, &["dp5"])?)?)
}

/// The groups Paris, Floor3 and Lyon, where Paris has these relations, and Lyon these points.
fn groups(alloc: Global, leads: &[(&str, u16)], points: &[&str]) -> Result<Groups, Fail> {
    let mut texts = Vec::new(alloc);
    texts.push(paris(alloc, leads)?)?;
    texts.push(floor(alloc)?)?;
    texts.push(lyon(alloc, points)?)?;
    groups_of(alloc, texts)
}

/// The groups Paris and Floor3, which hold the clients at Paris, with these options.
fn groups_with(alloc: Global, of_paris: Options, of_floor: Options) -> Result<Groups, Fail> {
    let mut texts = Vec::new(alloc);
    let mut paris = paris(alloc, &[])?;
    paris.options = of_paris;
    texts.push(paris)?;
    let mut floor = floor(alloc)?;
    floor.options = of_floor;
    texts.push(floor)?;
    groups_of(alloc, texts)
}

fn site(text: &str) -> Option<SiteName> {
    SiteName::read(text.as_bytes())
}

fn points(alloc: Global) -> Result<Vec<Point>, Fail> {
    let rows = [
        ("dp3", 0x0a01_080a, ""),
        ("dp1", 0x0a01_020a, "Paris"),
        ("dp2", 0x0a01_090a, "Paris"),
        ("dp5", 0x0a09_000a, ""),
        ("dp4", 0x0a02_000a, "Lyon"),
    ];
    let mut points = Vec::new(alloc);
    for (name, address, of_site) in rows {
        points.push(Point {
            name: server(name)?,
            address: Address::V4(address),
            site: site(of_site),
            sources: List::of(Vec::new(alloc)),
        })?;
    }
    Ok(points)
}

fn peers(alloc: Global) -> Result<Vec<Peer>, Fail> {
    let rows = [
        ("pc8", 0x0a01_0708, "Paris", 10),
        ("pc9", 0x0a02_000f, "Lyon", 4),
        ("pc7", 0x0a01_024d, "Paris", 10),
    ];
    let mut peers = Vec::new(alloc);
    for (name, address, of_site, connections) in rows {
        peers.push(Peer {
            name: server(name)?,
            address: Address::V4(address),
            site: site(of_site),
            connections,
        })?;
    }
    Ok(peers)
}

/// How peers stand that have version 1 cached.
fn states(alloc: Global, count: usize) -> Result<Vec<PeerState>, Fail> {
    let mut states = Vec::new(alloc);
    for _ in 0..count {
        let mut cached = Vec::new(alloc);
        cached.push(Cached {
            package: package()?,
            version: version(1)?,
            hash: Hash([7; 32]),
        })?;
        let mut state = PeerState::new(alloc);
        state.cached = List::of(cached);
        states.push(state)?;
    }
    Ok(states)
}

/// Version 1 on all points.
fn installed(alloc: Global) -> Result<Installed, Fail> {
    let mut rows = Vec::new(alloc);
    for name in ["dp5", "dp4", "dp3", "dp2", "dp1"] {
        rows.push((server(name)?, package()?, version(1)?))?;
    }
    Ok(Installed::build(alloc, &rows)?)
}

/// A source, as it is wanted in an answer.
type Wanted = (u8, Kind, &'static str);

fn is_wanted(row: &SourceRow, wanted: &Wanted) -> bool {
    row.rank == wanted.0 && row.kind == wanted.1 && row.name.as_bytes() == wanted.2.as_bytes()
}

/// What a client is and asks for.
#[derive(Clone, Copy)]
struct Question {
    computer: &'static str,
    address: Address,
    prefix: u8,
    site: &'static str,
    version: u32,
    elapsed: u32,
    leave: (bool, bool),
}

/// The question of a client with an IPv4 address in a subnet of 24 bits.
fn asks(address: u32, of_site: &'static str, elapsed: u32) -> Question
    ensures { IsPrefix result.address result.prefix }
{
    Question {
        computer: "",
        address: Address::V4(address),
        prefix: 24,
        site: of_site,
        version: 1,
        elapsed,
        leave: (true, true),
    }
}

fn ask_of(question: &Question, package: PackageId, version: Version) -> Ask
    ensures address { result.address ≡ question.now.address }
    ensures prefix { result.prefix ≡ question.now.prefix }
{
    Ask {
        computer: ServerName::read(question.computer.as_bytes()),
        address: question.address,
        prefix: question.prefix,
        site: site(question.site),
        package,
        version,
        elapsed: question.elapsed,
        neighbours: question.leave.0,
        default_group: question.leave.1,
    }
}

fn look(
    rt: &impl Abort,
    alloc: Global,
    groups: &Groups,
    question: &Question,
    wanted: &[Wanted],
) -> Result<(), Fail>
    requires { IsPrefix question.now.address question.now.prefix }
{
    let peers = peers(alloc)?;
    let states = states(alloc, peers.len())?;
    assert!(rt; states.len() == peers.len());
    let points = points(alloc)?;
    let installed = installed(alloc)?;
    let ask = ask_of(question, package()?, version(question.version)?);
    let rows = locate(alloc, groups, &points, &peers, &states, &installed, &ask)?;
    assert!(rt; rows.len() == wanted.len(), "{}", rows.len());
    assert!(rt;
        rows.iter()
            .zip(wanted)
            .all(|(row, wanted)| is_wanted(row, wanted))
    );
    Ok(())
}

const PARIS: u32 = 0x0a01_0232;

const LYON: u32 = 0x0a02_0014;

const AT_PARIS: [Wanted; 7] = [
    (2, Kind::Point, "dp1"),
    (3, Kind::Peer, "pc7"),
    (4, Kind::Peer, "pc8"),
    (5, Kind::Point, "dp2"),
    (7, Kind::Point, "dp3"),
    (8, Kind::Point, "dp4"),
    (9, Kind::Point, "dp5"),
];

/// What is wanted at Paris where dp4 is not reached.
const WITHOUT_LYON: [Wanted; 6] = [
    (2, Kind::Point, "dp1"),
    (3, Kind::Peer, "pc7"),
    (4, Kind::Peer, "pc8"),
    (5, Kind::Point, "dp2"),
    (7, Kind::Point, "dp3"),
    (9, Kind::Point, "dp5"),
];

#[test]
fn paris_is_served(rt: HostRuntime) -> Result<(), Fail> {
    let groups = groups(rt.alloc(), &[("Lyon", 30)], &["dp4"])?;
    for (elapsed, count) in [(0, 5), (29, 5), (30, 6), (119, 6), (120, 7)] {
        let question = asks(PARIS, "Paris", elapsed);
        look(&rt, rt.alloc(), &groups, &question, &AT_PARIS[..count])?;
    }
    Ok(())
}

#[test]
fn paris_may_not_fall_back(rt: HostRuntime) -> Result<(), Fail> {
    let groups = groups(rt.alloc(), &[("Lyon", 30)], &["dp4"])?;
    let mut question = asks(PARIS, "Paris", 120);
    question.leave = (false, true);
    look(&rt, rt.alloc(), &groups, &question, &WITHOUT_LYON)?;
    question.leave = (false, false);
    look(&rt, rt.alloc(), &groups, &question, &WITHOUT_LYON[..5])
}

#[test]
fn paris_has_a_relation_of_its_own(rt: HostRuntime) -> Result<(), Fail> {
    let groups = groups(rt.alloc(), &[("Lyon", 30), (DEFAULT, 10)], &["dp4"])?;
    let question = asks(PARIS, "Paris", 10);
    look(&rt, rt.alloc(), &groups, &question, &WITHOUT_LYON)?;
    let question = asks(PARIS, "Paris", 30);
    look(&rt, rt.alloc(), &groups, &question, &AT_PARIS)
}

const AT_LYON: [Wanted; 3] = [
    (2, Kind::Peer, "pc9"),
    (3, Kind::Point, "dp4"),
    (9, Kind::Point, "dp5"),
];

#[test]
fn lyon_is_served(rt: HostRuntime) -> Result<(), Fail> {
    let groups = groups(rt.alloc(), &[("Lyon", 30)], &["dp4"])?;
    for (elapsed, count) in [(0, 2), (9, 2), (10, 3)] {
        let question = asks(LYON, "", elapsed);
        look(&rt, rt.alloc(), &groups, &question, &AT_LYON[..count])?;
    }
    // one address behind the last of Lyon, in no group
    look(
        &rt,
        rt.alloc(),
        &groups,
        &asks(LYON + 1, "", 0),
        &AT_LYON[2..],
    )
}

#[test]
fn lyon_has_more_clients(rt: HostRuntime) -> Result<(), Fail> {
    let groups = groups(rt.alloc(), &[("Lyon", 30)], &["dp4"])?;
    let mut question = asks(0x0a02_000a, "", 0);
    question.computer = "dp4";
    let wanted = [(1, Kind::Point, "dp4"), (2, Kind::Peer, "pc9")];
    look(&rt, rt.alloc(), &groups, &question, &wanted)?;
    question.version = 2;
    look(&rt, rt.alloc(), &groups, &question, &[])?;
    let mut question = asks(LYON, "", 0);
    question.address = Address::V6(0x2001_0db8_0001_ffff_ffff_ffff_ffff_ffff);
    question.prefix = 64;
    let wanted = [(6, Kind::Peer, "pc9"), (7, Kind::Point, "dp4")];
    look(&rt, rt.alloc(), &groups, &question, &wanted)
}

/// What is wanted at Paris by pc7, where no other group is asked for.
const WITHOUT_PC7: [Wanted; 4] = [
    (2, Kind::Point, "dp1"),
    (4, Kind::Peer, "pc8"),
    (5, Kind::Point, "dp2"),
    (7, Kind::Point, "dp3"),
];

#[test]
fn each_source_stands_once(rt: HostRuntime) -> Result<(), Fail> {
    // dp1 is in Paris and in Lyon, which is reached: its least rank counts
    let groups = groups(rt.alloc(), &[("Lyon", 30)], &["dp4", "dp1"])?;
    let mut question = asks(PARIS, "Paris", 120);
    look(&rt, rt.alloc(), &groups, &question, &AT_PARIS)?;
    // a peer that asks is no source of its own
    question.computer = "pc7";
    question.leave = (false, false);
    look(&rt, rt.alloc(), &groups, &question, &WITHOUT_PC7)
}

#[test]
fn groups_may_be_listed_in_any_order(rt: HostRuntime) -> Result<(), Fail> {
    let mut texts = Vec::new(rt.alloc());
    texts.push(lyon(rt.alloc(), &["dp4"])?)?;
    texts.push(floor(rt.alloc())?)?;
    texts.push(paris(rt.alloc(), &[("Lyon", 30)])?)?;
    let groups = groups_of(rt.alloc(), texts)?;
    for (elapsed, count) in [(0, 5), (29, 5), (30, 6), (119, 6), (120, 7)] {
        let question = asks(PARIS, "Paris", elapsed);
        look(&rt, rt.alloc(), &groups, &question, &AT_PARIS[..count])?;
    }
    Ok(())
}

/// What a client at Paris is given where Paris and Floor3 have these options.
fn look_with(
    rt: &impl Abort,
    alloc: Global,
    options: (Options, Options),
    prefix: u8,
    wanted: &[Wanted],
) -> Result<(), Fail>
    requires { prefix ≤ 32 }
{
    let groups = groups_with(alloc, options.0, options.1)?;
    let mut question = asks(PARIS, "Paris", 0);
    question.prefix = prefix;
    look(rt, alloc, &groups, &question, wanted)
}

const PC7: Wanted = (4, Kind::Peer, "pc7");

const PC8: Wanted = (4, Kind::Peer, "pc8");

const DP1: Wanted = (3, Kind::Point, "dp1");

const DP2: Wanted = (5, Kind::Point, "dp2");

const DP3: Wanted = (7, Kind::Point, "dp3");

#[test]
fn a_group_may_allow_peers_of_the_subnet_alone(rt: HostRuntime) -> Result<(), Fail> {
    let wide = Options::default();
    let mut narrow = wide;
    narrow.same_subnet_only = true;
    let mut none = wide;
    none.peers = false;
    let near: Wanted = (2, Kind::Peer, "pc7");
    // pc7 is in both groups and in the client's 24 bits, pc8 in Paris alone and not
    let all = [near, DP1, PC8, DP2, DP3];
    for options in [(wide, wide), (wide, narrow), (wide, none)] {
        look_with(&rt, rt.alloc(), options, 24, &all)?;
    }
    let one = [near, DP1, DP2, DP3];
    for options in [(narrow, wide), (none, narrow), (narrow, none)] {
        look_with(&rt, rt.alloc(), options, 24, &one)?;
    }
    look_with(&rt, rt.alloc(), (none, none), 24, &[DP1, DP2, DP3])?;
    // neither is in its 26 bits: pc7 may serve where one of its groups asks for no subnet
    let both = [DP1, PC7, PC8, DP2, DP3];
    look_with(&rt, rt.alloc(), (wide, narrow), 26, &both)?;
    let far = [DP1, PC7, DP2, DP3];
    look_with(&rt, rt.alloc(), (narrow, wide), 26, &far)?;
    look_with(&rt, rt.alloc(), (narrow, narrow), 26, &[DP1, DP2, DP3])
}
