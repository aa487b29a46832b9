//! The bays of a site are opened.
ghost use Rattle.std.specs.Prelude.{◌≡◌, ◌≤◌, [], vec_len, vec_capacity, IfOk, IfErr};
ghost use Rattle.std.specs.List.{AllByRecursion};
ghost use Rattle.cm_site.specs.Opened.{IsOpenAs, bay_from, bays_from, world_of};
ghost use Rattle.cm_site.specs.Openings.{site_fault};
ghost use Rattle.cm_site.specs.Opening.{point_without_bay as the_point, without_bay as first_without_bay};
ghost use Rattle.cm_site.specs.Unopened.{IsLeft, IsFaultOf, StopsAtBay};
ghost use Rattle.cm_site.specs.Worlds.{has_library as has_one, records_of};
ghost use Rattle.cm_site.specs.declared.member.Member.{Member as a_member};

use crate::giving_back::{close_all, put_all};
use crate::member::{Hold, Member};
use crate::records_calls::{open_records, topology_of};
use crate::{Bay, SiteFault};
use cm_base::ServerName;
use cm_disk::Disk;
use cm_library::{Library, OpenFault};
use cm_points::Point;
use std::alloc::Global;

// Why a bay is not opened.
fn fault_of(bay: ServerName, fault: OpenFault) -> SiteFault
    ensures { result ≡ site_fault bay fault }
{
    match fault {
        OpenFault::Disk => SiteFault::Disk { bay },
        OpenFault::NoLibrary => SiteFault::NoLibrary { bay },
        OpenFault::Unreadable { place, at } => SiteFault::Unreadable { bay, place, at },
        OpenFault::Memory => SiteFault::Memory,
    }
}

// Opens a bay: the records where it has their name, else its library.
fn open_bay<D: Disk + Drop>(alloc: Global, bay: Bay<D>) -> Result<Member<D>, (Bay<D>, SiteFault)>
    ensures start { IfOk result (λ member. bay_from member ≡ bay) }
    ensures opened { IfOk result (λ member. IsOpenAs D.reads D.may_leave D.moment D.left_since D.faults member.name member.hold) }
    ensures name { IfErr result (λ refused. refused.0.name ≡ bay.name) }
    ensures left { IfErr result (λ refused. IsLeft D.reads D.may_leave D.moment D.left_since bay.disk refused.0.disk) }
    ensures fault { IfErr result (λ refused. IsFaultOf D.reads D.faults bay.name bay.disk refused.0.disk refused.1) }
{
    let Bay { name, disk } = bay;
    if name.as_bytes() == b"records".as_slice() {
        return match open_records(alloc, disk) {
            Ok(records) => Ok(Member {
                name,
                hold: Hold::Records(records),
            }),
            Err((disk, fault)) => Err((Bay { name, disk }, fault_of(name, fault))),
        };
    }
    match Library::open(alloc, disk) {
        Ok(library) => Ok(Member {
            name,
            hold: Hold::Library(library),
        }),
        Err((disk, fault)) => Err((Bay { name, disk }, fault_of(name, fault))),
    }
}

/// Opens bays one after another. With a fault all are given back. There is room for each.
pub(crate) fn open_all<D: Disk + Drop>(
    alloc: Global,
    bays: Vec<Bay<D>>,
    members: Vec<Member<D>>,
    back: Vec<Bay<D>>,
) -> Result<(Vec<Member<D>>, Vec<Bay<D>>), (Vec<Bay<D>>, SiteFault)>
    requires none { members.items ≡ [] }
    requires empty { back.items ≡ [] }
    requires fits { vec_len bays ≤ vec_capacity members }
    requires room { vec_len bays ≤ vec_capacity back }
    ensures start { IfOk result (λ opened. bays_from opened.0.items ≡ bays.items) }
    ensures each { IfOk result (λ opened. AllByRecursion (λ (member : a_member D). IsOpenAs D.reads D.may_leave D.moment D.left_since D.faults member.name member.hold) opened.0.items) }
    ensures back { IfOk result (λ opened. opened.1.items ≡ []) }
    ensures reserved { IfOk result (λ opened. vec_len opened.0 ≤ vec_capacity opened.1) }
    ensures stopped { IfErr result (λ refused. StopsAtBay D.reads D.may_leave D.moment D.left_since D.faults bays.items refused.0.items refused.1) }
{
    let mut rest = bays;
    let mut members = members;
    for _bay in 0..rest.len() {
        match open_bay(alloc, rest.remove(0)) {
            Ok(member) => members.push_reserved(member),
            Err((bay, fault)) => {
                let mut closed = close_all(members, back);
                closed.push_reserved(bay);
                return Err((put_all(rest, closed), fault));
            }
        }
    }
    Ok((members, back))
}

// Whether the bay of that name has a library.
fn has_library<D: Disk + Drop>(name: &ServerName, members: &[Member<D>]) -> bool
    ensures { result ≡ has_one name.now (world_of members.now) }
{
    for member in members {
        if member.name.as_bytes() == name.as_bytes() {
            return matches!(&member.hold, Hold::Library(_));
        }
    }
    false
}

// The first of these points without a library.
fn without_bay<D: Disk + Drop>(points: &[Point], members: &[Member<D>]) -> Option<ServerName>
    ensures { result ≡ first_without_bay points.now (world_of members.now) }
{
    for point in points {
        if !has_library(&point.name, members) {
            return Some(point.name);
        }
    }
    None
}

/// The first point of the topology without a library.
pub(crate) fn point_without_bay<D: Disk + Drop>(members: &[Member<D>]) -> Option<ServerName>
    ensures { result ≡ the_point (records_of (world_of members.now)) (world_of members.now) }
{
    for member in members {
        if member.name.as_bytes() == b"records".as_slice() {
            return match &member.hold {
                Hold::Records(records) => match topology_of(records) {
                    Some(topology) => without_bay(topology.points.items(), members),
                    None => None,
                },
                Hold::Library(_) => None,
            };
        }
    }
    None
}
