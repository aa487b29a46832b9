//! The command `topology`.
ghost use Rattle.std.specs.Prelude.{◌||◌, ◌==◌, ◌≡◌, ◌≢◌, ◌<◌, ◌≤◌, ◌++◌, ◌-◌, ◌^◌, ◌⊎◌, ℕ, [], OnOk, OnErr, true, false, None, Some, Ok, Err, List, length, option_map, IfSome, IfOk, IfErr, IsErrOf};
ghost use Rattle.std.specs.Option.{ForSome, option_and_then};
ghost use Rattle.cm_base.specs.Causes.{Rose, HasCause};
ghost use Rattle.cm_disk.specs.Disk.{Files, IsImage, LeavesOnly};
ghost use Rattle.cm_records.specs.Calls.{Commits, FailsWith};
ghost use Rattle.cm_records.specs.Placing.{KeepsPlaces};
ghost use Rattle.cm_records.specs.Seen.{next_topology};
ghost use Rattle.cm_register.specs.Opens.{OpensOr, noted};
ghost use Rattle.cm_state.specs.Adding.{Told};
ghost use Rattle.cm_topo.specs.Outcomes.{topology_in};
ghost use Rattle.cm_topo.specs.Topologies.{IsWithinLimits};
ghost use Rattle.cm_site.specs.Contents.{records_bay};
ghost use Rattle.cm_site.specs.Found.{IsRecordsAt};
ghost use Rattle.cm_site.specs.Machine.{step_topology, topology_reply};
ghost use Rattle.cm_site.specs.Opened.{IsOpenSite, bays_from, bays_now, world_of};
ghost use Rattle.cm_site.specs.Opening.{without_bay};
ghost use Rattle.cm_site.specs.Refusals.{has_no_room, text_refusal, topology_refusals};
ghost use Rattle.cm_site.specs.Runs.{EndsOn, IsInput, Outside, Sourced, beside, fed};
ghost use Rattle.cm_site.specs.Worlds.{World, Kept, has_library, kept_in, part_at, records_of};
ghost use Rattle.cm_site.specs.declared.reply.Refusal.{Refusal as a_refusal};

use crate::adding::refused;
use crate::finding::library_at;
use crate::member::{Hold, Member};
use crate::{Refusal, Reply};
use cm_base::{ServerName, Source};
use cm_disk::{Disk, DiskFault};
use cm_points::Point;
use cm_records::Records;
use cm_topo::{TopoFault, Topology, each_topology_is_sound, read_topology};
use std::alloc::Global;

// The most bytes that a topology has.
const MOST_OF_TEXT: usize = 4194304;

// The most bytes that are read of an input: one more than a topology has.
const MOST: usize = 4194305;

// The greatest end of the records' log with room for the record of a command, and for those of the jobs that follow.
const LAST_ROOM: u64 = 1099377410048;

/// The bay of the records.
fn records_name() -> ServerName
    ensures { result ≡ records_bay }
{
    match ServerName::read(b"records") {
        Some(name) => name,
        None => unreachable!(),
    }
}

/// Where the records stand. None where no member of that name is the records.
fn records_at<D: Disk>(members: &[Member<D>], bay: ServerName) -> Option<usize>
    ensures found { IfSome result (λ at. IsRecordsAt bay at members.now) }
    ensures within { IfSome result (λ at. at < length members.now) }
    ensures none { result ≡ None → option_and_then kept_in (part_at bay (world_of members.now)) ≡ None }
{
    for at in 0..members.len() {
        if members[at].name == bay {
            return match &members[at].hold {
                Hold::Records(_) => Some(at),
                Hold::Library(_) => None,
            };
        }
    }
    None
}

/// Whether the bay of that name is a library.
fn is_library<D: Disk>(members: &[Member<D>], bay: ServerName) -> bool
    ensures { result ≡ has_library bay (world_of members.now) }
{
    library_at(members, bay).is_some()
}

/// The first point that has no library among the members.
fn first_without_bay<D: Disk>(members: &[Member<D>], points: &[Point]) -> Option<ServerName>
    ensures { result ≡ without_bay points.now (world_of members.now) }
{
    match points.iter().find(|point| !is_library(members, point.name)) {
        Some(point) => Some(point.name),
        None => None,
    }
}

/// The refusal of a fault of a text. None for want of memory.
fn fault_refusal(fault: TopoFault) -> Option<Refusal>
    ensures { result ≡ text_refusal (Err fault) }
{
    match fault {
        TopoFault::NotToml => Some(Refusal::NotToml),
        TopoFault::WrongShape { part, entry } => Some(Refusal::WrongShape { part, entry }),
        TopoFault::Rule { rule, part, entry } => Some(Refusal::TopologyRule { rule, part, entry }),
        TopoFault::Memory => None,
    }
}

/// Why no text was read.
#[derive(Clone, Copy)]
enum InputFault {
    Source,
    Memory,
}

/// Reads more of the input behind the text, up to one byte past the most that a topology has. False where no more comes.
fn read_more<S: Source>(input: &mut S, text: &mut Vec<u8>) -> Result<bool, InputFault>
    requires few { length text.old.items ≤ 4194305 }
    ensures few { length text.new.items ≤ 4194305 }
    ensures goes_on { OnOk result (option_map (λ left. text.new.items ++ left) (S.left input.new) ≡ option_map (λ left. text.old.items ++ left) (S.left input.old)) }
    ensures ended { result ≡ Ok false → (length text.new.items ≡ 4194305) ⊎ ForSome (S.left input.new) (λ left. left ≡ []) }
    ensures grows { result ≡ Ok true → length text.old.items < length text.new.items }
    ensures later { S.faults input.old ≤ S.faults input.new }
    ensures failed { IsErrOf result InputFault.Source → Rose (S.faults input.old) (S.faults input.new) }
{
    let room = MOST - text.len();
    if room == 0 {
        return Ok(false);
    }
    let mut piece = [0u8; 4096];
    let size = room.min(4096);
    let part = &mut piece[..size];
    let count = match input.read(part) {
        Ok(count) => count,
        Err(_) => return Err(InputFault::Source),
    };
    match text.extend_from_slice(&part[..count]) {
        Ok(()) => Ok(count != 0),
        Err(_) => Err(InputFault::Memory),
    }
}

/// Reads the input, up to one byte past the most that a topology has.
fn read_input<S: Source>(alloc: Global, input: &mut S) -> Result<Vec<u8>, InputFault>
    ensures text { IfOk result (λ text. IsInput (fed S.left S.faults input.old) (fed S.left S.faults input.new) (Some text.items)) }
    ensures failed { IsErrOf result InputFault.Source → IsInput (fed S.left S.faults input.old) (fed S.left S.faults input.new) None }
{
    let mut text = Vec::new(alloc);
    loop {
        match read_more(input, &mut text) {
            Ok(true) => {}
            Ok(false) => return Ok(text),
            Err(fault) => return Err(fault),
        }
    }
}

/// Why a text is not taken.
#[derive(Clone, Copy)]
enum TextFault {
    Refused(Refusal),
    Memory,
}

/// The topology that a text says, where it is not too long.
fn said_by(alloc: Global, text: &[u8]) -> Result<Topology, TextFault>
    ensures said { IfOk result (λ topology. topology_in text.now ≡ Ok topology) }
    ensures fits { IfOk result (λ _. length text.now ≤ 4194304) }
    ensures refused { (refusal : a_refusal) → result ≡ Err (TextFault.Refused refusal) → (kept : Kept) (world : World) → topology_refusals (length text.now) (topology_in text.now) kept world ≡ Some refusal }
{
    if text.len() > MOST_OF_TEXT {
        return Err(TextFault::Refused(Refusal::InputTooLong));
    }
    match read_topology(alloc, text) {
        Ok(topology) => Ok(topology),
        Err(fault) => match fault_refusal(fault) {
            Some(refusal) => Err(TextFault::Refused(refusal)),
            None => Err(TextFault::Memory),
        },
    }
}

/// Whether the records' log has no room for a record and those of the jobs that follow.
fn is_full<D: Disk + Drop>(records: &Records<D>) -> bool
    ensures { result ≡ has_no_room (record { records = records.now.kept; gate = records.now.end }) }
{
    records.end() > LAST_ROOM
}

/// Whether the records' log or the numbers of topologies are used up.
fn is_spent<D: Disk + Drop>(records: &Records<D>) -> bool
    ensures { result ≡ (has_no_room (record { records = records.now.kept; gate = records.now.end }) || records.now.kept.number == 2 ^ 32 - 1) }
{
    is_full(records) || records.number() == u32::MAX
}

/// Why a topology is refused. No point is in use and there are no rows, since records have topologies alone.
fn refusal_of<D: Disk + Drop>(
    members: &[Member<D>],
    records: &Records<D>,
    topology: &Topology,
) -> Option<Refusal>
    ensures { (size : ℕ) → size ≤ 4194304 → result ≡ topology_refusals size (Ok topology.now) (record { records = records.now.kept; gate = records.now.end }) (world_of members.now) }
{
    records.tells();
    if let Some(name) = first_without_bay(members, topology.points.items()) {
        return Some(Refusal::NoBay { name });
    }
    if is_spent(records) {
        return Some(Refusal::Spent);
    }
    None
}

/// The topology that a text says, where it may take the place of the one in the records.
fn allowed<D: Disk + Drop>(
    alloc: Global,
    members: &[Member<D>],
    records: &Records<D>,
    text: &[u8],
) -> Result<Topology, TextFault>
    ensures said { IfOk result (λ topology. topology_in text.now ≡ Ok topology) }
    ensures allowed { IfOk result (λ _. topology_refusals (length text.now) (topology_in text.now) (record { records = records.now.kept; gate = records.now.end }) (world_of members.now) ≡ None) }
    ensures refused { (refusal : a_refusal) → result ≡ Err (TextFault.Refused refusal) → topology_refusals (length text.now) (topology_in text.now) (record { records = records.now.kept; gate = records.now.end }) (world_of members.now) ≡ Some refusal }
{
    let topology = match said_by(alloc, text) {
        Ok(topology) => topology,
        Err(fault) => return Err(fault),
    };
    match refusal_of(members, records, &topology) {
        Some(refusal) => Err(TextFault::Refused(refusal)),
        None => Ok(topology),
    }
}

/// The reply to a topology that was taken. No point has joined a group, since nothing was sent to one.
fn reply_of(topology: &Topology) -> Reply
    requires { IsWithinLimits topology.now }
    ensures { result ≡ Reply.Topology topology.now.boundary_count topology.now.group_count (length topology.now.points) (length topology.now.peers) 0 }
{
    Reply::Topology {
        boundaries: topology.boundary_count as u32,
        groups: topology.group_count as u32,
        points: topology.points.items().len() as u32,
        peers: topology.peers.items().len() as u32,
        joined: 0,
    }
}

/// Replaces the topology in the records, which have room for it, by the one that a text says.
fn replaced<D: Disk + Drop>(
    records: &mut Records<D>,
    text: &[u8],
    topology: Topology,
    minute: u64,
) -> Result<Reply, DiskFault>
    requires settled { records.old.pending ≡ None }
    requires said { topology_in text.now ≡ Ok topology }
    requires fits { length text.now ≤ 4194304 }
    requires number { records.old.kept.number ≢ 2 ^ 32 - 1 }
    requires room { records.old.end ≤ 2 ^ 40 - 134217728 }
    ensures replies { IfOk result (λ reply. reply ≡ topology_reply topology records.old.kept (noted (next_topology text.now topology minute records.old.kept) records.old.kept)) }
    ensures done { OnOk result (Commits D.reads (next_topology text.now topology minute records.old.kept) records.old records.new) }
    ensures failed { OnErr result (FailsWith (next_topology text.now topology minute records.old.kept) records.old records.new) }
    ensures either { ForSome (D.reads records.old.disk) (λ _. (now : Files) × (D.reads records.new.disk ≡ Some now) × OpensOr records.old.kept (Some (next_topology text.now topology minute records.old.kept)) now) }
    ensures any_moment { ForSome (D.reads records.old.disk) (λ _. LeavesOnly D.moment D.left_since records.old.disk records.new.disk (OpensOr records.old.kept (Some (next_topology text.now topology minute records.old.kept)))) }
    ensures opens { ForSome (D.reads records.new.disk) (λ _. (image : Files) → IsImage (D.may_leave records.new.disk) image → OpensOr records.new.kept records.new.pending image) }
    ensures start { records.new.start ≡ records.old.start }
    ensures places { Told KeepsPlaces (D.reads records.old.disk) (D.reads records.new.disk) }
    ensures cause { HasCause (D.faults records.old.disk) (D.faults records.new.disk) result }
{
    each_topology_is_sound();
    records.tells();
    let reply = reply_of(&topology);
    match records.replace(text, topology, minute) {
        Ok(()) => {
            records.tells();
            Ok(reply)
        }
        Err(fault) => {
            records.tells();
            Err(fault)
        }
    }
}

/// The topology that a text says, where it may take the place of the one in the records, which stand there.
fn allowed_at<D: Disk + Drop>(
    alloc: Global,
    members: &[Member<D>],
    at: usize,
    text: &[u8],
) -> Result<Topology, TextFault>
    requires there { IsRecordsAt records_bay at members.now }
    requires within { at < length members.now }
    ensures said { IfOk result (λ topology. topology_in text.now ≡ Ok topology) }
    ensures allowed { IfOk result (λ _. (kept : Kept) → records_of (world_of members.now) ≡ Some kept → topology_refusals (length text.now) (topology_in text.now) kept (world_of members.now) ≡ None) }
    ensures refused { (refusal : a_refusal) → result ≡ Err (TextFault.Refused refusal) → (kept : Kept) → records_of (world_of members.now) ≡ Some kept → topology_refusals (length text.now) (topology_in text.now) kept (world_of members.now) ≡ Some refusal }
{
    match &members[at].hold {
        Hold::Records(records) => allowed(alloc, members, records, text),
        Hold::Library(_) => unreachable!(),
    }
}

/// Replaces the topology by what the text of an input says.
fn take_text<D: Disk + Drop>(
    alloc: Global,
    members: &mut [Member<D>],
    at: usize,
    text: &[u8],
    minute: u64,
) -> Reply
    requires opened { IsOpenSite D.reads D.may_leave D.moment D.left_since D.faults members.old }
    requires there { IsRecordsAt records_bay at members.old }
    requires within { at < length members.old }
    ensures { (from to : Outside) → IsInput from.input to.input (Some text.now) → EndsOn D.reads D.may_leave D.moment D.left_since D.faults step_topology from to minute result (bays_from members.old) (bays_now members.new) }
{
    let topology = match allowed_at(alloc, members, at, text) {
        Ok(topology) => topology,
        Err(TextFault::Refused(refusal)) => return refused(refusal),
        Err(TextFault::Memory) => return Reply::Memory,
    };
    match &mut members[at].hold {
        Hold::Records(records) => match replaced(records, text, topology, minute) {
            Ok(reply) => reply,
            Err(_) => Reply::Disk {
                bay: records_name(),
            },
        },
        Hold::Library(_) => unreachable!(),
    }
}

/// Replaces the topology of an open site by what the input says. Without records the input is not read.
pub(crate) fn take_input<S: Source, D: Disk + Drop>(
    alloc: Global,
    members: &mut [Member<D>],
    input: &mut S,
    minute: u64,
) -> Reply
    requires opened { IsOpenSite D.reads D.may_leave D.moment D.left_since D.faults members.old }
    ensures { (from to : Sourced) → EndsOn D.reads D.may_leave D.moment D.left_since D.faults step_topology
        (beside from (fed S.left S.faults input.old)) (beside to (fed S.left S.faults input.new)) minute result (bays_from members.old) (bays_now members.new) }
{
    let at = match records_at(members, records_name()) {
        Some(at) => at,
        None => {
            return refused(Refusal::NoBay {
                name: records_name(),
            });
        }
    };
    match read_input(alloc, input) {
        Ok(text) => take_text(alloc, members, at, text.as_slice(), minute),
        Err(InputFault::Source) => Reply::Source,
        Err(InputFault::Memory) => Reply::Memory,
    }
}
