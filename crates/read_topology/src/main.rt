//! `read_topology <file>`: reads the topology that a file's text says, and says how much it has or what its first fault is. What it
//! is for is the measuring of that.
#![tactic(auto)]

use cm_base::Memory;
use cm_topo::{TopoFault, Topology, read_topology};
use std::process::ExitCode;
use std::{env, fs, io};

// The one argument, the name of the file. None where there are others.
fn argument(rt: &HostRuntime) -> Result<Option<String>, Memory> {
    let mut words = match env::args(rt) {
        Ok(all) => all.skip(1),
        Err(error) if error.kind() == io::ErrorKind::OutOfMemory => return Err(Memory),
        Err(_) => return Ok(None),
    };
    match (words.next(), words.next()) {
        (Some(file), None) => Ok(Some(file)),
        _ => Ok(None),
    }
}

fn tell_read(rt: &HostRuntime, topology: &Topology) -> ExitCode {
    let points = topology.points.items().len();
    let groups = topology.point_groups.items().len();
    let peers = topology.peers.items().len();
    let _printed = print!(rt; "read: points {points}, point groups {groups}, peers {peers}\n");
    ExitCode::from(0)
}

fn tell_fault(rt: &HostRuntime, fault: TopoFault) -> ExitCode {
    let _printed = match fault {
        TopoFault::NotToml => print!(rt; "not read: no TOML\n"),
        TopoFault::WrongShape { part, entry } => {
            print!(rt; "not read: wrong shape in part {part}, entry {entry}\n")
        }
        TopoFault::Rule { rule, part, entry } => {
            print!(rt; "not read: rule {rule} in part {part}, entry {entry}\n")
        }
        TopoFault::Memory => print!(rt; "not read: want of memory\n"),
    };
    ExitCode::from(1)
}

// Reads the file, and tells what came of it.
fn tell(rt: &HostRuntime, file: &str) -> ExitCode {
    let Ok(text) = fs::read(rt, file) else {
        let _printed = print!(rt; "not read: the file cannot be read\n");
        return ExitCode::from(1);
    };
    match read_topology(rt.alloc(), &text) {
        Ok(topology) => tell_read(rt, &topology),
        Err(fault) => tell_fault(rt, fault),
    }
}

fn main(rt: HostRuntime) -> ExitCode {
    match argument(&rt) {
        Ok(Some(file)) => tell(&rt, file.as_str()),
        Ok(None) => {
            let _printed = print!(rt; "usage: read_topology <file>\n");
            ExitCode::from(2)
        }
        Err(_) => {
            let _printed = print!(rt; "memory\n");
            ExitCode::from(6)
        }
    }
}
