//! `store_folder <base> <folder>`: stores the files of a folder under their hashes below `base`, as an administrator's
//! package is stored. What it is for is the measuring of that.
#![tactic(auto)]

mod storing;

use crate::storing::{StoreFault, Stored, store_folder};
use cm_base::Memory;
use cm_disk::HostDisk;
use cm_tree::HostFolder;
use std::process::ExitCode;
use std::{env, io};

// The two arguments, the base folder and the one that is stored. None where there are others.
fn arguments(rt: &HostRuntime) -> Result<Option<(String, String)>, Memory> {
    let mut words = match env::args(rt) {
        Ok(all) => all.skip(1),
        Err(error) if error.kind() == io::ErrorKind::OutOfMemory => return Err(Memory),
        Err(_) => return Ok(None),
    };
    match (words.next(), words.next(), words.next()) {
        (Some(base), Some(folder), None) => Ok(Some((base, folder))),
        _ => Ok(None),
    }
}

// Stores the folder of the arguments.
fn start(rt: &HostRuntime, base: &str, folder: &str) -> Result<Stored, StoreFault> {
    let mut disk = HostDisk::new(rt.clone()?, base)?;
    let mut folder = HostFolder::new(rt.clone()?, folder)?;
    store_folder(rt.alloc(), &mut disk, &mut folder)
}

fn main(rt: HostRuntime) -> ExitCode {
    let (base, folder) = match arguments(&rt) {
        Ok(Some(words)) => words,
        Ok(None) => {
            let _printed = print!(rt; "usage: store_folder <base> <folder>\n");
            return ExitCode::from(2);
        }
        Err(_) => {
            let _printed = print!(rt; "memory\n");
            return ExitCode::from(6);
        }
    };
    match start(&rt, base.as_str(), folder.as_str()) {
        Ok(stored) => {
            let _printed = print!(rt; "stored {} files of {} bytes\n", stored.files, stored.bytes);
            ExitCode::from(0)
        }
        Err(fault) => {
            let _printed = print!(rt; "not stored: {}\n", fault.text());
            ExitCode::from(1)
        }
    }
}
