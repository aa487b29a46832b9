//! `validate_all <base>`: validates each version of the library below `base`, in one run. What it is for is the measuring of that.
#![tactic(auto)]

mod checking;

use crate::checking::{Validated, validate_all};
use cm_base::Memory;
use cm_check::CheckFault;
use cm_disk::HostDisk;
use cm_library::Library;
use std::process::ExitCode;
use std::{env, io};

// The argument. None where there are others.
fn base_of(rt: &HostRuntime) -> Result<Option<String>, Memory> {
    let mut words = match env::args(rt) {
        Ok(all) => all.skip(1),
        Err(error) if error.kind() == io::ErrorKind::OutOfMemory => return Err(Memory),
        Err(_) => return Ok(None),
    };
    match (words.next(), words.next()) {
        (Some(base), None) => Ok(Some(base)),
        _ => Ok(None),
    }
}

// Opens the library below the base folder, and looks at it.
fn start(rt: &HostRuntime, base: &str) -> Result<Validated, CheckFault> {
    let kept = match rt.clone() {
        Ok(kept) => kept,
        Err(_) => return Err(CheckFault::Memory),
    };
    let disk = match HostDisk::new(kept, base) {
        Ok(disk) => disk,
        Err(_) => return Err(CheckFault::Memory),
    };
    let opened = match Library::open(rt.alloc(), disk) {
        Ok(library) => Some(library),
        Err((_, _)) => None,
    };
    let Some(mut library) = opened else {
        return Err(CheckFault::NoVersion);
    };
    validate_all(rt.alloc(), &mut library)
}

fn main(rt: HostRuntime) -> ExitCode {
    let base = match base_of(&rt) {
        Ok(Some(base)) => base,
        Ok(None) => {
            let _printed = print!(rt; "usage: validate_all <base>\n");
            return ExitCode::from(2);
        }
        Err(_) => {
            let _printed = print!(rt; "memory\n");
            return ExitCode::from(6);
        }
    };
    match start(&rt, base.as_str()) {
        Ok(done) => {
            let _printed = print!(rt; "{} versions, {} findings\n", done.versions, done.findings);
            ExitCode::from(0)
        }
        Err(_) => {
            let _printed = print!(rt; "not validated\n");
            ExitCode::from(1)
        }
    }
}
