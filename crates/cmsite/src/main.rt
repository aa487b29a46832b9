//! `cmsite <base> <folder> <words>`: the commands over the real files below `base`.
#![tactic(auto)]

mod base;
mod bay_disk;
mod bays;
mod clock;
mod folders;
mod input;
mod names;
mod output;
mod start;

use crate::start::start;
use std::process::ExitCode;

fn main(rt: HostRuntime) -> ExitCode {
    match start(&rt) {
        Ok(status) => ExitCode::from(status),
        Err(_) => {
            let _printed = print!(rt; "memory\n");
            ExitCode::from(6)
        }
    }
}
