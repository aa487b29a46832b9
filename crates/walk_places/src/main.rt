//! `walk_places <places> <walks>`: walks so many times over so many places of a disk in memory. What it is for is the
//! measuring of that.
#![tactic(auto)]

use cm_base::Place;
use cm_disk::{Disk, MemDisk};
use std::process::ExitCode;
use std::{env, io};

// At most so many places and walks.
const MOST: u32 = 1_000_000;

// The two arguments. None where there are others.
fn arguments(rt: &HostRuntime) -> Option<(u32, u32)> {
    let Ok(words) = env::args(rt) else {
        return None;
    };
    let mut words = words.skip(1);
    match (words.next(), words.next(), words.next()) {
        (Some(places), Some(walks), None) => Some((
            number(places.as_str())?,
            number(walks.as_str())?,
        )),
        _ => None,
    }
}

fn number(word: &str) -> Option<u32> {
    match word.parse::<u32>() {
        Ok(number) if number <= MOST => Some(number),
        _ => None,
    }
}

// An empty file at each of so many places. None for want of memory.
fn filled(rt: &HostRuntime, places: u32) -> Option<MemDisk> {
    let Ok(mut disk) = MemDisk::new(rt.alloc(), Vec::new(rt.alloc())) else {
        return None;
    };
    for n in 0..places {
        let place = Place::read(&n.to_be_bytes())?;
        if disk.size(&place).is_err() || disk.write_at(&place, 0, b"").is_err() {
            return None;
        }
    }
    Some(disk)
}

// How many places a walk meets. None where a call fails.
fn walk(disk: &mut MemDisk, places: u32) -> Option<u32> {
    let mut after = None;
    for met in 0..=places {
        match disk.next_place(after.as_ref()) {
            Ok(Some(place)) => after = Some(place),
            Ok(None) => return Some(met),
            Err(_) => return None,
        }
    }
    None
}

fn walk_all(rt: &HostRuntime, places: u32, walks: u32) -> Option<u32> {
    let mut disk = filled(rt, places)?;
    let mut met = 0;
    for _ in 0..walks {
        met = walk(&mut disk, places)?;
    }
    Some(met)
}

fn main(rt: HostRuntime) -> ExitCode {
    let Some((places, walks)) = arguments(&rt) else {
        let _printed = print!(rt; "usage: walk_places <places> <walks>\n");
        return ExitCode::from(2);
    };
    match walk_all(&rt, places, walks) {
        Some(met) => {
            let _printed = print!(rt; "{walks} walks, {met} places each\n");
            ExitCode::from(0)
        }
        None => {
            let _printed = print!(rt; "not walked\n");
            ExitCode::from(1)
        }
    }
}
