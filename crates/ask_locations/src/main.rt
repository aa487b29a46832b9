//! `ask_locations <case> <times>`: asks so many times for locations among as many groups, boundaries, points, peers and rows as
//! there may be, and once by a plain scan; says how many rows an answer has and how long each way takes. What it is for is the
//! measuring of that.
#![tactic(auto)]

ghost use Rattle.cm_locate.specs.Asks.{IsPrefix};

mod cases;
mod making;
mod scanning;

use crate::cases::Case;
use crate::making::{Made, make, question};
use crate::scanning::scanned;
use cm_base::Memory;
use cm_locate::{Ask, locate};
use cm_peer::SourceRow;
use std::process::ExitCode;
use std::time::Instant;
use std::{env, io};

// No more questions than that.
const MOST: u32 = 100_000;

// The two arguments. None where there are others.
fn arguments(rt: &HostRuntime) -> Option<(Case, u32)> {
    let Ok(words) = env::args(rt) else {
        return None;
    };
    let mut words = words.skip(1);
    match (words.next(), words.next(), words.next()) {
        (Some(case), Some(times), None) => Some((
            Case::read(case.as_str())?,
            number(times.as_str())?,
        )),
        _ => None,
    }
}

fn number(word: &str) -> Option<u32> {
    match word.parse::<u32>() {
        Ok(number) if number <= MOST => Some(number),
        _ => None,
    }
}

// The answer of `locate`. None for want of memory.
fn located(rt: &HostRuntime, made: &Made, ask: &Ask) -> Option<Vec<SourceRow>>
    requires { IsPrefix ask.now.address ask.now.prefix }
{
    if made.states.len() != made.peers.len() {
        return None;
    }
    match locate(
        rt.alloc(),
        &made.groups,
        &made.points,
        &made.peers,
        &made.states,
        &made.installed,
        ask,
    ) {
        Ok(rows) => Some(rows),
        Err(Memory) => None,
    }
}

// The nanoseconds since then.
fn nanoseconds(rt: &HostRuntime, start: &Instant) -> Option<u128> {
    match start.elapsed(rt) {
        Ok(spent) => Some(spent.as_nanos()),
        Err(_) => None,
    }
}

// How many rows the answer has, whether the scan gives the same, and the nanoseconds of each question and of the scan.
fn told(rt: &HostRuntime, case: Case, times: u32) -> Option<(usize, bool, u128, u128)> {
    let made = make(rt.alloc(), case).ok()?;
    let ask = question(rt.alloc(), case).ok()?;
    let mut rows = located(rt, &made, &ask)?;
    let start = Instant::now(rt).ok()?;
    for _ in 0..times {
        rows = located(rt, &made, &ask)?;
    }
    let spent = nanoseconds(rt, &start)?;
    let start = Instant::now(rt).ok()?;
    let wanted = scanned(rt.alloc(), &made, &ask).ok()?;
    let scan = nanoseconds(rt, &start)?;
    let is_same = rows.as_slice() == wanted.as_slice();
    Some((rows.len(), is_same, spent / u128::from(times.max(1)), scan))
}

fn main(rt: HostRuntime) -> ExitCode {
    let Some((case, times)) = arguments(&rt) else {
        let _printed = print!(rt;
            "usage: ask_locations <ordinary|refused|sites|repeats|apart|all> <times>\n"
        );
        return ExitCode::from(2);
    };
    match told(&rt, case, times) {
        Some((rows, true, each, scan)) => {
            let _printed = print!(rt; "{rows} rows, the same by a scan\n");
            if times > 0 {
                let _printed = print!(rt; "nanoseconds {each} scan {scan}\n");
            }
            ExitCode::from(0)
        }
        Some((rows, false, _, _)) => {
            let _printed = print!(rt; "{rows} rows, others by a scan\n");
            ExitCode::from(1)
        }
        None => {
            let _printed = print!(rt; "memory, or no clock\n");
            ExitCode::from(6)
        }
    }
}
