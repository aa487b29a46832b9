//! Crash tests: a run whose device calls fail, one after another, and what a crash then leaves.
ghost use Rattle.std.specs.Prelude.{◌≡◌};

use crate::{Disk, MemDisk};
use cm_base::Memory;
use std::alloc::Global;

// A run has no more device calls.
const MOST_CALLS: u64 = 100_000;

/// Why a crash test ended.
#[derive(Clone, Copy, Debug, PartialEq, Eq)]
pub enum CrashFault {
    /// What was left was not as it must be, after device call `at` failed: image `pick` of `MemDisk::crash`.
    Refused { at: u64, pick: u8 },
    /// The run still met its failing call after 100,000 tries.
    NoEnd,
    /// Want of memory.
    Memory,
}

impl From<Memory> for CrashFault {
    fn from(_: Memory) -> CrashFault
        ensures { result ≡ CrashFault.Memory }
    {
        CrashFault::Memory
    }
}

// Which device calls fail: one alone, or it and all after it.
#[derive(Clone, Copy)]
enum Failing {
    Once,
    FromThere,
}

/// Tries a run with a failure at each of its device calls.
///
/// `run` begins with an empty disk. Device call 0 fails, and all after it; then 1 and all after it; and so on, until a
/// run meets no failing call. Then the same again with one failing call each. After each run `look` is handed what the
/// run gave, and each of the three images of a crash at its end. It tells whether that image is as it must be.
///
/// No clause promises this: what both closures answer at each disk would have to be told, run by run. It is for tests.
pub fn at_each_crash<T, R, L>(alloc: Global, run: R, look: L) -> Result<(), CrashFault>
where
    T: Drop,
    R: Fn(&mut MemDisk) -> T + Drop,
    L: Fn(&T, &mut MemDisk) -> bool + Drop,
    requires run { R.IsAlwaysCallable run }
    requires look { L.IsAlwaysCallable look }
{
    at_each_failure(alloc, Failing::FromThere, &run, &look)?;
    at_each_failure(alloc, Failing::Once, &run, &look)
}

fn at_each_failure<T, R, L>(
    alloc: Global,
    failing: Failing,
    run: &R,
    look: &L,
) -> Result<(), CrashFault>
where
    T: Drop,
    R: Fn(&mut MemDisk) -> T,
    L: Fn(&T, &mut MemDisk) -> bool,
    requires run { R.IsAlwaysCallable run.now }
    requires look { L.IsAlwaysCallable look.now }
{
    for at in 0..MOST_CALLS {
        let mut disk = failing_disk(alloc, failing, at)?;
        let given = run(&mut disk);
        look_at(&disk, at, &given, look)?;
        if disk.faults() == 0 {
            return Ok(());
        }
    }
    Err(CrashFault::NoEnd)
}

fn failing_disk(alloc: Global, failing: Failing, at: u64) -> Result<MemDisk, Memory> {
    match failing {
        Failing::FromThere => MemDisk::stopping(alloc, at),
        Failing::Once => {
            let mut fail = Vec::new(alloc);
            fail.push(at)?;
            MemDisk::new(alloc, fail)
        }
    }
}

// Looks at the three images of a crash.
fn look_at<T, L>(disk: &MemDisk, at: u64, given: &T, look: &L) -> Result<(), CrashFault>
where
    L: Fn(&T, &mut MemDisk) -> bool,
    requires { L.IsAlwaysCallable look.now }
{
    if disk.short() > 0 {
        return Err(CrashFault::Memory);
    }
    for pick in 0..3 {
        let mut image = disk.crash(pick)?;
        if !look(given, &mut image) {
            return Err(CrashFault::Refused { at, pick });
        }
    }
    Ok(())
}
