//! What becomes of a read of a version's file that the disk failed.
use cm_base::Version;
use cm_disk::{Disk, MemDisk};
use cm_library::{LibFault, Library};
use library_cases::calls::{Answer, Call, ONE, answered, package};
use library_cases::libraries::{PREPARED, Rows, has, prepared};
use std::alloc::Global;
use std::test::Fail;

// `PREPARED` with job 3.
const WITH_THIRD: Rows = (&[(2, 2), (3, 3)], &[1]);

// What is asked of the first file of version 1, which is `abc`.
#[derive(Clone, Copy)]
enum Ask {
    Size,
    Bytes,
}

// The number that is answered: the size, or that of the bytes which are there from the second one on.
fn asked(library: &mut Library<MemDisk>, ask: Ask) -> Option<Result<u64, LibFault>> {
    let (package, version) = (package()?, Version::new(1)?);
    let mut buf = [0u8; 8];
    match ask {
        Ask::Size => Some(library.file_size(package, version, 0)),
        Ask::Bytes => match library.read(package, version, 0, 1, &mut buf) {
            Ok(count) => (&buf[..count] == b"bc".as_slice()).then_some(Ok(count as u64)),
            Err(fault) => Some(Err(fault)),
        },
    }
}

// Whether it is told. None where neither that nor a fault is answered.
fn is_told(library: &mut Library<MemDisk>, ask: Ask) -> Option<bool> {
    match (asked(library, ask)?, ask) {
        (Ok(3), Ask::Size) => Some(true),
        (Ok(2), Ask::Bytes) => Some(true),
        (Err(LibFault::Disk), _) => Some(false),
        _ => None,
    }
}

// Which call the disk failed.
#[derive(Clone, Copy, PartialEq, Eq)]
enum Failed {
    // One that made the library.
    Before,
    // The one that would begin job 3.
    Begin,
    // The first that asked.
    Ask,
    Never,
}

// It is asked behind a call that would begin job 3. Where the disk fails once, it is told by the next call in any case, and the library
// is settled then. None where something goes otherwise.
fn tried(alloc: Global, ask: Ask, disk: MemDisk) -> Option<Failed> {
    let mut library = match prepared(alloc, disk) {
        Ok(library) => library,
        Err(disk) if disk.faults() > 0 => return Some(Failed::Before),
        Err(_) => return None,
    };
    let begun = answered(alloc, &mut library, Call::Begin(3, ONE))?;
    let failed = match begun {
        Answer::Begun(3) => Failed::Ask,
        Answer::Disk => Failed::Begin,
        _ => return None,
    };
    let is_first = is_told(&mut library, ask)?;
    if library.faults() == 0 {
        return (is_first && has(&library, WITH_THIRD)).then_some(Failed::Never);
    }
    // The first one is told where the disk failed the call before.
    let is_again = is_told(&mut library, ask)?;
    let is_settled = matches!(library.settle(), Ok(None));
    let is_third = has(&library, WITH_THIRD);
    let is_either = is_third || failed == Failed::Begin && has(&library, PREPARED);
    let is_well = is_first == (failed == Failed::Begin) && is_again && is_settled && is_either;
    is_well.then_some(failed)
}

// Each device call fails in turn: how often that was one of the call before, and one of the call that asked.
fn each_fault(alloc: Global, ask: Ask) -> Option<(u32, u32)> {
    let mut before = 0u32;
    let mut asked = 0u32;
    for at in 0..1000u64 {
        let disk = MemDisk::new(alloc, [at].to_vec(alloc).ok()?).ok()?;
        match tried(alloc, ask, disk)? {
            Failed::Before => {}
            Failed::Begin => before = before.saturating_add(1),
            Failed::Ask => asked = asked.saturating_add(1),
            Failed::Never => return Some((before, asked)),
        }
    }
    None
}

#[test]
fn tell_what_is_asked_again(rt: HostRuntime) -> Result<(), Fail> {
    for ask in [Ask::Size, Ask::Bytes] {
        assert!(rt; matches!(each_fault(rt.alloc(), ask), Some((1.., 1..))));
    }
    Ok(())
}
