//! The command `init`, and refused words.
use crate::fakes::{holds, ran};
use cm_disk::{Disk, MemDisk};
use std::test::Fail;

#[test]
fn makes_a_library(rt: HostRuntime) -> Result<(), Fail> {
    let alloc = rt.alloc();
    let disk = MemDisk::new(alloc, Vec::new(alloc))?;
    let (status, text, disk) = ran(&rt, alloc, &["init"], disk, &[])?;
    assert!(rt; status == 0 && text.as_slice() == b"made 1\n".as_slice());
    let (status, text, mut disk) = ran(&rt, alloc, &["init", "SITE", "site"], disk, &[])?;
    assert!(rt; status == 0 && text.as_slice() == b"made 0\n".as_slice());
    let live = [1, 1, 1, 0, 0, 0, 0, 0, 0, 0, 0];
    let idle = [0, 1, 0, 0, 0, 0, 0, 0, 0, 0, 0];
    assert!(rt; holds(&mut disk, b"PkgLib/log.0", &live));
    assert!(rt; holds(&mut disk, b"PkgLib/log.1", &idle));
    assert!(rt; holds(&mut disk, b"PkgLib/ready", &[]));
    Ok(())
}

#[test]
fn refuses(rt: HostRuntime) -> Result<(), Fail> {
    let alloc = rt.alloc();
    for (words, wanted, ended) in [
        ([].as_slice(), b"usage 1 NoCommand\n".as_slice(), 2),
        (&["fly"], b"usage 2 UnknownCommand\n", 2),
        (&["init", "site", "a:b"], b"usage 3 BadValue 2\n", 2),
        (&["init", "--all"], b"usage 5 ExtraWord\n", 2),
        (&["init", "--", "--all"], b"refused 10 NoBay --all\n", 1),
        (&["init", "DP9"], b"refused 10 NoBay dp9\n", 1),
    ] {
        let disk = MemDisk::new(alloc, Vec::new(alloc))?;
        let (status, text, mut disk) = ran(&rt, alloc, words, disk, &[])?;
        assert!(rt; status == ended && text.as_slice() == wanted);
        assert!(rt; disk.next_place(None) == Ok(None));
    }
    Ok(())
}

// Each device call of `init` fails in turn, and then the sink.
#[test]
fn faults(rt: HostRuntime) -> Result<(), Fail> {
    let alloc = rt.alloc();
    for call in 0..11 {
        let disk = MemDisk::new(alloc, [call].to_vec(alloc)?)?;
        let (status, text, _) = ran(&rt, alloc, &["init"], disk, &[])?;
        assert!(rt; status == 5 && text.as_slice() == b"disk site\n".as_slice());
    }
    for (call, front) in [(0, b"".as_slice()), (1, b"mad"), (2, b"made 1")] {
        let disk = MemDisk::new(alloc, Vec::new(alloc))?;
        let (status, text, _) = ran(&rt, alloc, &["init"], disk, &[call])?;
        assert!(rt; status == 4 && text.as_slice() == front);
    }
    Ok(())
}
