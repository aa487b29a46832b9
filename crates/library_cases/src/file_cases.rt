//! The calls on a job's files whose device calls fail, and the files that a disk has.
use crate::calls::{Answer, Call, EMPTY, HELLO, THREE, answered};
use crate::libraries::{PREPARED, Rows, opens_to, prepared_with};
use cm_base::Place;
use cm_disk::{Disk, MemDisk};
use cm_library::Library;
use std::alloc::Global;

/// A call on the library with job 2 for the manifest `THREE`, behind others.
#[derive(Clone, Copy)]
pub struct FileCase {
    pub before: &'static [Call],
    pub call: Call,
    /// Its answer.
    pub done: Answer,
    /// The answer of the same call once more, after the disk failed it.
    pub again: Answer,
    /// What the library has then.
    pub after: Rows,
    /// Whether `hello` is sealed then.
    pub is_sealed: bool,
}

pub const START: FileCase = FileCase {
    before: &[],
    call: Call::Start(2, HELLO),
    done: Answer::Done,
    again: Answer::Done,
    after: PREPARED,
    is_sealed: false,
};

pub const START_ANOTHER: FileCase = FileCase {
    before: &[Call::Start(2, EMPTY)],
    call: Call::Start(2, HELLO),
    done: Answer::Done,
    again: Answer::Done,
    after: PREPARED,
    is_sealed: false,
};

pub const PUT: FileCase = FileCase {
    before: &[Call::Start(2, HELLO), Call::Put(2, 0, b"he")],
    call: Call::Put(2, 2, b"llo"),
    done: Answer::Done,
    again: Answer::NotStarted,
    after: PREPARED,
    is_sealed: false,
};

pub const SEAL: FileCase = FileCase {
    before: &[Call::Start(2, HELLO), Call::Put(2, 0, b"hello")],
    call: Call::Seal(2),
    done: Answer::Done,
    again: Answer::NotStarted,
    after: PREPARED,
    is_sealed: true,
};

pub const SALVAGE: FileCase = FileCase {
    before: &[Call::Start(2, HELLO), Call::Put(2, 0, b"hello")],
    call: Call::Salvage(2, HELLO),
    done: Answer::Is(true),
    again: Answer::Is(true),
    after: PREPARED,
    is_sealed: true,
};

/// Job 2 is dropped with a started file.
pub const DROP_STARTED: FileCase = FileCase {
    before: &[Call::Start(2, HELLO), Call::Put(2, 0, b"he")],
    call: Call::Drop(2),
    done: Answer::Done,
    again: Answer::NoJob,
    after: (&[], &[1]),
    is_sealed: false,
};

/// Job 2 is finished with files that it has put.
pub const FINISH_PUT: FileCase = FileCase {
    before: &[
        Call::Start(2, HELLO),
        Call::Put(2, 0, b"hel"),
        Call::Put(2, 3, b"lo"),
        Call::Seal(2),
        Call::Start(2, EMPTY),
        Call::Seal(2),
    ],
    call: Call::Finish(2),
    done: Answer::Done,
    again: Answer::NoJob,
    after: (&[], &[1, 2]),
    is_sealed: true,
};

fn are_done(alloc: Global, library: &mut Library<MemDisk>, calls: &[Call]) -> bool {
    for number in 0..calls.len() {
        if answered(alloc, library, calls[number]) != Some(Answer::Done) {
            return false;
        }
    }
    true
}

/// The library of a case on an empty disk, just before its call. The disk where something failed.
pub fn prepared_case(
    alloc: Global,
    case: &FileCase,
    disk: MemDisk,
) -> Result<Library<MemDisk>, MemDisk> {
    let mut library = prepared_with(alloc, disk, THREE)?;
    if are_done(alloc, &mut library, case.before) {
        Ok(library)
    } else {
        Err(library.close())
    }
}

// Whether a place of a disk has these bytes, at most 7.
fn has_bytes(disk: &mut MemDisk, place: &[u8], bytes: &[u8]) -> Option<bool> {
    let place = Place::read(place)?;
    let mut buf = [0u8; 8];
    let size = disk.size(&place).ok()?;
    let count = disk.read_at(&place, 0, &mut buf).ok()?;
    Some(size == Some(bytes.len() as u64) && &buf[..count] == bytes)
}

/// Whether a disk has `abc` under its hash.
pub fn has_abc(disk: &mut MemDisk) -> Option<bool> {
    has_bytes(
        disk,
        b"FileLib/ba7816bf8f01cfea414140de5dae2223b00361a396177a9cb410ff61f20015ad",
        b"abc",
    )
}

/// Whether a disk has `hello` under its hash.
pub fn has_hello(disk: &mut MemDisk) -> Option<bool> {
    has_bytes(
        disk,
        b"FileLib/2cf24dba5fb0a30e26e83b2ac5b9e29e1b161e5c1fa7425e73043362938b9824",
        b"hello",
    )
}

/// Whether a disk has the empty file under its hash.
pub fn has_empty(disk: &mut MemDisk) -> Option<bool> {
    has_bytes(
        disk,
        b"FileLib/e3b0c44298fc1c149afbf4c8996fb92427ae41e4649b934ca495991b7852b855",
        b"",
    )
}

/// Whether a disk has all files of `THREE`.
pub fn has_three(disk: &mut MemDisk) -> Option<bool> {
    Some(has_abc(disk)? && has_hello(disk)? && has_empty(disk)?)
}

/// Whether each image of a crash opens to these rows, and has the files of both versions.
pub fn leaves_both(alloc: Global, disk: &MemDisk, rows: Rows) -> Option<bool> {
    for pick in 0..3u8 {
        let mut image = disk.crash(pick).ok()?;
        if !has_three(&mut image)? {
            return Some(false);
        }
    }
    opens_to(alloc, disk, rows)
}

// Whether calls are answered as those of a job that puts a whole file.
fn stores_hello(alloc: Global, library: &mut Library<MemDisk>) -> bool {
    are_done(
        alloc,
        library,
        &[
            Call::Start(2, HELLO),
            Call::Put(2, 0, b"hello"),
            Call::Seal(2),
        ],
    )
}

/// Whether job 2 gets the files that it lacks and is finished.
pub fn finishes(alloc: Global, library: &mut Library<MemDisk>) -> Option<bool> {
    if answered(alloc, library, Call::Wanted(2, None))? == Answer::Wants(Some((HELLO, 5)))
        && !stores_hello(alloc, library)
    {
        return Some(false);
    }
    if answered(alloc, library, Call::Wanted(2, None))? == Answer::Wants(Some((EMPTY, 0)))
        && !are_done(alloc, library, &[Call::Start(2, EMPTY), Call::Seal(2)])
    {
        return Some(false);
    }
    Some(answered(alloc, library, Call::Finish(2))? == Answer::Done)
}
