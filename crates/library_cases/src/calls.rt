//! A call of a library and its answer, in numbers.
use cm_base::{Hash, JobId, PackageId, Version};
use cm_disk::MemDisk;
use cm_library::{Change, LibFault, Library};
use cm_tree::Manifest;
use std::alloc::Global;

/// The manifest of the file `k`, which is `abc`.
pub const ONE: &[u8] = &[
    67, 77, 68, 76, 1, 1, 0, 0, 0, 1, 107, 3, 0, 0, 0, 186, 120, 22, 191, 143, 1, 207, 234, 65, 65,
    64, 222, 93, 174, 34, 35, 176, 3, 97, 163, 150, 23, 122, 156, 180, 16, 255, 97, 242, 0, 21,
    173,
];

/// The same with one byte more.
pub const LONGER: &[u8] = &[
    67, 77, 68, 76, 1, 1, 0, 0, 0, 1, 107, 4, 0, 0, 0, 186, 120, 22, 191, 143, 1, 207, 234, 65, 65,
    64, 222, 93, 174, 34, 35, 176, 3, 97, 163, 150, 23, 122, 156, 180, 16, 255, 97, 242, 0, 21,
    173,
];

/// The manifest of the file `k`, which is `abc`, of `l`, which is empty, and of `m`, which is `hello`.
pub const THREE: &[u8] = &[
    67, 77, 68, 76, 1, 3, 0, 0, 0, 1, 107, 3, 0, 0, 0, 186, 120, 22, 191, 143, 1, 207, 234, 65, 65,
    64, 222, 93, 174, 34, 35, 176, 3, 97, 163, 150, 23, 122, 156, 180, 16, 255, 97, 242, 0, 21,
    173, 1, 108, 0, 0, 0, 0, 227, 176, 196, 66, 152, 252, 28, 20, 154, 251, 244, 200, 153, 111,
    185, 36, 39, 174, 65, 228, 100, 155, 147, 76, 164, 149, 153, 27, 120, 82, 184, 85, 1, 109, 5,
    0, 0, 0, 44, 242, 77, 186, 95, 176, 163, 14, 38, 232, 59, 42, 197, 185, 226, 158, 27, 22, 30,
    92, 31, 167, 66, 94, 115, 4, 51, 98, 147, 139, 152, 36,
];

/// The manifest of the files `k` and `l`, which are `abc`.
pub const TWICE: &[u8] = &[
    67, 77, 68, 76, 1, 2, 0, 0, 0, 1, 107, 3, 0, 0, 0, 186, 120, 22, 191, 143, 1, 207, 234, 65, 65,
    64, 222, 93, 174, 34, 35, 176, 3, 97, 163, 150, 23, 122, 156, 180, 16, 255, 97, 242, 0, 21,
    173, 1, 108, 3, 0, 0, 0, 186, 120, 22, 191, 143, 1, 207, 234, 65, 65, 64, 222, 93, 174, 34, 35,
    176, 3, 97, 163, 150, 23, 122, 156, 180, 16, 255, 97, 242, 0, 21, 173,
];

/// The manifest of the files `k` and `l`, which are `hello` and empty.
pub const PAIR: &[u8] = &[
    67, 77, 68, 76, 1, 2, 0, 0, 0, 1, 107, 5, 0, 0, 0, 44, 242, 77, 186, 95, 176, 163, 14, 38, 232,
    59, 42, 197, 185, 226, 158, 27, 22, 30, 92, 31, 167, 66, 94, 115, 4, 51, 98, 147, 139, 152, 36,
    1, 108, 0, 0, 0, 0, 227, 176, 196, 66, 152, 252, 28, 20, 154, 251, 244, 200, 153, 111, 185, 36,
    39, 174, 65, 228, 100, 155, 147, 76, 164, 149, 153, 27, 120, 82, 184, 85,
];

/// The manifest of the files `k` and `l` with the hash of `abc`, whose sizes are 3 and 4.
pub const TWO_SIZES: &[u8] = &[
    67, 77, 68, 76, 1, 2, 0, 0, 0, 1, 107, 3, 0, 0, 0, 186, 120, 22, 191, 143, 1, 207, 234, 65, 65,
    64, 222, 93, 174, 34, 35, 176, 3, 97, 163, 150, 23, 122, 156, 180, 16, 255, 97, 242, 0, 21,
    173, 1, 108, 4, 0, 0, 0, 186, 120, 22, 191, 143, 1, 207, 234, 65, 65, 64, 222, 93, 174, 34, 35,
    176, 3, 97, 163, 150, 23, 122, 156, 180, 16, 255, 97, 242, 0, 21, 173,
];

/// The same with 4 first.
pub const LONGER_FIRST: &[u8] = &[
    67, 77, 68, 76, 1, 2, 0, 0, 0, 1, 107, 4, 0, 0, 0, 186, 120, 22, 191, 143, 1, 207, 234, 65, 65,
    64, 222, 93, 174, 34, 35, 176, 3, 97, 163, 150, 23, 122, 156, 180, 16, 255, 97, 242, 0, 21,
    173, 1, 108, 3, 0, 0, 0, 186, 120, 22, 191, 143, 1, 207, 234, 65, 65, 64, 222, 93, 174, 34, 35,
    176, 3, 97, 163, 150, 23, 122, 156, 180, 16, 255, 97, 242, 0, 21, 173,
];

/// The manifest without files.
pub const NONE: &[u8] = &[67, 77, 68, 76, 1, 0, 0, 0, 0];

/// The SHA-256 of `abc`.
pub const ABC: Hash = Hash([
    186, 120, 22, 191, 143, 1, 207, 234, 65, 65, 64, 222, 93, 174, 34, 35, 176, 3, 97, 163, 150,
    23, 122, 156, 180, 16, 255, 97, 242, 0, 21, 173,
]);

/// The SHA-256 of no bytes.
pub const EMPTY: Hash = Hash([
    227, 176, 196, 66, 152, 252, 28, 20, 154, 251, 244, 200, 153, 111, 185, 36, 39, 174, 65, 228,
    100, 155, 147, 76, 164, 149, 153, 27, 120, 82, 184, 85,
]);

/// The SHA-256 of `hello`.
pub const HELLO: Hash = Hash([
    44, 242, 77, 186, 95, 176, 163, 14, 38, 232, 59, 42, 197, 185, 226, 158, 27, 22, 30, 92, 31,
    167, 66, 94, 115, 4, 51, 98, 147, 139, 152, 36,
]);

/// The SHA-256 of `abd`.
pub const OF_ABD: Hash = Hash([
    165, 45, 21, 159, 38, 43, 44, 109, 219, 114, 74, 97, 132, 11, 239, 195, 110, 179, 12, 136, 135,
    122, 64, 48, 182, 92, 190, 134, 41, 132, 73, 201,
]);

/// The SHA-256 of `ab`.
pub const OF_AB: Hash = Hash([
    251, 142, 32, 252, 46, 76, 63, 36, 140, 96, 195, 155, 214, 82, 243, 193, 52, 114, 152, 187,
    151, 123, 139, 77, 89, 3, 184, 80, 85, 98, 6, 3,
]);

/// A call with numbers of versions and jobs, and the bytes of a manifest or a piece.
#[derive(Clone, Copy)]
pub enum Call {
    Begin(u32, &'static [u8]),
    Finish(u64),
    Drop(u64),
    Remove(u32),
    Start(u64, Hash),
    /// At an offset.
    Put(u64, u64, &'static [u8]),
    Seal(u64),
    Salvage(u64, Hash),
    /// The next hash above one.
    Wanted(u64, Option<Hash>),
    GiveUp(u64),
}

/// What a call answers.
#[derive(Clone, Copy, PartialEq, Eq)]
pub enum Answer {
    /// The job with this number begins.
    Begun(u64),
    Done,
    NoJob,
    NoVersion,
    VersionThere,
    JobThere(u64),
    Unwanted(Hash),
    Stored(Hash),
    /// The job with this number has started it.
    HeldBy(Hash, u64),
    NotStarted,
    WrongOffset(u64),
    TooLong(u32),
    /// The hash and the size that were meant, and those that were put.
    WrongBytes(Hash, u32, Hash, u32),
    NotStored(Hash),
    /// A hash and its size.
    Wants(Option<(Hash, u32)>),
    Is(bool),
    Disk,
    /// Anything else.
    Other,
}

/// The package that all calls are on.
pub fn package() -> Option<PackageId> {
    PackageId::read(b"PS100001")
}

/// The manifest that these bytes spell.
pub fn manifest_of(alloc: Global, bytes: &[u8]) -> Option<Manifest> {
    Manifest::decode(alloc, bytes).ok()
}

fn refused(fault: LibFault) -> Answer {
    match fault {
        LibFault::NoJob => Answer::NoJob,
        LibFault::NoVersion => Answer::NoVersion,
        LibFault::VersionThere => Answer::VersionThere,
        LibFault::JobThere { job } => Answer::JobThere(job.number()),
        LibFault::NotStored { hash } => Answer::NotStored(hash),
        LibFault::Disk => Answer::Disk,
        _ => refused_file(fault),
    }
}

fn refused_file(fault: LibFault) -> Answer {
    match fault {
        LibFault::Unwanted { hash } => Answer::Unwanted(hash),
        LibFault::Stored { hash } => Answer::Stored(hash),
        LibFault::HeldBy { hash, job } => Answer::HeldBy(hash, job.number()),
        LibFault::NotStarted => Answer::NotStarted,
        LibFault::WrongOffset { expected } => Answer::WrongOffset(expected),
        LibFault::TooLong { size } => Answer::TooLong(size),
        LibFault::WrongBytes {
            named,
            size,
            got,
            put,
        } => Answer::WrongBytes(named, size, got, put),
        _ => Answer::Other,
    }
}

fn ended(res: Result<(), LibFault>) -> Answer {
    match res {
        Ok(()) => Answer::Done,
        Err(fault) => refused(fault),
    }
}

fn begun(res: Result<JobId, LibFault>) -> Answer {
    match res {
        Ok(job) => Answer::Begun(job.number()),
        Err(fault) => refused(fault),
    }
}

fn salvaged(res: Result<bool, LibFault>) -> Answer {
    match res {
        Ok(is) => Answer::Is(is),
        Err(fault) => refused(fault),
    }
}

fn wanted(res: Result<Option<(Hash, u32)>, LibFault>) -> Answer {
    match res {
        Ok(next) => Answer::Wants(next),
        Err(fault) => refused(fault),
    }
}

// What a library answers to a call on a job's files.
fn answered_file(library: &mut Library<MemDisk>, call: Call) -> Option<Answer> {
    match call {
        Call::Start(job, hash) => Some(ended(library.start_file(JobId::new(job)?, hash))),
        Call::Put(job, offset, bytes) => {
            if bytes.len() > 65_536 {
                return None;
            }
            Some(ended(library.put(JobId::new(job)?, offset, bytes)))
        }
        Call::Seal(job) => Some(ended(library.seal(JobId::new(job)?))),
        Call::Salvage(job, hash) => Some(salvaged(library.salvage(JobId::new(job)?, hash))),
        Call::Wanted(job, after) => Some(wanted(library.wanted(JobId::new(job)?, after))),
        Call::GiveUp(job) => Some(Answer::Is(library.give_up(JobId::new(job)?))),
        _ => None,
    }
}

/// What a library answers. None where a number or the manifest is none, or there is no memory for the manifest.
pub fn answered(alloc: Global, library: &mut Library<MemDisk>, call: Call) -> Option<Answer> {
    match call {
        Call::Begin(version, manifest) => {
            let manifest = manifest_of(alloc, manifest)?;
            Some(begun(library.begin(package()?, Version::new(version)?, manifest)))
        }
        Call::Finish(job) => Some(ended(library.finish(JobId::new(job)?))),
        Call::Drop(job) => Some(ended(library.drop_job(JobId::new(job)?))),
        Call::Remove(version) => {
            Some(ended(library.remove_version(package()?, Version::new(version)?)))
        }
        _ => answered_file(library, call),
    }
}

/// A call, and its answer.
pub type Reply = (Call, Answer);

/// Whether calls are answered so, one after another.
pub fn are_answered(alloc: Global, library: &mut Library<MemDisk>, replies: &[Reply]) -> bool {
    for number in 0..replies.len() {
        let (call, wanted) = replies[number];
        if answered(alloc, library, call) != Some(wanted) {
            return false;
        }
    }
    true
}

/// Whether a change is that of a call.
pub fn is_change_of(call: Call, told: Change) -> bool {
    match (call, told) {
        (
            Call::Begin(number, manifest),
            Change::Opened {
                package: id,
                version,
                size,
                ..
            },
        ) => {
            Some(id) == package() && version.number() == number && size as usize == manifest.len()
        }
        (Call::Finish(number), Change::Done { job }) => job.number() == number,
        (Call::Drop(number), Change::Dropped { job }) => job.number() == number,
        (
            Call::Remove(number),
            Change::Removed {
                package: id,
                version,
            },
        ) => Some(id) == package() && version.number() == number,
        _ => false,
    }
}
