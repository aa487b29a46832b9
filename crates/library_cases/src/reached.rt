//! How far a run comes on a disk that stops.
use cm_disk::MemDisk;
use std::alloc::Global;
use std::mem;

/// How far a run came.
#[derive(Clone, Copy, PartialEq, Eq)]
pub enum Reached {
    /// The disk failed before the case's call, or there was no memory.
    Before,
    Failed,
    Done,
}

/// The disk, with an empty one in its place.
pub fn taken(alloc: Global, disk: &mut MemDisk) -> Option<MemDisk> {
    let other = MemDisk::new(alloc, Vec::new(alloc)).ok()?;
    Some(mem::replace(disk, other))
}
