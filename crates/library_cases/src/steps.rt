//! Calls one after another.
use crate::calls::{Answer, Call, Reply, answered};
use crate::libraries::{Rows, has, opened};
use cm_disk::MemDisk;
use cm_library::Library;
use std::alloc::Global;

/// A call, its answer, and the rows after it.
pub type Step = (Call, Answer, Rows);

/// The number of the first step that goes otherwise.
pub fn wrong(alloc: Global, library: &mut Library<MemDisk>, steps: &[Step]) -> Option<usize> {
    for number in 0..steps.len() {
        let (call, wanted, rows) = steps[number];
        if answered(alloc, library, call) != Some(wanted) || !has(library, rows) {
            return Some(number);
        }
    }
    None
}

/// The number of the first call that goes otherwise, where the rows stay these.
pub fn odd(
    alloc: Global,
    library: &mut Library<MemDisk>,
    rows: Rows,
    replies: &[Reply],
) -> Option<usize> {
    for number in 0..replies.len() {
        let (call, wanted) = replies[number];
        if answered(alloc, library, call) != Some(wanted) || !has(library, rows) {
            return Some(number);
        }
    }
    None
}

/// The library of the same disk, opened again.
pub fn again(alloc: Global, library: Library<MemDisk>) -> Option<Library<MemDisk>> {
    opened(alloc, library.close())
}
