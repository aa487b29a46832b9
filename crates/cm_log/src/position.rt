//! Where a reader of a log is.
ghost use Rattle.std.specs.Prelude.{◌+◌, ◌^◌, ◌<◌, ◌≤◌};

use crate::shelf::Shelf;
use cm_base::Place;

/// Reads the records of the live log of a shelf, one after another.
#[derive(Drop)]
pub struct LogReader {
    pub(crate) shelf: Shelf,
    pub(crate) place: Place,
    // The place of the next gate, how many records stand before it, and whether it was found closed.
    pub(crate) at: u64,
    pub(crate) number: u64,
    pub(crate) ended: bool,
    // Bytes of the file that were read ahead.
    pub(crate) block: Block,
    ghost at_in_range: { at < 2 ^ 41 },
    ghost number_in_range: { number ≤ at },
}

/// Bytes of one file, read ahead: the first `count` of the array, which stand in the file from `start` on.
#[derive(Drop)]
pub struct Block {
    pub(crate) bytes: [u8; 65536],
    pub(crate) start: u64,
    pub(crate) count: usize,
    ghost few: { count ≤ 65536 },
    ghost within: { 0 < count → start + count ≤ 2 ^ 40 + 196608 },
}
