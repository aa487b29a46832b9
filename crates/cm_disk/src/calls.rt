//! What a disk in memory keeps: each file as it stands, and the record of all calls that change something.
use cm_base::Place;

/// Bytes from an offset on, up to another or without end.
#[derive(Clone, Copy, Debug, PartialEq, Eq)]
pub struct Span {
    pub from: u64,
    pub to: Option<u64>,
}

/// A file: what reads give, what is durable, and what was touched since its last successful sync.
#[derive(Drop)]
pub struct Slot {
    pub file: Option<Vec<u8>>,
    pub durable: Option<Vec<u8>>,
    pub touched: Vec<Span>,
    pub removed: bool,
}

#[derive(Drop)]
pub enum Work {
    Write { offset: u64, bytes: Vec<u8> },
    Cut { size: u64 },
    Remove,
    Sync,
}

/// A call, and whether it was done or failed.
#[derive(Drop)]
pub struct Call {
    pub place: Place,
    pub work: Work,
    pub done: bool,
}
