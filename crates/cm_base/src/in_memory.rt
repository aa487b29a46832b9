//! What a source and a sink in memory keep.
ghost use Rattle.std.specs.Prelude.{◌≤◌, ◌<◌, length};

/// Bytes in memory. At most `piece` of them come in one call, and the calls with listed numbers fail.
#[derive(Drop)]
pub struct MemSource {
    pub(crate) bytes: Vec<u8>,
    pub(crate) at: usize,
    pub(crate) piece: usize,
    pub(crate) fail: Vec<u64>,
    pub(crate) number: u64,
    pub(crate) faults: u64,
    ghost some: { 0 < piece },
    ghost within: { at ≤ length bytes.items },
}

/// Takes bytes into memory, at most `piece` of them in one call. The calls with listed numbers fail, and so does one that
/// finds no memory.
#[derive(Drop)]
pub struct MemSink {
    pub(crate) bytes: Vec<u8>,
    pub(crate) piece: usize,
    pub(crate) fail: Vec<u64>,
    pub(crate) number: u64,
    pub(crate) faults: u64,
    pub(crate) short: u64,
    ghost some: { 0 < piece },
}
