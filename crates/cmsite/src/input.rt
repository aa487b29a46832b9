//! Standard input as a source.
ghost use Rattle.std.specs.Prelude.{None};
ghost use Rattle.cm_base.specs.Streams.{nothing_beside};

use cm_base::{Source, SourceFault};
use std::io::Read;

/// A reader of the host as a source. It tells nothing of its bytes, and counts each error.
#[derive(Drop)]
pub(crate) struct HostSource<R: Read + Drop> {
    pub(crate) reader: R,
    pub(crate) count: u64,
}

impl<R: Read + Drop> Source for HostSource<R> {
    ghost left = { λ source. None };

    ghost faults = { λ source. source.count };

    ghost beside = { λ _. nothing_beside };

    fn read(&mut self, buf: &mut [u8]) -> Result<usize, SourceFault> {
        match self.reader.read(buf) {
            Ok(count) => Ok(count),
            Err(_) => {
                self.count = self.count.saturating_add(1);
                Err(SourceFault)
            }
        }
    }
}
