//! Standard output as a sink.
ghost use Rattle.std.specs.Prelude.{None};
ghost use Rattle.cm_base.specs.Streams.{nothing_beside};

use cm_base::{Sink, SinkFault};
use std::io::Write;

/// A writer of the host as a sink. It tells nothing of what it got, and counts each error; one that takes no byte of a
/// piece has failed.
#[derive(Drop)]
pub(crate) struct HostSink<W: Write + Drop> {
    pub(crate) writer: W,
    pub(crate) count: u64,
}

impl<W: Write + Drop> Sink for HostSink<W> {
    ghost got = { λ sink. None };

    ghost faults = { λ sink. sink.count };

    ghost beside = { λ _. nothing_beside };

    fn write(&mut self, bytes: &[u8]) -> Result<usize, SinkFault> {
        match self.writer.write(bytes) {
            Ok(count) if count > 0 || bytes.is_empty() => Ok(count),
            _ => {
                self.count = self.count.saturating_add(1);
                Err(SinkFault)
            }
        }
    }
}
