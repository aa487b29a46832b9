//! A source in memory.
ghost use Rattle.std.specs.Prelude.{◌≡◌, ◌+◌, ◌-◌, ◌≤◌, ◌<◌, length, Some, IfOk, OnErr};
ghost use Rattle.cm_base.specs.Causes.{HasCause};
ghost use Rattle.cm_base.specs.InMemory.{counters_of_source, left_of, fresh, FailsExactly};
ghost use Rattle.cm_base.specs.Streams.{Gives, nothing_beside};

use crate::in_memory::MemSource;
use crate::listed::is_among;
use crate::{Source, SourceFault};

impl MemSource {
    /// A source of these bytes, at most `piece` a call, that fails exactly at the calls whose numbers, from 0, are in
    /// `fail`.
    pub fn new(bytes: Vec<u8>, piece: usize, fail: Vec<u64>) -> MemSource
        requires { 0 < piece }
        ensures bytes { left_of result ≡ Some bytes.items }
        ensures counters { counters_of_source result ≡ fresh fail.items piece }
    {
        MemSource {
            bytes,
            at: 0,
            piece,
            fail,
            number: 0,
            faults: 0,
        }
    }
}

impl Source for MemSource {
    ghost left = { left_of };

    ghost faults = { λ source. (counters_of_source source).faults };

    ghost beside = { λ _. nothing_beside };

    /// Fails exactly at a listed call.
    fn read(&mut self, buf: &mut [u8]) -> Result<usize, SourceFault>
        ensures fits { IfOk result (λ count. count ≤ length buf.new) }
        ensures given { IfOk result (λ count. Gives (left_of self.old) (left_of self.new) buf.new count) }
        ensures failed { OnErr result (left_of self.new ≡ left_of self.old) }
        ensures cause { HasCause (counters_of_source self.old).faults (counters_of_source self.new).faults result }
        ensures piece { IfOk result (λ count. count ≤ (counters_of_source self.old).piece) }
        ensures exact { FailsExactly (counters_of_source self.old) (counters_of_source self.new) result }
    {
        let number = self.number;
        self.number = number.saturating_add(1);
        if is_among(&self.fail, number) {
            self.faults = self.faults.saturating_add(1);
            return Err(SourceFault);
        }
        let count = (self.bytes.len() - self.at).min(self.piece).min(buf.len());
        let end = self.at + count;
        buf[..count].copy_from_slice(&self.bytes[self.at..end]);
        self.at = end;
        Ok(count)
    }
}
