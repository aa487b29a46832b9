//! A sink in memory.
ghost use Rattle.std.specs.Prelude.{◌≡◌, ◌<◌, ◌≤◌, Some, [], length, take, IfOk, OnErr};
ghost use Rattle.cm_base.specs.Causes.{HasCause};
ghost use Rattle.cm_base.specs.InMemory.{counters_of_sink, got_of, fresh, FailsExactly};
ghost use Rattle.cm_base.specs.Streams.{Gets, GetsFront, nothing_beside};

use crate::in_memory::MemSink;
use crate::listed::is_among;
use crate::{Sink, SinkFault};
use std::alloc::Global;

impl MemSink {
    /// An empty sink that takes at most `piece` bytes a call, and fails exactly at the calls whose numbers, from 0, are in
    /// `fail`, and where a growth finds no memory.
    pub fn new(alloc: Global, piece: usize, fail: Vec<u64>) -> MemSink
        requires { 0 < piece }
        ensures bytes { got_of result ≡ Some [] }
        ensures counters { counters_of_sink result ≡ fresh fail.items piece }
    {
        MemSink {
            bytes: Vec::new(alloc),
            piece,
            fail,
            number: 0,
            faults: 0,
            short: 0,
        }
    }

    /// The bytes that it got.
    pub fn bytes(&self) -> &[u8]
        ensures { got_of self.now ≡ Some result.now }
    {
        &self.bytes
    }

    /// How many calls failed for want of memory.
    pub fn short(&self) -> u64
        ensures { result ≡ (counters_of_sink self.now).short }
    {
        self.short
    }
}

impl Sink for MemSink {
    ghost got = { got_of };

    ghost faults = { λ sink. (counters_of_sink sink).faults };

    ghost beside = { λ _. nothing_beside };

    /// Fails exactly at a listed call, or where `short` rises.
    fn write(&mut self, bytes: &[u8]) -> Result<usize, SinkFault>
        ensures fits { IfOk result (λ count. count ≤ length bytes.now) }
        ensures some { IfOk result (λ count. 0 < length bytes.now → 0 < count) }
        ensures taken { IfOk result (λ count. Gets (got_of self.old) (got_of self.new) (take count bytes.now)) }
        ensures failed { OnErr result (GetsFront (got_of self.old) (got_of self.new) bytes.now) }
        ensures cause { HasCause (counters_of_sink self.old).faults (counters_of_sink self.new).faults result }
        ensures piece { IfOk result (λ count. count ≤ (counters_of_sink self.old).piece) }
        ensures exact { FailsExactly (counters_of_sink self.old) (counters_of_sink self.new) result }
    {
        let number = self.number;
        self.number = number.saturating_add(1);
        if is_among(&self.fail, number) {
            self.faults = self.faults.saturating_add(1);
            return Err(SinkFault);
        }
        let count = bytes.len().min(self.piece);
        if self.bytes.extend_from_slice(&bytes[..count]).is_err() {
            self.short = self.short.saturating_add(1);
            self.faults = self.faults.saturating_add(1);
            return Err(SinkFault);
        }
        Ok(count)
    }
}
