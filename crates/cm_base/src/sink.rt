//! What takes bytes.
ghost use Rattle.std.specs.Prelude.{◌≡◌, ◌<◌, ◌≤◌, ℕ, List, length, take, Option, IfOk, OnErr};
ghost use Rattle.cm_base.specs.Causes.{HasCause};
ghost use Rattle.cm_base.specs.Streams.{Beside, Gets, GetsFront};

/// The sink failed.
#[derive(Clone, Copy, Debug, PartialEq, Eq)]
pub struct SinkFault;

/// What takes bytes.
pub trait Sink {
    /// The bytes that it got, where it tells them.
    ghost got: { Self → Option (List ℕ) };

    /// How often it has failed.
    ghost faults: { Self → ℕ };

    /// What the object holds beside, which no call of a sink changes.
    ghost beside: { Self → Beside };

    /// Takes some of the piece, from its front: at least one byte of a piece that is not empty. After a fault some front
    /// of the piece was taken, which may be empty.
    fn write(&mut self, bytes: &[u8]) -> Result<usize, SinkFault>
        ensures fits { IfOk result (λ count. count ≤ length bytes.now) }
        ensures some { IfOk result (λ count. 0 < length bytes.now → 0 < count) }
        ensures taken { IfOk result (λ count. Gets (got self.old) (got self.new) (take count bytes.now)) }
        ensures failed { OnErr result (GetsFront (got self.old) (got self.new) bytes.now) }
        ensures kept { beside self.new ≡ beside self.old }
        ensures cause { HasCause (faults self.old) (faults self.new) result };
}
