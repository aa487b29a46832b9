//! What gives bytes.
ghost use Rattle.std.specs.Prelude.{◌≡◌, ◌≤◌, ◌<◌, ℕ, List, length, Option, IfOk, OnErr};
ghost use Rattle.cm_base.specs.Causes.{HasCause};
ghost use Rattle.cm_base.specs.Streams.{Beside, Gives};

/// The source failed.
#[derive(Clone, Copy, Debug, PartialEq, Eq)]
pub struct SourceFault;

/// What gives bytes.
pub trait Source {
    /// The bytes left, where it tells them.
    ghost left: { Self → Option (List ℕ) };

    /// How often it has failed.
    ghost faults: { Self → ℕ };

    /// What the object holds beside, which no call of a source changes.
    ghost beside: { Self → Beside };

    /// Gives the first of the bytes left, at most as many as the buffer takes. 0 for a buffer that is not empty means the
    /// end of input. After a fault the bytes left are those before.
    fn read(&mut self, buf: &mut [u8]) -> Result<usize, SourceFault>
        ensures fits { IfOk result (λ count. count ≤ length buf.new) }
        ensures given { IfOk result (λ count. Gives (left self.old) (left self.new) buf.new count) }
        ensures failed { OnErr result (left self.new ≡ left self.old) }
        ensures kept { beside self.new ≡ beside self.old }
        ensures cause { HasCause (faults self.old) (faults self.new) result };
}
