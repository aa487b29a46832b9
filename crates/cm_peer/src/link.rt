//! The way from a client to its sources.
ghost use Rattle.std.specs.Prelude.{◌∷◌, [], ℕ, List, Option, None, IfOk, ⊤};
ghost use Rattle.cm_base.specs.Causes.{HasCause};
ghost use Rattle.cm_peer.specs.declared.offers.Want.{Want};
ghost use Rattle.cm_peer.specs.declared.offers.Answer.{Answer};
ghost use Rattle.cm_peer.specs.declared.sources.SourceRow.{SourceRow};
ghost use Rattle.cm_peer.specs.Links.{IsSameTest, WasAsked};

use crate::{Answer, SourceRow, Want};

/// The link failed.
#[derive(Clone, Copy, Debug, PartialEq, Eq)]
pub struct LinkFault;

/// The way from a client to its sources.
pub trait Link {
    /// The test whether a source gives that answer to that want. A link that does not tell has one that all answers meet.
    ghost gives: { Self → SourceRow → Want → Answer → Type 0 } = { λ _ _ _ _. ⊤ };

    /// Which sources it was asked for, in order, where it tells.
    ghost asked: { Self → Option (List SourceRow) } = { λ _. None };

    /// How often it has failed.
    ghost faults: { Self → ℕ };

    /// Asks a source for what is wanted.
    fn offer(&mut self, source: &SourceRow, want: &Want) -> Result<Answer, LinkFault>
        ensures answer { IfOk result (λ answer. gives self.old source.now want.now answer) }
        ensures same { IsSameTest (gives self.old) (gives self.new) }
        ensures asks { WasAsked (asked self.old) (asked self.new) (source.now ∷ []) }
        ensures cause { HasCause (faults self.old) (faults self.new) result };
}
