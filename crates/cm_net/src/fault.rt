//! What is wrong with the text of an address or a boundary.

/// What is wrong with the text of an address or a boundary. Of several faults the one that stands first here is answered,
/// with `MixedFamilies` before `RangeBackwards`.
#[derive(Clone, Copy, Debug, PartialEq, Eq)]
pub enum NetFault {
    /// The text is none of the grammar. `at` is the first byte from which no text of it can come any more: 0 for a wrong
    /// leading word, and the length of a text that only ends too early.
    BadAddress { at: u32 },
    /// Behind the whole address of a subnet or prefix the text ends, or behind its `/` stands no number of bits that the
    /// family has.
    BadLength,
    /// The end of a range is before its begin.
    RangeBackwards,
    /// A bit of the net is 1 behind the first `bits`.
    HostBitsSet,
    /// The ends of a range are of two families.
    MixedFamilies,
}

impl NetFault {
    ghost use Rattle.std.specs.Prelude.{◌≡◌};
    ghost use Rattle.cm_net.specs.Meanings.{rule_of};

    /// The number of the rule that the text breaks: 1 to 5, in the order of the variants.
    pub fn rule(self) -> u8
        ensures { result ≡ rule_of self }
    {
        match self {
            NetFault::BadAddress { at: _ } => 1,
            NetFault::BadLength => 2,
            NetFault::RangeBackwards => 3,
            NetFault::HostBitsSet => 4,
            NetFault::MixedFamilies => 5,
        }
    }
}
