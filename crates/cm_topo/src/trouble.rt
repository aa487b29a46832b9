//! What is wrong with a value, and where it stands.
ghost use Rattle.std.specs.Prelude.{◌≡◌};
ghost use Rattle.cm_topo.specs.Troubles.{fault_at, fault_of};
ghost use Rattle.cm_topo.specs.declared.trouble.Trouble.TheVariants.{Memory};

use crate::TopoFault;
use cm_base::Memory as NoMemory;

/// What is wrong with a value.
#[derive(Clone, Copy, Debug, PartialEq, Eq)]
pub(crate) enum Trouble {
    /// It is missing, or of another kind.
    Shape,
    /// It breaks the rule of this number.
    Broken(u8),
    /// There was no memory for what it says.
    Memory,
}

/// What is wrong at the entry of a part.
#[derive(Clone, Copy, Debug, PartialEq, Eq)]
pub(crate) struct Placed {
    pub trouble: Trouble,
    pub part: u8,
    pub entry: u16,
}

impl From<NoMemory> for Trouble {
    ghost from_gives = { λ _ trouble. trouble ≡ Memory };

    fn from(_error: NoMemory) -> Trouble {
        Trouble::Memory
    }
}

impl From<NoMemory> for Placed {
    ghost from_gives = { λ _ placed. placed ≡ record { trouble = Memory; part = 0; entry = 0 } };

    fn from(_error: NoMemory) -> Placed {
        Trouble::Memory.at(0, 0)
    }
}

impl Trouble {
    /// It, at the entry of a part.
    pub(crate) fn at(self, part: u8, entry: u16) -> Placed
        ensures { result ≡ fault_at part entry self }
    {
        Placed {
            trouble: self,
            part,
            entry,
        }
    }
}

impl Placed {
    /// The fault that it is.
    pub(crate) fn fault(self) -> TopoFault
        ensures { result ≡ fault_of self }
    {
        let Placed {
            trouble,
            part,
            entry,
        } = self;
        match trouble {
            Trouble::Shape => TopoFault::WrongShape { part, entry },
            Trouble::Broken(rule) => TopoFault::Rule { rule, part, entry },
            Trouble::Memory => TopoFault::Memory,
        }
    }
}
