//! A file name on a disk.
ghost use Rattle.std.specs.Prelude.{◌≡◌, ◌≤◌, ◌==◌, length, true};
ghost use Rattle.std.specs.Ordering.{nat_cmp, as_partial_cmp};
ghost use Rattle.std.specs.Cmp.{partial_order_from_own_ties};
ghost use Rattle.std.specs.Cmp.Rules.{comparing};
ghost use Rattle.std.specs.Cmp.Lexicographic.{slice_cmp, pointwise};
ghost use Rattle.std.proofs.Common.{rules};
ghost use Rattle.cm_base.specs.Names.{is_place, text_if};

use crate::ShortText;
use std::cmp::Ordering;
use std::marker::Model;

/// A file name on a disk: 1 to 120 bytes of any value. Contracts see the list of them.
#[derive(Clone, Copy)]
pub struct Place {
    text: ShortText<120>,
}

impl Model for Place {
    ghost use Rattle.std.specs.Prelude.{◌≡◌, ℕ, List, true, refl};
    ghost use Rattle.cm_base.specs.Names.{is_place};

    ghost Value = { List ℕ };

    ghost view = { λ place. place.text };

    ghost invariant = { λ place. is_place place.text ≡ true };

    ghost inverse = { λ text. record { text = text } };

    ghost inverse_ok = { λ place h. refl };
}

impl Place {
    /// The place that a text names. None exactly where it is empty or has more than 120 bytes.
    pub fn read(text: &[u8]) -> Option<Place>
        ensures { result ≡ text_if (is_place text.now) text.now }
    {
        if text.is_empty() || text.len() > 120 {
            return None;
        }
        Some(Place {
            text: ShortText::from_slice(text),
        })
    }

    /// The bytes of the name.
    pub fn as_bytes(&self) -> &[u8]
        ensures value { result.now ≡ self.now }
        ensures some { 1 ≤ length result.now }
        ensures few { length result.now ≤ 120 }
    {
        self.text.as_bytes()
    }
}

impl PartialEq for Place {
    ghost eq = { pointwise ◌==◌ };

    ghost laws = { Prim.search (comparing, rules) };

    fn eq(&self, other: &Place) -> bool {
        self.as_bytes() == other.as_bytes()
    }
}

impl Eq for Place {
    ghost laws = { Prim.search (comparing, rules) };
}

impl PartialOrd for Place {
    ghost partial_cmp = { as_partial_cmp (slice_cmp nat_cmp) };

    ghost laws = { partial_order_from_own_ties (Prim.search (comparing, rules)) (Prim.search (comparing, rules)) };

    fn partial_cmp(&self, other: &Place) -> Option<Ordering> {
        Some(self.cmp(other))
    }
}

impl Ord for Place {
    ghost cmp = { slice_cmp nat_cmp };

    ghost total = { Prim.search (comparing, rules) };

    ghost matches_partial_cmp = { Prim.search (comparing, rules) };

    ghost matches_eq = { Prim.search (comparing, rules) };

    fn cmp(&self, other: &Place) -> Ordering {
        self.as_bytes().cmp(other.as_bytes())
    }
}
