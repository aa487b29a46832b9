//! The name of a site.
ghost use Rattle.std.specs.Prelude.{◌≡◌, ◌≤◌, length, true};
ghost use Rattle.cm_base.specs.Names.{is_folded_name, name_of};

use cm_base::ServerName;
use std::marker::Model;

/// The name of a site: 1 to 63 letters, digits, `-`, `_` and `.`, kept in small letters. Contracts see the list of its
/// bytes.
#[derive(Clone, Copy, PartialEq, Eq, PartialOrd, Ord)]
pub struct SiteName {
    name: ServerName,
}

impl Model for SiteName {
    ghost use Rattle.std.specs.Prelude.{◌≡◌, ℕ, List, true, refl};
    ghost use Rattle.cm_base.specs.Names.{is_folded_name};

    ghost Value = { List ℕ };

    ghost view = { λ site. site.name };

    ghost invariant = { λ site. is_folded_name site.name ≡ true };

    ghost inverse = { λ text. record { name = text } };

    ghost inverse_ok = { λ site h. refl };
}

impl SiteName {
    /// The name that a text gives, in small letters. None exactly where it is empty, has more than 63 bytes, or one that
    /// no name has.
    pub fn read(text: &[u8]) -> Option<SiteName>
        ensures { result ≡ name_of text.now }
    {
        match ServerName::read(text) {
            Some(name) => Some(SiteName { name }),
            None => None,
        }
    }

    /// The bytes of the name.
    pub fn as_bytes(&self) -> &[u8]
        ensures value { result.now ≡ self.now }
        ensures few { length result.now ≤ 63 }
        ensures folded { is_folded_name result.now ≡ true }
    {
        self.name.as_bytes()
    }
}
