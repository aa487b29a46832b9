//! The front of a path as a folder gives it.
ghost use Rattle.std.specs.Prelude.{◌≡◌, ◌≤◌, length, take};

use cm_base::ShortText;
use std::marker::Model;

/// The first 241 bytes of a path as a folder gives it, of any form. Contracts see the list of them.
#[derive(Clone, Copy)]
pub struct RawPath {
    text: ShortText<241>,
}

impl Model for RawPath {
    ghost use Rattle.std.specs.Prelude.{◌≡◌, ℕ, List, refl};

    ghost Value = { List ℕ };

    ghost view = { λ path. path.text };

    ghost inverse = { λ text. record { text = text } };

    ghost inverse_ok = { λ path h. refl };
}

fn front(path: &[u8]) -> &[u8]
    ensures value { result.now ≡ take 241 path.now }
    ensures few { length result.now ≤ 241 }
{
    if path.len() > 241 { &path[..241] } else { path }
}

impl RawPath {
    /// The first 241 bytes of a path.
    pub fn first_of(path: &[u8]) -> RawPath
        ensures { result ≡ take 241 path.now }
    {
        RawPath {
            text: ShortText::from_slice(front(path)),
        }
    }

    /// The bytes.
    pub fn as_bytes(&self) -> &[u8]
        ensures value { result.now ≡ self.now }
        ensures few { length result.now ≤ 241 }
    {
        self.text.as_bytes()
    }
}
