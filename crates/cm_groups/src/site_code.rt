//! The code of a site.
ghost use Rattle.std.specs.Prelude.{◌≡◌, length};
ghost use Rattle.std.specs.List.{list_all};
ghost use Rattle.cm_base.specs.Names.{is_code_byte, text_if};
ghost use Rattle.cm_groups.specs.Codes.{default_name, is_site_code};

use cm_base::Label;
use std::marker::Model;

/// The code of a site: three characters A to Z or 0 to 9. Contracts see the list of its three bytes.
#[derive(Clone, Copy, PartialEq, Eq, PartialOrd, Ord)]
pub struct SiteCode {
    bytes: [u8; 3],
}

impl Model for SiteCode {
    ghost use Rattle.std.specs.Prelude.{◌≡◌, ℕ, List, true, refl};
    ghost use Rattle.cm_groups.specs.Codes.{is_site_code};

    ghost Value = { List ℕ };

    ghost view = { λ code. code.bytes };

    ghost invariant = { λ code. is_site_code code.bytes ≡ true };

    ghost inverse = { λ bytes. record { bytes = bytes } };

    ghost inverse_ok = { λ code h. refl };
}

fn are_code_bytes(text: &[u8]) -> bool
    ensures { result ≡ list_all is_code_byte text.now }
{
    text.iter()
        .all(|byte| matches!(*byte, b'A'..=b'Z' | b'0'..=b'9'))
}

impl SiteCode {
    /// The code that a text is. None exactly where it is not three characters A to Z or 0 to 9.
    pub fn read(text: &[u8]) -> Option<SiteCode>
        ensures { result ≡ text_if (is_site_code text.now) text.now }
    {
        if text.len() != 3 || !are_code_bytes(text) {
            return None;
        }
        let mut bytes = [0; 3];
        bytes.copy_from_slice(text);
        Some(SiteCode { bytes })
    }

    /// The three bytes.
    pub fn as_bytes(&self) -> &[u8]
        ensures value { result.now ≡ self.now }
        ensures three { length result.now ≡ 3 }
    {
        &self.bytes
    }

    /// The name of the default group of the site.
    pub fn default_name(&self) -> Label
        ensures { result ≡ default_name self.now }
    {
        let mut text = *b"Default-Site-Boundary-Group<...>";
        text[28..31].copy_from_slice(&self.bytes);
        match Label::read(&text) {
            Some(name) => name,
            None => unreachable!(),
        }
    }
}
