//! The id of a package.
ghost use Rattle.std.specs.Prelude.{◌≡◌, length, true};
ghost use Rattle.std.specs.List.{list_all};
ghost use Rattle.cm_base.specs.Names.{is_package_id, is_code_byte, is_upper_hex, text_if};

use std::marker::Model;

/// The id of a package: three characters A to Z or 0 to 9, then five upper-case hexadecimal digits.
/// Contracts see the list of its eight bytes.
#[derive(Clone, Copy, PartialEq, Eq, PartialOrd, Ord)]
pub struct PackageId {
    bytes: [u8; 8],
}

impl Model for PackageId {
    ghost use Rattle.std.specs.Prelude.{◌≡◌, ℕ, List, true, refl};
    ghost use Rattle.cm_base.specs.Names.{is_package_id};

    ghost Value = { List ℕ };

    ghost view = { λ id. id.bytes };

    ghost invariant = { λ id. is_package_id id.bytes ≡ true };

    ghost inverse = { λ bytes. record { bytes = bytes } };

    ghost inverse_ok = { λ id h. refl };
}

fn are_code_bytes(text: &[u8]) -> bool
    ensures { result ≡ list_all is_code_byte text.now }
{
    text.iter()
        .all(|byte| matches!(*byte, b'A'..=b'Z' | b'0'..=b'9'))
}

fn are_upper_hex(text: &[u8]) -> bool
    ensures { result ≡ list_all is_upper_hex text.now }
{
    text.iter()
        .all(|byte| matches!(*byte, b'0'..=b'9' | b'A'..=b'F'))
}

impl PackageId {
    /// The id that a text is. None exactly where it is not three characters A to Z or 0 to 9 and five upper-case
    /// hexadecimal digits.
    pub fn read(text: &[u8]) -> Option<PackageId>
        ensures { result ≡ text_if (is_package_id text.now) text.now }
    {
        if text.len() != 8 || !are_code_bytes(&text[..3]) || !are_upper_hex(&text[3..]) {
            return None;
        }
        let mut bytes = [0; 8];
        bytes.copy_from_slice(text);
        Some(PackageId { bytes })
    }

    /// The eight bytes.
    pub fn as_bytes(&self) -> &[u8]
        ensures value { result.now ≡ self.now }
        ensures form { is_package_id result.now ≡ true }
        ensures eight { length result.now ≡ 8 }
    {
        &self.bytes
    }
}
