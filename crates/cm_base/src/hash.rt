//! A SHA-256 (FIPS 180-4) of some bytes.
ghost use Rattle.std.specs.Prelude.{◌≡◌, option_map, Option};
ghost use Rattle.std.specs.List.{list_all};
ghost use Rattle.hex.specs.Hex.{encode_lower};
ghost use Rattle.cm_base.specs.Names.{is_lower_hex};
ghost use Rattle.cm_base.specs.Hashes.{hash_of_text};

use hex::FromHex;

/// A SHA-256 (FIPS 180-4): 32 bytes.
#[derive(Clone, Copy, Debug, PartialEq, Eq, PartialOrd, Ord, Hash)]
pub struct Hash(pub [u8; 32]);

fn are_lower_hex(text: &[u8]) -> bool
    ensures { result ≡ list_all is_lower_hex text.now }
{
    text.iter()
        .all(|byte| matches!(*byte, b'0'..=b'9' | b'a'..=b'f'))
}

impl Hash {
    /// The hash that a text spells. None exactly where it is not 64 lower-case hexadecimal digits.
    pub fn read(text: &[u8]) -> Option<Hash>
        ensures { option_map (λ hash. hash.0) result ≡ hash_of_text text.now }
    {
        if text.len() != 64 || !are_lower_hex(text) {
            return None;
        }
        match <[u8; 32] as FromHex>::from_hex(text) {
            Ok(bytes) => Some(Hash(bytes)),
            Err(_) => None,
        }
    }

    /// Writes the 64 lower-case hexadecimal digits.
    pub fn write(&self, out: &mut [u8; 64])
        ensures { out.new ≡ encode_lower self.now.0 }
    {
        let _written = hex::encode_to_slice(&self.0, out);
    }
}
