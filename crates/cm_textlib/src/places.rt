//! The place of a text.
ghost use Rattle.std.specs.Prelude.{◌≡◌, ◌≤◌, ◌+◌, ◌++◌, length, take};
ghost use Rattle.cm_textlib.specs.Places.{topology_place};

use cm_base::{Place, write_decimal};

/// The place of the text of the topology of that number.
pub fn text_at(number: u32) -> Place
    ensures { result ≡ topology_place number }
{
    let mut digits = [0u8; 10];
    let start = write_decimal(number, &mut digits);
    let mut text = [0u8; 24];
    let number_at = put(&mut text, 0, b"Site/topology.");
    let end = put(&mut text, number_at, &digits[start..]);
    match Place::read(&text[..end]) {
        Some(place) => place,
        None => unreachable!(),
    }
}

// Puts bytes into a buffer, and tells where they end.
fn put(out: &mut [u8], at: usize, bytes: &[u8]) -> usize
    requires { at + length bytes.now ≤ length out.old }
    ensures end { result ≡ at + length bytes.now }
    ensures bytes { take result out.new ≡ take at out.old ++ bytes.now }
{
    let end = at + bytes.len();
    out[at..end].copy_from_slice(bytes);
    end
}
