//! Writing a boundary.
ghost use Rattle.std.specs.Prelude.{◌≡◌, ◌+◌, ◌*◌, ◌≤◌, ◌<◌, ◌++◌, ◌∷◌, codes, length};
ghost use Rattle.cm_net.specs.Addresses.{decimal, IsAddress};
ghost use Rattle.cm_net.specs.Boundaries.{IsSound};
ghost use Rattle.cm_net.specs.Spellings.{address_text};
ghost use Rattle.cm_net.specs.Written.{IsSite, IsWritten, boundary_text, judged, written_of};

use crate::address_spelling::{push_address, push_decimal};
use crate::{Address, Boundary, SiteName};
use arrayvec::ArrayVec;

/// Puts a text in place of what `out` held.
fn begin(out: &mut ArrayVec<u8, 90>, text: &[u8])
    requires { length text.now ≤ 90 }
    ensures { out.new.items ≡ text.now }
{
    out.clear();
    let _ = out.try_extend_from_slice(text);
}

/// Writes a leading word, an address and a number of bits.
fn write_net(out: &mut ArrayVec<u8, 90>, word: &[u8], address: Address, bits: u8)
    requires { length word.now ≤ 7 }
    ensures items { out.new.items ≡ word.now ++ (address_text address ++ 47 ∷ decimal bits) }
    ensures spelled { IsAddress (address_text address) address }
{
    begin(out, word);
    push_address(out, address);
    out.push(b'/');
    push_decimal(out, u32::from(bits));
}

/// Writes the ends of a range.
fn write_range(out: &mut ArrayVec<u8, 90>, from: Address, to: Address)
    ensures items { out.new.items ≡ codes "range:" ++ (address_text from ++ 45 ∷ address_text to) }
    ensures from { IsAddress (address_text from) from }
    ensures to { IsAddress (address_text to) to }
{
    begin(out, b"range:");
    push_address(out, from);
    out.push(b'-');
    push_address(out, to);
}

/// Writes the name of a site.
fn write_site(out: &mut ArrayVec<u8, 90>, name: &[u8])
    requires { length name.now ≤ 63 }
    ensures { out.new.items ≡ codes "site:" ++ name.now }
{
    begin(out, b"site:");
    let _ = out.try_extend_from_slice(name);
}

/// The bytes of a name, which is a text of that name.
fn named(name: &SiteName) -> &[u8]
    ensures value { result.now ≡ name.now }
    ensures few { length result.now ≤ 63 }
    ensures spelled { IsSite name.now name.now }
{
    name.as_bytes()
}

impl Boundary {
    /// Writes the one spelling of the boundary in place of what `out` held. Reading it gives the same boundary.
    pub fn write(&self, out: &mut ArrayVec<u8, 90>)
        requires { IsSound self.now }
        ensures spelling { out.new.items ≡ boundary_text self.now }
        ensures reads { IsWritten out.new.items (written_of self.now) }
        ensures same { judged (written_of self.now) ≡ Ok self.now }
    {
        match self {
            Boundary::Subnet { net, bits } => write_net(out, b"subnet:", Address::V4(*net), *bits),
            Boundary::Site { name } => write_site(out, named(name)),
            Boundary::Prefix6 { net, bits } => write_net(out, b"prefix:", Address::V6(*net), *bits),
            Boundary::Range4 { from, to } => write_range(out, Address::V4(*from), Address::V4(*to)),
            Boundary::Range6 { from, to } => write_range(out, Address::V6(*from), Address::V6(*to)),
        }
    }
}
