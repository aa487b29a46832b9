//! A text means one thing, so that what was written is read again as the same value.
ghost use Rattle.std.specs.Prelude.{◌≡◌, ◌↔◌, ℕ, List, Option, Result};
ghost use Rattle.cm_net.specs.Addresses.{IsAddress};
ghost use Rattle.cm_net.specs.Meanings.{IsAddressOf, IsBoundaryOf};
ghost use Rattle.cm_net.specs.Readings.{address_in, boundary_in};
ghost use Rattle.cm_net.specs.Written.{Written, IsWritten};
ghost use Rattle.cm_net.specs.declared.address.Address.{Address};
ghost use Rattle.cm_net.specs.declared.boundary.Boundary.{Boundary};

/// No text spells two addresses, nor two boundaries.
pub fn one_meaning()
    ensures address { (text : List ℕ) (x y : Address) → IsAddress text x → IsAddress text y → x ≡ y }
    ensures boundary { (text : List ℕ) (v w : Written) → IsWritten text v → IsWritten text w → v ≡ w }
{}

/// Each text means exactly what the functions `address_in` and `boundary_in` say of it: an address or none, and a boundary or
/// the first rule that it breaks.
pub fn each_text_is_read()
    ensures address { (text : List ℕ) (said : Option Address) → IsAddressOf text said ↔ (said ≡ address_in text) }
    ensures boundary { (text : List ℕ) (said : Result Boundary ℕ) → IsBoundaryOf text said ↔ (said ≡ boundary_in text) }
{}
