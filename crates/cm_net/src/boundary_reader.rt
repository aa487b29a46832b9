//! Reading the text of a boundary, kind by kind.
ghost use Rattle.std.specs.Prelude.{◌≡◌, ◌+◌, ◌%◌, ◌^◌, ◌<◌, ◌≤◌, ◌==◌, ◌++◌, ℕ, List, codes, IfOk, IfErr};
ghost use Rattle.cm_net.specs.Boundaries.{IsSound};
ghost use Rattle.cm_net.specs.Written.{Written, word_of, IsWritten, judged, range_of, Answers, IsFaultOf, IsBadPlace};

use crate::address_text::{address_of, four_of, six_of};
use crate::boundary_text::{behind, bits_of, split};
use crate::site_text::site_of;
use crate::{Address, Boundary, NetFault};

/// Whether the last `count` bits of a number are 0.
fn ends_in_zeros(number: u128, count: u32) -> bool
    requires { count ≤ 128 }
    ensures { result ≡ (number % 2 ^ count == 0) }
{
    if count == 128 {
        return number == 0;
    }
    number % (1 << count) == 0
}

/// The fault of a place within the text.
fn bad(place: usize) -> NetFault
    requires { place < 1000 }
    ensures { result ≡ NetFault.BadAddress place }
{
    NetFault::BadAddress { at: place as u32 }
}

/// The boundary behind `subnet:`.
fn subnet(body: &[u8]) -> Result<Boundary, NetFault>
    ensures { Answers (codes "subnet:" ++ body.now) result }
{
    let (front, rest) = split(body, b'/');
    let net = match four_of(front) {
        Ok(net) => net,
        Err(at) => return Err(bad(7 + at)),
    };
    let Some(rest) = rest else {
        return Err(NetFault::BadLength);
    };
    let Some(bits) = bits_of(rest, 32) else {
        return Err(NetFault::BadLength);
    };
    if ends_in_zeros(u128::from(net), 32 - u32::from(bits)) {
        Ok(Boundary::Subnet { net, bits })
    } else {
        Err(NetFault::HostBitsSet)
    }
}

/// The boundary behind `prefix:`.
fn prefix(body: &[u8]) -> Result<Boundary, NetFault>
    ensures { Answers (codes "prefix:" ++ body.now) result }
{
    let (front, rest) = split(body, b'/');
    let net = match six_of(front) {
        Ok(net) => net,
        Err(at) => return Err(bad(7 + at)),
    };
    let Some(rest) = rest else {
        return Err(NetFault::BadLength);
    };
    let Some(bits) = bits_of(rest, 128) else {
        return Err(NetFault::BadLength);
    };
    if ends_in_zeros(net, 128 - u32::from(bits)) {
        Ok(Boundary::Prefix6 { net, bits })
    } else {
        Err(NetFault::HostBitsSet)
    }
}

/// The boundary behind `site:`.
fn site(body: &[u8]) -> Result<Boundary, NetFault>
    ensures { Answers (codes "site:" ++ body.now) result }
{
    match site_of(body) {
        Ok(name) => Ok(Boundary::Site { name }),
        Err(at) => Err(bad(5 + at)),
    }
}

/// The boundary from one address to another.
fn between(from: Address, to: Address) -> Result<Boundary, NetFault>
    ensures { result ≡ range_of from to }
{
    match (from, to) {
        (Address::V4(from), Address::V4(to)) => {
            if to < from {
                return Err(NetFault::RangeBackwards);
            }
            Ok(Boundary::Range4 { from, to })
        }
        (Address::V6(from), Address::V6(to)) => {
            if to < from {
                return Err(NetFault::RangeBackwards);
            }
            Ok(Boundary::Range6 { from, to })
        }
        _ => Err(NetFault::MixedFamilies),
    }
}

/// The boundary behind `range:`.
fn range(body: &[u8]) -> Result<Boundary, NetFault>
    ensures { Answers (codes "range:" ++ body.now) result }
{
    let (front, rest) = split(body, b'-');
    let from = match address_of(front) {
        Ok(from) => from,
        Err(at) => return Err(bad(6 + at)),
    };
    let Some(rest) = rest else {
        return Err(bad(6 + front.len()));
    };
    let to = match address_of(rest) {
        Ok(to) => to,
        Err(at) => return Err(bad(6 + (front.len() + (1 + at)))),
    };
    between(from, to)
}

/// The place at which a text without a leading word is wrong.
fn no_word(text: &[u8]) -> usize
    requires { (what : Written) (body : List ℕ) → text.now ≡ word_of what ++ body → ⊥ }
    ensures place { IsBadPlace text.now result }
    ensures near { result < 1000 }
{
    if let Some(_) = behind(b"subnet:", text) {
        return text.len();
    }
    if let Some(_) = behind(b"prefix:", text) {
        return text.len();
    }
    if let Some(_) = behind(b"site:", text) {
        return text.len();
    }
    if let Some(_) = behind(b"range:", text) {
        return text.len();
    }
    0
}

impl Boundary {
    /// The boundary that a text spells: `subnet:<IPv4>/<0 to 32>`, `prefix:<IPv6>/<0 to 128>`, `site:<site name>` or
    /// `range:<address>-<address>`.
    pub fn read(text: &[u8]) -> Result<Boundary, NetFault>
        ensures ok { IfOk result (λ boundary. (what : Written) × IsWritten text.now what × (judged what ≡ Ok boundary)) }
        ensures sound { IfOk result (λ boundary. IsSound boundary) }
        ensures fault { IfErr result (λ fault. IsFaultOf text.now fault) }
    {
        if let Some(body) = behind(text, b"subnet:") {
            return subnet(body);
        }
        if let Some(body) = behind(text, b"prefix:") {
            return prefix(body);
        }
        if let Some(body) = behind(text, b"site:") {
            return site(body);
        }
        if let Some(body) = behind(text, b"range:") {
            return range(body);
        }
        Err(bad(no_word(text)))
    }
}
