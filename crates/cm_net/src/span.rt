//! The addresses of a boundary, from the first to the last.
ghost use Rattle.std.specs.Prelude.{◌≡◌, ◌+◌, ◌-◌, ◌^◌, ◌≤◌, ◌<◌, ℕ, false, MatchOption};
ghost use Rattle.std.specs.Option.{is_some};
ghost use Rattle.cm_net.specs.Boundaries.{holds_address, IsSound, is_between, is_four, is_six};

use crate::{Address, Boundary};

/// The addresses from a first to a last, both among them, and the number of the group that has them.
#[derive(Clone, Copy)]
pub(crate) struct Span {
    pub first: u128,
    pub last: u128,
    pub group: u16,
}

/// The number whose last `count` bits are 1, and no others.
fn ones(count: u32) -> u128
    requires { count ≤ 128 }
    ensures { result ≡ 2 ^ count - 1 }
{
    if count == 128 {
        return u128::MAX;
    }
    (1 << count) - 1
}

/// The first and the last of the IPv4 addresses that a boundary holds. None where it is of no such addresses.
pub(crate) fn ends4(boundary: &Boundary) -> Option<(u128, u128)>
    requires { IsSound boundary.now }
    ensures kind { is_some result ≡ is_four boundary.now }
    ensures ends { MatchOption result
        ((address : ℕ) → address < 2 ^ 32 → holds_address boundary.now (Address.V4 address) ≡ false)
        (λ ends. (address : ℕ) → address < 2 ^ 32 → holds_address boundary.now (Address.V4 address) ≡ is_between ends.0 ends.1 address) }
{
    match boundary {
        Boundary::Subnet { net, bits } => {
            let net = u128::from(*net);
            Some((net, net + ones(32 - u32::from(*bits))))
        }
        Boundary::Range4 { from, to } => Some((u128::from(*from), u128::from(*to))),
        _ => None,
    }
}

/// The first and the last of the IPv6 addresses that a boundary holds. None where it is of no such addresses.
pub(crate) fn ends6(boundary: &Boundary) -> Option<(u128, u128)>
    requires { IsSound boundary.now }
    ensures kind { is_some result ≡ is_six boundary.now }
    ensures ends { MatchOption result
        ((address : ℕ) → address < 2 ^ 128 → holds_address boundary.now (Address.V6 address) ≡ false)
        (λ ends. (address : ℕ) → address < 2 ^ 128 → holds_address boundary.now (Address.V6 address) ≡ is_between ends.0 ends.1 address) }
{
    match boundary {
        Boundary::Prefix6 { net, bits } => Some((*net, *net + ones(128 - u32::from(*bits)))),
        Boundary::Range6 { from, to } => Some((*from, *to)),
        _ => None,
    }
}
