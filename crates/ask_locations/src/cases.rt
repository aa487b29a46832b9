//! What the numbers of groups, boundaries, points and peers mean in each case.
ghost use Rattle.cm_net.specs.Boundaries.{IsSound};
ghost use Rattle.std.specs.Prelude.{◌<◌, IfSome};

use cm_groups::Options;
use cm_net::{Address, Boundary, SiteName};
use std::alloc::Global;

/// The address from which on addresses are counted.
const BASE: u32 = 0x0a00_0000;

/// How the groups lie.
#[derive(Clone, Copy, PartialEq, Eq)]
pub(crate) enum Case {
    /// Each group holds ten peers, and lets them serve.
    Ordinary,
    /// Each group holds every peer, and lets none serve.
    Refused,
    /// As the ordinary case, by 2,000 sites.
    Sites,
    /// As the ordinary case; the groups name points 900,000 times.
    Repeats,
    /// Half of the client's groups hold every peer and let none serve; the others hold none.
    Apart,
    /// One group holds every peer, and lets all serve.
    All,
}

impl Case {
    pub(crate) fn read(word: &str) -> Option<Case> {
        match word {
            "ordinary" => Some(Case::Ordinary),
            "refused" => Some(Case::Refused),
            "sites" => Some(Case::Sites),
            "repeats" => Some(Case::Repeats),
            "apart" => Some(Case::Apart),
            "all" => Some(Case::All),
            _ => None,
        }
    }

    /// What the clients of a group may use.
    pub(crate) fn options(self, group: u32) -> Options {
        let peers = match self {
            Case::Refused => false,
            Case::Apart => group >= 250,
            Case::All => group == 499,
            _ => true,
        };
        Options {
            peers,
            same_subnet_only: false,
            prefer_points: false,
        }
    }

    /// How often a group names a point.
    pub(crate) fn points_named(self) -> u32 {
        match self {
            Case::Repeats => 1_800,
            _ => 2,
        }
    }

    /// The boundary of that number.
    pub(crate) fn boundary(self, alloc: Global, number: u32) -> Option<Boundary>
        requires { number < 2000 }
        ensures { IfSome result (λ boundary. IsSound boundary) }
    {
        match self {
            Case::Ordinary | Case::Repeats => Some(range(BASE + number * 4, BASE + number * 4 + 3)),
            Case::Refused | Case::All => Some(range(BASE - number, BASE + 10_000 + number)),
            Case::Sites => Some(Boundary::Site {
                name: site(alloc, number)?,
            }),
            Case::Apart if number < 1_000 => Some(range(BASE - number, BASE + 200_000 + number)),
            Case::Apart => Some(range(BASE + 50_000 - number, BASE + 150_000 + number)),
        }
    }

    /// Where the client is.
    pub(crate) fn address(self) -> Address {
        match self {
            Case::Apart => Address::V4(BASE + 100_000),
            _ => Address::V4(BASE + 113),
        }
    }
}

fn range(from: u32, to: u32) -> Boundary
    requires { from < to }
    ensures { IsSound result }
{
    Boundary::Range4 { from, to }
}

/// The site of that number. None for want of memory.
pub(crate) fn site(alloc: Global, number: u32) -> Option<SiteName> {
    match format!(in alloc; "site{number}") {
        Ok(text) => SiteName::read(text.as_bytes()),
        Err(_) => None,
    }
}

/// Where the peer of that number is.
pub(crate) fn address_of_peer(peer: u32) -> Address {
    Address::V4(BASE.wrapping_add((peer % 5_000) * 8 / 5))
}
