//! The groups that a client is in.
ghost use Rattle.std.specs.Prelude.{◌≡◌, ◌<◌, ◌++◌, All, IfOk};
ghost use Rattle.std.specs.Option.{option_copied};
ghost use Rattle.cm_net.specs.Boundaries.{holds_address, holds_site};
ghost use Rattle.cm_net.specs.Groups.{IsRisingOf, numbers_of};
ghost use Rattle.cm_groups.specs.Current.{AreThose, IsThere, is_current};

use crate::Groups;
use cm_base::Memory;
use cm_net::{Address, Index, SiteName, Steps, rising};
use std::alloc::Global;
use std::marker::Brand;
use std::sync::ledger::{Blank, Ledger};

/// The numbers of both lists, each once, rising.
fn joined(alloc: Global, first: &[u16], second: &[u16]) -> Result<Vec<u16>, Memory>
    ensures { IfOk result (λ numbers. IsRisingOf (first.now ++ second.now) numbers.items) }
{
    let mut numbers = Vec::from_slice(alloc, first)?;
    numbers.extend_from_slice(second)?;
    Ok(rising(numbers))
}

/// The numbers of the rows that hold the client, looked up with a counter of steps.
fn looked_up<L: Ledger>(
    alloc: Global,
    blank: Blank,
    index: &Index,
    address: Address,
    site: Option<&SiteName>,
) -> Result<Vec<u16>, Memory>
    requires name { blank.name ≡ L.name }
    requires parts { blank.parts ≡ L.parts }
    requires some { 0 < L.parts }
    ensures { IfOk result (λ numbers. IsRisingOf (numbers_of (λ boundary. holds_address boundary address) index.now
        ++ numbers_of (λ boundary. holds_site boundary (option_copied site.entry)) index.now) numbers.items) }
{
    let mut steps = Steps::<L>::new(blank);
    let (by_address, by_site) = index.of(address, site, &mut steps);
    joined(alloc, by_address, by_site)
}

impl Groups {
    /// The numbers of the groups that have a boundary which holds the client, rising, each once. The default group has no
    /// boundary.
    pub fn current(
        &self,
        alloc: Global,
        address: Address,
        site: Option<&SiteName>,
    ) -> Result<Vec<u16>, Memory>
        ensures those { IfOk result (λ numbers. AreThose (is_current self.now address (option_copied site.entry)) numbers.items) }
        ensures there { IfOk result (λ numbers. All (IsThere self.now) numbers.items) }
    {
        looked_up::<Brand>(alloc, Blank::new(1), &self.index, address, site)
    }
}
