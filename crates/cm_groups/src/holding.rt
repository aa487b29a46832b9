//! Whether marked groups hold a client or have a point.
ghost use Rattle.std.specs.Prelude.{◌≡◌, ◌↔◌, ℕ, ◌<◌, ◌≤◌, ◌==◌, ◌++◌, IsTrue, length};
ghost use Rattle.std.specs.List.{list_any};
ghost use Rattle.std.specs.Option.{option_copied};
ghost use Rattle.cm_net.specs.Boundaries.{holds_address, holds_site};
ghost use Rattle.cm_net.specs.Groups.{numbers_of};
ghost use Rattle.cm_groups.specs.Current.{is_current, passes};
ghost use Rattle.cm_groups.specs.Having.{has_point};
ghost use Rattle.cm_groups.specs.Marked.{SomeMarked, is_marked};

use crate::{Groups, Marks};
use cm_base::ServerName;
use cm_net::{Address, Index, SiteName, Steps};
use std::marker::Brand;
use std::sync::ledger::{Blank, Ledger};

/// Whether a row with a marked number holds the client, looked up with a counter of steps.
fn some_row_holds<L: Ledger>(
    blank: Blank,
    index: &Index,
    address: Address,
    site: Option<&SiteName>,
    marks: &Marks,
) -> bool
    requires name { blank.name ≡ L.name }
    requires parts { blank.parts ≡ L.parts }
    requires some { 0 < L.parts }
    ensures { result ≡ list_any (is_marked marks.now) (numbers_of (λ boundary. holds_address boundary address) index.now
        ++ numbers_of (λ boundary. holds_site boundary (option_copied site.entry)) index.now) }
{
    let mut steps = Steps::<L>::new(blank);
    let (by_address, by_site) = index.of(address, site, &mut steps);
    marks.has_one(by_address) || marks.has_one(by_site)
}

impl Groups {
    /// How many groups there are, with the default one: 1 to 501.
    pub fn len(&self) -> usize
        ensures count { result ≡ length self.now }
        ensures few { result ≤ 501 }
    {
        self.groups.len()
    }

    /// Whether a marked group has a boundary that holds the client. It takes no memory.
    pub fn some_holds(&self, address: Address, site: Option<&SiteName>, marks: &Marks) -> bool
        ensures { IsTrue result ↔ SomeMarked marks.now (is_current self.now address (option_copied site.entry)) }
    {
        some_row_holds::<Brand>(Blank::new(1), &self.index, address, site, marks)
    }

    /// The numbers of the groups that have the point. They are looked up, and made before.
    pub fn having(&self, point: &ServerName) -> &[u16]
        ensures { (number : ℕ) → list_any (λ other. other == number) result.now ≡ passes (has_point point.now) self.now number }
    {
        match self.having.get(point) {
            Some(numbers) => numbers,
            None => &[],
        }
    }
}
