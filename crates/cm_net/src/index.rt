//! The index from a client to its groups.
ghost use Rattle.std.specs.Prelude.{◌≡◌, ◌∷◌, [], ℕ, ◌+◌, ◌*◌, ◌-◌, ◌≤◌, ◌^◌, IfOk, All, map};
ghost use Rattle.std.specs.Option.{option_copied};
ghost use Rattle.cm_net.specs.Boundaries.{holds_address, holds_site, is_of_family, is_site, IsSound, rows_of};
ghost use Rattle.cm_net.specs.Groups.{numbers_of, rows_in, IsRisingOf};
ghost use Rattle.cm_net.specs.Indexed.{AreFewSteps};

use crate::entry::Entry;
use crate::gathered::{Gathered, gather};
use crate::segments::{groups_at, segments_of};
use crate::sites::{groups_of_site, sites_of};
use crate::{Address, Boundary, SiteName, Steps};
use cm_base::{List, Memory};
use std::alloc::{AllocError, Global};
use std::marker::Model;
use std::snapshot::Snapshot;
use std::sync::ledger::Ledger;

/// Finds the groups of a client. Contracts see the rows that it was built from: boundaries, each with the number of the
/// group that has it.
#[derive(Drop)]
pub struct Index {
    four: Vec<Entry<u128>>,
    six: Vec<Entry<u128>>,
    sites: Vec<Entry<SiteName>>,
    lists: Snapshot<List<(List<Boundary>, u16)>>,
}

impl Model for Index {
    ghost use Rattle.std.specs.Prelude.{ℕ, List};
    ghost use Rattle.cm_net.specs.declared.boundary.Boundary.{Boundary};
    ghost use Rattle.cm_net.specs.Groups.{rows_in};
    ghost use Rattle.cm_net.specs.Indexed.{IsIndexOf};

    ghost Value = { List (Boundary × ℕ) };

    ghost view = { λ index. rows_in index.lists.value };

    ghost invariant = { λ index. IsIndexOf (rows_in index.lists.value) index.four.items index.six.items index.sites.items };
}

/// Each row as a list of one boundary.
fn lists_of(
    alloc: Global,
    rows: &[(Boundary, u16)],
) -> Result<Vec<(List<Boundary>, u16)>, AllocError>
    ensures { IfOk result (λ lists. lists.items ≡ map (λ row. (row.0 ∷ [], row.1)) rows.now) }
{
    let mut lists = Vec::new(alloc);
    for (boundary, group) in rows {
        lists.push((List::of(Vec::from_slice(alloc, &[*boundary])?), *group))?;
    }
    Ok(lists)
}

impl Index {
    /// The index of the boundaries of lists, each list with the number of the group that has them. The lists themselves are not kept.
    pub fn of_lists(alloc: Global, lists: &List<(List<Boundary>, u16)>) -> Result<Index, Memory>
        requires { All (λ list. All IsSound list.0) lists.now }
        ensures { IfOk result (λ index. index ≡ rows_in lists.now) }
    {
        let Gathered { four, six, sites } = gather(alloc, lists.items())?;
        Ok(Index {
            four: segments_of(alloc, four)?,
            six: segments_of(alloc, six)?,
            sites: sites_of(alloc, &sites.entries)?,
            lists: Snapshot::of(lists),
        })
    }

    /// The index of these rows.
    pub fn build(alloc: Global, rows: &[(Boundary, u16)]) -> Result<Index, Memory>
        requires { All (λ row. IsSound row.0) rows.now }
        ensures { IfOk result (λ index. index ≡ rows.now) }
    {
        let lists = List::of(lists_of(alloc, rows)?);
        Index::of_lists(alloc, &lists)
    }

    /// The numbers of the groups that have the client by its address.
    fn by_address<L: Ledger>(&self, address: Address, steps: &mut Steps<L>) -> &[u16]
        ensures groups { IsRisingOf (numbers_of (λ boundary. holds_address boundary address) self.now) result.now }
        ensures later { steps.old ≤ steps.new }
        ensures few { 2 ^ (steps.new - steps.old) ≤ 4 * rows_of (is_of_family address) self.now + 3 }
    {
        match address {
            Address::V4(address) => groups_at(&self.four, u128::from(address), steps),
            Address::V6(address) => groups_at(&self.six, address, steps),
        }
    }

    /// The numbers of the groups that have the client by its site.
    fn by_site<L: Ledger>(&self, site: Option<&SiteName>, steps: &mut Steps<L>) -> &[u16]
        ensures groups { IsRisingOf (numbers_of (λ boundary. holds_site boundary (option_copied site.entry)) self.now) result.now }
        ensures later { steps.old ≤ steps.new }
        ensures few { 2 ^ (steps.new - steps.old) ≤ 2 * rows_of is_site self.now + 1 }
    {
        match site {
            Some(name) => groups_of_site(&self.sites, name, steps),
            None => &[],
        }
    }

    /// The numbers of the groups that have the client by its address, and of those that have it by its site, each list
    /// rising. One step is one look at the begin of a segment of addresses or at the name of a site. With k rows of addresses of
    /// the client's family and m rows of sites it takes at most a + b steps, where a and b are the greatest numbers with
    /// 2^a <= 4k + 3 and 2^b <= 2m + 1.
    pub fn of<L: Ledger>(
        &self,
        address: Address,
        site: Option<&SiteName>,
        steps: &mut Steps<L>,
    ) -> (&[u16], &[u16])
        ensures address { IsRisingOf (numbers_of (λ boundary. holds_address boundary address) self.now) result.0.now }
        ensures site { IsRisingOf (numbers_of (λ boundary. holds_site boundary (option_copied site.entry)) self.now) result.1.now }
        ensures steps { AreFewSteps address self.now steps.old steps.new }
    {
        (self.by_address(address, steps), self.by_site(site, steps))
    }
}
