//! The sites of rows, with the numbers of their groups.
ghost use Rattle.std.specs.Prelude.{◌≡◌, ◌++◌, ◌+◌, ◌≤◌, [], ℕ, List, IfOk, OnOk, length, if◌then◌else◌};
ghost use Rattle.std.specs.BTreeMap.{btree_map_len, get};
ghost use Rattle.std.specs.List.Sorted.{IsStrictlySortedBy};
ghost use Rattle.std.specs.Cmp.Lexicographic.{slice_cmp};
ghost use Rattle.std.specs.Ordering.{nat_cmp};
ghost use Rattle.std.specs.Str.{bytes_eq};
ghost use Rattle.cm_net.specs.Entries.{TakesHalves, keys_in};
ghost use Rattle.cm_net.specs.Sites.{groups_of_site, numbers_for, numbers_there, AreSitesIn};

use crate::entry::Entry;
use crate::halves::place_of;
use crate::numbers::rising;
use crate::{SiteName, Steps};
use cm_base::Memory;
use std::alloc::{AllocError, Global};
use std::collections::BTreeMap;
use std::sync::ledger::Ledger;

/// Adds the numbers to those of the site.
fn add_numbers(
    alloc: Global,
    sites: &mut BTreeMap<SiteName, Vec<u16>>,
    name: &SiteName,
    numbers: &[u16],
) -> Result<(), AllocError>
    ensures added { OnOk result ((site : List ℕ) → numbers_there (get (slice_cmp nat_cmp) sites.new site)
        ≡ numbers_there (get (slice_cmp nat_cmp) sites.old site) ++ (if bytes_eq site name.now then numbers.now else [])) }
    ensures few { OnOk result (btree_map_len sites.new ≤ btree_map_len sites.old + 1) }
{
    if let Some(list) = sites.get_mut(name) {
        list.extend_from_slice(numbers)?;
        return Ok(());
    }
    sites.insert(*name, Vec::from_slice(alloc, numbers)?)?;
    Ok(())
}

/// The numbers of each site.
fn numbers_by_site(
    alloc: Global,
    entries: &[(SiteName, Vec<u16>)],
) -> Result<BTreeMap<SiteName, Vec<u16>>, AllocError>
    ensures numbers { IfOk result (λ sites. (site : List ℕ) → numbers_there (get (slice_cmp nat_cmp) sites site) ≡ numbers_for entries.now site) }
    ensures few { IfOk result (λ sites. btree_map_len sites ≤ length entries.now) }
{
    let mut sites = BTreeMap::new(alloc);
    for (name, numbers) in entries {
        add_numbers(alloc, &mut sites, name, numbers)?;
    }
    Ok(sites)
}

/// The sites of the entries, in order, with the numbers of their groups.
pub(crate) fn sites_of(
    alloc: Global,
    entries: &[(SiteName, Vec<u16>)],
) -> Result<Vec<Entry<SiteName>>, Memory>
    ensures { IfOk result (λ sites. AreSitesIn entries.now sites.items) }
{
    let mut sites = Vec::new(alloc);
    for (name, numbers) in numbers_by_site(alloc, entries)? {
        let groups = rising(numbers);
        sites.push(Entry::new(name, groups))?;
    }
    Ok(sites)
}

/// The groups of the site of that name.
pub(crate) fn groups_of_site<'a, L: Ledger>(
    sites: &'a [Entry<SiteName>],
    name: &SiteName,
    steps: &mut Steps<L>,
) -> &'a [u16]
    requires { IsStrictlySortedBy (slice_cmp nat_cmp) (keys_in sites.now) }
    ensures groups { result.now ≡ groups_of_site sites.now name.now }
    ensures steps { TakesHalves (length sites.now) steps.old steps.new }
{
    match place_of(sites, name, steps) {
        Ok(place) => sites[place].groups(),
        Err(_) => &[],
    }
}
