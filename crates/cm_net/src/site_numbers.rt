//! Sites with the numbers of their groups, while rows are gone through.
ghost use Rattle.std.specs.Prelude.{◌≡◌, ◌+◌, ◌≤◌, ◌<◌, ◌==◌, ◌&&◌, ◌||◌, ℕ, List, IfSome, IsTrue, OnOk, length};
ghost use Rattle.std.specs.Str.{bytes_eq};
ghost use Rattle.cm_net.specs.Sites.{IsNamedAt, is_numbered};

use crate::SiteName;
use std::alloc::{AllocError, Global};
use std::collections::BTreeMap;

/// Sites with the numbers of their groups. Rows mostly have sites in one order: so the place behind the last one that was found is
/// looked at before a site is searched.
#[derive(Drop)]
pub(crate) struct SiteNumbers {
    pub entries: Vec<(SiteName, Vec<u16>)>,
    /// Where each site was put. A place is looked at before it is taken.
    places: BTreeMap<SiteName, usize>,
    likely: usize,
}

/// Whether the site has an entry at that place.
fn is_at(entries: &[(SiteName, Vec<u16>)], place: usize, name: &SiteName) -> bool
    ensures { IsTrue result → IsNamedAt entries.now place name.now }
{
    place < entries.len() && entries[place].0 == *name
}

/// Adds the number to those of the site at that place.
fn add_at(
    entries: &mut Vec<(SiteName, Vec<u16>)>,
    place: usize,
    name: &SiteName,
    group: u16,
) -> Result<(), AllocError>
    requires { IsNamedAt entries.old.items place name.now }
    ensures added { OnOk result ((site : List ℕ) (number : ℕ) → is_numbered entries.new.items site number
        ≡ (is_numbered entries.old.items site number || (bytes_eq name.now site && group == number))) }
    ensures few { OnOk result (length entries.new.items ≡ length entries.old.items) }
{
    // The contract alone speaks of the name.
    let _name = name;
    entries[place].1.push(group)?;
    Ok(())
}

/// Adds an entry for the site, with that number.
fn add_entry(
    alloc: Global,
    entries: &mut Vec<(SiteName, Vec<u16>)>,
    name: &SiteName,
    group: u16,
) -> Result<(), AllocError>
    ensures added { OnOk result ((site : List ℕ) (number : ℕ) → is_numbered entries.new.items site number
        ≡ (is_numbered entries.old.items site number || (bytes_eq name.now site && group == number))) }
    ensures few { OnOk result (length entries.new.items ≡ length entries.old.items + 1) }
{
    let numbers = Vec::from_slice(alloc, &[group])?;
    entries.push((*name, numbers))?;
    Ok(())
}

impl SiteNumbers {
    /// No sites.
    pub(crate) fn none(alloc: Global) -> SiteNumbers
        ensures { length result.entries.items ≡ 0 }
    {
        SiteNumbers {
            entries: Vec::new(alloc),
            places: BTreeMap::new(alloc),
            likely: 0,
        }
    }

    /// The place of an entry of the site.
    fn place(&self, name: &SiteName) -> Option<usize>
        ensures { IfSome result (λ place. IsNamedAt self.now.entries.items place name.now) }
    {
        if is_at(&self.entries, self.likely, name) {
            return Some(self.likely);
        }
        let place = *self.places.get(name)?;
        if is_at(&self.entries, place, name) {
            return Some(place);
        }
        None
    }

    /// Adds the number to those of the site.
    pub(crate) fn add(
        &mut self,
        alloc: Global,
        name: &SiteName,
        group: u16,
    ) -> Result<(), AllocError>
        ensures added { OnOk result ((site : List ℕ) (number : ℕ) → is_numbered self.new.entries.items site number
            ≡ (is_numbered self.old.entries.items site number || (bytes_eq name.now site && group == number))) }
        ensures few { OnOk result (length self.new.entries.items ≤ length self.old.entries.items + 1) }
    {
        if let Some(place) = self.place(name) {
            self.likely = place + 1;
            return add_at(&mut self.entries, place, name, group);
        }
        let place = self.entries.len();
        self.likely = place + 1;
        self.places.insert(*name, place)?;
        add_entry(alloc, &mut self.entries, name, group)
    }
}
