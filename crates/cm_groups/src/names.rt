//! Names that are found by a map.
ghost use Rattle.std.specs.Prelude.{◌≡◌, ◌<◌, IfOk, IfSome, length, position, take};
ghost use Rattle.std.specs.List.{list_any};
ghost use Rattle.cm_groups.specs.Names.{HasPlaces, first_places};
ghost use Rattle.cm_groups.specs.Texts.{group_names, names_of_rows};

use crate::{GroupText, SiteCode};
use cm_base::{Label, Memory};
use cm_net::Boundary;
use std::alloc::{AllocError, Global};
use std::collections::BTreeMap;
use std::marker::Model;

/// Names in order, with the first place of each: labels, or names of servers. Contracts see the list of them.
#[derive(Drop)]
pub struct Names<K: Ord + Copy + Drop> {
    names: Vec<K>,
    places: BTreeMap<K, usize>,
    /// At each place, the first one that has its name.
    firsts: Vec<Option<usize>>,
}

impl<K: Ord + Copy + Drop> Model for Names<K> {
    ghost use Rattle.std.specs.Prelude.{◌≡◌, List};
    ghost use Rattle.cm_groups.specs.Names.{HasPlaces, first_places};

    ghost Value = { List K };

    ghost view = { λ names. names.names.items };

    ghost invariant = { λ names. HasPlaces ⟦<K as PartialEq>⟧.eq K.cmp names.names.items names.places
        × (names.firsts.items ≡ first_places ⟦<K as PartialEq>⟧.eq names.names.items names.names.items) };
}

/// The first place of each name.
fn places_of<K: Ord + Copy + Drop>(alloc: Global, names: &[K]) -> Result<BTreeMap<K, usize>, Memory>
    ensures { IfOk result (λ places. HasPlaces ⟦<K as PartialEq>⟧.eq K.cmp names.now places) }
{
    let mut places = BTreeMap::new(alloc);
    for i in (0..names.len()).rev() {
        places.insert(names[i], i)?;
    }
    Ok(places)
}

/// At each place of a name, the first one that has it.
fn firsts_of<K: Ord + Copy + Drop>(
    alloc: Global,
    names: &[K],
    places: &BTreeMap<K, usize>,
) -> Result<Vec<Option<usize>>, Memory>
    requires { HasPlaces ⟦<K as PartialEq>⟧.eq K.cmp names.now places.now }
    ensures { IfOk result (λ firsts. firsts.items ≡ first_places ⟦<K as PartialEq>⟧.eq names.now names.now) }
{
    let mut firsts = Vec::new(alloc);
    for name in names {
        firsts.push(places.get(name).copied())?;
    }
    Ok(firsts)
}

/// The names of rows.
fn labels_of(alloc: Global, rows: &[(Label, Boundary)]) -> Result<Vec<Label>, AllocError>
    ensures { IfOk result (λ labels. labels.items ≡ names_of_rows rows.now) }
{
    rows.iter().map(|row| row.0).collect(alloc)
}

impl<K: Ord + Copy + Drop> Names<K> {
    /// These names. `Memory` where there is none for the map.
    pub fn of(alloc: Global, names: Vec<K>) -> Result<Names<K>, Memory>
        ensures { IfOk result (λ made. made ≡ names.items) }
    {
        let places = places_of(alloc, &names)?;
        let firsts = firsts_of(alloc, &names, &places)?;
        Ok(Names {
            names,
            places,
            firsts,
        })
    }

    /// The names in order.
    pub(crate) fn all(&self) -> &[K]
        ensures { result.now ≡ self.now }
    {
        &self.names
    }

    /// The place of the first entry that has the name.
    pub fn place(&self, name: &K) -> Option<usize>
        ensures place { result ≡ position (λ other. ⟦<K as PartialEq>⟧.eq other name.now) self.now }
        ensures within { IfSome result (λ place. place < length self.now) }
    {
        self.places.get(name).copied()
    }

    /// The place of the first entry that has the name, looked for at a likely place before it is searched.
    pub(crate) fn place_near(&self, near: usize, name: &K) -> Option<usize>
        ensures place { result ≡ position (λ other. ⟦<K as PartialEq>⟧.eq other name.now) self.now }
        ensures within { IfSome result (λ place. place < length self.now) }
    {
        if near < self.names.len() && self.names[near] == *name {
            return self.firsts[near];
        }
        self.place(name)
    }

    /// Whether an entry has the name.
    pub fn has(&self, name: &K) -> bool
        ensures { result ≡ list_any (λ other. ⟦<K as PartialEq>⟧.eq other name.now) self.now }
    {
        self.place(name).is_some()
    }

    /// Whether an entry before that place has the name.
    pub fn has_before(&self, end: usize, name: &K) -> bool
        ensures { result ≡ list_any (λ other. ⟦<K as PartialEq>⟧.eq other name.now) (take end self.now) }
    {
        match self.place(name) {
            Some(place) => place < end,
            None => false,
        }
    }
}

/// The names of the boundaries.
pub fn names_of_boundaries(
    alloc: Global,
    rows: &[(Label, Boundary)],
) -> Result<Names<Label>, Memory>
    ensures { IfOk result (λ names. names ≡ names_of_rows rows.now) }
{
    let labels = labels_of(alloc, rows)?;
    Names::of(alloc, labels)
}

/// The names of all groups, the default one first.
pub fn names_of_groups(
    alloc: Global,
    code: SiteCode,
    texts: &[GroupText],
) -> Result<Names<Label>, Memory>
    ensures { IfOk result (λ names. names ≡ group_names code texts.now) }
{
    let mut names = Vec::new(alloc);
    names.push(code.default_name())?;
    for text in texts {
        names.push(text.name)?;
    }
    Names::of(alloc, names)
}
