//! A key with the numbers of its groups.
ghost use Rattle.std.specs.Prelude.{◌≡◌, ◌+◌};

use crate::Steps;
use std::cmp::Ordering;
use std::sync::ledger::Ledger;

/// A key, and the numbers of the groups that have it, rising: the begin of a segment of addresses, or the name of a site.
#[derive(Drop)]
pub(crate) struct Entry<K> {
    key: K,
    groups: Vec<u16>,
}

impl<K> Entry<K> {
    pub(crate) fn new(key: K, groups: Vec<u16>) -> Entry<K>
        ensures { result ≡ record { key = key; groups = groups } }
    {
        Entry { key, groups }
    }

    /// The numbers of its groups.
    pub(crate) fn groups(&self) -> &[u16]
        ensures { result.now ≡ self.now.groups.items }
    {
        &self.groups
    }
}

impl<K: Ord> Entry<K> {
    /// How its key stands to another. A search sees a key in no other way, and each time is one step.
    pub(crate) fn compare<L: Ledger>(&self, key: &K, steps: &mut Steps<L>) -> Ordering
        ensures order { result ≡ K.cmp self.now.key key.now }
        ensures step { steps.new ≡ steps.old + 1 }
    {
        steps.tick();
        self.key.cmp(key)
    }
}
