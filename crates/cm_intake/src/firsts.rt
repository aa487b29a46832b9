//! The first entries of hashes.
ghost use Rattle.std.specs.Prelude.{◌≡◌, ◌≤◌, [], ◌∷◌, length, IfOk, OnOk};
ghost use Rattle.cm_base.specs.declared.hash.Hash.{Hash as a_hash};
ghost use Rattle.cm_intake.specs.Firsts.{number_of, found_number, AreFirsts};

use cm_base::Hash;
use cm_tree::Entry;
use std::alloc::{AllocError, Global};
use std::collections::BTreeMap;

/// The hashes that a manifest names, each with the number of its first entry, from 0.
#[derive(Drop)]
pub(crate) struct Firsts {
    numbers: BTreeMap<Hash, u32>,
}

impl Firsts {
    fn add(&mut self, number: u32, entry: &Entry) -> Result<(), AllocError>
        ensures { OnOk result ((hash : a_hash) → number_of self.new hash ≡ found_number (number_of self.old hash) hash number (entry.now ∷ [])) }
    {
        if self.number(entry.hash).is_none() {
            self.numbers.insert(entry.hash, number)?;
        }
        Ok(())
    }

    /// The hashes of these entries.
    pub(crate) fn of(alloc: Global, entries: &[Entry]) -> Result<Firsts, AllocError>
        requires { length entries.now ≤ 20000 }
        ensures { IfOk result (λ firsts. AreFirsts firsts entries.now) }
    {
        let mut firsts = Firsts {
            numbers: BTreeMap::new(alloc),
        };
        for (number, entry) in entries.iter().enumerate() {
            firsts.add(number as u32, entry)?;
        }
        Ok(firsts)
    }

    /// The number of the first entry that has a hash. None exactly where no entry has it.
    pub(crate) fn number(&self, hash: Hash) -> Option<u32>
        ensures { result ≡ number_of self.now hash }
    {
        self.numbers.get(&hash).copied()
    }
}
