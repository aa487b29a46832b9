//! How often each hash is named, and which hashes are sealed.
ghost use Rattle.std.specs.Prelude.{◌≡◌, ◌+◌, ◌-◌, ◌^◌, ◌<◌, ◌≤◌, [], ◌∷◌, ◌++◌, List, None, Some, OnOk, OnErr, if◌then◌else◌};
ghost use Rattle.std.specs.Str.{bytes_eq};

use cm_base::{Hash, Memory};
use cm_tree::{Entry, Manifest};
use std::alloc::Global;
use std::collections::BTreeMap;

/// What is known of the file of a sealed hash: the size in bytes that it was sealed with, and whether that was tested since the
/// library was opened.
#[derive(Clone, Copy, Debug, PartialEq, Eq)]
pub struct Seal {
    pub size: u32,
    pub since: bool,
}

/// A hash that entries name.
#[derive(Clone, Copy)]
struct Named {
    count: u32,
    sealed: Option<Seal>,
    ghost some: { 1 ≤ count },
}

/// How often each hash is named by the entries of manifests, and its seal. An entry of a map
/// holds both for each hash that is named, so that only [`Counts::add`] takes memory. Two paths of one hash count twice.
#[derive(Drop)]
pub struct Counts {
    hashes: BTreeMap<Hash, Named>,
}

impl Counts {
    ghost use Rattle.std.specs.BTreeMap.{get};
    ghost use Rattle.cm_base.specs.declared.hash.Hash.{Hash};
    ghost use Rattle.cm_tree.specs.declared.entry.Entry.{Entry as entry_value};
    ghost use Rattle.cm_pkglib.specs.Counts.{hash_cmp, count_of, sealed_of, seal_kept, times, CountsAll};

    /// No manifest is counted, and no hash is sealed. Takes no memory.
    pub fn new(alloc: Global) -> Counts
        ensures counts { CountsAll result [] }
        ensures seals { (hash : Hash) → sealed_of result hash ≡ None }
    {
        Counts {
            hashes: BTreeMap::new(alloc),
        }
    }

    fn named(&self, hash: Hash) -> Option<Named>
        ensures { result ≡ get hash_cmp self.now.hashes hash }
    {
        self.hashes.get(&hash).copied()
    }

    /// How often the hash is named.
    pub fn of(&self, hash: Hash) -> u32
        ensures { result ≡ count_of self.now hash }
    {
        match self.named(hash) {
            Some(named) => named.count,
            None => 0,
        }
    }

    /// The seal of a hash. None exactly where it is not sealed.
    pub fn sealed(&self, hash: Hash) -> Option<Seal>
        ensures { result ≡ sealed_of self.now hash }
    {
        match self.named(hash) {
            Some(named) => named.sealed,
            None => None,
        }
    }

    fn raise(&mut self, hash: Hash) -> Result<(), Memory>
        requires { count_of self.old hash + 1 < 2 ^ 32 }
        ensures ok { OnOk result ((other : Hash) → count_of self.new other ≡ count_of self.old other + (if bytes_eq hash.0 other.0 then 1 else 0)) }
        ensures memory { OnErr result ((other : Hash) → count_of self.new other ≡ count_of self.old other) }
        ensures seals { (other : Hash) → sealed_of self.new other ≡ sealed_of self.old other }
    {
        let count = self.of(hash) + 1;
        let sealed = self.sealed(hash);
        self.hashes.insert(hash, Named { count, sealed })?;
        Ok(())
    }

    fn lower(&mut self, hash: Hash)
        requires { 1 ≤ count_of self.old hash }
        ensures counts { (other : Hash) → count_of self.new other ≡ count_of self.old other - (if bytes_eq hash.0 other.0 then 1 else 0) }
        ensures seals { (other : Hash) → sealed_of self.new other ≡ seal_kept (count_of self.new other) (sealed_of self.old other) }
    {
        let count = self.of(hash);
        if count == 1 {
            let _last = self.hashes.remove(&hash);
        } else {
            let sealed = self.sealed(hash);
            let count = count - 1;
            let _lowered = self.hashes.insert(hash, Named { count, sealed });
        }
    }

    fn take_each(&mut self, entries: &[Entry])
        requires { (hash : Hash) → times hash entries.now ≤ count_of self.old hash }
        ensures counts { (hash : Hash) → count_of self.new hash ≡ count_of self.old hash - times hash entries.now }
        ensures seals { (hash : Hash) → sealed_of self.new hash ≡ seal_kept (count_of self.new hash) (sealed_of self.old hash) }
    {
        for entry in entries {
            self.lower(entry.hash);
        }
    }

    fn add_each(&mut self, entries: &[Entry]) -> Result<(), Memory>
        requires { (hash : Hash) → count_of self.old hash + times hash entries.now < 2 ^ 32 }
        ensures ok { OnOk result ((hash : Hash) → count_of self.new hash ≡ count_of self.old hash + times hash entries.now) }
        ensures memory { OnErr result ((hash : Hash) → count_of self.new hash ≡ count_of self.old hash) }
        ensures seals { (hash : Hash) → sealed_of self.new hash ≡ sealed_of self.old hash }
    {
        for (i, entry) in entries.iter().enumerate() {
            if self.raise(entry.hash).is_err() {
                self.take_each(&entries[..i]);
                return Err(Memory);
            }
        }
        Ok(())
    }

    /// Counts a manifest more. After an Err every count is as before. Every seal stays.
    pub fn add(&mut self, manifest: &Manifest) -> Result<(), Memory>
        requires { (hash : Hash) → count_of self.old hash + times hash manifest.now < 2 ^ 32 }
        ensures ok { OnOk result ((hash : Hash) → count_of self.new hash ≡ count_of self.old hash + times hash manifest.now) }
        ensures memory { OnErr result ((hash : Hash) → count_of self.new hash ≡ count_of self.old hash) }
        ensures seals { (hash : Hash) → sealed_of self.new hash ≡ sealed_of self.old hash }
        ensures from_scratch { (manifests : List (List entry_value)) → CountsAll self.old manifests → OnOk result (CountsAll self.new (manifest.now ∷ manifests)) }
    {
        self.add_each(manifest.entries())
    }

    /// Counts a manifest no more. A hash that no other entry names is sealed no more.
    pub fn take(&mut self, manifest: &Manifest)
        requires { (hash : Hash) → times hash manifest.now ≤ count_of self.old hash }
        ensures counts { (hash : Hash) → count_of self.new hash ≡ count_of self.old hash - times hash manifest.now }
        ensures seals { (hash : Hash) → sealed_of self.new hash ≡ seal_kept (count_of self.new hash) (sealed_of self.old hash) }
        ensures from_scratch { (front back : List (List entry_value)) → CountsAll self.old (front ++ manifest.now ∷ back) → CountsAll self.new (front ++ back) }
    {
        self.take_each(manifest.entries())
    }

    /// Seals a hash that is named.
    pub fn seal(&mut self, hash: Hash, seal: Seal)
        requires { 1 ≤ count_of self.old hash }
        ensures counts { (other : Hash) → count_of self.new other ≡ count_of self.old other }
        ensures seals { (other : Hash) → sealed_of self.new other ≡ (if bytes_eq hash.0 other.0 then Some seal else sealed_of self.old other) }
    {
        let count = self.of(hash);
        let sealed = Some(seal);
        let _sealed = self.hashes.insert(hash, Named { count, sealed });
    }
}
