//! The manifest of a tree.
ghost use Rattle.std.specs.Prelude.{◌≡◌, ◌<◌, ◌≤◌, ◌++◌, List, length, IfOk, OnOk, Ok};
ghost use Rattle.cm_tree.specs.declared.entry.Entry.{Entry as entry_value};
ghost use Rattle.cm_tree.specs.Manifests.{IsEntry, IsManifest, Spells, entry_bytes, spelling};
ghost use Rattle.cm_tree.specs.Reading.{Gives, read_manifest};

use crate::reading::all_entries;
use crate::{Entry, TreeFault};
use cm_base::Memory;
use std::alloc::Global;
use std::marker::Model;

/// The files of a tree by path, size and hash: at most 20,000 entries, strictly rising by the bytes of their paths, no two
/// paths the same after folding A to Z. Contracts see the list of the entries.
#[derive(Drop)]
pub struct Manifest {
    entries: Vec<Entry>,
}

impl Model for Manifest {
    ghost use Rattle.std.specs.Prelude.{List};
    ghost use Rattle.cm_tree.specs.declared.entry.Entry.{Entry};
    ghost use Rattle.cm_tree.specs.Manifests.{IsManifest};

    ghost Value = { List Entry };

    ghost view = { λ manifest. manifest.entries.items };

    ghost invariant = { λ manifest. IsManifest manifest.entries.items };
}

/// How many bytes spell an entry.
fn entry_len(entry: &Entry) -> u32
    requires { IsEntry entry.now }
    ensures exact { result ≡ length (entry_bytes entry.now) }
    ensures most { result ≤ 277 }
{
    37 + entry.path.as_bytes().len() as u32
}

/// Adds the bytes that spell an entry.
fn put_entry(out: &mut Vec<u8>, entry: &Entry) -> Result<(), Memory>
    ensures { OnOk result (out.new.items ≡ out.old.items ++ entry_bytes entry.now) }
{
    let path = entry.path.as_bytes();
    out.push(path.len() as u8)?;
    out.extend_from_slice(path)?;
    out.extend_from_slice(&entry.size.to_le_bytes())?;
    out.extend_from_slice(&entry.hash.0)?;
    Ok(())
}

/// How many bytes spell a list of entries, with what stands before them.
fn spelling_len(entries: &[Entry]) -> u32
    requires { IsManifest entries.now }
    ensures exact { result ≡ length (spelling entries.now) }
    ensures most { result ≤ 5540009 }
{
    let mut total = 9;
    for entry in entries {
        total += entry_len(entry);
    }
    total
}

/// The bytes that spell a list of entries.
fn spelled(alloc: Global, entries: &[Entry]) -> Result<Vec<u8>, Memory>
    requires { IsManifest entries.now }
    ensures { IfOk result (λ bytes. bytes.items ≡ spelling entries.now) }
{
    let mut out = Vec::with_capacity(alloc, spelling_len(entries) as usize)?;
    out.extend_from_slice(b"CMDL")?;
    out.push(1)?;
    out.extend_from_slice(&(entries.len() as u32).to_le_bytes())?;
    for entry in entries {
        put_entry(&mut out, entry)?;
    }
    Ok(out)
}

/// The manifest that all of the bytes spell.
fn manifest_of(alloc: Global, bytes: &[u8]) -> Result<Manifest, TreeFault>
    ensures { Gives (λ manifest. manifest) result (read_manifest bytes.now) }
{
    let entries = all_entries(alloc, bytes)?;
    Ok(Manifest { entries })
}

impl Manifest {
    /// The manifest of these entries.
    pub fn of(entries: Vec<Entry>) -> Manifest
        requires { IsManifest entries.items }
        ensures { result ≡ entries.items }
    {
        Manifest { entries }
    }

    /// The entries in the order of their paths.
    pub fn entries(&self) -> &[Entry]
        ensures value { result.now ≡ self.now }
        ensures form { IsManifest result.now }
    {
        &self.entries
    }

    /// How many bytes spell it: 9 to 5,540,009.
    pub fn encoded_len(&self) -> u32
        ensures exact { result ≡ length (spelling self.now) }
        ensures most { result ≤ 5540009 }
    {
        spelling_len(&self.entries)
    }

    /// The bytes that spell it: `CMDL`, the form 1, the number of entries in four bytes, and each entry by the length of its
    /// path in a byte, the path, the size in four bytes and the hash. Numbers are little-endian. An Err is want of memory.
    pub fn encode(&self, alloc: Global) -> Result<Vec<u8>, Memory>
        ensures exact { IfOk result (λ bytes. bytes.items ≡ spelling self.now) }
        // What is written is of the form.
        ensures spells { IfOk result (λ bytes. Spells bytes.items self.now) }
    {
        spelled(alloc, &self.entries)
    }

    /// An equal manifest. An Err is want of memory.
    pub fn copy(&self, alloc: Global) -> Result<Manifest, Memory>
        ensures { IfOk result (λ copy. copy ≡ self.now) }
    {
        let entries = Vec::from_slice(alloc, &self.entries)?;
        Ok(Manifest { entries })
    }

    /// The manifest that all of the bytes spell, or the first fault in the order of [`TreeFault`]'s text, with its place in
    /// bytes from the front, or the number of its entry, from 0. Want of memory may be answered in place of either.
    pub fn decode(alloc: Global, bytes: &[u8]) -> Result<Manifest, TreeFault>
        // It is what reading gives.
        ensures exact { Gives (λ manifest. manifest) result (read_manifest bytes.now) }
        // What is read is spelled so.
        ensures found { IfOk result (λ manifest. Spells bytes.now manifest) }
        // What is spelled so is read.
        ensures only { (entries : List entry_value) → Spells bytes.now entries → Gives (λ manifest. manifest) result (Ok entries) }
    {
        manifest_of(alloc, bytes)
    }
}
