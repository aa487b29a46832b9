//! A manifest is stored.
ghost use Rattle.std.specs.Prelude.{◌≡◌, ◌≢◌, ◌+◌, ◌<◌, ◌≤◌, ◌++◌, ℕ, List, length, Some, IsSome, IfOk, OnOk};
ghost use Rattle.std.specs.List.{flat_map};
ghost use Rattle.std.specs.Option.{ForSome};
ghost use Rattle.sha2.specs.Sha256.{sha256};
ghost use Rattle.cm_base.specs.Causes.{HasCause};
ghost use Rattle.cm_base.specs.Fed.{WasFed, count_of};
ghost use Rattle.cm_disk.specs.Disk.{File, Files, bytes_of, written, Does, Only, LeavesOnly};
ghost use Rattle.cm_tree.specs.Manifests.{spelling, entry_bytes};
ghost use Rattle.cm_datalib.specs.Places.{manifest_place};
ghost use Rattle.cm_datalib.specs.Spellings.{spelled_file};

use crate::places::manifest_at;
use crate::spelling::{PIECE, fill, header_of};
use cm_base::{FileHasher, Hash, PackageId, Place, Version};
use cm_disk::{Disk, DiskFault};
use cm_tree::{Entry, Manifest};

/// Stores the manifest of a version, durably, in place of what stood there. Gives how many bytes spell it, and their SHA-256. After
/// a fault any part of it may be there.
pub fn store<D: Disk>(
    disk: &mut D,
    package: PackageId,
    version: Version,
    manifest: &Manifest,
) -> Result<(u32, Hash), DiskFault>
    ensures work { Does (D.reads disk.old) (D.reads disk.new) (manifest_place «package» version) (spelled_file manifest.now) result }
    // Whatever a stop leaves, the spelling is there.
    ensures durable { OnOk result (ForSome (D.reads disk.old) (λ files. Only (Some (spelling manifest.now)) (D.may_leave disk.new (manifest_place «package» version)))) }
    ensures named { IfOk result (λ named. (named.0 ≡ length (spelling manifest.now)) × (named.1.0 ≡ sha256 (spelling manifest.now))) }
    ensures others { (q : List ℕ) (file : File) → q ≢ manifest_place «package» version → D.may_leave disk.new q file → D.may_leave disk.old q file }
    ensures run { LeavesOnly D.moment D.left_since disk.old disk.new (λ (left : Files). (q : List ℕ) → q ≢ manifest_place «package» version → D.may_leave disk.old q (left q)) }
    ensures cause { HasCause (D.faults disk.old) (D.faults disk.new) result }
{
    let place = manifest_at(package, version);
    let entries = manifest.entries();
    let header = header_of(entries);
    let mut hasher = FileHasher::new();
    hasher.feed(&header);
    disk.write_at(&place, 0, &header)?;
    let end = write_entries(disk, &place, entries, &mut hasher)?;
    disk.cut(&place, end)?;
    disk.sync(&place)?;
    let (_, hash) = hasher.done();
    Ok((end as u32, hash))
}

// Writes the spellings of entries behind the header, in pieces, and feeds the hasher with them. Gives where they end.
fn write_entries<D: Disk>(
    disk: &mut D,
    place: &Place,
    entries: &[Entry],
    hasher: &mut FileHasher,
) -> Result<u64, DiskFault>
    requires few { length entries.now ≤ 20000 }
    requires room { count_of hasher.old ≤ 9 }
    requires there { ForSome (D.reads disk.old) (λ files. IsSome (files place.now) × (9 ≤ length (bytes_of (files place.now)))) }
    ensures work { Does (D.reads disk.old) (D.reads disk.new) place.now (written 9 (flat_map entry_bytes entries.now)) result }
    ensures end { IfOk result (λ end. end ≡ 9 + length (flat_map entry_bytes entries.now)) }
    ensures most { IfOk result (λ end. end ≤ 5540009) }
    ensures fed { OnOk result ((before : List ℕ) → WasFed hasher.old before → WasFed hasher.new (before ++ flat_map entry_bytes entries.now)) }
    ensures others { (q : List ℕ) (file : File) → q ≢ place.now → D.may_leave disk.new q file → D.may_leave disk.old q file }
    ensures run { LeavesOnly D.moment D.left_since disk.old disk.new (λ (left : Files). (q : List ℕ) → q ≢ place.now → D.may_leave disk.old q (left q)) }
    ensures cause { HasCause (D.faults disk.old) (D.faults disk.new) result }
{
    let mut piece = [0u8; PIECE];
    let mut next = 0;
    let mut at = 9;
    while next < entries.len() {
        let (behind, count) = fill(&mut piece, entries, next);
        disk.write_at(place, at, &piece[..count])?;
        hasher.feed(&piece[..count]);
        at += count as u64;
        next = behind;
    }
    Ok(at)
}
