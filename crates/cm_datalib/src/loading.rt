//! A stored manifest is loaded.
ghost use Rattle.std.specs.Prelude.{◌≡◌, ◌≢◌, ◌≤◌, ◌<◌, ◌==◌, ◌&&◌, ◌++◌, List, ℕ, length, take, Some, Err, IfOk, IfErr, IsErr, IsErrOf, option_map};
ghost use Rattle.std.specs.Option.{ForSome};
ghost use Rattle.std.specs.Str.{bytes_eq};
ghost use Rattle.sha2.specs.Sha256.{sha256};
ghost use Rattle.cm_base.specs.Causes.{Rose, HasCause};
ghost use Rattle.cm_base.specs.declared.hash.Hash.{Hash as hash_value};
ghost use Rattle.cm_disk.specs.Disk.{File, Reads, IsImage, LeavesNoMore, LeavesOnly};
ghost use Rattle.cm_disk.specs.Hashed.{hashed};
ghost use Rattle.cm_tree.specs.Manifests.{spelling};
ghost use Rattle.cm_tree.specs.Reading.{read_manifest};
ghost use Rattle.cm_datalib.specs.Places.{manifest_place};
ghost use Rattle.cm_datalib.specs.Loads.{loaded, as_data, Answers, bad_manifest};

use crate::faults::DataFault;
use crate::places::manifest_at;
use cm_base::{Hash, PackageId, Place, Version};
use cm_disk::{Disk, DiskFault, hash_file};
use cm_tree::{Manifest, TreeFault};
use sha2::{Digest, Sha256};
use std::alloc::{AllocError, Global};

/// The most bytes that a manifest has: 9, and at most 277 for each of 20,000 entries.
const MOST_BYTES: u64 = 5_540_009;

/// Loads the manifest of a version, whose spelling is to have this size and this SHA-256.
pub fn load<D: Disk>(
    alloc: Global,
    disk: &mut D,
    package: PackageId,
    version: Version,
    size: u32,
    hash: Hash,
) -> Result<Manifest, DataFault>
    ensures answer { ForSome (D.reads disk.old) (λ files. Answers result (loaded hash size (files (manifest_place «package» version)))) }
    // Whatever the disk, a manifest is what was named, and what is named is told.
    ensures named { IfOk result (λ manifest. (length (spelling manifest) ≡ size) × (sha256 (spelling manifest) ≡ hash.0)) }
    ensures other { (named got : hash_value) (of found : ℕ) → IsErrOf result (DataFault.OtherBytes named got of found) → (named ≡ hash) × (of ≡ size) }
    ensures same { D.reads disk.new ≡ D.reads disk.old }
    ensures stop { LeavesNoMore (D.may_leave disk.old) (D.may_leave disk.new) }
    ensures run { LeavesOnly D.moment D.left_since disk.old disk.new (IsImage (D.may_leave disk.old)) }
    ensures later { D.faults disk.old ≤ D.faults disk.new }
    ensures cause { IsErrOf result DataFault.Disk → Rose (D.faults disk.old) (D.faults disk.new) }
{
    let place = manifest_at(package, version);
    let Some(found) = disk.size(&place)? else {
        return Err(DataFault::NotHere);
    };
    if found == u64::from(size) && found <= MOST_BYTES {
        return load_named(alloc, disk, &place, size, hash);
    }
    load_other(alloc, disk, &place, size, hash)
}

// The same where the file has another size, or more bytes than a manifest. It is hashed in pieces.
fn load_other<D: Disk>(
    alloc: Global,
    disk: &mut D,
    place: &Place,
    size: u32,
    hash: Hash,
) -> Result<Manifest, DataFault>
    ensures answer { ForSome (D.reads disk.old) (λ files. Answers result (loaded hash size (files place.now))) }
    ensures named { IfOk result (λ manifest. (length (spelling manifest) ≡ size) × (sha256 (spelling manifest) ≡ hash.0)) }
    ensures other { (named got : hash_value) (of found : ℕ) → IsErrOf result (DataFault.OtherBytes named got of found) → (named ≡ hash) × (of ≡ size) }
    ensures same { D.reads disk.new ≡ D.reads disk.old }
    ensures stop { LeavesNoMore (D.may_leave disk.old) (D.may_leave disk.new) }
    ensures run { LeavesOnly D.moment D.left_since disk.old disk.new (IsImage (D.may_leave disk.old)) }
    ensures later { D.faults disk.old ≤ D.faults disk.new }
    ensures cause { IsErrOf result DataFault.Disk → Rose (D.faults disk.old) (D.faults disk.new) }
{
    let Some(file) = hash_file(disk, place)? else {
        return Err(DataFault::NotHere);
    };
    if !is_named(file, size, hash) {
        return Err(DataFault::OtherBytes {
            named: hash,
            got: file.1,
            size,
            found: file.0,
        });
    }
    if u64::from(size) > MOST_BYTES {
        return refuse_longer(alloc, disk, place, size, hash);
    }
    load_named(alloc, disk, place, size, hash)
}

// Why a file is no manifest that is what was named, and longer than a manifest. Its front tells.
fn refuse_longer<D: Disk>(
    alloc: Global,
    disk: &mut D,
    place: &Place,
    size: u32,
    hash: Hash,
) -> Result<Manifest, DataFault>
    requires { 5540009 < size }
    ensures answer { ForSome (D.reads disk.old) (λ files. Some (size, hash) ≡ hashed (files place.now) → Answers result (loaded hash size (files place.now))) }
    ensures refused { IsErr result }
    ensures other { (named got : hash_value) (of found : ℕ) → IsErrOf result (DataFault.OtherBytes named got of found) → (named ≡ hash) × (of ≡ size) }
    ensures same { D.reads disk.new ≡ D.reads disk.old }
    ensures stop { LeavesNoMore (D.may_leave disk.old) (D.may_leave disk.new) }
    ensures run { LeavesOnly D.moment D.left_since disk.old disk.new (IsImage (D.may_leave disk.old)) }
    ensures later { D.faults disk.old ≤ D.faults disk.new }
    ensures cause { IsErrOf result DataFault.Disk → Rose (D.faults disk.old) (D.faults disk.new) }
{
    let mut front = zeros(alloc, MOST_BYTES as usize)?;
    let count = read_front(disk, place, &mut front)?;
    Err(fault_of_front(alloc, &front, count, size, hash))
}

// So many bytes, each of them 0.
fn zeros(alloc: Global, len: usize) -> Result<Vec<u8>, AllocError>
    ensures { IfOk result (λ bytes. length bytes.items ≡ len) }
{
    vec![in alloc; 0u8; len]
}

// Why a file is no manifest that is what was named, and longer than a manifest, by so many bytes of its front.
fn fault_of_front(alloc: Global, front: &[u8], count: usize, size: u32, hash: Hash) -> DataFault
    requires most { length front.now ≡ 5540009 }
    requires within { count ≤ length front.now }
    requires longer { 5540009 < size }
    ensures answer { (file : File) → Some (size, hash) ≡ hashed file → Reads file 0 front.now count → Answers (Err result) (loaded hash size file) }
    ensures other { (named got : hash_value) (of found : ℕ) → result ≡ DataFault.OtherBytes named got of found → (named ≡ hash) × (of ≡ size) }
    ensures not_disk { result ≢ DataFault.Disk }
{
    if count < front.len() {
        return DataFault::OtherBytes {
            named: hash,
            got: Hash(Sha256::digest(&front[..count])),
            size,
            found: count as u64,
        };
    }
    fault_of_longer(alloc, front)
}

// The fault of more bytes than a manifest has, by their front.
fn fault_of_longer(alloc: Global, front: &[u8]) -> DataFault
    requires { length front.now ≡ 5540009 }
    ensures refused { (tail : List ℕ) → 1 ≤ length tail → Answers (Err result) (as_data (read_manifest (front.now ++ tail))) }
    ensures not_disk { result ≢ DataFault.Disk }
    ensures not_other { (named got : hash_value) (of found : ℕ) → result ≢ DataFault.OtherBytes named got of found }
{
    match Manifest::decode(alloc, front) {
        // What follows it is no part of a manifest.
        Ok(_) => DataFault::BadManifest {
            fault: TreeFault::BadForm {
                at: MOST_BYTES as u32,
            },
        },
        Err(fault) => of_tree(fault),
    }
}

// Whether a file has the size and the SHA-256 that were named.
fn is_named(file: (u64, Hash), size: u32, hash: Hash) -> bool
    ensures { result ≡ ((file.0 == size) && bytes_eq file.1.0 hash.0) }
{
    file.0 == u64::from(size) && file.1 == hash
}

// Loads a manifest from a place whose file has the size, which is that of a manifest.
fn load_named<D: Disk>(
    alloc: Global,
    disk: &mut D,
    place: &Place,
    size: u32,
    hash: Hash,
) -> Result<Manifest, DataFault>
    requires { size ≤ 5540009 }
    ensures answer { ForSome (D.reads disk.old) (λ files. option_map length (files place.now) ≡ Some size → Answers result (loaded hash size (files place.now))) }
    ensures named { IfOk result (λ manifest. (length (spelling manifest) ≡ size) × (sha256 (spelling manifest) ≡ hash.0)) }
    ensures other { (named got : hash_value) (of found : ℕ) → IsErrOf result (DataFault.OtherBytes named got of found) → (named ≡ hash) × (of ≡ size) }
    ensures same { D.reads disk.new ≡ D.reads disk.old }
    ensures stop { LeavesNoMore (D.may_leave disk.old) (D.may_leave disk.new) }
    ensures run { LeavesOnly D.moment D.left_since disk.old disk.new (IsImage (D.may_leave disk.old)) }
    ensures later { D.faults disk.old ≤ D.faults disk.new }
    ensures cause { IsErrOf result DataFault.Disk → Rose (D.faults disk.old) (D.faults disk.new) }
{
    let mut bytes = vec![in alloc; 0u8; size as usize]?;
    let count = read_front(disk, place, &mut bytes)?;
    manifest_of(alloc, &bytes[..count], size, hash)
}

// Reads a file from its front, and tells how many bytes it gave.
fn read_front<D: Disk>(disk: &mut D, place: &Place, buf: &mut [u8]) -> Result<usize, DiskFault>
    ensures fits { IfOk result (λ count. count ≤ length buf.new) }
    ensures bytes { IfOk result (λ count. ForSome (D.reads disk.old) (λ files. Reads (files place.now) 0 buf.new count)) }
    ensures whole { IfOk result (λ count. ForSome (D.reads disk.old) (λ files. option_map length (files place.now) ≡ Some (length buf.old) → files place.now ≡ Some (take count buf.new))) }
    ensures same { D.reads disk.new ≡ D.reads disk.old }
    ensures stop { LeavesNoMore (D.may_leave disk.old) (D.may_leave disk.new) }
    ensures run { LeavesOnly D.moment D.left_since disk.old disk.new (IsImage (D.may_leave disk.old)) }
    ensures cause { HasCause (D.faults disk.old) (D.faults disk.new) result }
{
    disk.read_at(place, 0, buf)
}

// The manifest in these bytes, where they are those that were named.
fn manifest_of(alloc: Global, bytes: &[u8], size: u32, hash: Hash) -> Result<Manifest, DataFault>
    ensures answer { Answers result (loaded hash size (Some bytes.now)) }
    ensures named { IfOk result (λ manifest. (length (spelling manifest) ≡ size) × (sha256 (spelling manifest) ≡ hash.0)) }
    ensures other { (named got : hash_value) (of found : ℕ) → IsErrOf result (DataFault.OtherBytes named got of found) → (named ≡ hash) × (of ≡ size) }
    ensures fault { IfErr result (λ fault. fault ≢ DataFault.Disk) }
{
    let got = Hash(Sha256::digest(bytes));
    if bytes.len() != size as usize || got != hash {
        return Err(DataFault::OtherBytes {
            named: hash,
            got,
            size,
            found: bytes.len() as u64,
        });
    }
    match Manifest::decode(alloc, bytes) {
        Ok(manifest) => Ok(manifest),
        Err(fault) => Err(of_tree(fault)),
    }
}

// Why bytes that were named are no manifest.
fn of_tree(fault: TreeFault) -> DataFault
    ensures { result ≡ bad_manifest fault }
{
    match fault {
        TreeFault::Memory => DataFault::Memory,
        other => DataFault::BadManifest { fault: other },
    }
}
