//! A text is loaded.
ghost use Rattle.std.specs.Prelude.{◌≡◌, List, ℕ, length, Some, IfOk, IfSome, IsErrOf, OnOk, option_map};
ghost use Rattle.std.specs.Option.{ForSome};
ghost use Rattle.cm_base.specs.Causes.{Rose};
ghost use Rattle.cm_disk.specs.Disk.{Only};
ghost use Rattle.cm_log.specs.Frames.{OnlyReads};
ghost use Rattle.cm_textlib.specs.Places.{topology_place, if_named, text_in};

use crate::TextFault;
use crate::places::text_at;
use cm_base::{Hash, List, Place};
use cm_disk::Disk;
use sha2::{Digest, Sha256};
use std::alloc::Global;

/// The text of the topology of that number, made durable before it is read. None exactly where there is no file of this size and this
/// SHA-256.
pub fn load<D: Disk>(
    alloc: Global,
    disk: &mut D,
    number: u32,
    size: u32,
    hash: Hash,
) -> Result<Option<List<u8>>, TextFault>
    ensures answer { IfOk result (λ text. ForSome (D.reads disk.old) (λ files. text ≡ text_in size hash (files (topology_place number)))) }
    // A crash preserves what stands at the place.
    ensures durable { OnOk result (ForSome (D.reads disk.old) (λ files. Only (files (topology_place number)) (D.may_leave disk.new (topology_place number)))) }
    // Whatever the disk, a text is what was named.
    ensures named { IfOk result (λ text. IfSome text (λ text. if_named size hash text ≡ Some text)) }
    ensures only { OnlyReads D.reads D.may_leave D.moment D.left_since D.faults disk.old disk.new }
    ensures cause { IsErrOf result TextFault.Disk → Rose (D.faults disk.old) (D.faults disk.new) }
{
    let place = text_at(number);
    // Sync before looking: a crash could take a text that was answered.
    disk.sync(&place)?;
    let found = disk.size(&place)?;
    if found != Some(u64::from(size)) {
        return Ok(None);
    }
    load_sized(alloc, disk, &place, size, hash)
}

// The same where the file has the size.
fn load_sized<D: Disk>(
    alloc: Global,
    disk: &mut D,
    place: &Place,
    size: u32,
    hash: Hash,
) -> Result<Option<List<u8>>, TextFault>
    ensures answer { IfOk result (λ text. ForSome (D.reads disk.old) (λ files. option_map length (files place.now) ≡ Some size → text ≡ text_in size hash (files place.now))) }
    ensures named { IfOk result (λ text. IfSome text (λ text. if_named size hash text ≡ Some text)) }
    ensures only { OnlyReads D.reads D.may_leave D.moment D.left_since D.faults disk.old disk.new }
    ensures cause { IsErrOf result TextFault.Disk → Rose (D.faults disk.old) (D.faults disk.new) }
{
    let mut bytes = vec![in alloc; 0u8; size as usize]?;
    let count = disk.read_at(place, 0, &mut bytes)?;
    bytes.truncate(count);
    Ok(named_text(bytes, size, hash))
}

// The bytes, where they have this size and this SHA-256.
fn named_text(bytes: Vec<u8>, size: u32, hash: Hash) -> Option<List<u8>>
    ensures { result ≡ if_named size hash bytes.items }
{
    if bytes.len() != size as usize || Hash(Sha256::digest(&bytes)) != hash {
        return None;
    }
    Some(List::of(bytes))
}
