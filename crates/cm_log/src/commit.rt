//! A record is written behind the closed gate, and then the gate is opened.
ghost use Rattle.std.specs.Prelude.{◌≡◌, ◌≢◌, ◌+◌, ◌^◌, ◌≤◌, ◌++◌, [], ◌∷◌, List, ℕ, length, take, Some, OnOk};
ghost use Rattle.std.specs.Option.{ForSome};
ghost use Rattle.cm_base.specs.Causes.{HasCause};
ghost use Rattle.cm_disk.specs.Disk.{Files, Only, LeavesOnly};
ghost use Rattle.cm_log.specs.Frames.{LeavesAlone};
ghost use Rattle.cm_log.specs.Records.{measured};
ghost use Rattle.cm_log.specs.Fronts.{IsShut, Commits, IsGated};

use cm_base::Place;
use cm_disk::{Disk, DiskFault};

/// Adds a record at the closed gate. A stop at any moment leaves the gate closed, with all before it, or the record and a
/// closed gate behind it.
pub(crate) fn commit<D: Disk>(
    disk: &mut D,
    place: &Place,
    end: u64,
    body: &[u8],
) -> Result<(), DiskFault>
    requires short { length body.now ≤ 65536 }
    requires fits { end + length body.now + 6 ≤ 2 ^ 40 }
    requires shut { ForSome (D.reads disk.old) (λ files. (front : List ℕ) × (length front ≡ end) × IsShut front (files place.now) × Only (files place.now) (D.may_leave disk.old place.now)) }
    ensures works { ForSome (D.reads disk.old) (λ files. (front : List ℕ) → length front ≡ end → IsShut front (files place.now) → (now : Files) × (D.reads disk.new ≡ Some now) × Commits place.now front body.now files now result) }
    ensures durable { OnOk result (ForSome (D.reads disk.new) (λ files. Only (files place.now) (D.may_leave disk.new place.now))) }
    ensures any_moment { ForSome (D.reads disk.old) (λ files. (front : List ℕ) → length front ≡ end → IsShut front (files place.now) → LeavesOnly D.moment D.left_since disk.old disk.new (IsGated place.now (D.may_leave disk.old) front body.now)) }
    ensures alone { LeavesAlone (λ q. q ≢ place.now) D.reads D.may_leave D.moment D.left_since D.faults disk.old disk.new }
    ensures cause { HasCause (D.faults disk.old) (D.faults disk.new) result }
{
    let mut buffer = [0u8; 65541];
    let count = assemble(&mut buffer, body);
    let staged = disk.write_at(place, end + 1, &buffer[..count]);
    staged?;
    let preserved = disk.sync(place);
    preserved?;
    // Only now: before the record is durable, an open gate could stand before torn bytes after a crash.
    disk.write_at(place, end, &[1])?;
    disk.sync(place)?;
    Ok(())
}

// The length, the body and a closed gate.
fn assemble(buffer: &mut [u8; 65541], body: &[u8]) -> usize
    requires { length body.now ≤ 65536 }
    ensures count { result ≡ length body.now + 5 }
    ensures bytes { take result buffer.new ≡ measured body.now ++ 0 ∷ [] }
    ensures length { length buffer.new ≡ 65541 }
{
    let len = body.len();
    buffer[..4].copy_from_slice(&(len as u32).to_le_bytes());
    buffer[4..4 + len].copy_from_slice(body);
    buffer[4 + len] = 0;
    len + 5
}
