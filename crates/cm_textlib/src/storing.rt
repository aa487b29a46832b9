//! A text is stored.
ghost use Rattle.std.specs.Prelude.{◌≡◌, ◌≢◌, ◌≤◌, ℕ, List, length, Some, OnOk};
ghost use Rattle.std.specs.Option.{ForSome};
ghost use Rattle.cm_base.specs.Causes.{HasCause};
ghost use Rattle.cm_disk.specs.Disk.{File, Files, Does, Only, LeavesOnly};
ghost use Rattle.cm_log.specs.Frames.{LeavesAlone};
ghost use Rattle.cm_textlib.specs.Places.{topology_place};

use crate::places::text_at;
use cm_base::Place;
use cm_disk::{Disk, DiskFault};

/// Stores the text of the topology of that number, durably, in place of what stood there. After a fault any part of it may be there.
pub fn store<D: Disk>(disk: &mut D, number: u32, text: &[u8]) -> Result<(), DiskFault>
    requires fits { length text.now ≤ 4194304 }
    ensures work { Does (D.reads disk.old) (D.reads disk.new) (topology_place number) (λ (file : File). Some text.now) result }
    // Whatever a crash leaves, the text is there.
    ensures durable { OnOk result (ForSome (D.reads disk.old) (λ files. Only (Some text.now) (D.may_leave disk.new (topology_place number)))) }
    ensures others { (q : List ℕ) (file : File) → q ≢ topology_place number → D.may_leave disk.new q file → D.may_leave disk.old q file }
    ensures run { LeavesOnly D.moment D.left_since disk.old disk.new (λ (left : Files). (q : List ℕ) → q ≢ topology_place number → D.may_leave disk.old q (left q)) }
    ensures cause { HasCause (D.faults disk.old) (D.faults disk.new) result }
{
    let place = text_at(number);
    write_whole(disk, &place, text)
}

// Makes a file of these bytes and no others, also of none, and syncs it.
fn write_whole<D: Disk>(disk: &mut D, place: &Place, text: &[u8]) -> Result<(), DiskFault>
    requires { length text.now ≤ 4194304 }
    ensures work { Does (D.reads disk.old) (D.reads disk.new) place.now (λ (file : File). Some text.now) result }
    ensures durable { OnOk result (ForSome (D.reads disk.old) (λ files. Only (Some text.now) (D.may_leave disk.new place.now))) }
    ensures alone { LeavesAlone (λ q. q ≢ place.now) D.reads D.may_leave D.moment D.left_since D.faults disk.old disk.new }
    ensures cause { HasCause (D.faults disk.old) (D.faults disk.new) result }
{
    disk.write_at(place, 0, text)?;
    disk.cut(place, text.len() as u64)?;
    disk.sync(place)?;
    Ok(())
}
