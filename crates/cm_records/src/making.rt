//! Records are made.
ghost use Rattle.std.specs.Prelude.{◌≡◌, ◌≢◌, ◌≤◌, OnOk, IsErrOf};
ghost use Rattle.std.specs.Option.{ForSome};
ghost use Rattle.cm_base.specs.Causes.{Rose};
ghost use Rattle.cm_disk.specs.Disk.{Files, IsImage, LeavesOnly};
ghost use Rattle.cm_state.specs.Adding.{Told};
ghost use Rattle.cm_register.specs.Look.{Missing, look};
ghost use Rattle.cm_register.specs.Opens.{Makes, MakesOrNot, IsMade, IsMadeOrNot};
ghost use Rattle.cm_records.specs.Placing.{KeepsPlaces};

use crate::records::Records;
use cm_disk::Disk;
use cm_log::{CreateFault, Shelf, create};
use cm_register::a_new_log_is_empty;

impl<D: Disk> Records<D> {
    /// Makes new records on a disk that has none.
    ///
    /// `AlreadyThere` comes exactly where the disk has some, readable or not; then nothing has changed. `Disk` comes only where the
    /// disk failed.
    pub fn init(disk: &mut D) -> Result<(), CreateFault>
        ensures made { OnOk result (Makes (D.reads disk.old) (D.reads disk.new)) }
        ensures there { IsErrOf result CreateFault.AlreadyThere → ForSome (D.reads disk.old) (λ files. look files ≢ Missing) }
        ensures same { IsErrOf result CreateFault.AlreadyThere → D.reads disk.new ≡ D.reads disk.old }
        // After `Disk` reads give what they gave; or, only where there were no records, they give none or new ones.
        ensures failed { IsErrOf result CreateFault.Disk → MakesOrNot (D.reads disk.old) (D.reads disk.new) }
        ensures places { Told KeepsPlaces (D.reads disk.old) (D.reads disk.new) }
        // A crash at any moment leaves what it might have left before; or, only where there were no records, none or new ones.
        // After Ok new ones.
        ensures any_moment { ForSome (D.reads disk.old) (λ files. LeavesOnly D.moment D.left_since disk.old disk.new (IsMadeOrNot files (D.may_leave disk.old))) }
        ensures durable { OnOk result (ForSome (D.reads disk.old) (λ files. (left : Files) → IsImage (D.may_leave disk.new) left → IsMade left)) }
        ensures later { D.faults disk.old ≤ D.faults disk.new }
        ensures cause { IsErrOf result CreateFault.Disk → Rose (D.faults disk.old) (D.faults disk.new) }
    {
        a_new_log_is_empty();
        create(disk, Shelf::Site)
    }
}
