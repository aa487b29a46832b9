//! A library is made.
ghost use Rattle.std.specs.Prelude.{◌≡◌, ◌≢◌, ◌≤◌, OnOk, IsErrOf};
ghost use Rattle.std.specs.Option.{ForSome};
ghost use Rattle.cm_base.specs.Causes.{Rose};
ghost use Rattle.cm_disk.specs.Disk.{Files, IsImage, LeavesOnly};
ghost use Rattle.cm_state.specs.Adding.{Told};
ghost use Rattle.cm_state.specs.Look.{Missing, look};
ghost use Rattle.cm_state.specs.Becomes.{Makes, MakesOrNot, IsMade, IsMadeOrNot};
ghost use Rattle.cm_library.specs.Placing.{KeepsPlaces};

use crate::library::Library;
use cm_disk::Disk;
use cm_log::{CreateFault, Shelf, create};

impl<D: Disk> Library<D> {
    /// Makes an empty library on a disk that has none.
    ///
    /// `AlreadyThere` comes exactly where the disk has one, readable or not; then nothing has changed. `Disk` comes only where
    /// the disk failed.
    pub fn init(disk: &mut D) -> Result<(), CreateFault>
        ensures made { OnOk result (Makes (D.reads disk.old) (D.reads disk.new)) }
        ensures there { IsErrOf result CreateFault.AlreadyThere → ForSome (D.reads disk.old) (λ files. look files ≢ Missing) }
        ensures same { IsErrOf result CreateFault.AlreadyThere → D.reads disk.new ≡ D.reads disk.old }
        // After `Disk` reads give what they gave; or, only where there was no library, they give none or an empty one.
        ensures failed { IsErrOf result CreateFault.Disk → MakesOrNot (D.reads disk.old) (D.reads disk.new) }
        ensures places { Told KeepsPlaces (D.reads disk.old) (D.reads disk.new) }
        // A crash at any moment leaves what it might have left before; or, only where there was no library, none or an empty one.
        // After Ok an empty one.
        ensures any_moment { ForSome (D.reads disk.old) (λ files. LeavesOnly D.moment D.left_since disk.old disk.new (IsMadeOrNot files (D.may_leave disk.old))) }
        ensures durable { OnOk result (ForSome (D.reads disk.old) (λ files. (left : Files) → IsImage (D.may_leave disk.new) left → IsMade left)) }
        ensures later { D.faults disk.old ≤ D.faults disk.new }
        ensures cause { IsErrOf result CreateFault.Disk → Rose (D.faults disk.old) (D.faults disk.new) }
    {
        create(disk, Shelf::PkgLib)
    }
}
