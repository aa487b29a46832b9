//! The calls on records, with their contracts.
ghost use Rattle.std.specs.Prelude.{◌≡◌, ◌≢◌, ◌≤◌, ℕ, List, None, IfOk, IfErr, OnOk, IsErrOf, MatchResult, option_map};
ghost use Rattle.std.specs.Option.{ForSome};
ghost use Rattle.cm_base.specs.Causes.{Rose};
ghost use Rattle.cm_disk.specs.Disk.{Files, IsImage, LeavesOnly};
ghost use Rattle.cm_records.specs.Opening.{HasFound};
ghost use Rattle.cm_records.specs.Placing.{KeepsPlaces};
ghost use Rattle.cm_register.specs.Look.{Missing, Unreadable, look};
ghost use Rattle.cm_register.specs.Opens.{EachOpens, Makes, MakesOrNot, IsMade, IsMadeOrNot};
ghost use Rattle.cm_state.specs.Adding.{Told};

use cm_disk::Disk;
use cm_records::{CreateFault, OpenFault, Records, Topology};
use std::alloc::Global;

pub(crate) fn close_records<D: Disk + Drop>(records: Records<D>) -> D
    ensures { result ≡ records.disk }
{
    records.close()
}

pub(crate) fn topology_of<D: Disk + Drop>(records: &Records<D>) -> Option<&Topology>
    ensures { option_map (λ topology. topology.now) result ≡ records.now.kept.topology }
{
    records.topology()
}

pub(crate) fn open_records<D: Disk + Drop>(
    alloc: Global,
    disk: D,
) -> Result<Records<D>, (D, OpenFault)>
    ensures found { IfOk result (λ records. HasFound (D.reads disk) (D.reads records.disk) disk records) }
    ensures missing { IfErr result (λ refused. refused.1 ≡ OpenFault.NoLibrary → ForSome (D.reads disk) (λ files. look files ≡ Missing)) }
    ensures unreadable { IfErr result (λ refused. (place : List ℕ) (at : ℕ) → refused.1 ≡ OpenFault.Unreadable place at → ForSome (D.reads disk) (λ files. look files ≡ Unreadable place at)) }
    ensures given_back { IfErr result (λ refused. D.reads refused.0 ≡ D.reads disk) }
    ensures any_moment { MatchResult result (λ records. LeavesOnly D.moment D.left_since disk records.disk (IsImage (D.may_leave disk))) (λ refused. LeavesOnly D.moment D.left_since disk refused.0 (IsImage (D.may_leave disk))) }
    ensures whole { IfOk result (λ records. ForSome (D.reads disk) (λ _. EachOpens (D.may_leave records.disk) records.kept)) }
    ensures later { MatchResult result (λ records. D.faults disk ≤ D.faults records.disk) (λ refused. D.faults disk ≤ D.faults refused.0) }
    ensures cause { IfErr result (λ refused. refused.1 ≡ OpenFault.Disk → Rose (D.faults disk) (D.faults refused.0)) }
{
    Records::open(alloc, disk)
}

pub(crate) fn init_records<D: Disk + Drop>(disk: &mut D) -> Result<(), CreateFault>
    ensures made { OnOk result (Makes (D.reads disk.old) (D.reads disk.new)) }
    ensures there { IsErrOf result CreateFault.AlreadyThere → ForSome (D.reads disk.old) (λ files. look files ≢ Missing) }
    ensures same { IsErrOf result CreateFault.AlreadyThere → D.reads disk.new ≡ D.reads disk.old }
    ensures failed { IsErrOf result CreateFault.Disk → MakesOrNot (D.reads disk.old) (D.reads disk.new) }
    ensures places { Told KeepsPlaces (D.reads disk.old) (D.reads disk.new) }
    ensures any_moment { ForSome (D.reads disk.old) (λ files. LeavesOnly D.moment D.left_since disk.old disk.new (IsMadeOrNot files (D.may_leave disk.old))) }
    ensures durable { OnOk result (ForSome (D.reads disk.old) (λ files. (left : Files) → IsImage (D.may_leave disk.new) left → IsMade left)) }
    ensures later { D.faults disk.old ≤ D.faults disk.new }
    ensures cause { IsErrOf result CreateFault.Disk → Rose (D.faults disk.old) (D.faults disk.new) }
{
    Records::init(disk)
}
