//! The places that a purge would erase are listed.
ghost use Rattle.std.specs.Prelude.{◌≡◌, ◌<◌, ◌≤◌, true, None, Some, IfOk, IfSome, IsErrOf};
ghost use Rattle.std.specs.Option.{ForSome};
ghost use Rattle.cm_base.specs.Causes.{Rose, HasCause};
ghost use Rattle.cm_disk.specs.Disk.{LeavesOnly, is_above, IsNext};
ghost use Rattle.cm_disk.specs.Ranks.{ahead};
ghost use Rattle.cm_disk.specs.Walks.{AreListed};
ghost use Rattle.cm_state.specs.Opens.{Opens, EachOpensSome};
ghost use Rattle.cm_state.specs.Purged.{is_loose, loose};
ghost use Rattle.cm_check.specs.Looks.{Looks};

use crate::CheckFault;
use cm_base::Place;
use cm_disk::{Disk, DiskFault};
use cm_library::Library;
use std::alloc::Global;

/// The next loose place above another, on a settled library. None behind the last.
fn next_loose<D: Disk>(
    library: &mut Library<D>,
    after: Option<Place>,
) -> Result<Option<Place>, DiskFault>
    requires settled { library.old.pending ≡ None }
    ensures next { IfOk result (λ next. ForSome (D.reads library.old.disk) (λ files. IsNext (loose library.old.state files) after next)) }
    ensures above { IfOk result (λ next. IfSome next (λ at. (is_above after at ≡ true) × (is_loose library.old.state at ≡ true))) }
    ensures nearer { IfOk result (λ next. IfSome next (λ at. ahead (Some at) < ahead after)) }
    ensures looks { Looks D.reads library.old library.new }
    ensures opens { EachOpensSome (D.may_leave library.old.start) → ForSome (D.reads library.old.disk) (λ _. LeavesOnly D.moment D.left_since library.old.disk library.new.disk (λ image. Opens image library.old.state)) }
    ensures cause { HasCause (D.faults library.old.disk) (D.faults library.new.disk) result }
{
    library.tells();
    match library.next_loose(after) {
        Ok(next) => Ok(next),
        Err(_) => Err(DiskFault),
    }
}

/// The places that a purge would erase, in byte order: those of stored manifests and files that no version and no unfinished job names.
/// It never answers `NoVersion`.
pub fn what_if<D: Disk>(alloc: Global, library: &mut Library<D>) -> Result<Vec<Place>, CheckFault>
    requires settled { library.old.pending ≡ None }
    ensures found { IfOk result (λ list. ForSome (D.reads library.old.disk) (λ files. AreListed (loose library.old.state files) list.items)) }
    ensures there { IsErrOf result CheckFault.NoVersion → ⊥ }
    ensures same { Looks D.reads library.old library.new }
    // A crash at any moment leaves the state, with all files of its versions, where each image opened to some state at the opening.
    ensures opens { EachOpensSome (D.may_leave library.old.start) → ForSome (D.reads library.old.disk) (λ _. LeavesOnly D.moment D.left_since library.old.disk library.new.disk (λ image. Opens image library.old.state)) }
    ensures later { D.faults library.old.disk ≤ D.faults library.new.disk }
    ensures cause { IsErrOf result CheckFault.Disk → Rose (D.faults library.old.disk) (D.faults library.new.disk) }
{
    library.tells();
    let mut list = Vec::new(alloc);
    let mut after: Option<Place> = None;
    'places: loop {
        let next = match next_loose(library, after) {
            Ok(next) => next,
            Err(_) => return Err(CheckFault::Disk),
        };
        let Some(place) = next else {
            return Ok(list);
        };
        match list.push(place) {
            Ok(()) => {}
            Err(_) => return Err(CheckFault::Memory),
        }
        after = Some(place);
    }
}
