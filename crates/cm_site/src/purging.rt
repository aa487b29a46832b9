//! The commands `purge` and `what-if`.
ghost use Rattle.cm_site.specs.OneEnds.{OneEndsOn};
ghost use Rattle.cm_site.specs.OneLibrary.{purge, what_if};
ghost use Rattle.cm_site.specs.Opened.{IsOpened};
ghost use Rattle.cm_site.specs.Runs.{Sourced};

use crate::Reply;
use cm_base::{List, ServerName};
use cm_check::CheckFault;
use cm_disk::Disk;
use cm_library::{LibFault, Library};
use std::alloc::Global;

/// Removes what an opened library does not need. It reads no folder, so its clause is of any.
pub(crate) fn purge_opened<D: Disk + Drop>(library: &mut Library<D>, bay: ServerName) -> Reply
    requires opened { IsOpened D.reads D.may_leave D.moment D.left_since D.faults library.old }
    ensures { (from to : Sourced) → OneEndsOn D.reads D.may_leave D.moment D.left_since D.faults bay library.old.state library.old.end (λ given state. purge given) from to result library.old.start library.new.disk }
{
    let purged = library.purge();
    library.tells();
    let fault = match purged {
        Ok(done) => {
            return Reply::Purged {
                files: done.files,
                manifests: done.manifests,
            };
        }
        Err(fault) => fault,
    };
    match fault {
        LibFault::Disk => Reply::Disk { bay },
        _ => unreachable!(),
    }
}

/// Lists what an opened library does not need. It reads no folder, so its clause is of any.
pub(crate) fn what_if_opened<D: Disk + Drop>(
    alloc: Global,
    library: &mut Library<D>,
    bay: ServerName,
) -> Reply
    requires opened { IsOpened D.reads D.may_leave D.moment D.left_since D.faults library.old }
    ensures { (from to : Sourced) → OneEndsOn D.reads D.may_leave D.moment D.left_since D.faults bay library.old.state library.old.end (λ given state. what_if given) from to result library.old.start library.new.disk }
{
    library.tells();
    let listed = cm_check::what_if(alloc, library);
    library.tells();
    let fault = match listed {
        Ok(places) => {
            return Reply::Loose {
                places: List::of(places),
            };
        }
        Err(fault) => fault,
    };
    match fault {
        CheckFault::Disk => Reply::Disk { bay },
        CheckFault::Memory => Reply::Memory,
        CheckFault::NoVersion => unreachable!(),
    }
}
