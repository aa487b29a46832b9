//! The command `drop`.
ghost use Rattle.cm_site.specs.OneEnds.{OneEndsOn};
ghost use Rattle.cm_site.specs.OneLibrary.{drop};
ghost use Rattle.cm_site.specs.Opened.{IsOpened};
ghost use Rattle.cm_site.specs.Runs.{Sourced};

use crate::{Refusal, Reply};
use cm_base::{JobId, ServerName};
use cm_disk::Disk;
use cm_library::{LibFault, Library};

/// Gives up a job of an opened library. It reads no folder, so its clause is of any.
pub(crate) fn drop_opened<D: Disk + Drop>(
    library: &mut Library<D>,
    bay: ServerName,
    job: JobId,
) -> Reply
    requires opened { IsOpened D.reads D.may_leave D.moment D.left_since D.faults library.old }
    ensures { (from to : Sourced) → OneEndsOn D.reads D.may_leave D.moment D.left_since D.faults bay library.old.state library.old.end (λ given. drop job) from to result library.old.start library.new.disk }
{
    let dropped = library.drop_job(job);
    library.tells();
    let fault = match dropped {
        Ok(()) => return Reply::Dropped,
        Err(fault) => fault,
    };
    match fault {
        LibFault::NoJob => Reply::Refused {
            refusal: Refusal::NoJob,
        },
        LibFault::Disk => Reply::Disk { bay },
        _ => unreachable!(),
    }
}
