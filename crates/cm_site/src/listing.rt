//! The command `list`.
ghost use Rattle.std.specs.Prelude.{◌≡◌, ◌⊎◌, IfOk};
ghost use Rattle.cm_state.specs.State.{version_rows, job_rows};
ghost use Rattle.cm_site.specs.OneEnds.{OneEndsOn};
ghost use Rattle.cm_site.specs.OneLibrary.{list};
ghost use Rattle.cm_site.specs.Opened.{IsOpened};
ghost use Rattle.cm_site.specs.Runs.{Sourced};
ghost use Rattle.cm_site.specs.declared.reply.Reply.TheVariants.{Versions, Memory};

use crate::Reply;
use cm_base::{List, ServerName};
use cm_disk::Disk;
use cm_library::{JobRow, Library, VersionRow};
use std::alloc::{AllocError, Global};

fn copied_versions(alloc: Global, rows: &[VersionRow]) -> Result<Vec<VersionRow>, AllocError>
    ensures { IfOk result (λ copy. copy.items ≡ rows.now) }
{
    rows.to_vec(alloc)
}

fn copied_jobs(alloc: Global, rows: &[JobRow]) -> Result<Vec<JobRow>, AllocError>
    ensures { IfOk result (λ copy. copy.items ≡ rows.now) }
{
    rows.to_vec(alloc)
}

fn rows_of<D: Disk + Drop>(alloc: Global, library: &Library<D>) -> Result<Reply, AllocError>
    ensures { IfOk result (λ reply. reply ≡ Versions (version_rows library.now.state) (job_rows library.now.state)) }
{
    Ok(Reply::Versions {
        versions: List::of(copied_versions(alloc, library.versions())?),
        jobs: List::of(copied_jobs(alloc, library.jobs())?),
    })
}

// The rows, or want of memory.
fn tell<D: Disk + Drop>(alloc: Global, library: &Library<D>) -> Reply
    ensures { (result ≡ Versions (version_rows library.now.state) (job_rows library.now.state)) ⊎ (result ≡ Memory) }
{
    match rows_of(alloc, library) {
        Ok(reply) => reply,
        Err(_) => Reply::Memory,
    }
}

/// Lists an opened library of a bay. It reads no folder, so its clause is of any.
pub(crate) fn list_opened<D: Disk + Drop>(
    alloc: Global,
    library: &Library<D>,
    bay: ServerName,
) -> Reply
    requires { IsOpened D.reads D.may_leave D.moment D.left_since D.faults library.now }
    ensures { (from to : Sourced) → OneEndsOn D.reads D.may_leave D.moment D.left_since D.faults bay library.now.state library.now.end (λ given. list) from to result library.now.start library.now.disk }
{
    library.tells();
    tell(alloc, library)
}
