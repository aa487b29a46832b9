//! The command `validate`.
ghost use Rattle.std.specs.Prelude.{◌≡◌, find, length, option_map};
ghost use Rattle.cm_pkglib.specs.Rows.{is_of};
ghost use Rattle.cm_state.specs.State.{Held as a_held};
ghost use Rattle.cm_site.specs.OneEnds.{OneEndsOn};
ghost use Rattle.cm_site.specs.OneLibrary.{validate};
ghost use Rattle.cm_site.specs.Opened.{IsOpened};
ghost use Rattle.cm_site.specs.Runs.{Sourced};

use crate::{Refusal, Reply};
use cm_base::{List, PackageId, ServerName, Version};
use cm_check::CheckFault;
use cm_disk::Disk;
use cm_library::Library;
use std::alloc::Global;

// How many entries the manifest of a version has. None exactly where there is no such version.
fn files_of<D: Disk + Drop>(
    library: &Library<D>,
    package: PackageId,
    version: Version,
) -> Option<u32>
    ensures { result ≡ option_map (λ (held : a_held). length held.manifest) (find (λ (held : a_held). is_of «package» version held.row) library.now.state.versions) }
{
    match library.manifest(package, version) {
        Some(entries) => Some(entries.len() as u32),
        None => None,
    }
}

/// Reads the stored files of a version of an opened library. It reads no folder, so its clause is of any.
pub(crate) fn validate_opened<D: Disk + Drop>(
    alloc: Global,
    library: &mut Library<D>,
    bay: ServerName,
    package: PackageId,
    version: Version,
) -> Reply
    requires opened { IsOpened D.reads D.may_leave D.moment D.left_since D.faults library.old }
    ensures { (from to : Sourced) → OneEndsOn D.reads D.may_leave D.moment D.left_since D.faults bay library.old.state library.old.end (validate «package» version) from to result library.old.start library.new.disk }
{
    library.tells();
    let files = match files_of(library, package, version) {
        Some(files) => files,
        None => {
            return Reply::Refused {
                refusal: Refusal::NoVersion,
            };
        }
    };
    let found = cm_check::validate(alloc, library, package, version);
    library.tells();
    let fault = match found {
        Ok(list) => {
            return Reply::Findings {
                files,
                list: List::of(list),
            };
        }
        Err(fault) => fault,
    };
    match fault {
        CheckFault::Disk => Reply::Disk { bay },
        CheckFault::Memory => Reply::Memory,
        CheckFault::NoVersion => unreachable!(),
    }
}
