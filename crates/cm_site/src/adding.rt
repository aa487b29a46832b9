//! The commands `add` and `update`.
ghost use Rattle.std.specs.Prelude.{◌≡◌, ◌≢◌, ◌+◌};
ghost use Rattle.std.specs.Option.{SomeIff};
ghost use Rattle.cm_intake.specs.Intake.{IsAbove};
ghost use Rattle.cm_pkglib.specs.Rows.{last_of};
ghost use Rattle.cm_state.specs.State.{State};
ghost use Rattle.cm_site.specs.Contents.{site};
ghost use Rattle.cm_site.specs.OneEnds.{OneEndsOn};
ghost use Rattle.cm_site.specs.OneLibrary.{Given, Step, reply_to, taken_in, add, update};
ghost use Rattle.cm_site.specs.Opened.{IsOpened};
ghost use Rattle.cm_site.specs.Runs.{sourced};

use crate::{Refusal, Reply};
use cm_base::{PackageId, ServerName, Version};
use cm_disk::Disk;
use cm_intake::{IntakeFault, Taken, take_in};
use cm_library::Library;
use cm_tree::Folder;
use std::alloc::Global;

fn first_version() -> Version
    ensures { result ≡ 1 }
{
    match Version::new(1) {
        Some(version) => version,
        None => unreachable!(),
    }
}

// The version behind another. None exactly behind the greatest one.
fn behind(last: Version) -> Option<Version>
    ensures { SomeIff result (last ≢ 4294967295) (last + 1) }
{
    let number = last.number();
    if number == u32::MAX {
        return None;
    }
    match Version::new(number + 1) {
        Some(next) => Some(next),
        None => unreachable!(),
    }
}

pub(crate) fn refused(refusal: Refusal) -> Reply
    ensures { result ≡ Reply.Refused refusal }
{
    Reply::Refused { refusal }
}

// The reply to an intake.
fn reply_of(
    package: PackageId,
    version: Version,
    result_of: Result<Taken, IntakeFault>,
    site_name: ServerName,
) -> Reply
    requires { site_name ≡ site }
    ensures { result ≡ reply_to «package» version result_of }
{
    let fault = match result_of {
        Ok(taken) => {
            return Reply::Added {
                package,
                version,
                files: taken.files,
                bytes: taken.bytes,
            };
        }
        Err(fault) => fault,
    };
    match fault {
        IntakeFault::Folder => Reply::Source,
        IntakeFault::TooManyFiles => refused(Refusal::TooManyFiles),
        IntakeFault::BadPath { entry } => refused(Refusal::BadPath { entry }),
        IntakeFault::SamePath { entry } => refused(Refusal::SamePath { entry }),
        IntakeFault::FileTooLong { entry } => refused(Refusal::FileTooLong { entry }),
        IntakeFault::TooManyVersions => refused(Refusal::TooManyVersions),
        IntakeFault::TooManyEntries => refused(Refusal::TooManyEntries),
        IntakeFault::TooManyJobs => refused(Refusal::TooManyJobs),
        IntakeFault::Spent => refused(Refusal::Spent),
        IntakeFault::Changed {
            path,
            first,
            first_size,
            second,
            second_size,
        } => Reply::Changed {
            path,
            first,
            first_size,
            second,
            second_size,
        },
        IntakeFault::Disk => Reply::Disk { bay: site_name },
        IntakeFault::Memory => Reply::Memory,
    }
}

// Takes the folder into an opened library, as a version above all that were opened of the package. So ends each step that does that there.
fn take<F: Folder, D: Disk + Drop>(
    alloc: Global,
    library: &mut Library<D>,
    folder: &mut F,
    package: PackageId,
    version: Version,
    site_name: ServerName,
) -> Reply
    requires opened { IsOpened D.reads D.may_leave D.moment D.left_since D.faults library.old }
    requires fresh { IsAbove version (last_of «package» library.old.state.lasts) }
    requires named { site_name ≡ site }
    ensures { (step : Given → State → Step) → ((given : Given) → step given library.old.state ≡ taken_in «package» version given library.old.state)
        → OneEndsOn D.reads D.may_leave D.moment D.left_since D.faults site library.old.state library.old.end step (sourced F.shows F.faults folder.old) (sourced F.shows F.faults folder.new) result library.old.start library.new.disk }
{
    let taken = take_in(alloc, library, folder, package, version);
    library.tells();
    reply_of(package, version, taken, site_name)
}

/// Adds the folder to an opened library.
pub(crate) fn add_opened<F: Folder, D: Disk + Drop>(
    alloc: Global,
    library: &mut Library<D>,
    folder: &mut F,
    package: PackageId,
    site_name: ServerName,
) -> Reply
    requires opened { IsOpened D.reads D.may_leave D.moment D.left_since D.faults library.old }
    requires named { site_name ≡ site }
    ensures { OneEndsOn D.reads D.may_leave D.moment D.left_since D.faults site library.old.state library.old.end (add «package») (sourced F.shows F.faults folder.old) (sourced F.shows F.faults folder.new) result library.old.start library.new.disk }
{
    match library.last(package) {
        None => take(alloc, library, folder, package, first_version(), site_name),
        Some(last) => {
            library.tells();
            refused(Refusal::PackageThere { last })
        }
    }
}

/// Adds the folder to an opened library, as the version behind the greatest one.
pub(crate) fn update_opened<F: Folder, D: Disk + Drop>(
    alloc: Global,
    library: &mut Library<D>,
    folder: &mut F,
    package: PackageId,
    site_name: ServerName,
) -> Reply
    requires opened { IsOpened D.reads D.may_leave D.moment D.left_since D.faults library.old }
    requires named { site_name ≡ site }
    ensures { OneEndsOn D.reads D.may_leave D.moment D.left_since D.faults site library.old.state library.old.end (update «package») (sourced F.shows F.faults folder.old) (sourced F.shows F.faults folder.new) result library.old.start library.new.disk }
{
    let last = match library.last(package) {
        Some(last) => last,
        None => {
            library.tells();
            return refused(Refusal::NoPackage);
        }
    };
    match behind(last) {
        Some(next) => take(alloc, library, folder, package, next, site_name),
        None => {
            library.tells();
            refused(Refusal::VersionsSpent)
        }
    }
}
