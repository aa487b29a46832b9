//! What stands in the two folders of manifests and of files.
ghost use Rattle.std.specs.Prelude.{◌≡◌, ◌≢◌, ◌<◌, ◌^◌, ℕ, List, length, true, is_some, IfSome, IfOk, OnOk, None, Some};
ghost use Rattle.std.specs.Option.{ForSome};
ghost use Rattle.cm_base.specs.Causes.{HasCause};
ghost use Rattle.cm_disk.specs.Disk.{File, Files, is_above, removed, Does, IsNext, LeavesOnly, Only};
ghost use Rattle.cm_disk.specs.Ranks.{ahead};
ghost use Rattle.cm_filelib.specs.Places.{folder_end};
ghost use Rattle.cm_log.specs.Frames.{OnlyReads, LeavesAlone};
ghost use Rattle.cm_state.specs.Purged.{is_stored_place};
ghost use Rattle.cm_library.specs.Purging.{in_folders, in_store, stored_place, IsOther};

use cm_base::{Hash, PackageId, Place, Version};
use cm_datalib::version_at;
use cm_disk::{Disk, DiskFault, Form, next_of_form};
use cm_filelib::hash_at;

/// What a place of a stored manifest or file names.
#[derive(Clone, Copy)]
pub(crate) enum Stored {
    Manifest {
        package: PackageId,
        version: Version,
    },
    File {
        hash: Hash,
    },
}

/// The form of the places of the two folders, whatever they name.
pub(crate) struct StorePlace;

impl Form for StorePlace {
    ghost use Rattle.cm_library.specs.Purging.{in_folders};

    type Named = Place;

    ghost is_form = { in_folders };

    ghost place_of = { λ place. place };

    // Below both folders.
    fn folder() -> Place {
        match Place::read(b"DataLib") {
            Some(place) => place,
            None => unreachable!(),
        }
    }

    fn place(named: Place) -> Place {
        named
    }

    fn named(place: &Place) -> Option<Place> {
        if is_in_folders(place) {
            Some(*place)
        } else {
            None
        }
    }

    fn is_past(place: &Place) -> bool {
        is_behind(place)
    }
}

// Whether a place is behind both folders.
fn is_behind(place: &Place) -> bool
    ensures { result ≡ is_above (Some folder_end) place.now }
{
    match Place::read(b"FileLib0") {
        Some(end) => end < *place,
        None => unreachable!(),
    }
}

/// The next place of the two folders. None behind the last.
pub(crate) fn next_in_folders<D: Disk>(
    disk: &mut D,
    after: Option<Place>,
) -> Result<Option<Place>, DiskFault>
    ensures least { IfOk result (λ next. ForSome (D.reads disk.old) (λ files. IsNext (in_store files) after next)) }
    ensures above { IfOk result (λ next. IfSome next (λ at. is_above after at ≡ true)) }
    ensures nearer { IfOk result (λ next. IfSome next (λ at. ahead (Some at) < ahead after)) }
    ensures only { OnlyReads D.reads D.may_leave D.moment D.left_since D.faults disk.old disk.new }
    ensures cause { HasCause (D.faults disk.old) (D.faults disk.new) result }
{
    next_of_form::<StorePlace, D>(disk, after)
}

fn is_in_folders(place: &Place) -> bool
    ensures { result ≡ in_folders place.now }
{
    let bytes = place.as_bytes();
    if bytes.len() < 8 {
        return false;
    }
    let folder = &bytes[..8];
    folder == b"DataLib/".as_slice() || folder == b"FileLib/".as_slice()
}

/// What a place names. None exactly where it is no place of a stored manifest or file.
pub(crate) fn stored_at(place: &Place) -> Option<Stored>
    ensures form { is_some result ≡ is_stored_place place.now }
    ensures place { IfSome result (λ stored. stored_place stored ≡ place.now) }
{
    if let Some((package, version)) = version_at(place) {
        return Some(Stored::Manifest { package, version });
    }
    match hash_at(place) {
        Some(hash) => Some(Stored::File { hash }),
        None => None,
    }
}

/// A package id has eight bytes, and a version is below 2^32, which is said here alone.
pub(crate) fn show_version(package: PackageId, version: Version)
    ensures long { length «package» ≡ 8 }
    ensures small { version < 2 ^ 32 }
{
    let _bytes = package.as_bytes();
    let _number = version.number();
}

// Removes what is stored.
fn erase<D: Disk>(disk: &mut D, stored: Stored) -> Result<(), DiskFault>
    ensures work { Does (D.reads disk.old) (D.reads disk.new) (stored_place stored) removed result }
    ensures durable { OnOk result (ForSome (D.reads disk.old) (λ _. Only None (D.may_leave disk.new (stored_place stored)))) }
    ensures others { (q : List ℕ) (file : File) → q ≢ stored_place stored → D.may_leave disk.new q file → D.may_leave disk.old q file }
    ensures run { LeavesOnly D.moment D.left_since disk.old disk.new (λ (left : Files). (q : List ℕ) → q ≢ stored_place stored → D.may_leave disk.old q (left q)) }
    ensures cause { HasCause (D.faults disk.old) (D.faults disk.new) result }
{
    match stored {
        Stored::Manifest { package, version } => cm_datalib::erase(disk, package, version),
        Stored::File { hash } => cm_filelib::erase(disk, hash),
    }
}

/// Removes what is stored at a place of its form, durably: after Ok no stop leaves it. After a fault any part of it may be there.
pub(crate) fn erase_at<D: Disk>(disk: &mut D, place: &Place) -> Result<(), DiskFault>
    requires { is_stored_place place.now ≡ true }
    ensures work { Does (D.reads disk.old) (D.reads disk.new) place.now removed result }
    ensures durable { OnOk result (ForSome (D.reads disk.old) (λ _. Only None (D.may_leave disk.new place.now))) }
    ensures alone { LeavesAlone (IsOther place.now) D.reads D.may_leave D.moment D.left_since D.faults disk.old disk.new }
    ensures cause { HasCause (D.faults disk.old) (D.faults disk.new) result }
{
    match stored_at(place) {
        Some(stored) => erase(disk, stored),
        None => unreachable!(),
    }
}
