//! The places of manifests.
ghost use Rattle.std.specs.Prelude.{◌≡◌, ◌<◌, ◌^◌, ℕ, Some};
ghost use Rattle.std.specs.Fmt.{decimal};
ghost use Rattle.cm_disk.specs.Disk.{is_above};
ghost use Rattle.cm_datalib.specs.Places.{folder, folder_end, manifest_place, version_named};

use crate::putting::put;
use cm_base::{PackageId, Place, Version, write_decimal};
use cm_disk::Form;

/// The form of the places of manifests: `DataLib/`, the package, `.` and the version in decimal.
pub(crate) struct ManifestPlace;

impl Form for ManifestPlace {
    ghost use Rattle.cm_datalib.specs.Places.{manifest_place, is_manifest_place};

    type Named = (PackageId, Version);

    ghost is_form = { is_manifest_place };

    ghost place_of = { λ named. manifest_place named.0 named.1 };

    fn folder() -> Place {
        folder_place()
    }

    fn place(named: (PackageId, Version)) -> Place {
        manifest_at(named.0, named.1)
    }

    fn named(place: &Place) -> Option<(PackageId, Version)> {
        version_at(place)
    }

    fn is_past(place: &Place) -> bool {
        is_behind(place)
    }
}

// The folder, below the places of all manifests.
fn folder_place() -> Place
    ensures { result ≡ folder }
{
    match Place::read(b"DataLib/") {
        Some(place) => place,
        None => unreachable!(),
    }
}

// Whether a place is behind the folder.
fn is_behind(place: &Place) -> bool
    ensures { result ≡ is_above (Some folder_end) place.now }
{
    match Place::read(b"DataLib0") {
        Some(end) => end < *place,
        None => unreachable!(),
    }
}

/// The place of the manifest of a version.
pub(crate) fn manifest_at(id: PackageId, version: Version) -> Place
    ensures { result ≡ manifest_place id version }
{
    let mut digits = [0u8; 10];
    let start = write_decimal(version.number(), &mut digits);
    let mut text = [0u8; 27];
    let id_at = put(&mut text, 0, b"DataLib/");
    let point_at = put(&mut text, id_at, id.as_bytes());
    let number_at = put(&mut text, point_at, b".");
    let end = put(&mut text, number_at, &digits[start..]);
    match Place::read(&text[..end]) {
        Some(place) => place,
        None => unreachable!(),
    }
}

// The number that a text spells, where it is spelled with no zero in front.
fn number_in(text: &[u8]) -> Option<u32>
    ensures { (number : ℕ) → number < 2 ^ 32 → text.now ≡ decimal number → result ≡ Some number }
{
    match std::str::from_utf8(text) {
        Ok(digits) => match digits.parse::<u32>() {
            Ok(number) => Some(number),
            Err(_) => None,
        },
        Err(_) => None,
    }
}

/// The version whose manifest has this place. None exactly where it is no place of a manifest.
pub fn version_at(place: &Place) -> Option<(PackageId, Version)>
    ensures { result ≡ version_named place.now }
{
    let bytes = place.as_bytes();
    if bytes.len() < 18 {
        return None;
    }
    let Some(id) = PackageId::read(&bytes[8..16]) else {
        return None;
    };
    let Some(number) = number_in(&bytes[17..]) else {
        return None;
    };
    let Some(version) = Version::new(number) else {
        return None;
    };
    if manifest_at(id, version) == *place {
        Some((id, version))
    } else {
        None
    }
}
