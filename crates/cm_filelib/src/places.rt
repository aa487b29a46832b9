//! The places of files.
ghost use Rattle.std.specs.Prelude.{◌≡◌, Some, option_map};
ghost use Rattle.cm_disk.specs.Disk.{is_above};
ghost use Rattle.cm_filelib.specs.Places.{folder_end, file_place, hash_named};

use cm_base::{Hash, Place};
use cm_disk::Form;

/// The form of the places of files: `FileLib/` and the 64 digits of the hash.
pub(crate) struct FilePlace;

impl Form for FilePlace {
    ghost use Rattle.cm_filelib.specs.Places.{file_place, is_file_place};

    type Named = Hash;

    ghost is_form = { is_file_place };

    ghost place_of = { λ hash. file_place hash.0 };

    fn folder() -> Place {
        match Place::read(b"FileLib/") {
            Some(place) => place,
            None => unreachable!(),
        }
    }

    fn place(hash: Hash) -> Place {
        file_at(hash)
    }

    fn named(place: &Place) -> Option<Hash> {
        hash_at(place)
    }

    fn is_past(place: &Place) -> bool {
        is_behind(place)
    }
}

// Whether a place is behind the folder.
fn is_behind(place: &Place) -> bool
    ensures { result ≡ is_above (Some folder_end) place.now }
{
    match Place::read(b"FileLib0") {
        Some(end) => end < *place,
        None => unreachable!(),
    }
}

/// The place of the file of a hash.
pub(crate) fn file_at(hash: Hash) -> Place
    ensures { result ≡ file_place hash.0 }
{
    let mut digits = [0u8; 64];
    hash.write(&mut digits);
    let mut text = [0u8; 72];
    text[..8].copy_from_slice(b"FileLib/");
    text[8..].copy_from_slice(&digits);
    match Place::read(&text) {
        Some(place) => place,
        None => unreachable!(),
    }
}

/// The hash whose file has this place. None exactly where it is no place of a file.
pub fn hash_at(place: &Place) -> Option<Hash>
    ensures { option_map (λ hash. hash.0) result ≡ hash_named place.now }
{
    let bytes = place.as_bytes();
    if bytes.len() < 8 || &bytes[..8] != b"FileLib/".as_slice() {
        return None;
    }
    Hash::read(&bytes[8..])
}
