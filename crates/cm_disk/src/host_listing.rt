//! The places below a folder of the host, in byte order.
ghost use Rattle.std.specs.Prelude.{◌≡◌, true, IfSome};
ghost use Rattle.std.specs.Option.{option_copied};
ghost use Rattle.cm_disk.specs.Disk.{is_above};

use crate::places::stands_above;
use cm_base::Place;
use std::collections::BTreeSet;
use std::ops::Bound;
use std::rt::Files;
use std::{fs, io};

// A place of 120 bytes has at most 59 folders above it.
const LEVELS: u32 = 60;

/// All places below a folder, none where it is absent. Names that are no place are passed over: those that are no
/// UTF-8 text or too long, and what is neither a file nor a folder.
pub(crate) fn listed<R: Files + AllocGlobal + Clone + Drop>(
    rt: &R,
    folder: &str,
) -> io::Result<BTreeSet<Place>> {
    let mut places = BTreeSet::new(rt.alloc());
    let mut level = Vec::new(rt.alloc());
    level.push(String::new(rt.alloc()))?;
    for _ in 0..LEVELS {
        let mut below = Vec::new(rt.alloc());
        for prefix in &level {
            list_one(rt, folder, prefix.as_str(), &mut places, &mut below)?;
        }
        level = below;
        if level.is_empty() {
            break;
        }
    }
    Ok(places)
}

// The places right in one folder, and the folders there.
fn list_one<R: Files + AllocGlobal + Clone + Drop>(
    rt: &R,
    folder: &str,
    prefix: &str,
    places: &mut BTreeSet<Place>,
    below: &mut Vec<String>,
) -> io::Result<()> {
    let path = joined(rt, folder, prefix)?;
    let entries = match fs::read_dir(rt, path.as_str()) {
        Ok(entries) => entries,
        Err(e) if e.kind() == io::ErrorKind::NotFound => return Ok(()),
        Err(e) => return Err(e),
    };
    for entry in entries {
        let entry = match entry {
            Ok(entry) => entry,
            Err(e) if e.kind() == io::ErrorKind::InvalidFilename => continue,
            Err(e) => return Err(e),
        };
        let about = entry.metadata()?;
        let mut name = String::from_str(rt.alloc(), prefix)?;
        name.push_str(entry.file_name())?;
        if about.is_dir() {
            name.push('/')?;
            below.push(name)?;
        } else if about.is_file()
            && let Some(place) = Place::read(name.as_bytes())
        {
            places.insert(place)?;
        }
    }
    Ok(())
}

/// The path of what a name names below a folder.
pub(crate) fn joined<R: AllocGlobal>(rt: &R, folder: &str, name: &str) -> io::Result<String> {
    let mut path = String::from_str(rt.alloc(), folder)?;
    if !folder.ends_with('/') {
        path.push('/')?;
    }
    path.push_str(name)?;
    Ok(path)
}

/// The first of the places that is above another.
pub(crate) fn next_of(places: &BTreeSet<Place>, after: Option<&Place>) -> Option<Place>
    ensures { IfSome result (λ next. is_above (option_copied after.entry) next ≡ true) }
{
    let from = match after {
        Some(after) => Bound::Excluded(*after),
        None => Bound::Unbounded,
    };
    for place in places.range((from, Bound::Unbounded)) {
        if stands_above(after, place) {
            return Some(*place);
        }
    }
    None
}
