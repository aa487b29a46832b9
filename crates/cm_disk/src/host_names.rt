//! Places as names below a folder of the host.
ghost use Rattle.std.specs.Prelude.{◌≡◌, true, IfSome};
ghost use Rattle.cm_disk.specs.HostNames.{goes_down, stays_below};

use cm_base::Place;

/// The text of a place that names something below a folder. None where it is no UTF-8 text, or has a part, between
/// its slashes, that is empty, `.` or `..`: so no absolute path, and none that leaves the folder.
pub(crate) fn name_of(place: &Place) -> Option<&str>
    ensures same { IfSome result (λ name. name.now ≡ place.now) }
    ensures below { IfSome result (λ name. stays_below name.now ≡ true) }
{
    match std::str::from_utf8(place.as_bytes()) {
        Ok(name) if stays_below(name) => Some(name),
        _ => None,
    }
}

fn stays_below(path: &str) -> bool
    ensures { result ≡ stays_below path.now }
{
    path.split('/').all(|part| goes_down(part))
}

fn goes_down(part: &str) -> bool
    ensures { result ≡ goes_down part.now }
{
    !(part.is_empty() || part == "." || part == "..")
}

/// The path of the folder that holds what a path names.
pub(crate) fn parent_of(path: &str) -> &str {
    match path.rsplit_once('/') {
        None => ".",
        Some((parent, _)) if parent.is_empty() => "/",
        Some((parent, _)) => parent,
    }
}

/// A path without slashes at its end. `.` for an empty one, which would name the root.
pub(crate) fn trimmed(path: &str) -> &str {
    if path.is_empty() {
        return ".";
    }
    let bare = path.trim_end_matches('/');
    if bare.is_empty() { "/" } else { bare }
}
