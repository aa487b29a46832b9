//! The places of a log.
ghost use Rattle.std.specs.Prelude.{◌≡◌};
ghost use Rattle.cm_log.specs.Shelves.{ready_place, log_place};

use cm_base::Place;

/// Whose log it is: a library's or the site's.
#[derive(Clone, Copy, Debug, PartialEq, Eq)]
pub enum Shelf {
    PkgLib,
    Site,
}

/// One of the two logs of a shelf.
#[derive(Clone, Copy, Debug, PartialEq, Eq)]
pub enum Side {
    First,
    Second,
}

/// The place whose presence says that both logs were made.
pub(crate) fn ready_at(shelf: Shelf) -> Place
    ensures { result ≡ ready_place shelf }
{
    let place = match shelf {
        Shelf::PkgLib => Place::read(b"PkgLib/ready"),
        Shelf::Site => Place::read(b"Site/ready"),
    };
    match place {
        Some(place) => place,
        None => unreachable!(),
    }
}

/// The place of one of the logs.
pub(crate) fn log_at(shelf: Shelf, side: Side) -> Place
    ensures { result ≡ log_place shelf side }
{
    let place = match (shelf, side) {
        (Shelf::PkgLib, Side::First) => Place::read(b"PkgLib/log.0"),
        (Shelf::PkgLib, Side::Second) => Place::read(b"PkgLib/log.1"),
        (Shelf::Site, Side::First) => Place::read(b"Site/log.0"),
        (Shelf::Site, Side::Second) => Place::read(b"Site/log.1"),
    };
    match place {
        Some(place) => place,
        None => unreachable!(),
    }
}
