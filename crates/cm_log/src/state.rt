//! Where a log ends.
ghost use Rattle.std.specs.Prelude.{◌^◌, ◌<◌, ◌≤◌};

use crate::shelf::Shelf;
use cm_base::Place;

/// A live log on its disk. It holds no bytes of it.
#[derive(Drop)]
pub struct Log {
    pub(crate) shelf: Shelf,
    pub(crate) place: Place,
    // The place of the closed gate, and where it is if the record of a failed append is there.
    pub(crate) end: u64,
    pub(crate) end_with: u64,
    pub(crate) number: u64,
    ghost end_in_range: { end ≤ end_with },
    ghost end_with_in_range: { end_with < 2 ^ 41 },
    ghost number_in_range: { number ≤ end },
}
