//! The laws of a live log's bytes, and of a log at rest.
ghost use Rattle.cm_log.specs.Laws.{RecordsAreRead, IsSameInEachImage};

use crate::shelf::Shelf;
use cm_disk::Disk;

/// A file that spells records is read as these and no others, and what is read as closed records spells them.
pub fn records_are_read()
    ensures { RecordsAreRead }
{}

/// A log at rest is the same in each image.
pub fn rests_in_each_image<D: Disk>(disk: &D, shelf: Shelf)
    ensures { IsSameInEachImage shelf (D.may_leave disk.now) }
{}
