//! What is known of records, for proofs alone.
ghost use Rattle.cm_records.specs.Laws.{LawsBelow};

use cm_register::{a_topology_more_is_read, named_are_numbered, the_log_and_its_texts_decide};
use cm_textlib::numbers_have_their_own_places;

/// Says, to proofs alone, what is known of records and of their places.
pub(crate) fn show_laws()
    ensures { LawsBelow }
{
    the_log_and_its_texts_decide();
    a_topology_more_is_read();
    named_are_numbered();
    numbers_have_their_own_places();
}
