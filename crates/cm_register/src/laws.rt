//! Laws of the definitions, proved.
ghost use Rattle.cm_register.specs.Laws.{LooksSame, LookGoesOn, NamedAreNumbered, NewIsEmpty};

/// Files with the same log and the same texts are the same records.
pub fn the_log_and_its_texts_decide()
    ensures { LooksSame }
{}

/// A record more of a topology makes of records what it says.
pub fn a_topology_more_is_read()
    ensures { LookGoesOn }
{}

/// The records' number is the greatest that a record names.
pub fn named_are_numbered()
    ensures { NamedAreNumbered }
{}

/// A new log has no records.
pub fn a_new_log_is_empty()
    ensures { NewIsEmpty }
{}
