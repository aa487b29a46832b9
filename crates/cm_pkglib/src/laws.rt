//! Laws of the definitions, proved.
ghost use Rattle.cm_pkglib.specs.Laws.{ReplayStaysValid, ReplayInParts, RecordsAreRead, SpellingsAreOwn, SealedAreNamed};

/// What changes make of a library's rows keeps the limits and the order of rows.
pub fn replay_stays_valid()
    ensures { ReplayStaysValid }
{}

/// Changes may be replayed in two parts.
pub fn replay_goes_in_parts()
    ensures { ReplayInParts }
{}

/// Bytes are read as a change exactly where they are its record, and what was written is read again.
pub fn records_are_read()
    ensures { RecordsAreRead }
{}

/// A change has one spelling, no other change has it, and none is a proper prefix of another.
pub fn spellings_are_own()
    ensures { SpellingsAreOwn }
{}

/// What is sealed is named.
pub fn sealed_are_named()
    ensures { SealedAreNamed }
{}
