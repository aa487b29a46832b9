//! Laws of the definitions, proved.
ghost use Rattle.cm_notes.specs.Laws.{NotesAreRead, SpellingsAreOwn};

/// Bytes are read as a note exactly where they are its record, and what was written is read again.
pub fn notes_are_read()
    ensures { NotesAreRead }
{}

/// A note has one spelling, no other note has it, and none is a proper prefix of another.
pub fn spellings_are_own()
    ensures { SpellingsAreOwn }
{}
