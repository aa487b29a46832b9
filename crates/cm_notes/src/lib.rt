//! The records of a site's log as bytes.
#![tactic(auto)]

mod decode;
mod encode;
mod laws;
mod note;
mod to;

pub use laws::{notes_are_read, spellings_are_own};
pub use note::Note;
pub use to::To;
