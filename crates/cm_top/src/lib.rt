//! The command line of the program: its words, the texts that it prints, and its statuses.
#![tactic(auto)]

mod ended;
mod fault;
mod line;
mod running;
mod say;
mod show;
mod texts;
mod words;

pub use cm_site::{Bay, Refusal, Reply};
pub use ended::Ended;
pub use fault::WordsFault;
pub use line::Line;
pub use running::run;
pub use words::{numbers_are_their_digits, read_words};
