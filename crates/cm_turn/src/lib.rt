//! A turnstile hands one value from seat to seat. The value stands for a list: its Start, then entries. Each seat knows which entries are its own.
#![tactic(auto)]

mod rule;
mod seat;
mod steps;
mod told;
mod turnstile;

pub use rule::View;
pub use seat::Seat;
pub use told::{Told, Work};
pub use turnstile::Turnstile;
