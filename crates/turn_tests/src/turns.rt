//! One turn on a tally, as the seat that takes it knows it.
ghost use Rattle.std.specs.Prelude.{◌≡◌, [], ◌∷◌, ◌++◌, MatchResult, slice_get};

use crate::tally::{Add, At, Entry, Tally};
use cm_turn::{Seat, Turnstile};
use std::alloc::AllocError;
use std::sync::Wait;

/// Adds an entry in one turn. It stands at the place that is answered, and is the seat's own. An Err adds none.
///
/// # Errors
///
/// Where memory runs out.
pub fn add<R: Wait>(
    rt: &R,
    turnstile: &Turnstile<Tally>,
    seat: &mut Seat<Tally>,
    entry: Entry,
) -> Result<u64, AllocError>
    requires here { seat.old.at ≡ turnstile.now }
    ensures here { seat.new.at ≡ seat.old.at }
    ensures parts { seat.new.view.parts ≡ seat.old.view.parts }
    ensures own { MatchResult result (λ place. seat.new.view.own ≡ seat.old.view.own ++ (place, entry) ∷ []) (λ _. seat.new.view.own ≡ seat.old.view.own) }
{
    turnstile.turn(rt, seat, Add { entry })
}

/// The entry at a place, by one turn: that of the list which the seat has then seen.
pub fn at<R: Wait>(
    rt: &R,
    turnstile: &Turnstile<Tally>,
    seat: &mut Seat<Tally>,
    place: u64,
) -> Option<Entry>
    requires here { seat.old.at ≡ turnstile.now }
    ensures here { seat.new.at ≡ seat.old.at }
    ensures parts { seat.new.view.parts ≡ seat.old.view.parts }
    ensures own { seat.new.view.own ≡ seat.old.view.own }
    ensures shown { result ≡ slice_get seat.new.view.seen place }
{
    turnstile.turn(rt, seat, At { place })
}
