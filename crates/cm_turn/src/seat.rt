//! A seat of a turnstile.
use crate::rule::View;
use crate::told::Told;
use std::marker::Model;

pub(crate) type Place<T> = atomic_table::Seat<
    Option<T>,
    View<<T as Told>::Start, <T as Told>::Entry>,
>;

/// A seat of a turnstile. It holds no turn, and has at least one of the turnstile's 64 parts.
///
/// It is not `Drop`: it can only be joined to another seat or handed to `close`, so a seat that is forgotten does not
/// compile. Contracts see which turnstile it is of, and what it knows.
pub struct Seat<T: Told> {
    pub(crate) place: Place<T>,
}

impl<T: Told> Model for Seat<T> {
    ghost use Rattle.std.specs.Prelude.{◌≡◌, [], ◌<◌, None};
    ghost use Rattle.cm_turn.specs.Lists.{IsOrdered};
    ghost use Rattle.cm_turn.specs.Seated.{Seated};

    ghost Value = { Seated T.Start T.Entry };

    ghost view = { λ s. record { at = s.place.table_id; view = s.place.me.0 } };

    ghost invariant = { λ s. (s.place.me.1 ≡ []) × (s.place.me.0.turn ≡ None) × (0 < s.place.me.0.parts) × IsOrdered 0 s.place.me.0.own };
}
