//! The rule of a turnstile, what a seat knows, and the kinds of step.
ghost use Rattle.std.specs.Prelude.{List};

use crate::told::Told;
use atomic_table::{Join, Play, Split, TableRule};
use std::collections::LinkedList;
use std::snapshot::Snapshot;

/// What a seat knows. No value of it is made: it is what proofs say of a seat.
pub struct View<S, E> {
    /// Of the turnstile's 64 parts. 0 where the seat is spent.
    pub parts: u64,
    /// The Start of the value. None where the seat is spent.
    pub start: Option<S>,
    /// The seat's own entries, each with its place in the list, by rising place.
    pub own: LinkedList<(u64, E)>,
    /// The entries of the list that the seat has seen.
    pub seen: LinkedList<E>,
    /// What this seat and those joined into it had seen when they were joined.
    pub old: LinkedList<LinkedList<E>>,
    /// While the seat holds the turn, the list of the value that it took.
    pub turn: Option<LinkedList<E>>,
}

/// There is one list, and each of its entries is the own entry of one seat.
pub(crate) struct OneList;

impl<T: Told> TableRule<Option<T>, View<T::Start, T::Entry>, Snapshot<T>> for OneList {
    ghost use Rattle.cm_turn.specs.Rule.{KeepsRule};
    ghost use Rattle.cm_turn.specs.Views.{first_view};

    ghost holds = { λ key. KeepsRule T.start T.told (T.start key.value) };

    ghost first = { λ key. first_view (T.start key.value) };
}

/// A seat takes the turn, or finds another word and changes nothing.
pub(crate) struct TakesTurn;

impl<T: Told> Play<Option<T>, View<T::Start, T::Entry>> for TakesTurn {
    ghost use Rattle.cm_turn.specs.Turns.{Takes};

    ghost then = { Takes T.start T.told };
}

/// A seat gives the turn back, with its entry or without one.
pub(crate) struct GivesBack;

impl<T: Told> Play<Option<T>, View<T::Start, T::Entry>> for GivesBack {
    ghost use Rattle.cm_turn.specs.Turns.{GivesTurn};

    ghost then = { GivesTurn T.told };
}

/// One part passes to a new seat.
pub(crate) struct OnePart;

impl<S, E> Split<View<S, E>> for OnePart {
    ghost use Rattle.cm_turn.specs.Views.{view_after_split, newcomer};

    ghost left = { view_after_split };

    ghost right = { newcomer };
}

/// A seat takes over all that another has.
pub(crate) struct AllParts;

impl<S, E> Join<View<S, E>> for AllParts {
    ghost use Rattle.cm_turn.specs.Views.{view_after_join, spent_view};

    ghost both = { view_after_join };

    ghost spent = { spent_view };
}
