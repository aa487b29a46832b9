//! The steps of a turnstile.
ghost use Rattle.std.specs.Prelude.{◌≡◌, [], ◌∷◌, ◌++◌, List, None, Some, MatchBool, ◌<◌, ◌%◌, ◌-◌, ◌^◌};
ghost use Rattle.cm_turn.specs.Lists.{IsInterleaving, IsOrdered};
ghost use Rattle.cm_turn.specs.Views.{view_after_split, newcomer, view_after_join, view_at_turn, view_after_turn};
ghost use Rattle.cm_turn.specs.Turns.{Holds, Took};

use crate::rule::{AllParts, GivesBack, OnePart, TakesTurn};
use crate::seat::Place;
use crate::told::Told;
use crate::turnstile::Turnstile;
use std::hint;
use std::sync::Wait;

/// How often a thread looks whether the turn is free before it sleeps.
const LOOKS: u32 = 100;

impl<T: Told> Turnstile<T> {
    // Tries once to take the turn, where the word is the one given.
    fn try_take(&self, place: &mut Place<T>, word: u64) -> bool
        requires word { (word % 2 ≡ 0) × (word < 2 ^ 64 - 1) }
        requires here { place.old.table_id ≡ self.now }
        requires idle { (place.old.me.1 ≡ []) × (0 < place.old.me.0.parts) }
        ensures here { place.new.table_id ≡ place.old.table_id }
        ensures took { MatchBool result (Took T.start T.told place.old.me place.new.me) (place.new.me ≡ place.old.me) }
    {
        let found = self
            .table
            .shared
            .compare_exchange::<TakesTurn>(place, 0, word, word + 1);
        found == word
    }

    // The word as it was last found: even as soon as the turn is free, odd after so many looks.
    fn look(&self) -> u64 {
        for _ in 0..LOOKS {
            let word = self.table.shared.peek(0);
            if word % 2 == 0 {
                return word;
            }
            hint::spin_loop();
        }
        self.table.shared.peek(0)
    }

    /// Takes the turn, and the value out of the slot. Waits while another seat holds the turn.
    pub(crate) fn take<R: Wait>(&self, rt: &R, place: &mut Place<T>) -> T
        requires here { place.old.table_id ≡ self.now }
        requires idle { (place.old.me.1 ≡ []) × (0 < place.old.me.0.parts) }
        ensures here { place.new.table_id ≡ place.old.table_id }
        ensures took { (place.new.me ≡ (view_at_turn place.old.me.0 (T.told result), (0, None) ∷ [])) × Holds T.start T.told place.old.me.0 result }
    {
        for _ in rt.forever() {
            let word = self.look();
            if word % 2 == 1 {
                // Sleeps while the low 32 bits of the word are these.
                self.table.shared.park(rt, 0, (word % 4_294_967_296) as u32);
            } else if self.try_take(place, word) {
                let Some(value) = self.table.shared.exchange(place, 0, None) else {
                    unreachable!()
                };
                return value;
            }
        }
        unreachable!()
    }

    /// Puts the value into the slot, and gives the turn back.
    pub(crate) fn give(&self, place: &mut Place<T>, value: T)
        requires here { place.old.table_id ≡ self.now }
        requires turn { (place.old.me.1 ≡ (0, None) ∷ []) × (0 < place.old.me.0.parts) × (place.old.me.0.start ≡ Some (T.start value)) }
        requires more { (l : List T.Entry) × (more : List T.Entry) × (place.old.me.0.turn ≡ Some l) × (T.told value ≡ l ++ more) }
        ensures here { place.new.table_id ≡ place.old.table_id }
        ensures given { place.new.me ≡ (view_after_turn place.old.me.0 (T.told value), []) }
    {
        let count = value.bounded();
        let hole = self.table.shared.exchange(place, 0, Some(value));
        let None = hole else { unreachable!() };
        self.table.shared.store::<GivesBack>(place, 0, 2 * count);
        self.table.shared.wake_one(0);
    }

    /// One part passes to a new place.
    pub(crate) fn split_off(&self, place: &mut Place<T>) -> Place<T>
        requires here { place.old.table_id ≡ self.now }
        requires parts { 1 < place.old.me.0.parts }
        ensures here { (place.new.table_id ≡ place.old.table_id) × (result.table_id ≡ place.old.table_id) }
        ensures parts { (place.new.me ≡ (view_after_split place.old.me.0, place.old.me.1)) × (result.me ≡ (newcomer place.old.me.0, [])) }
    {
        self.table.shared.split_seat::<OnePart>(place)
    }

    /// The place takes over all that the other has.
    pub(crate) fn take_over(&self, place: &mut Place<T>, other: Place<T>)
        requires here { (place.old.table_id ≡ self.now) × (other.table_id ≡ self.now) }
        requires idle { (place.old.me.0.turn ≡ None) × (0 < place.old.me.0.parts) }
        requires other_idle { (other.me.1 ≡ []) × (other.me.0.turn ≡ None) × (0 < other.me.0.parts) }
        requires ordered { IsOrdered 0 place.old.me.0.own × IsOrdered 0 other.me.0.own }
        ensures here { place.new.table_id ≡ place.old.table_id }
        ensures joined { place.new.me ≡ (view_after_join place.old.me.0 other.me.0, place.old.me.1) }
        ensures own { IsOrdered 0 place.new.me.0.own × IsInterleaving place.old.me.0.own other.me.0.own place.new.me.0.own }
    {
        self.table.shared.join_seat::<AllParts>(place, other);
    }
}
