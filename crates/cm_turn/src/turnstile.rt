//! The turnstile.
ghost use Rattle.std.specs.Prelude.{◌≡◌, [], MatchResult, ◌<◌};
ghost use Rattle.cm_turn.specs.Lists.{IsInterleaving};
ghost use Rattle.cm_turn.specs.Views.{first_view, view_after_split, newcomer, view_after_join};
ghost use Rattle.cm_turn.specs.Turns.{Turned, Closes};

use crate::rule::{OneList, View};
use crate::seat::Seat;
use crate::told::{Told, Work};
use atomic_table::{Refused, Table};
use std::alloc::{AllocError, AllocFailed, Global};
use std::marker::Model;
use std::snapshot::Snapshot;
use std::sync::Wait;

/// One slot with a value, which passes from seat to seat, and one word: twice the number of entries, plus 1 while a
/// seat holds the turn.
///
/// It is not `Drop`: it can only be closed, which gives the value back.
pub struct Turnstile<T: Told> {
    pub(crate) table: Table<Option<T>, View<T::Start, T::Entry>, Snapshot<T>, OneList, Global>,
}

impl<T: Told> Model for Turnstile<T> {
    ghost use Rattle.std.specs.Prelude.{◌≡◌};
    ghost use Rattle.atomic_table.specs.Seated.{TableId};

    ghost Value = { TableId };

    ghost view = { λ t. t.table.shared.table_id };

    ghost invariant = { λ t. (t.table.shared.table_id.words ≡ 1) × (t.table.shared.table_id.slots ≡ 1) };
}

impl<T: Told> Turnstile<T> {
    /// A turnstile with a value that has no entries yet, and its first seat, which has all 64 parts.
    ///
    /// # Errors
    ///
    /// Where memory runs out, with the value.
    pub fn new(alloc: Global, value: T) -> Result<(Turnstile<T>, Seat<T>), (T, AllocError)>
        requires empty { T.told value ≡ [] }
        ensures { MatchResult result (λ t. (t.1.at ≡ t.0) × (t.1.view ≡ first_view (T.start value))) (λ e. e.0 ≡ value) }
    {
        let about = Snapshot::of(&value);
        let mut slots = Vec::new(alloc);
        if let Err(failed) = slots.push(Some(value)) {
            let AllocFailed { value } = failed;
            slots.destroy_empty();
            let Some(value) = value else { unreachable!() };
            return Err((value, AllocError));
        }
        match Table::new(alloc, &[0], slots, &about) {
            Ok((table, place)) => Ok((Turnstile { table }, Seat { place })),
            Err(Refused { mut slots }) => {
                let Some(Some(value)) = slots.pop() else {
                    unreachable!()
                };
                slots.destroy_empty();
                Err((value, AllocError))
            }
        }
    }

    /// Waits for the turn, works on the value, and gives the turn back. The answer is the work's.
    pub fn turn<W: Work<T>, R: Wait>(&self, rt: &R, seat: &mut Seat<T>, work: W) -> W::Answer
        requires here { seat.old.at ≡ self.now }
        ensures here { seat.new.at ≡ seat.old.at }
        ensures turned { Turned T.start T.told seat.old.view seat.new.view (λ before after. W.gives work before after result) }
    {
        let mut value = self.take(rt, &mut seat.place);
        let answer = work.work(&mut value);
        self.give(&mut seat.place, value);
        answer
    }

    /// One part passes to a new seat, which has seen as much and has no entries of its own. Takes no memory.
    pub fn split(&self, seat: &mut Seat<T>) -> Seat<T>
        requires here { seat.old.at ≡ self.now }
        requires parts { 1 < seat.old.view.parts }
        ensures here { (seat.new.at ≡ seat.old.at) × (result.at ≡ seat.old.at) }
        ensures kept { seat.new.view ≡ view_after_split seat.old.view }
        ensures passed { result.view ≡ newcomer seat.old.view }
    {
        Seat {
            place: self.split_off(&mut seat.place),
        }
    }

    /// The seat takes over all that the other has: its parts, its own entries, and what it had seen. Takes no memory.
    pub fn join(&self, seat: &mut Seat<T>, other: Seat<T>)
        requires here { (seat.old.at ≡ self.now) × (other.at ≡ self.now) }
        ensures here { seat.new.at ≡ seat.old.at }
        ensures joined { seat.new.view ≡ view_after_join seat.old.view other.view }
        ensures own { IsInterleaving seat.old.view.own other.view.own seat.new.view.own }
    {
        let Seat { place } = other;
        self.take_over(&mut seat.place, place);
    }

    /// The value, where the seat has all 64 parts, as it has once all other seats were joined.
    pub fn close(self, seat: Seat<T>) -> T
        requires here { seat.at ≡ self }
        requires parts { seat.view.parts ≡ 64 }
        ensures { Closes T.start T.told seat.view result }
    {
        let Turnstile { table } = self;
        let Seat { place } = seat;
        let mut closed = table.close_with(place);
        let Some(value) = closed.take(0) else {
            unreachable!()
        };
        closed.free();
        value
    }
}
