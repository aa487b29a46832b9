//! The places of a disk in memory, in byte order.
ghost use Rattle.std.specs.Prelude.{◌≡◌, ◌++◌, ◌∷◌, [], List, ℕ, true, None, IfSome};
ghost use Rattle.std.specs.Option.{option_copied, option_to_list};
ghost use Rattle.cm_disk.specs.Disk.{is_above, IsNext};
ghost use Rattle.cm_disk.specs.Rows.{InRow, there_of};
ghost use Rattle.cm_disk.specs.Slots.{stand_in, bound_above};

use crate::calls::Slot;
use cm_base::Place;
use std::collections::BTreeMap;
use std::collections::btree_map::Range;
use std::ops::Bound;

pub(crate) fn stands_above(after: Option<&Place>, place: &Place) -> bool
    ensures { result ≡ is_above (option_copied after.entry) place.now }
{
    match after {
        Some(after) => after < place,
        None => true,
    }
}

/// The first place above another that is there. It and those behind it are read into `places`, at most so many of
/// them, and as memory allows.
pub(crate) fn first_after(
    slots: &BTreeMap<Place, Slot>,
    after: Option<&Place>,
    many: usize,
    places: &mut Vec<Place>,
) -> Option<Place>
    ensures above { IfSome result (λ next. is_above (option_copied after.entry) next ≡ true) }
    ensures least { IsNext (λ q. (stand_in slots.now q).now) (option_copied after.entry) result }
    ensures row { InRow (λ q. (stand_in slots.now q).now) places.new.items }
{
    places.clear();
    let mut kept = slots.range((bound_above(after), Bound::Unbounded));
    let Some(first) = next_there(&mut kept) else {
        return None;
    };
    read_more(&mut kept, first, many, places);
    Some(first)
}

// The next of what is kept of which a file is there.
fn next_there(kept: &mut Range<'_, Place, Slot>) -> Option<Place>
    ensures next { there_of kept.old ≡ option_to_list result ++ there_of kept.new }
    ensures none { result ≡ None → there_of kept.old ≡ [] }
{
    while let Some((place, slot)) = kept.next() {
        if slot.file.is_some() {
            return Some(*place);
        }
    }
    None
}

// Reads a place and those behind it.
fn read_more(kept: &mut Range<'_, Place, Slot>, first: Place, many: usize, places: &mut Vec<Place>)
    requires { places.old.items ≡ [] }
    ensures { (behind : List (List ℕ)) × (first ∷ there_of kept.old ≡ places.new.items ++ behind) }
{
    if places.push(first).is_err() {
        return;
    }
    for _ in 1..many {
        let Some(place) = next_there(kept) else {
            return;
        };
        if places.push(place).is_err() {
            return;
        }
    }
}

fn bound_above(after: Option<&Place>) -> Bound<Place>
    ensures { result ≡ bound_above (option_copied after.entry) }
{
    match after {
        Some(after) => Bound::Excluded(*after),
        None => Bound::Unbounded,
    }
}
