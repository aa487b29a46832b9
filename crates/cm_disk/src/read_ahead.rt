//! Places ahead of a walk, so that not each of its steps searches the tree.
ghost use Rattle.std.specs.Prelude.{◌≡◌, [], IfSome, slice_get};
ghost use Rattle.cm_disk.specs.Rows.{IsBehind};

use cm_base::Place;
use std::alloc::Global;

// At most so many places are read at once.
const MOST: usize = 64;

/// Places that are there, each the next one after that before it.
#[derive(Drop)]
pub struct ReadAhead {
    pub places: Vec<Place>,
    // Which of them was given last.
    pub at: usize,
}

impl ReadAhead {
    pub(crate) fn new(alloc: Global) -> ReadAhead
        ensures { result.places.items ≡ [] }
    {
        ReadAhead {
            places: Vec::new(alloc),
            at: 0,
        }
    }

    // Forgets them.
    pub(crate) fn clear(&mut self)
        ensures { self.new.places.items ≡ [] }
    {
        self.places.clear();
    }

    // The place behind the one that was given last, if it was read.
    pub(crate) fn step(&mut self, after: &Place) -> Option<Place>
        ensures places { self.new.places ≡ self.old.places }
        ensures next { IfSome result (λ next. IsBehind self.old.places.items after.now next) }
    {
        let Some(last) = self.place_at(self.at) else {
            return None;
        };
        if last != *after {
            return None;
        }
        let behind = self.place_at(self.at + 1);
        if behind.is_some() {
            self.at += 1;
        }
        behind
    }

    fn place_at(&self, i: usize) -> Option<Place>
        ensures { result ≡ slice_get self.now.places.items i }
    {
        self.places.get(i).copied()
    }

    // How many to read: twice as many as before where a walk has come to their end.
    pub(crate) fn many(&self, after: Option<&Place>) -> usize {
        let Some(after) = after else {
            return 1;
        };
        let Some(last) = self.places.last() else {
            return 1;
        };
        if last != after {
            return 1;
        }
        (2 * self.places.len()).min(MOST)
    }
}
