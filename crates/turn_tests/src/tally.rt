//! A value that counts its entries.
ghost use Rattle.std.specs.Prelude.{◌≡◌, ◌≤◌, ◌^◌, [], ◌∷◌, ◌++◌, vec_len, MatchResult};

use cm_turn::{Told, Work};
use std::alloc::{AllocError, Global};

/// What one turn adds: who adds it, and which of its entries it is.
#[derive(Clone, Copy, Debug, PartialEq, Eq)]
pub struct Entry {
    pub worker: u64,
    pub number: u64,
}

/// A name, and entries. The count is kept beside them.
#[derive(Drop)]
pub struct Tally {
    name: u64,
    told: Vec<Entry>,
    count: u64,
    ghost counted: { count ≡ vec_len told },
    ghost bounded: { count ≤ 2 ^ 62 },
}

impl Tally {
    /// A tally without entries.
    pub fn new(alloc: Global, name: u64) -> Tally
        ensures { (result.name ≡ name) × (result.told.items ≡ []) }
    {
        Tally {
            name,
            told: Vec::new(alloc),
            count: 0,
        }
    }

    /// The name it was made with.
    pub fn name(&self) -> u64
        ensures { result ≡ self.now.name }
    {
        self.name
    }

    /// Its entries, the oldest first.
    pub fn told(&self) -> &[Entry]
        ensures { result.now ≡ self.now.told.items }
    {
        &self.told
    }

    // The place of the entry that was added. An Err is want of memory, or of room.
    fn add(&mut self, entry: Entry) -> Result<u64, AllocError>
        ensures name { self.new.name ≡ self.old.name }
        ensures told { MatchResult result
            (λ place. (place ≡ vec_len self.old.told) × (self.new.told.items ≡ self.old.told.items ++ entry ∷ []))
            (λ _. self.new.told.items ≡ self.old.told.items) }
    {
        if self.count == 1 << 62 {
            return Err(AllocError);
        }
        self.told.push(entry)?;
        let place = self.count;
        self.count += 1;
        Ok(place)
    }
}

impl Told for Tally {
    type Start = u64;

    type Entry = Entry;

    ghost start = { λ s. s.name };

    ghost told = { λ s. s.told.items };

    fn bounded(&self) -> u64 {
        self.count
    }
}

/// Adds an entry. The answer is its place, or want of memory: then none is added.
#[derive(Drop)]
pub struct Add {
    pub entry: Entry,
}

impl Work<Tally> for Add {
    type Answer = Result<u64, AllocError>;

    ghost use Rattle.std.specs.Prelude.{◌≡◌, MatchResult, [], ◌∷◌, ◌++◌, vec_len};

    ghost gives = { λ w before after answer. MatchResult answer
        (λ place. (place ≡ vec_len before.told) × (after.told.items ≡ before.told.items ++ w.entry ∷ []))
        (λ _. after.told.items ≡ before.told.items) };

    fn work(self, value: &mut Tally) -> Result<u64, AllocError> {
        value.add(self.entry)
    }
}

/// Reads the entry at a place. It adds none.
#[derive(Drop)]
pub struct At {
    pub place: u64,
}

impl Work<Tally> for At {
    type Answer = Option<Entry>;

    ghost use Rattle.std.specs.Prelude.{◌≡◌, slice_get};

    ghost gives = { λ w before after answer. (answer ≡ slice_get before.told.items w.place) × (after.told.items ≡ before.told.items) };

    fn work(self, value: &mut Tally) -> Option<Entry> {
        value.told.get(self.place as usize).copied()
    }
}
