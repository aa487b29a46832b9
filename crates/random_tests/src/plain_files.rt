//! A library as a plain list: the files that its jobs start.
use crate::plain::{Found, HASHES, MOST, Move, Place, Plain, true_size};
use cm_base::{FileHasher, Hash};
use library_cases::calls::Answer;

/// The bytes of the files, by the number of their hash.
const FILES: [&[u8]; 3] = [b"hello", b"abc", b""];

const UNKNOWN: Place = Place {
    found: Found::Unknown,
    is_durable: false,
    is_sealed: false,
};

// The SHA-256 of some bytes.
fn hash_of(bytes: &[u8]) -> Hash {
    let mut hasher = FileHasher::new();
    if bytes.len() <= 5 {
        hasher.feed(bytes);
    }
    hasher.done().1
}

fn first(bytes: &[u8], count: usize) -> &[u8] {
    let (taken, _) = bytes.split_at(count.min(bytes.len()));
    taken
}

/// So many bytes of a file behind its first ones, or as many as there are.
pub(crate) fn piece_of(hash: usize, count: usize, many: usize) -> &'static [u8] {
    let file: &'static [u8] = FILES[hash % 3];
    let (_, rest) = file.split_at(count.min(file.len()));
    let (piece, _) = rest.split_at(many.min(rest.len()));
    piece
}

// Bytes with others behind the first of them.
fn appended(bytes: [u8; 5], count: usize, more: &[u8]) -> Found {
    let mut all = bytes;
    let mut many = count;
    for byte in more {
        if many < 5 {
            all[many] = *byte;
            many += 1;
        }
    }
    Found::Bytes(all, many)
}

impl Plain {
    // The size of the first entry of a version with a hash.
    fn size_in(&self, at: usize, hash: usize) -> Option<u32> {
        for (named, size) in self.entries(at) {
            if *named == hash {
                return Some(*size);
            }
        }
        None
    }

    /// Whether a version with a job names a hash that is not sealed.
    pub(crate) fn wants(&self, at: usize, hash: usize) -> bool {
        self.slots[at % MOST].job != 0
            && self.size_in(at, hash % 3).is_some()
            && !self.places[hash % 3].is_sealed
    }

    // The other job that has started a hash.
    fn holder(&self, at: usize, hash: usize) -> Option<u64> {
        for other in 0..MOST {
            if other != at && self.slots[other].started == Some(hash) {
                return Some(self.slots[other].job);
            }
        }
        None
    }

    // The version of a job that wants a hash, and the size.
    fn wanting(&self, job: u64, hash: usize) -> Result<(usize, u32), Answer> {
        let Some(at) = self.at_job(job) else {
            return Err(Answer::NoJob);
        };
        match self.size_in(at, hash) {
            Some(size) => Ok((at % MOST, size)),
            None => Err(Answer::Unwanted(HASHES[hash % 3])),
        }
    }

    fn started(self, job: u64, hash: usize) -> (Plain, Answer) {
        let at = match self.wanting(job, hash) {
            Ok((at, _)) => at,
            Err(answer) => return (self, answer),
        };
        if self.places[hash % 3].is_sealed {
            return (self, Answer::Stored(HASHES[hash % 3]));
        }
        if let Some(other) = self.holder(at, hash) {
            return (self, Answer::HeldBy(HASHES[hash % 3], other));
        }
        let mut new = self;
        new.slots[at % MOST].started = Some(hash);
        new.places[hash % 3].found = Found::Bytes([0; 5], 0);
        new.places[hash % 3].is_durable = false;
        (new, Answer::Done)
    }

    fn put(self, job: u64, offset: u64, bytes: &[u8]) -> (Plain, Answer) {
        let Some(at) = self.at_job(job) else {
            return (self, Answer::NoJob);
        };
        let Some(hash) = self.slots[at % MOST].started else {
            return (self, Answer::NotStarted);
        };
        let Found::Bytes(had, count) = self.places[hash % 3].found else {
            return (self, Answer::Other);
        };
        let size = self.size_in(at, hash).unwrap_or(0);
        if offset != count as u64 {
            return (self, Answer::WrongOffset(count as u64));
        }
        if bytes.len() > (size as usize).saturating_sub(count) {
            return (self, Answer::TooLong(size));
        }
        let mut new = self;
        new.places[hash % 3].found = appended(had, count, bytes);
        new.places[hash % 3].is_durable = false;
        (new, Answer::Done)
    }

    // Whether a place has the file of its hash, where that has the size which is wanted.
    fn is_right(&self, hash: usize, size: u32) -> Option<bool> {
        match self.places[hash % 3].found {
            Found::Unknown => None,
            Found::Absent => Some(false),
            Found::Bytes(bytes, count) => {
                Some(size == true_size(hash) && first(bytes.as_slice(), count) == FILES[hash % 3])
            }
        }
    }

    fn sealed(self, job: u64) -> (Plain, Answer) {
        let Some(at) = self.at_job(job) else {
            return (self, Answer::NoJob);
        };
        let Some(hash) = self.slots[at % MOST].started else {
            return (self, Answer::NotStarted);
        };
        let mut new = self;
        new.slots[at % MOST].started = None;
        let size = self.size_in(at, hash).unwrap_or(0);
        if self.is_right(hash, size) == Some(true) {
            new.places[hash % 3].is_durable = true;
            new.places[hash % 3].is_sealed = true;
            return (new, Answer::Done);
        }
        let Found::Bytes(bytes, count) = self.places[hash % 3].found else {
            return (self, Answer::Other);
        };
        let got = hash_of(first(bytes.as_slice(), count));
        (
            new,
            Answer::WrongBytes(HASHES[hash % 3], size, got, count.min(5) as u32),
        )
    }

    fn salvaged(self, job: u64, hash: usize, is_told: bool) -> (Plain, Answer) {
        let (at, size) = match self.wanting(job, hash) {
            Ok(found) => found,
            Err(answer) => return (self, answer),
        };
        if let Some(other) = self.holder(at, hash) {
            return (self, Answer::HeldBy(HASHES[hash % 3], other));
        }
        if self.places[hash % 3].is_sealed {
            return (self, Answer::Is(true));
        }
        let new = self.given_up_if(at, hash);
        match self.is_right(hash, size) {
            Some(is) => (new.looked_at(hash, is), Answer::Is(is)),
            None => {
                let is = is_told && size == true_size(hash);
                (new.with_file(hash, is), Answer::Is(is))
            }
        }
    }

    // The version's job gives up its started file if it is of this hash.
    fn given_up_if(self, at: usize, hash: usize) -> Plain {
        let mut new = self;
        if self.slots[at % MOST].started == Some(hash) {
            new.slots[at % MOST].started = None;
        }
        new
    }

    fn looked_at(self, hash: usize, is_sealed: bool) -> Plain {
        let mut new = self;
        new.places[hash % 3].is_durable = true;
        new.places[hash % 3].is_sealed = is_sealed;
        new
    }

    // The place was not known, and was found to have the file or not.
    fn with_file(self, hash: usize, is: bool) -> Plain {
        if !is {
            return self;
        }
        let mut new = self;
        new.places[hash % 3].found = appended([0; 5], 0, FILES[hash % 3]);
        new.looked_at(hash, true)
    }

    fn wanted(&self, job: u64, after: Option<usize>) -> Answer {
        let Some(at) = self.at_job(job) else {
            return Answer::NoJob;
        };
        let from = match after {
            Some(hash) => hash % 3 + 1,
            None => 0,
        };
        for hash in from..3 {
            if let Some(size) = self.size_in(at, hash) {
                if !self.places[hash % 3].is_sealed {
                    return Answer::Wants(Some((HASHES[hash % 3], size)));
                }
            }
        }
        Answer::Wants(None)
    }

    fn given_up(self, job: u64) -> (Plain, Answer) {
        let Some(at) = self.at_job(job) else {
            return (self, Answer::Is(false));
        };
        let mut new = self;
        new.slots[at % MOST].started = None;
        (new, Answer::Is(self.slots[at % MOST].started.is_some()))
    }

    /// What a call on a job's files makes of it, and its answer.
    pub(crate) fn moved_file(self, next: Move, is_told: bool) -> (Plain, Answer) {
        match next {
            Move::Start(job, hash) => self.started(job, hash),
            Move::Put(job, offset, bytes) => self.put(job, offset, bytes),
            Move::Seal(job) => self.sealed(job),
            Move::Salvage(job, hash) => self.salvaged(job, hash, is_told),
            Move::Wanted(job, after) => (self, self.wanted(job, after)),
            Move::GiveUp(job) => self.given_up(job),
            _ => (self, Answer::Other),
        }
    }

    // The place of a hash may have anything.
    fn unknown(self, hash: Option<usize>) -> Plain {
        let mut new = self;
        if let Some(hash) = hash {
            new.places[hash % 3] = UNKNOWN;
        }
        new
    }

    /// What is left where the disk failed the call.
    pub(crate) fn failed(self, next: Move) -> Plain {
        match next {
            Move::Start(job, hash) => self.given_up(job).0.unknown(Some(hash)),
            Move::Put(job, _, _) => {
                let started = self
                    .at_job(job)
                    .and_then(|at| self.slots[at % MOST].started);
                self.given_up(job).0.unknown(started)
            }
            Move::Seal(job) | Move::Drop(job) => self.given_up(job).0,
            Move::Salvage(job, hash) => match self.at_job(job) {
                Some(at) => self.given_up_if(at, hash),
                None => self,
            },
            _ => self,
        }
    }

    /// The same where the call may have been refused, or not tried.
    pub(crate) fn failed_or_not(self, next: Move) -> Plain {
        match self.moved_file(next, false).1 {
            Answer::Done | Answer::Is(_) | Answer::WrongBytes(..) => {}
            _ => return self.given_up_by(next),
        }
        self.failed(next).given_up_by(next)
    }

    fn given_up_by(self, next: Move) -> Plain {
        match next.writer() {
            Some(job) => self.given_up(job).0,
            None => self,
        }
    }

    /// What a crash leaves of the places.
    pub(crate) fn crashed(self) -> Plain {
        let mut new = self;
        for hash in 0..3usize {
            if !self.places[hash].is_durable {
                new.places[hash].found = Found::Unknown;
            }
        }
        new
    }
}
