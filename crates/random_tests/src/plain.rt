//! A library as a plain list, for random runs: its versions and jobs.
use cm_base::{Hash, Version};
use cm_disk::MemDisk;
use cm_library::Library;
use library_cases::calls::{
    ABC, Answer, Call, EMPTY, HELLO, LONGER, NONE, ONE, PAIR, THREE, TWICE, TWO_SIZES, package,
};

/// How many versions there may be, from 1 on, and so how many jobs.
pub(crate) const MOST: usize = 16;

/// The hashes, which have numbers from 0 on in rising order.
pub(crate) const HASHES: [Hash; 3] = [HELLO, ABC, EMPTY];

/// A manifest: its bytes, and for each entry the number of its hash and its size.
type Kind = (&'static [u8], &'static [(usize, u32)]);

/// How many manifests there are.
pub(crate) const MANY_KINDS: usize = 7;

const KINDS: [Kind; MANY_KINDS] = [
    (NONE, &[]),
    (ONE, &[(1, 3)]),
    (THREE, &[(1, 3), (2, 0), (0, 5)]),
    (PAIR, &[(0, 5), (2, 0)]),
    (TWICE, &[(1, 3), (1, 3)]),
    (LONGER, &[(1, 4)]),
    (TWO_SIZES, &[(1, 3), (1, 4)]),
];

/// What there is of a version.
#[derive(Clone, Copy)]
pub(crate) struct Slot {
    /// Its unfinished job, or 0.
    pub(crate) job: u64,
    pub(crate) is_there: bool,
    /// Its manifest, by number.
    pub(crate) kind: usize,
    /// The hash whose file the job has started, by number.
    pub(crate) started: Option<usize>,
}

/// What the place of a file has.
#[derive(Clone, Copy)]
pub(crate) enum Found {
    Unknown,
    Absent,
    /// So many of the bytes.
    Bytes([u8; 5], usize),
}

/// A hash.
#[derive(Clone, Copy)]
pub(crate) struct Place {
    pub(crate) found: Found,
    /// A crash preserves it.
    pub(crate) is_durable: bool,
    pub(crate) is_sealed: bool,
}

#[derive(Clone, Copy)]
pub(crate) struct Plain {
    pub(crate) slots: [Slot; MOST],
    pub(crate) places: [Place; 3],
    /// The next job's number.
    pub(crate) next: u64,
}

/// A call, with versions, manifests and hashes by number from 0 on.
#[derive(Clone, Copy)]
pub(crate) enum Move {
    Begin(usize, usize),
    Finish(u64),
    Drop(u64),
    Remove(usize),
    Start(u64, usize),
    Put(u64, u64, &'static [u8]),
    Seal(u64),
    Salvage(u64, usize),
    Wanted(u64, Option<usize>),
    GiveUp(u64),
}

const NO_VERSION: Slot = Slot {
    job: 0,
    is_there: false,
    kind: 0,
    started: None,
};

const NO_FILE: Place = Place {
    found: Found::Absent,
    is_durable: true,
    is_sealed: false,
};

const EMPTY_LIST: Plain = Plain {
    slots: [NO_VERSION; MOST],
    places: [NO_FILE; 3],
    next: 2,
};

/// What `installed` makes.
pub(crate) fn installed_list() -> Plain {
    let mut plain = EMPTY_LIST;
    plain.slots[0].is_there = true;
    plain.slots[0].kind = 1;
    plain.places[1] = Place {
        found: Found::Bytes(*b"abc\0\0", 3),
        is_durable: true,
        is_sealed: true,
    };
    plain
}

impl Move {
    pub(crate) fn call(self) -> Call {
        match self {
            Move::Begin(at, kind) => Call::Begin(number(at), KINDS[kind % MANY_KINDS].0),
            Move::Finish(job) => Call::Finish(job),
            Move::Drop(job) => Call::Drop(job),
            Move::Remove(at) => Call::Remove(number(at)),
            Move::Start(job, hash) => Call::Start(job, HASHES[hash % 3]),
            Move::Put(job, offset, bytes) => Call::Put(job, offset, bytes),
            Move::Seal(job) => Call::Seal(job),
            Move::Salvage(job, hash) => Call::Salvage(job, HASHES[hash % 3]),
            Move::Wanted(job, None) => Call::Wanted(job, None),
            Move::Wanted(job, Some(hash)) => Call::Wanted(job, Some(HASHES[hash % 3])),
            Move::GiveUp(job) => Call::GiveUp(job),
        }
    }

    /// The job of a call that may fail on its file.
    pub(crate) fn writer(self) -> Option<u64> {
        match self {
            Move::Start(job, _) | Move::Put(job, _, _) | Move::Seal(job) | Move::Salvage(job, _) =>
                { Some(job) }
            _ => None,
        }
    }

    /// Whether it is on the versions and jobs themselves.
    pub(crate) fn is_on_rows(self) -> bool {
        matches!(
            self,
            Move::Begin(_, _) | Move::Finish(_) | Move::Drop(_) | Move::Remove(_)
        )
    }
}

fn number(at: usize) -> u32 {
    (at % MOST) as u32 + 1
}

impl Plain {
    fn begun(self, at: usize, kind: usize) -> (Plain, Answer) {
        let at = at % MOST;
        let slot = self.slots[at];
        if slot.is_there {
            return (self, Answer::VersionThere);
        }
        if slot.job != 0 {
            return (self, Answer::JobThere(slot.job));
        }
        let mut new = self;
        new.slots[at].job = self.next;
        new.slots[at].kind = kind % MANY_KINDS;
        new.next = self.next.saturating_add(1);
        (new, Answer::Begun(self.next))
    }

    /// The version of a job.
    pub(crate) fn at_job(&self, job: u64) -> Option<usize> {
        (0..MOST).find(|at| self.slots[*at].job == job)
    }

    /// The entries of a version.
    pub(crate) fn entries(&self, at: usize) -> &'static [(usize, u32)] {
        KINDS[self.slots[at % MOST].kind % MANY_KINDS].1
    }

    // The first hash of a version that is not sealed, or that has another size.
    fn lacking(&self, at: usize) -> Option<usize> {
        for (hash, size) in self.entries(at) {
            if !self.places[*hash % 3].is_sealed || *size != true_size(*hash) {
                return Some(*hash % 3);
            }
        }
        None
    }

    fn finished(self, job: u64) -> (Plain, Answer) {
        let Some(at) = self.at_job(job) else {
            return (self, Answer::NoJob);
        };
        match self.lacking(at) {
            Some(hash) => (self, Answer::NotStored(HASHES[hash % 3])),
            None => {
                let mut new = self;
                new.slots[at % MOST].job = 0;
                new.slots[at % MOST].is_there = true;
                (new, Answer::Done)
            }
        }
    }

    fn dropped(self, job: u64) -> (Plain, Answer) {
        match self.at_job(job) {
            Some(at) => (self.without(at), Answer::Done),
            None => (self, Answer::NoJob),
        }
    }

    fn removed(self, at: usize) -> (Plain, Answer) {
        if !self.slots[at % MOST].is_there {
            return (self, Answer::NoVersion);
        }
        (self.without(at), Answer::Done)
    }

    // Without a version or its job: what nothing else names is no more sealed.
    fn without(self, at: usize) -> Plain {
        let mut new = self;
        new.slots[at % MOST] = NO_VERSION;
        let left = new;
        for hash in 0..3usize {
            if !(0..MOST).any(|other| left.names(other, hash)) {
                new.places[hash].is_sealed = false;
            }
        }
        new
    }

    fn names(&self, at: usize, hash: usize) -> bool {
        self.entries(at).iter().any(|entry| entry.0 == hash)
    }

    /// Whether a version that is there names a hash.
    pub(crate) fn is_in_version(&self, hash: usize) -> bool {
        (0..MOST).any(|at| self.slots[at].is_there && self.names(at, hash))
    }

    /// What a call makes of it, and its answer. A place whose bytes are not known has those of the file if so told.
    pub(crate) fn moved(self, next: Move, is_told: bool) -> (Plain, Answer) {
        match next {
            Move::Begin(at, kind) => self.begun(at, kind),
            Move::Finish(job) => self.finished(job),
            Move::Drop(job) => self.dropped(job),
            Move::Remove(at) => self.removed(at),
            _ => self.moved_file(next, is_told),
        }
    }

    /// What an opening finds: no file is started, and the hashes of versions are sealed.
    pub(crate) fn opened(self) -> Plain {
        let mut new = self;
        for at in 0..MOST {
            new.slots[at].started = None;
        }
        for hash in 0..3usize {
            new.places[hash].is_sealed = self.is_in_version(hash);
        }
        new
    }

    /// Whether a library tells it.
    pub(crate) fn is_told(&self, library: &Library<MemDisk>) -> bool {
        let versions = self.slots.iter().filter(|slot| slot.is_there).count();
        let jobs = self.slots.iter().filter(|slot| slot.job != 0).count();
        library.versions().len() == versions
            && library.jobs().len() == jobs
            && self.has_versions(library)
            && self.has_jobs(library)
    }

    fn has_versions(&self, library: &Library<MemDisk>) -> bool {
        for row in library.versions() {
            if Some(row.package) != package() || !self.slots[at(row.version) % MOST].is_there {
                return false;
            }
        }
        true
    }

    fn has_jobs(&self, library: &Library<MemDisk>) -> bool {
        for row in library.jobs() {
            if Some(row.package) != package()
                || self.slots[at(row.version) % MOST].job != row.job.number()
            {
                return false;
            }
        }
        true
    }
}

/// How many bytes the file of a hash has.
pub(crate) fn true_size(hash: usize) -> u32 {
    match hash {
        0 => 5,
        1 => 3,
        _ => 0,
    }
}

fn at(version: Version) -> usize {
    (version.number() as usize).saturating_sub(1)
}
