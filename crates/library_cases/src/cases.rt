//! The calls whose device calls fail.
use crate::calls::{Answer, Call, ONE};
use crate::libraries::Rows;

/// A call on the library that `prepared` makes.
#[derive(Clone, Copy)]
pub struct Case {
    pub call: Call,
    /// Its answer.
    pub done: Answer,
    /// What the library has then.
    pub after: Rows,
    /// The answer of the same call once more.
    pub again: Answer,
}

pub const BEGIN: Case = Case {
    call: Call::Begin(3, ONE),
    done: Answer::Begun(3),
    after: (&[(2, 2), (3, 3)], &[1]),
    again: Answer::JobThere(3),
};

pub const FINISH: Case = Case {
    call: Call::Finish(2),
    done: Answer::Done,
    after: (&[], &[1, 2]),
    again: Answer::NoJob,
};

pub const DROP: Case = Case {
    call: Call::Drop(2),
    done: Answer::Done,
    after: (&[], &[1]),
    again: Answer::NoJob,
};

pub const REMOVE: Case = Case {
    call: Call::Remove(1),
    done: Answer::Done,
    after: (&[(2, 2)], &[]),
    again: Answer::NoVersion,
};
