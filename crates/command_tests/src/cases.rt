//! The commands that write, each over a library, and the states that they lead through.
use crate::fakes::Files;
use crate::three::{ABC, HELLO, NOTHING};

/// A state, by what each command prints over it.
#[derive(Clone, Copy)]
pub(crate) struct State {
    pub(crate) init: &'static [u8],
    pub(crate) list: &'static [u8],
    /// `add PS100003`, and `update PS100001`.
    pub(crate) add: &'static [u8],
    pub(crate) update: &'static [u8],
    /// `drop site 2`, and `drop site 3`.
    pub(crate) drop_2: &'static [u8],
    pub(crate) drop_3: &'static [u8],
    /// The files of the versions, each a place and its bytes.
    pub(crate) kept: Files,
}

/// A command, over a disk without files or one with a library in which PS100001 has version 1 and job 2 of PS100002 is unfinished.
#[derive(Clone, Copy)]
pub(crate) struct Case {
    pub(crate) has_library: bool,
    pub(crate) words: &'static [&'static str],
    /// The folder, and what its files have once they were read.
    pub(crate) files: Files,
    pub(crate) later: Files,
    /// What is printed in the end.
    pub(crate) done: &'static [u8],
    /// The states before, between and after its changes.
    pub(crate) states: &'static [State],
}

const MADE: &[u8] = b"made 0\n";

const MISSING: &[u8] = b"library site missing\n";

const NO_JOB: &[u8] = b"refused 4 NoJob\n";

const DROPPED: &[u8] = b"dropped\n";

const THERE: &[u8] = b"refused 2 PackageThere 1\n";

const ADDED: &[u8] = b"added PS100003 1 files 2 bytes 7\n";

const UPDATED: &[u8] = b"added PS100001 2 files 2 bytes 7\n";

const UPDATED_AGAIN: &[u8] = b"added PS100001 3 files 2 bytes 7\n";

/// A file that no version has, and one that a version has.
pub(crate) const FILES: Files = &[(b"k", b"abcd"), (b"l", b"abc")];

const OLD: Files = &[(ABC, b"abc"), (NOTHING, b""), (HELLO, b"hello")];

const OLD_AND_NEW: Files = &[
    (ABC, b"abc"),
    (NOTHING, b""),
    (HELLO, b"hello"),
    (
        b"FileLib/88d4266fd4e6338d13b845fcf289579d209c897823b9217da3e161936f031589",
        b"abcd",
    ),
];

const NONE: State = State {
    init: b"made 1\n",
    list: MISSING,
    add: MISSING,
    update: MISSING,
    drop_2: MISSING,
    drop_3: MISSING,
    kept: &[],
};

const EMPTY: State = State {
    init: MADE,
    list: b"",
    add: ADDED,
    update: b"refused 3 NoPackage\n",
    drop_2: NO_JOB,
    drop_3: NO_JOB,
    kept: &[],
};

const LIST_BEFORE: &[u8] = b"PS100001 1 done 3 8\nPS100002 1 job 2 3 8\n";

const BEFORE: State = State {
    init: MADE,
    list: LIST_BEFORE,
    add: ADDED,
    update: UPDATED,
    drop_2: DROPPED,
    drop_3: NO_JOB,
    kept: OLD,
};

pub(crate) const INIT: Case = Case {
    has_library: false,
    words: &["init"],
    files: &[],
    later: &[],
    done: b"made 1\n",
    states: &[NONE, EMPTY],
};

const ADD_BEGUN: State = State {
    init: MADE,
    list: b"PS100001 1 done 3 8\nPS100002 1 job 2 3 8\nPS100003 1 job 3 2 7\n",
    add: THERE,
    update: UPDATED,
    drop_2: DROPPED,
    drop_3: DROPPED,
    kept: OLD,
};

pub(crate) const ADD: Case = Case {
    has_library: true,
    words: &["add", "PS100003"],
    files: FILES,
    later: &[],
    done: ADDED,
    states: &[
        BEFORE,
        ADD_BEGUN,
        State {
            init: MADE,
            list: b"PS100001 1 done 3 8\nPS100003 1 done 2 7\nPS100002 1 job 2 3 8\n",
            add: THERE,
            update: UPDATED,
            drop_2: DROPPED,
            drop_3: NO_JOB,
            kept: OLD_AND_NEW,
        },
    ],
};

pub(crate) const CHANGED: Case = Case {
    has_library: true,
    words: &["add", "PS100003"],
    files: FILES,
    later: &[(b"k", b"abcx")],
    done: CHANGE,
    states: &[
        BEFORE,
        ADD_BEGUN,
        State {
            init: MADE,
            list: LIST_BEFORE,
            add: THERE,
            update: UPDATED,
            drop_2: DROPPED,
            drop_3: NO_JOB,
            kept: OLD,
        },
    ],
};

const CHANGE: &[u8] =
    b"changed k 88d4266fd4e6338d13b845fcf289579d209c897823b9217da3e161936f031589 4 7571ce1f8e21c6b13dd7ec2c5ec7c9e4dd9852e209869511853f2f1f74b17927 4\n";

pub(crate) const UPDATE: Case = Case {
    has_library: true,
    words: &["update", "PS100001"],
    files: FILES,
    later: &[],
    done: UPDATED,
    states: &[
        BEFORE,
        State {
            init: MADE,
            list: b"PS100001 1 done 3 8\nPS100002 1 job 2 3 8\nPS100001 2 job 3 2 7\n",
            add: ADDED,
            update: UPDATED_AGAIN,
            drop_2: DROPPED,
            drop_3: DROPPED,
            kept: OLD,
        },
        State {
            init: MADE,
            list: b"PS100001 1 done 3 8\nPS100001 2 done 2 7\nPS100002 1 job 2 3 8\n",
            add: ADDED,
            update: UPDATED_AGAIN,
            drop_2: DROPPED,
            drop_3: NO_JOB,
            kept: OLD_AND_NEW,
        },
    ],
};

pub(crate) const DROP: Case = Case {
    has_library: true,
    words: &["drop", "site", "2"],
    files: &[],
    later: &[],
    done: DROPPED,
    states: &[
        BEFORE,
        State {
            init: MADE,
            list: b"PS100001 1 done 3 8\n",
            add: ADDED,
            update: UPDATED,
            drop_2: NO_JOB,
            drop_3: NO_JOB,
            kept: OLD,
        },
    ],
};
