//! What the words of the command line say, and the first reason why they say nothing.
use cm_top::{Line, read_words};
use std::alloc::Global;
use std::process::Abort;
use std::test::Fail;

/// Words, and the line that they are or the fault, as a text.
type Row = (&'static [&'static str], &'static str);

const COMMANDS: [Row; 6] = [
    (&[], "NoCommand"),
    (&[""], "UnknownCommand"),
    (&["erase"], "UnknownCommand"),
    (&["List", "site"], "UnknownCommand"),
    (&["--", "list", "site"], "UnknownCommand"),
    (&["-x", "list", "site"], "UnknownCommand"),
];

const INIT: [Row; 13] = [
    (&["init"], "init"),
    (&["init", "site", "DP1"], "init site dp1"),
    (&["init", "-"], "init -"),
    (&["init", "--"], "init"),
    (&["init", "--", "-x"], "init -x"),
    (&["init", "site", "--", "--", "dp1"], "init site -- dp1"),
    (&["init", ""], "BadValue { value: 1 }"),
    (&["init", "site", "a:b", "c:d"], "BadValue { value: 2 }"),
    (&["init", "site", "--", "a:b"], "BadValue { value: 2 }"),
    (&["init", "-x"], "ExtraWord"),
    (&["init", "site", "--x=1"], "ExtraWord"),
    (&["init", "a:b", "--x", "1"], "ExtraWord"),
    (&["init", "site", "-x", "--"], "ExtraWord"),
];

const ADD: [Row; 20] = [
    (&["add", "PS100001"], "add PS100001"),
    (&["add", "0A1FFFFF"], "add 0A1FFFFF"),
    (&["add", "--", "PS100001"], "add PS100001"),
    (&["add", "PS100001", "--"], "add PS100001"),
    (&["add"], "MissingWord { value: 1 }"),
    (&["add", "--"], "MissingWord { value: 1 }"),
    (&["add", ""], "BadValue { value: 1 }"),
    (&["add", "-"], "BadValue { value: 1 }"),
    (&["add", "ps100001"], "BadValue { value: 1 }"),
    (&["add", "PS10000"], "BadValue { value: 1 }"),
    (&["add", "PS1000012"], "BadValue { value: 1 }"),
    (&["add", "PS10000G"], "BadValue { value: 1 }"),
    (&["add", "--", "-x"], "BadValue { value: 1 }"),
    (&["add", "PS100001", "PS100002"], "ExtraWord"),
    (&["add", "a", "b"], "ExtraWord"),
    (&["add", "PS100001", "--", "--"], "ExtraWord"),
    (&["add", "-x"], "ExtraWord"),
    (&["add", "--x=1", "PS100001"], "ExtraWord"),
    (&["add", "PS100001", "--x", "1"], "ExtraWord"),
    (&["add", "PS100001", "-x", "--"], "ExtraWord"),
];

const UPDATE: [Row; 11] = [
    (&["update", "PS100001"], "update PS100001"),
    (&["update", "--", "PS100001"], "update PS100001"),
    (&["update", "PS100001", "--"], "update PS100001"),
    (&["update"], "MissingWord { value: 1 }"),
    (&["update", "--"], "MissingWord { value: 1 }"),
    (&["update", "ps100001"], "BadValue { value: 1 }"),
    (&["update", "--", "-x"], "BadValue { value: 1 }"),
    (&["update", "PS100001", "PS100002"], "ExtraWord"),
    (&["update", "PS100001", "--", "2"], "ExtraWord"),
    (&["update", "-x"], "ExtraWord"),
    (&["update", "PS100001", "--x=1"], "ExtraWord"),
];

const LIST: [Row; 13] = [
    (&["list", "site"], "list site"),
    (&["list", "DP1"], "list dp1"),
    (&["list", "-"], "list -"),
    (&["list", "--", "-x"], "list -x"),
    (&["list", "site", "--"], "list site"),
    (&["list"], "MissingWord { value: 1 }"),
    (&["list", "--"], "MissingWord { value: 1 }"),
    (&["list", ""], "BadValue { value: 1 }"),
    (&["list", "a:b"], "BadValue { value: 1 }"),
    (&["list", "site", "x"], "ExtraWord"),
    (&["list", "a:b", "x"], "ExtraWord"),
    (&["list", "-x", "site"], "ExtraWord"),
    (&["list", "site", "--x", "1"], "ExtraWord"),
];

const DROP: [Row; 21] = [
    (&["drop", "DP1", "7"], "drop dp1 7"),
    (&["drop", "site", "1"], "drop site 1"),
    (&["drop", "site", "10"], "drop site 10"),
    (
        &["drop", "site", "18446744073709551615"],
        "drop site 18446744073709551615",
    ),
    (&["drop", "--", "-x", "7"], "drop -x 7"),
    (&["drop", "site", "--", "7"], "drop site 7"),
    (&["drop", "site", "7", "--"], "drop site 7"),
    (&["drop"], "MissingWord { value: 1 }"),
    (&["drop", "--"], "MissingWord { value: 1 }"),
    (&["drop", "site"], "MissingWord { value: 2 }"),
    (&["drop", "a:b"], "MissingWord { value: 2 }"),
    (&["drop", "site", "--"], "MissingWord { value: 2 }"),
    (&["drop", "a:b", "7"], "BadValue { value: 1 }"),
    (&["drop", "a:b", "x"], "BadValue { value: 1 }"),
    (&["drop", "site", "7", "8"], "ExtraWord"),
    (&["drop", "site", "x", "8"], "ExtraWord"),
    (&["drop", "site", "7", "--", "8"], "ExtraWord"),
    (&["drop", "-x", "site", "7"], "ExtraWord"),
    (&["drop", "site", "-1"], "ExtraWord"),
    (&["drop", "site", "--x=1", "7"], "ExtraWord"),
    (&["drop", "site", "7", "--x", "1"], "ExtraWord"),
];

const PURGE: [Row; 9] = [
    (&["purge", "site"], "purge site"),
    (&["purge", "DP1"], "purge dp1"),
    (&["purge", "--", "-x"], "purge -x"),
    (&["purge"], "MissingWord { value: 1 }"),
    (&["purge", "--"], "MissingWord { value: 1 }"),
    (&["purge", "a:b"], "BadValue { value: 1 }"),
    (&["purge", "site", "x"], "ExtraWord"),
    (&["purge", "-x", "site"], "ExtraWord"),
    (&["purge", "site", "--all"], "ExtraWord"),
];

const WHAT_IF: [Row; 8] = [
    (&["what-if", "site"], "what-if site"),
    (&["what-if", "DP1"], "what-if dp1"),
    (&["what-if", "--", "-x"], "what-if -x"),
    (&["what_if", "site"], "UnknownCommand"),
    (&["what-if"], "MissingWord { value: 1 }"),
    (&["what-if", ""], "BadValue { value: 1 }"),
    (&["what-if", "site", "x"], "ExtraWord"),
    (&["what-if", "site", "-x"], "ExtraWord"),
];

const TOPOLOGY: [Row; 7] = [
    (&["topology"], "topology"),
    (&["topology", "--"], "topology"),
    (&["topology", "-"], "ExtraWord"),
    (&["topology", "x"], "ExtraWord"),
    (&["topology", "-x"], "ExtraWord"),
    (&["topology", "--", "-x"], "ExtraWord"),
    (&["Topology"], "UnknownCommand"),
];

const VALIDATE: [Row; 19] = [
    (
        &["validate", "site", "PS100001", "1"],
        "validate site PS100001 1",
    ),
    (
        &["validate", "DP1", "0A1FFFFF", "4294967295"],
        "validate dp1 0A1FFFFF 4294967295",
    ),
    (
        &["validate", "--", "-x", "PS100001", "10"],
        "validate -x PS100001 10",
    ),
    (&["validate"], "MissingWord { value: 1 }"),
    (&["validate", "site"], "MissingWord { value: 2 }"),
    (
        &["validate", "site", "PS100001"],
        "MissingWord { value: 3 }",
    ),
    (&["validate", "a:b", "x"], "MissingWord { value: 3 }"),
    (&["validate", "a:b", "x", "0"], "BadValue { value: 1 }"),
    (
        &["validate", "site", "ps100001", "0"],
        "BadValue { value: 2 }",
    ),
    (
        &["validate", "site", "PS100001", ""],
        "BadValue { value: 3 }",
    ),
    (
        &["validate", "site", "PS100001", "0"],
        "BadValue { value: 3 }",
    ),
    (
        &["validate", "site", "PS100001", "01"],
        "BadValue { value: 3 }",
    ),
    (
        &["validate", "site", "PS100001", "+1"],
        "BadValue { value: 3 }",
    ),
    (
        &["validate", "site", "PS100001", "-"],
        "BadValue { value: 3 }",
    ),
    (
        &["validate", "site", "PS100001", "1x"],
        "BadValue { value: 3 }",
    ),
    (
        &["validate", "site", "PS100001", "4294967296"],
        "BadValue { value: 3 }",
    ),
    (&["validate", "site", "PS100001", "1", "2"], "ExtraWord"),
    (&["validate", "site", "PS100001", "-1"], "ExtraWord"),
    (&["validate", "-x", "site", "PS100001", "1"], "ExtraWord"),
];

/// Texts that are no job number.
const NO_JOBS: [&str; 16] = [
    "",
    "0",
    "00",
    "01",
    "0x1",
    "+1",
    "+",
    "-",
    " 1",
    "1 ",
    "1x",
    "1.0",
    "1_000",
    "18446744073709551616",
    "99999999999999999999",
    "1\u{662}",
];

fn list_of(alloc: Global, words: &[&str]) -> Result<Vec<String>, Fail> {
    let mut list = Vec::new(alloc);
    for word in words {
        list.push(String::from_str(alloc, word)?)?;
    }
    Ok(list)
}

// These texts, each after one blank but the first.
fn joined(alloc: Global, texts: &[&[u8]]) -> Result<Vec<u8>, Fail> {
    let mut made = Vec::new(alloc);
    for (place, text) in texts.iter().enumerate() {
        if place != 0 {
            made.push(b' ')?;
        }
        made.extend_from_slice(text)?;
    }
    Ok(made)
}

fn line_text(alloc: Global, line: &Line) -> Result<Vec<u8>, Fail> {
    match line {
        Line::Init { names } => {
            let mut texts: Vec<&[u8]> = Vec::new(alloc);
            texts.push(b"init")?;
            for name in names.items() {
                texts.push(name.as_bytes())?;
            }
            joined(alloc, &texts)
        }
        Line::Add { package } => joined(alloc, &[b"add", package.as_bytes()]),
        Line::Update { package } => joined(alloc, &[b"update", package.as_bytes()]),
        Line::List { bay } => joined(alloc, &[b"list", bay.as_bytes()]),
        Line::Drop { bay, job } => {
            let job = job.number().to_string(alloc)?;
            joined(alloc, &[b"drop", bay.as_bytes(), job.as_bytes()])
        }
        Line::Validate {
            bay,
            package,
            version,
        } => {
            let version = version.number().to_string(alloc)?;
            joined(
                alloc,
                &[
                    b"validate",
                    bay.as_bytes(),
                    package.as_bytes(),
                    version.as_bytes(),
                ],
            )
        }
        Line::WhatIf { bay } => joined(alloc, &[b"what-if", bay.as_bytes()]),
        Line::Purge { bay } => joined(alloc, &[b"purge", bay.as_bytes()]),
        Line::Topology => joined(alloc, &[b"topology"]),
    }
}

// The line that the words are, or the fault, as a text.
fn read_text(alloc: Global, words: &[&str]) -> Result<Vec<u8>, Fail> {
    let list = list_of(alloc, words)?;
    match &read_words(alloc, &list) {
        Ok(line) => line_text(alloc, line),
        Err(fault) => {
            let text = format!(in alloc; "{fault:?}")?;
            Ok(text.as_bytes().to_vec(alloc)?)
        }
    }
}

fn reads(rt: &impl Abort, alloc: Global, rows: &[Row]) -> Result<(), Fail> {
    for (words, wanted) in rows {
        let text = read_text(alloc, words)?;
        assert!(rt; text.as_slice() == wanted.as_bytes());
    }
    Ok(())
}

#[test]
fn reads_commands(rt: HostRuntime) -> Result<(), Fail> {
    reads(&rt, rt.alloc(), &COMMANDS)
}

#[test]
fn reads_init(rt: HostRuntime) -> Result<(), Fail> {
    reads(&rt, rt.alloc(), &INIT)
}

#[test]
fn reads_add(rt: HostRuntime) -> Result<(), Fail> {
    reads(&rt, rt.alloc(), &ADD)
}

#[test]
fn reads_update(rt: HostRuntime) -> Result<(), Fail> {
    reads(&rt, rt.alloc(), &UPDATE)
}

#[test]
fn reads_list(rt: HostRuntime) -> Result<(), Fail> {
    reads(&rt, rt.alloc(), &LIST)
}

#[test]
fn reads_drop(rt: HostRuntime) -> Result<(), Fail> {
    reads(&rt, rt.alloc(), &DROP)
}

#[test]
fn reads_purge(rt: HostRuntime) -> Result<(), Fail> {
    reads(&rt, rt.alloc(), &PURGE)
}

#[test]
fn reads_what_if(rt: HostRuntime) -> Result<(), Fail> {
    reads(&rt, rt.alloc(), &WHAT_IF)
}

#[test]
fn reads_topology(rt: HostRuntime) -> Result<(), Fail> {
    reads(&rt, rt.alloc(), &TOPOLOGY)
}

#[test]
fn reads_validate(rt: HostRuntime) -> Result<(), Fail> {
    reads(&rt, rt.alloc(), &VALIDATE)
}

#[test]
fn reads_job_numbers(rt: HostRuntime) -> Result<(), Fail> {
    let alloc = rt.alloc();
    for text in NO_JOBS {
        let text = read_text(alloc, &["drop", "site", text])?;
        assert!(rt; text.as_slice() == b"BadValue { value: 2 }".as_slice());
    }
    let text = read_text(alloc, &["drop", "site", "--", "-1"])?;
    assert!(rt; text.as_slice() == b"BadValue { value: 2 }".as_slice());
    Ok(())
}
