//! What the program hands to its commands.
ghost use Rattle.std.specs.Prelude.{◌≡◌, ◌<◌, ◌↔◌, ℕ, List, [], ◌++◌, length, IsTrue, IfOk};
ghost use Rattle.cmsite.specs.Arguments.{texts, base_in, folder_in, words_in, names_in, MakesBase};

use crate::base::{Access, Base};
use crate::bays::bays_below;
use crate::clock::minute;
use crate::folders::subfolders;
use crate::input::HostSource;
use crate::names::{are_among, bays_of};
use crate::output::HostSink;
use cm_base::{Memory, ServerName};
use cm_top::{Line, WordsFault, read_words, run};
use cm_tree::HostFolder;
use std::alloc::Global;
use std::{env, io};

// The arguments behind the program's name. Arguments that are no text are no words.
fn arguments(rt: &HostRuntime) -> Result<Vec<String>, Memory> {
    let mut words = Vec::new(rt.alloc());
    match env::args(rt) {
        Ok(all) => {
            for word in all.skip(1) {
                words.push(word)?;
            }
        }
        Err(error) if error.kind() == io::ErrorKind::OutOfMemory => return Err(Memory),
        Err(_) => {}
    }
    Ok(words)
}

// The base folder: the first of two arguments or more.
fn base_of(arguments: &[String]) -> &str
    ensures { result.now ≡ base_in (texts arguments.now) }
{
    match arguments {
        [base, _, ..] => base.as_str(),
        _ => ".",
    }
}

// The folder that is added from: the second of two arguments or more.
fn folder_of(arguments: &[String]) -> &str
    ensures { result.now ≡ folder_in (texts arguments.now) }
{
    match arguments {
        [_, folder, ..] => folder.as_str(),
        _ => "-",
    }
}

// The words: the arguments behind the first two.
fn words_of(arguments: &[String]) -> &[String]
    ensures { result.now ≡ words_in arguments.now }
{
    match arguments {
        [_, _, words @ ..] => words,
        _ => &[],
    }
}

// The names that an `init` gives. Other words give none.
fn names_in(alloc: Global, words: &[String]) -> Result<Vec<ServerName>, Memory>
    ensures { IfOk result (λ names. names.items ≡ names_in (texts words.now)) }
{
    match read_words(alloc, words) {
        Ok(Line::Init { names }) => Ok(names.into_items()),
        Err(WordsFault::Memory) => Err(Memory),
        _ => Ok(Vec::new(alloc)),
    }
}

// Only an `init` that is not refused makes a base folder.
fn makes_base(alloc: Global, words: &[String]) -> Result<bool, Memory>
    ensures { IfOk result (λ makes. IsTrue makes ↔ MakesBase (texts words.now)) }
{
    match read_words(alloc, words) {
        Ok(Line::Init { names }) => {
            let bays = bays_of(alloc, names.items())?;
            Ok(are_among(&bays, names.items()))
        }
        Err(WordsFault::Memory) => Err(Memory),
        _ => Ok(false),
    }
}

// The subfolders of the base folder, where there are two arguments or more and this process has it.
fn folders_in(
    rt: &HostRuntime,
    arguments: &[String],
    access: Access,
) -> Result<Vec<ServerName>, Memory>
    ensures { length arguments.now < 2 → IfOk result (λ folders. folders.items ≡ []) }
{
    match access {
        Access::Held if arguments.len() >= 2 => subfolders(rt, base_of(arguments)),
        _ => Ok(Vec::new(rt.alloc())),
    }
}

// The names that are there: those of subfolders, and those that an `init` gives, whose folders are made with their first files.
fn names_there(
    rt: &HostRuntime,
    arguments: &[String],
    access: Access,
) -> Result<Vec<ServerName>, Memory>
    ensures few { length arguments.now < 2 → IfOk result (λ there. there.items ≡ []) }
    ensures named { IfOk result (λ there. (folders : List (List ℕ)) × (there.items ≡ folders ++ names_in (texts (words_in arguments.now)))) }
{
    let named = names_in(rt.alloc(), words_of(arguments))?;
    let mut there = folders_in(rt, arguments, access)?;
    for name in &named {
        there.push(*name)?;
    }
    Ok(there)
}

/// Runs the command of the arguments, and answers its status. The first argument is the base folder, the second one the
/// folder that is added from; with fewer than two there are no words.
pub(crate) fn start(rt: &HostRuntime) -> Result<u8, Memory> {
    let alloc = rt.alloc();
    let arguments = arguments(rt)?;
    let words = words_of(&arguments);
    let path = base_of(&arguments);
    // Held to the end: from before the listing, so that no other process makes a bay in between.
    let base = Base::take(rt, path, makes_base(alloc, words)?);
    let there = names_there(rt, &arguments, base.access())?;
    let mut bays = bays_below(rt, path, base.access(), &there)?;
    let mut folder = HostFolder::new(rt.clone()?, folder_of(&arguments))?;
    let mut input = HostSource {
        reader: rt.reader(),
        count: 0,
    };
    let mut out = HostSink {
        writer: io::writer(rt),
        count: 0,
    };
    Ok(run(
        alloc,
        words,
        &mut input,
        &mut folder,
        &mut out,
        &mut bays,
        minute(rt),
    ))
}
