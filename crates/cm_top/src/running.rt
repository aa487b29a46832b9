//! One command.
ghost use Rattle.std.specs.Prelude.{◌≡◌, ◌≢◌, ◌<◌, ◌^◌, ℕ, List, IfOk, IfErr};
ghost use Rattle.cm_site.specs.Bays.{AreBays};
ghost use Rattle.cm_site.specs.Machine.{Given, Step, opened};
ghost use Rattle.cm_site.specs.Opened.{IsOpenSite, bays_from, bays_now};
ghost use Rattle.cm_site.specs.Openings.{fault_reply};
ghost use Rattle.cm_site.specs.Runs.{EndsOn, Outside, beside, fed, sourced};
ghost use Rattle.cm_site.specs.Worlds.{World};
ghost use Rattle.cm_top.specs.Causes.{HasCauses};
ghost use Rattle.cm_top.specs.Runs.{RunMeets, step, sunk};
ghost use Rattle.cm_top.specs.Words.{texts};

use crate::show::show;
use crate::{Bay, Ended, Line, Reply, read_words};
use cm_base::{Sink, Source};
use cm_disk::Disk;
use cm_site::{Site, SiteFault};
use cm_tree::Folder;
use std::alloc::Global;
use std::mem;

// The reply where the bays are not opened.
fn reply_of(fault: SiteFault) -> Reply
    ensures { result ≡ fault_reply fault }
{
    match fault {
        SiteFault::NoLibrary { bay } => Reply::NoLibrary { bay },
        SiteFault::Unreadable { bay, place, at } => Reply::Unreadable { bay, place, at },
        SiteFault::NoBayFor { name } => Reply::NoBayFor { name },
        SiteFault::Disk { bay } => Reply::Disk { bay },
        SiteFault::Memory => Reply::Memory,
    }
}

// Opens the bays, which are taken out. Where one is not opened they are put back, and this is the reply of each command that needs them.
fn open_site<D: Disk + Drop>(alloc: Global, bays: &mut Vec<Bay<D>>) -> Result<Site<D>, Reply>
    requires { AreBays bays.old.items }
    ensures start { IfOk result (λ site. bays_from site ≡ bays.old.items) }
    ensures opened { IfOk result (IsOpenSite D.reads D.may_leave D.moment D.left_since D.faults) }
    ensures refused { IfErr result (λ reply. (step : Given → World → Step) (from to : Outside) (minute : ℕ)
        → EndsOn D.reads D.may_leave D.moment D.left_since D.faults (λ given. opened (step given)) from to minute reply bays.old.items bays.new.items) }
{
    let taken = mem::replace(bays, Vec::new(alloc));
    match Site::open(alloc, taken) {
        Ok(site) => Ok(site),
        Err((back, fault)) => {
            *bays = back;
            Err(reply_of(fault))
        }
    }
}

// Does on the open site what a line says: one arm for each command but `init`.
fn command<S: Source, F: Folder, D: Disk + Drop>(
    alloc: Global,
    line: &Line,
    input: &mut S,
    folder: &mut F,
    site: &mut Site<D>,
    minute: u64,
) -> Reply
    requires opened { IsOpenSite D.reads D.may_leave D.moment D.left_since D.faults site.old }
    requires minute { minute < 2 ^ 40 }
    requires no_init { (names : List (List ℕ)) → line.now ≢ Line.Init names }
    ensures { EndsOn D.reads D.may_leave D.moment D.left_since D.faults (step line.now)
        (beside (sourced F.shows F.faults folder.old) (fed S.left S.faults input.old)) (beside (sourced F.shows F.faults folder.new) (fed S.left S.faults input.new))
        minute result (bays_from site.old) (bays_now site.new) }
{
    match line {
        Line::Init { .. } => unreachable!(),
        Line::Add { package } => site.add(alloc, *package, folder),
        Line::Update { package } => site.update(alloc, *package, folder),
        Line::Drop { bay, job } => site.drop_job(*bay, *job),
        Line::List { bay } => site.list(alloc, *bay),
        Line::Validate {
            bay,
            package,
            version,
        } => site.validate(alloc, *bay, *package, *version),
        Line::WhatIf { bay } => site.what_if(alloc, *bay),
        Line::Purge { bay } => site.purge(*bay),
        Line::Topology => site.topology(alloc, input, minute),
    }
}

// Does what a line says that is not `init`: the bays are opened, and given back in their order.
fn answer_opened<S: Source, F: Folder, D: Disk + Drop>(
    alloc: Global,
    line: &Line,
    input: &mut S,
    folder: &mut F,
    bays: &mut Vec<Bay<D>>,
    minute: u64,
) -> Reply
    requires bays { AreBays bays.old.items }
    requires minute { minute < 2 ^ 40 }
    requires no_init { (names : List (List ℕ)) → line.now ≢ Line.Init names }
    ensures { EndsOn D.reads D.may_leave D.moment D.left_since D.faults (step line.now)
        (beside (sourced F.shows F.faults folder.old) (fed S.left S.faults input.old)) (beside (sourced F.shows F.faults folder.new) (fed S.left S.faults input.new))
        minute result bays.old.items bays.new.items }
{
    let mut site = match open_site(alloc, bays) {
        Ok(site) => site,
        Err(reply) => return reply,
    };
    let reply = command(alloc, line, input, folder, &mut site, minute);
    *bays = site.close();
    reply
}

// Does what a line says. `init` alone does not open the bays.
fn answer<S: Source, F: Folder, D: Disk + Drop>(
    alloc: Global,
    line: &Line,
    input: &mut S,
    folder: &mut F,
    bays: &mut Vec<Bay<D>>,
    minute: u64,
) -> Reply
    requires bays { AreBays bays.old.items }
    requires minute { minute < 2 ^ 40 }
    ensures { EndsOn D.reads D.may_leave D.moment D.left_since D.faults (step line.now)
        (beside (sourced F.shows F.faults folder.old) (fed S.left S.faults input.old)) (beside (sourced F.shows F.faults folder.new) (fed S.left S.faults input.new))
        minute result bays.old.items bays.new.items }
{
    match line {
        Line::Init { names } => Site::init(bays, names.items()),
        _ => answer_opened(alloc, line, input, folder, bays, minute),
    }
}

// Reads the words, does what they say, and prints the end.
fn run_words<S: Source, F: Folder, K: Sink, D: Disk + Drop>(
    alloc: Global,
    words: &[String],
    input: &mut S,
    folder: &mut F,
    out: &mut K,
    bays: &mut Vec<Bay<D>>,
    minute: u64,
) -> u8
    requires bays { AreBays bays.old.items }
    requires minute { minute < 2 ^ 40 }
    ensures { RunMeets D.reads D.may_leave D.moment D.left_since D.faults (texts words.now)
        (beside (sourced F.shows F.faults folder.old) (fed S.left S.faults input.old)) (beside (sourced F.shows F.faults folder.new) (fed S.left S.faults input.new))
        minute bays.old.items bays.new.items (sunk K.got K.faults out.old) (sunk K.got K.faults out.new) result }
{
    match read_words(alloc, words) {
        Ok(line) => {
            let reply = answer(alloc, &line, input, folder, bays, minute);
            show(alloc, out, &Ended::Replied { reply })
        }
        Err(fault) => show(alloc, out, &Ended::Usage { fault }),
    }
}

/// Does the command that the words say, prints its text, and answers its status.
///
/// The first bay is `site`, and `records`, if it is handed in, the second; their names differ, and there are at most 66. Afterwards they
/// stand there in the same order. Words that say no command leave the bays as they are, and their usage line is printed. Else the text and
/// the status are those of the step on the world that the bays were at the entry, and the bays are that world after the step's changes; or
/// the run ends by a status of 3 to 6 with its cause, and all bays together are the world after a prefix of these changes. Where each image
/// of a library's disk opened to some state at the entry, each image at any moment was one at the entry or opens to the library after such a
/// prefix, with every file of its versions; of the disk of the records this holds without that. Bytes change at places of a library or of
/// the records alone. `purge` removes what no version and no unfinished job needs, and no other command removes a file.
///
/// The input is read by `topology` alone, up to one byte past the most that a topology has.
pub fn run<S: Source, F: Folder, K: Sink, D: Disk + Drop>(
    alloc: Global,
    words: &[String],
    input: &mut S,
    folder: &mut F,
    out: &mut K,
    bays: &mut Vec<Bay<D>>,
    minute: u64,
) -> u8
    requires bays { AreBays bays.old.items }
    requires minute { minute < 2 ^ 40 }
    ensures meets { RunMeets D.reads D.may_leave D.moment D.left_since D.faults (texts words.now)
        (beside (sourced F.shows F.faults folder.old) (fed S.left S.faults input.old)) (beside (sourced F.shows F.faults folder.new) (fed S.left S.faults input.new))
        minute bays.old.items bays.new.items (sunk K.got K.faults out.old) (sunk K.got K.faults out.new) result }
    ensures causes { HasCauses D.reads D.may_leave D.moment D.left_since D.faults (texts words.now)
        (beside (sourced F.shows F.faults folder.old) (fed S.left S.faults input.old)) (beside (sourced F.shows F.faults folder.new) (fed S.left S.faults input.new))
        minute bays.old.items bays.new.items (sunk K.got K.faults out.old) (sunk K.got K.faults out.new) result }
{
    run_words(alloc, words, input, folder, out, bays, minute)
}
