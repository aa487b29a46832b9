//! The text and the status of how a run ends.
ghost use Rattle.std.specs.Prelude.{◌≡◌, ◌++◌, OnOk, IfOk};
ghost use Rattle.cm_top.specs.Texts.{spoken, usage_words, reply_text, text, status};

mod adding;
mod listing;
mod purging;
mod refusing;
mod topology;
mod validating;

use crate::say::say;
use crate::{Ended, Reply, WordsFault};
use adding::{added, changed};
use cm_base::{Place, ServerName};
use listing::listed;
use purging::{loose, purged};
use refusing::refused;
use std::alloc::{AllocError, Global};
use topology::replaced;
use validating::findings_in;

fn usage(alloc: Global, out: &mut Vec<u8>, fault: WordsFault) -> Result<(), AllocError>
    ensures { OnOk result (out.new.items ≡ out.old.items ++ spoken (usage_words fault)) }
{
    match fault {
        WordsFault::NoCommand => say(out, &[b"usage", b"1", b"NoCommand"]),
        WordsFault::UnknownCommand => say(out, &[b"usage", b"2", b"UnknownCommand"]),
        WordsFault::BadValue { value } => {
            let value = value.to_string(alloc)?;
            say(out, &[b"usage", b"3", b"BadValue", value.as_bytes()])
        }
        WordsFault::MissingWord { value } => {
            let value = value.to_string(alloc)?;
            say(out, &[b"usage", b"4", b"MissingWord", value.as_bytes()])
        }
        WordsFault::ExtraWord => say(out, &[b"usage", b"5", b"ExtraWord"]),
        WordsFault::Memory => say(out, &[b"memory"]),
    }
}

fn made(alloc: Global, out: &mut Vec<u8>, count: u32) -> Result<(), AllocError>
    ensures { OnOk result (out.new.items ≡ out.old.items ++ reply_text (Reply.Made count)) }
{
    let count = count.to_string(alloc)?;
    say(out, &[b"made", count.as_bytes()])
}

fn unreadable(
    alloc: Global,
    out: &mut Vec<u8>,
    bay: &ServerName,
    place: &Place,
    at: u64,
) -> Result<(), AllocError>
    ensures { OnOk result (out.new.items ≡ out.old.items ++ reply_text (Reply.Unreadable bay.now place.now at)) }
{
    let at = at.to_string(alloc)?;
    say(
        out,
        &[
            b"library",
            bay.as_bytes(),
            b"unreadable",
            place.as_bytes(),
            at.as_bytes(),
        ],
    )
}

fn reply(alloc: Global, out: &mut Vec<u8>, reply: &Reply) -> Result<(), AllocError>
    ensures { OnOk result (out.new.items ≡ out.old.items ++ reply_text reply.now) }
{
    match reply {
        Reply::Made { count } => made(alloc, out, *count),
        Reply::Added {
            package,
            version,
            files,
            bytes,
        } => added(alloc, out, (*package, *version), *files, *bytes),
        Reply::Dropped => say(out, &[b"dropped"]),
        Reply::Topology {
            boundaries,
            groups,
            points,
            peers,
            joined,
        } => replaced(alloc, out, (*boundaries, *groups, *points, *peers), *joined),
        Reply::Versions { versions, jobs } => listed(alloc, out, versions.items(), jobs.items()),
        Reply::Findings { files, list } => findings_in(alloc, out, *files, list.items()),
        Reply::Loose { places } => loose(alloc, out, places.items()),
        Reply::Purged { files, manifests } => purged(alloc, out, *files, *manifests),
        Reply::Refused { refusal } => refused(alloc, out, *refusal),
        Reply::Source => say(out, &[b"source"]),
        Reply::Changed {
            path,
            first,
            first_size,
            second,
            second_size,
        } => changed(
            alloc,
            out,
            path,
            (*first, *first_size),
            (*second, *second_size),
        ),
        Reply::Disk { bay } => say(out, &[b"disk", bay.as_bytes()]),
        Reply::Memory => say(out, &[b"memory"]),
        Reply::NoLibrary { bay } => say(out, &[b"library", bay.as_bytes(), b"missing"]),
        Reply::NoBayFor { name } => say(out, &[b"library", name.as_bytes(), b"nobay"]),
        Reply::Unreadable { bay, place, at } => unreadable(alloc, out, bay, place, *at),
    }
}

/// The text that a run prints.
pub(crate) fn text_of(alloc: Global, ended: &Ended) -> Result<Vec<u8>, AllocError>
    ensures { IfOk result (λ made. made.items ≡ text ended.now) }
{
    let mut made = Vec::new(alloc);
    match ended {
        Ended::Usage { fault } => usage(alloc, &mut made, *fault)?,
        Ended::Replied { reply: given } => reply(alloc, &mut made, given)?,
    }
    Ok(made)
}

/// The status of a run.
pub(crate) fn status_of(ended: &Ended) -> u8
    ensures { result ≡ status ended.now }
{
    match ended {
        Ended::Usage { fault } => match fault {
            WordsFault::Memory => 6,
            _ => 2,
        },
        Ended::Replied { reply } => match reply {
            Reply::Made { .. }
            | Reply::Added { .. }
            | Reply::Dropped
            | Reply::Topology { .. }
            | Reply::Versions { .. }
            | Reply::Findings { .. }
            | Reply::Loose { .. }
            | Reply::Purged { .. } => 0,
            Reply::Refused { .. } => 1,
            Reply::Source | Reply::Changed { .. } => 3,
            Reply::Disk { .. } => 5,
            Reply::Memory => 6,
            Reply::NoLibrary { .. } | Reply::NoBayFor { .. } | Reply::Unreadable { .. } => 7,
        },
    }
}
