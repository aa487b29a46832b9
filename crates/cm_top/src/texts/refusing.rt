//! The line of a refusal.
ghost use Rattle.std.specs.Prelude.{◌≡◌, ◌++◌, ◌∷◌, [], OnOk, codes};
ghost use Rattle.std.specs.Fmt.{decimal};
ghost use Rattle.cm_top.specs.Texts.{reply_text, spoken};
ghost use Rattle.cm_site.specs.declared.reply.Reply.TheVariants.{Refused};

use crate::Refusal;
use crate::say::say;
use crate::texts::topology::{broken_rule, wrong_shape};
use std::alloc::{AllocError, Global};

// The line of a refusal that keeps one number.
fn counted(
    alloc: Global,
    out: &mut Vec<u8>,
    number: &[u8],
    name: &[u8],
    kept: u32,
) -> Result<(), AllocError>
    ensures { OnOk result (out.new.items ≡ out.old.items ++ spoken (codes "refused" ∷ number.now ∷ name.now ∷ decimal kept ∷ [])) }
{
    let kept = kept.to_string(alloc)?;
    say(out, &[b"refused", number, name, kept.as_bytes()])
}

pub(crate) fn refused(alloc: Global, out: &mut Vec<u8>, refusal: Refusal) -> Result<(), AllocError>
    ensures { OnOk result (out.new.items ≡ out.old.items ++ reply_text (Refused refusal)) }
{
    match refusal {
        Refusal::NoVersion => say(out, &[b"refused", b"1", b"NoVersion"]),
        Refusal::PackageThere { last } => {
            counted(alloc, out, b"2", b"PackageThere", last.number())
        }
        Refusal::NoPackage => say(out, &[b"refused", b"3", b"NoPackage"]),
        Refusal::NoJob => say(out, &[b"refused", b"4", b"NoJob"]),
        Refusal::TooManyVersions => say(out, &[b"refused", b"7", b"TooManyVersions"]),
        Refusal::TooManyEntries => say(out, &[b"refused", b"8", b"TooManyEntries"]),
        Refusal::TooManyJobs => say(out, &[b"refused", b"9", b"TooManyJobs"]),
        Refusal::NoBay { name } => say(out, &[b"refused", b"10", b"NoBay", name.as_bytes()]),
        Refusal::TooManyTargets => say(out, &[b"refused", b"14", b"TooManyTargets"]),
        Refusal::BadPath { entry } => counted(alloc, out, b"19", b"BadPath", entry),
        Refusal::SamePath { entry } => counted(alloc, out, b"20", b"SamePath", entry),
        Refusal::TooManyFiles => say(out, &[b"refused", b"21", b"TooManyFiles"]),
        Refusal::FileTooLong { entry } => counted(alloc, out, b"22", b"FileTooLong", entry),
        Refusal::NotToml => say(out, &[b"refused", b"23", b"NotToml"]),
        Refusal::WrongShape { part, entry } => wrong_shape(alloc, out, part, entry),
        Refusal::TopologyRule { rule, part, entry } => broken_rule(alloc, out, rule, part, entry),
        Refusal::PointInUse { point } => say(
            out,
            &[b"refused", b"26", b"PointInUse", point.as_bytes()],
        ),
        Refusal::InputTooLong => say(out, &[b"refused", b"27", b"InputTooLong"]),
        Refusal::VersionsSpent => say(out, &[b"refused", b"28", b"VersionsSpent"]),
        Refusal::Spent => say(out, &[b"refused", b"30", b"Spent"]),
    }
}
