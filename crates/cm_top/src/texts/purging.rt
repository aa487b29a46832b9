//! The texts of `what-if` and `purge`.
ghost use Rattle.std.specs.Prelude.{◌≡◌, ◌++◌, OnOk};
ghost use Rattle.std.specs.List.{flat_map};
ghost use Rattle.cm_top.specs.Texts.{place_line, reply_text};
ghost use Rattle.cm_site.specs.declared.reply.Reply.TheVariants.{Loose, Purged};

use crate::say::say;
use cm_base::Place;
use std::alloc::{AllocError, Global};

fn place_lines(out: &mut Vec<u8>, places: &[Place]) -> Result<(), AllocError>
    ensures { OnOk result (out.new.items ≡ out.old.items ++ flat_map place_line places.now) }
{
    for place in places {
        say(out, &[place.as_bytes()])?;
    }
    Ok(())
}

pub(crate) fn loose(alloc: Global, out: &mut Vec<u8>, places: &[Place]) -> Result<(), AllocError>
    ensures { OnOk result (out.new.items ≡ out.old.items ++ reply_text (Loose places.now)) }
{
    place_lines(out, places)?;
    let count = places.len().to_string(alloc)?;
    say(out, &[b"loose", count.as_bytes()])
}

pub(crate) fn purged(
    alloc: Global,
    out: &mut Vec<u8>,
    files: u32,
    manifests: u32,
) -> Result<(), AllocError>
    ensures { OnOk result (out.new.items ≡ out.old.items ++ reply_text (Purged files manifests)) }
{
    let files = files.to_string(alloc)?;
    let manifests = manifests.to_string(alloc)?;
    say(
        out,
        &[
            b"purged",
            b"files",
            files.as_bytes(),
            b"manifests",
            manifests.as_bytes(),
        ],
    )
}
