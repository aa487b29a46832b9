//! The text of `topology`, and of its refusals that keep numbers.
ghost use Rattle.std.specs.Prelude.{◌≡◌, ◌++◌, OnOk};
ghost use Rattle.cm_top.specs.Texts.{reply_text};
ghost use Rattle.cm_site.specs.declared.reply.Refusal.TheVariants.{WrongShape, TopologyRule};
ghost use Rattle.cm_site.specs.declared.reply.Reply.TheVariants.{Refused, Topology};

use crate::say::say;
use std::alloc::{AllocError, Global};

/// How many boundaries, groups, points and peers a topology has, in this order, and how many targets were made.
pub(crate) fn replaced(
    alloc: Global,
    out: &mut Vec<u8>,
    counts: (u32, u32, u32, u32),
    joined: u32,
) -> Result<(), AllocError>
    ensures { OnOk result (out.new.items ≡ out.old.items ++ reply_text (Topology counts.0 counts.1 counts.2 counts.3 joined)) }
{
    let boundaries = counts.0.to_string(alloc)?;
    let groups = counts.1.to_string(alloc)?;
    let points = counts.2.to_string(alloc)?;
    let peers = counts.3.to_string(alloc)?;
    let joined = joined.to_string(alloc)?;
    say(
        out,
        &[
            b"topology",
            b"boundaries",
            boundaries.as_bytes(),
            b"groups",
            groups.as_bytes(),
            b"points",
            points.as_bytes(),
            b"peers",
            peers.as_bytes(),
            b"joined",
            joined.as_bytes(),
        ],
    )
}

pub(crate) fn wrong_shape(
    alloc: Global,
    out: &mut Vec<u8>,
    part: u8,
    entry: u16,
) -> Result<(), AllocError>
    ensures { OnOk result (out.new.items ≡ out.old.items ++ reply_text (Refused (WrongShape part entry))) }
{
    let part = part.to_string(alloc)?;
    let entry = entry.to_string(alloc)?;
    say(
        out,
        &[
            b"refused",
            b"24",
            b"WrongShape",
            part.as_bytes(),
            entry.as_bytes(),
        ],
    )
}

pub(crate) fn broken_rule(
    alloc: Global,
    out: &mut Vec<u8>,
    rule: u8,
    part: u8,
    entry: u16,
) -> Result<(), AllocError>
    ensures { OnOk result (out.new.items ≡ out.old.items ++ reply_text (Refused (TopologyRule rule part entry))) }
{
    let rule = rule.to_string(alloc)?;
    let part = part.to_string(alloc)?;
    let entry = entry.to_string(alloc)?;
    say(
        out,
        &[
            b"refused",
            b"25",
            b"TopologyRule",
            rule.as_bytes(),
            part.as_bytes(),
            entry.as_bytes(),
        ],
    )
}
