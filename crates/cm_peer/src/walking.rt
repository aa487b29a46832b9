//! The walk of a client over its sources.
ghost use Rattle.std.specs.Prelude.{◌<◌, ◌≤◌, ◌^◌, ℕ, length, take, IfOk, OnErr};
ghost use Rattle.cm_peer.specs.Links.{IsSameTest, WasAsked, RoseBy};
ghost use Rattle.cm_peer.specs.Walks.{IsWalk, asked_in, link_count};

use crate::asking::refusal_of;
use crate::{Link, Refused, SourceRow, Walk, Want};
use cm_base::{List, Memory};
use std::alloc::Global;

/// Asks the sources in order, up to the first that serves what is wanted.
pub fn walk<L: Link>(
    alloc: Global,
    sources: &[SourceRow],
    link: &mut L,
    want: &Want,
) -> Result<Walk, Memory>
    requires { length sources.now < 2 ^ 32 }
    ensures walk { IfOk result (IsWalk (L.gives link.old) want.now sources.now) }
    // It asks no source behind the one that serves.
    ensures asked { IfOk result (λ walk. WasAsked (L.asked link.old) (L.asked link.new) (asked_in sources.now walk)) }
    ensures count { IfOk result (λ walk. RoseBy (link_count walk.refusals) (L.faults link.old) (L.faults link.new)) }
    // For want of memory it may end behind any source.
    ensures ended { OnErr result ((many : ℕ) × WasAsked (L.asked link.old) (L.asked link.new) (take many sources.now)) }
    ensures same { IsSameTest (L.gives link.old) (L.gives link.new) }
    ensures later { L.faults link.old ≤ L.faults link.new }
{
    let mut refusals = Vec::new(alloc);
    for (number, source) in sources.iter().enumerate() {
        match refusal_of(link, source, want) {
            None => {
                return Ok(Walk {
                    got: Some(number as u32),
                    refusals: List::of(refusals),
                });
            }
            Some(why) => refusals.push(Refused {
                source: number as u32,
                why,
            })?,
        }
    }
    Ok(Walk {
        got: None,
        refusals: List::of(refusals),
    })
}
