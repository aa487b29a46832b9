//! Asking one source.
ghost use Rattle.std.specs.Prelude.{◌≤◌, ◌∷◌, [], MatchOption};
ghost use Rattle.cm_peer.specs.Links.{IsSameTest, WasAsked, RoseBy};
ghost use Rattle.cm_peer.specs.Walks.{IsWhy, link_faults};

use crate::{Answer, Link, SourceRow, Want, Why};

/// Asks a source for what is wanted. None: it serves it. Else why it does not.
pub(crate) fn refusal_of<L: Link>(link: &mut L, source: &SourceRow, want: &Want) -> Option<Why>
    ensures answer { MatchOption result (L.gives link.old source.now want.now (Answer.Serve want.now.hash)) (IsWhy (L.gives link.old) want.now source.now) }
    ensures same { IsSameTest (L.gives link.old) (L.gives link.new) }
    ensures asks { WasAsked (L.asked link.old) (L.asked link.new) (source.now ∷ []) }
    ensures count { RoseBy (link_faults result) (L.faults link.old) (L.faults link.new) }
    ensures later { L.faults link.old ≤ L.faults link.new }
{
    match link.offer(source, want) {
        Ok(Answer::Serve { hash }) => {
            if hash == want.hash {
                None
            } else {
                Some(Why::OtherManifest { got: hash })
            }
        }
        Ok(Answer::Refused(cause)) => Some(Why::Cause(cause)),
        Err(_) => Some(Why::Link),
    }
}
