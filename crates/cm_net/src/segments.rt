//! The segments of addresses between the ends of spans.
ghost use Rattle.std.specs.Prelude.{◌≡◌, IfOk, length};
ghost use Rattle.std.specs.List.Sorted.{IsNonDecreasingBy, IsPermutation, IsStrictlySortedBy};
ghost use Rattle.std.specs.Ordering.{nat_cmp};
ghost use Rattle.cm_net.specs.Entries.{TakesHalves, keys_in};
ghost use Rattle.cm_net.specs.Spans.{groups_at, AreSegmentsOf};

use crate::Steps;
use crate::entry::Entry;
use crate::halves::place_of;
use crate::reaches::{begun_at, groups_reaching};
use crate::span::Span;
use crate::turns::turns_of;
use cm_base::Memory;
use std::alloc::Global;
use std::collections::BTreeMap;
use std::sync::ledger::Ledger;

/// The spans in the order of their first addresses.
fn by_first(spans: Vec<Span>) -> Vec<Span>
    ensures order { IsNonDecreasingBy (λ span. span.first) result.items }
    ensures same { IsPermutation spans.items result.items }
{
    let mut spans = spans;
    spans.sort_unstable_by_key(|span| span.first);
    spans
}

/// The segments between the ends of the spans, from address 0 on: each is its first address with the numbers of the groups
/// that have it. One walk over the spans: at each end, those that begin there let their groups reach farther, and the groups
/// of the segment are those that reach to it.
pub(crate) fn segments_of(alloc: Global, spans: Vec<Span>) -> Result<Vec<Entry<u128>>, Memory>
    ensures { IfOk result (λ segments. AreSegmentsOf spans.items segments.items) }
{
    let turns = turns_of(alloc, &spans)?;
    let spans = by_first(spans);
    let mut reaches = BTreeMap::new(alloc);
    let mut begun = 0;
    let mut segments = Vec::new(alloc);
    for start in &turns {
        begun = begun_at(&mut reaches, &spans, begun, *start)?;
        let groups = groups_reaching(alloc, &reaches, *start)?;
        segments.push(Entry::new(*start, groups))?;
    }
    Ok(segments)
}

/// The groups of the segment that has the address.
pub(crate) fn groups_at<'a, L: Ledger>(
    segments: &'a [Entry<u128>],
    address: u128,
    steps: &mut Steps<L>,
) -> &'a [u16]
    requires { IsStrictlySortedBy nat_cmp (keys_in segments.now) }
    ensures groups { result.now ≡ groups_at segments.now address }
    ensures steps { TakesHalves (length segments.now) steps.old steps.new }
{
    match place_of(segments, &address, steps) {
        Ok(place) => segments[place].groups(),
        Err(0) => &[],
        Err(place) => segments[place - 1].groups(),
    }
}
