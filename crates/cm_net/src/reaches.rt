//! How far the spans of each group reach.
ghost use Rattle.std.specs.Prelude.{◌≡◌, ◌≤◌, ◌<◌, ◌==◌, ℕ, All, IfOk, OnOk, length, take, drop, if◌then◌else◌};
ghost use Rattle.std.specs.BTreeMap.{get};
ghost use Rattle.std.specs.List.Sorted.{IsNonDecreasingBy};
ghost use Rattle.std.specs.Ordering.{nat_cmp};
ghost use Rattle.cm_net.specs.Spans.{AreReaching, AreReachesOf, farther};

use crate::span::Span;
use cm_base::Memory;
use std::alloc::{AllocError, Global};
use std::collections::BTreeMap;

/// Lets the group of the span reach to the last address of the span, or farther where it did so.
fn reach_to(reaches: &mut BTreeMap<u16, u128>, span: &Span) -> Result<(), Memory>
    ensures { OnOk result ((group : ℕ) → get nat_cmp reaches.new group
        ≡ (if group == span.now.group then farther (get nat_cmp reaches.old group) span.now.last else get nat_cmp reaches.old group)) }
{
    let last = match reaches.get(&span.group) {
        Some(reach) => span.last.max(*reach),
        None => span.last,
    };
    reaches.insert(span.group, last)?;
    Ok(())
}

/// Takes in the spans that begin up to the address: each lets its group reach farther. The spans are in the order of their
/// first addresses, and `begun` of them are taken in already; answers how many are then.
pub(crate) fn begun_at(
    reaches: &mut BTreeMap<u16, u128>,
    spans: &[Span],
    begun: usize,
    address: u128,
) -> Result<usize, Memory>
    requires order { IsNonDecreasingBy (λ span. span.first) spans.now }
    requires there { begun ≤ length spans.now }
    requires passed { All (λ span. span.first ≤ address) (take begun spans.now) }
    requires reaches { AreReachesOf (take begun spans.now) reaches.now }
    ensures there { IfOk result (λ begun. begun ≤ length spans.now) }
    ensures passed { IfOk result (λ begun. All (λ span. span.first ≤ address) (take begun spans.now)) }
    ensures ahead { IfOk result (λ begun. All (λ span. address < span.first) (drop begun spans.now)) }
    ensures reaches { IfOk result (λ begun. AreReachesOf (take begun spans.now) reaches.new) }
{
    let mut begun = begun;
    while begun < spans.len() && spans[begun].first <= address {
        reach_to(reaches, &spans[begun])?;
        begun += 1;
    }
    Ok(begun)
}

/// The groups that reach to the address, rising.
pub(crate) fn groups_reaching(
    alloc: Global,
    reaches: &BTreeMap<u16, u128>,
    address: u128,
) -> Result<Vec<u16>, AllocError>
    ensures { IfOk result (λ groups. AreReaching reaches.now address groups.items) }
{
    reaches
        .iter()
        .filter(|(_, last)| address <= **last)
        .map(|(group, _)| *group)
        .collect(alloc)
}
