//! The addresses at which what spans hold changes.
ghost use Rattle.std.specs.Prelude.{◌≡◌, ◌+◌, ◌*◌, ◌≤◌, ◌++◌, ◌∷◌, IfOk, OnOk, length};
ghost use Rattle.std.specs.List.{flat_map};
ghost use Rattle.cm_net.specs.Groups.{IsRisingOf};
ghost use Rattle.cm_net.specs.Spans.{turns_of_span};

use crate::numbers::rising_addresses;
use crate::span::Span;
use std::alloc::{AllocError, Global};

/// Adds the first address of the span, and the one behind its last where there is one.
fn add_turns(turns: &mut Vec<u128>, span: &Span) -> Result<(), AllocError>
    ensures { OnOk result (turns.new.items ≡ turns.old.items ++ turns_of_span span.now) }
{
    turns.push(span.first)?;
    if span.last < u128::MAX {
        turns.push(span.last + 1)?;
    }
    Ok(())
}

/// Address 0, and then the turns of each span, in the order of the spans.
fn all_turns(alloc: Global, spans: &[Span]) -> Result<Vec<u128>, AllocError>
    ensures { IfOk result (λ turns. turns.items ≡ 0 ∷ flat_map turns_of_span spans.now) }
{
    let mut turns = Vec::new(alloc);
    turns.push(0)?;
    for span in spans {
        add_turns(&mut turns, span)?;
    }
    Ok(turns)
}

/// Address 0 and the turns of the spans, each once, rising.
pub(crate) fn turns_of(alloc: Global, spans: &[Span]) -> Result<Vec<u128>, AllocError>
    ensures those { IfOk result (λ turns. IsRisingOf (0 ∷ flat_map turns_of_span spans.now) turns.items) }
    ensures few { IfOk result (λ turns. length turns.items ≤ 2 * length spans.now + 1) }
{
    Ok(rising_addresses(all_turns(alloc, spans)?))
}
