//! Spans of one group that leave no gap, as one span.
ghost use Rattle.std.specs.Prelude.{◌≡◌, ◌++◌, ◌∷◌, [], ◌+◌, ◌≤◌, ℕ, IfOk, IsTrue, OnOk, length};
ghost use Rattle.cm_net.specs.Spans.{GoesOn, is_held};

use crate::span::Span;
use std::alloc::AllocError;

/// Whether the span is of the group of the one before, begins in it or later, and leaves no gap.
fn goes_on(before: &Span, span: &Span) -> bool
    ensures { IsTrue result → GoesOn before.now span.now }
{
    before.group == span.group
        && before.first <= span.first
        && (span.first <= before.last || span.first - before.last == 1)
}

/// The last span, behind the others, with a further one: as one span with it, or by itself behind it.
fn with_span(others: &mut Vec<Span>, last: Span, span: Span) -> Result<Span, AllocError>
    ensures same { IfOk result (λ end. (address group : ℕ) → is_held (others.new.items ++ end ∷ []) address group
        ≡ is_held ((others.old.items ++ last ∷ []) ++ span ∷ []) address group) }
    ensures few { OnOk result (length others.new.items ≤ length others.old.items + 1) }
{
    if goes_on(&last, &span) {
        return Ok(Span {
            first: last.first,
            last: last.last.max(span.last),
            group: last.group,
        });
    }
    others.push(last)?;
    Ok(span)
}

/// Adds the span: as one with the last where it leaves no gap behind it, or else by itself. So the names of ranges that stand in
/// their order make few spans.
pub(crate) fn add_joined(spans: &mut Vec<Span>, span: Span) -> Result<(), AllocError>
    ensures same { OnOk result ((address group : ℕ) → is_held spans.new.items address group ≡ is_held (spans.old.items ++ span ∷ []) address group) }
    ensures few { OnOk result (length spans.new.items ≤ length spans.old.items + 1) }
{
    let end = match spans.pop() {
        Some(last) => with_span(spans, last, span)?,
        None => span,
    };
    spans.push(end)?;
    Ok(())
}
