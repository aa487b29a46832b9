//! The choice of a pull point's source.
ghost use Rattle.std.specs.Prelude.{◌≡◌, length, MatchOption};
ghost use Rattle.cm_points.specs.declared.point.PullSource.{PullSource};
ghost use Rattle.cm_points.specs.Pulls.{is_before, chosen, IsNoneUsable, IsChoice};

use crate::PullSource;

/// Whether a source stands before another: by its priority, then by its name.
fn is_before(source: &PullSource, other: &PullSource) -> bool
    ensures { result ≡ is_before source.now other.now }
{
    source
        .priority
        .cmp(&other.priority)
        .then(source.point.cmp(&other.point))
        .is_lt()
}

/// The better one of a choice and a further source, if that is usable; of equal ones the earlier.
fn chosen(
    choice: Option<(usize, PullSource)>,
    number: usize,
    source: &PullSource,
    usable: bool,
) -> Option<(usize, PullSource)>
    ensures { result ≡ chosen choice number source.now usable }
{
    if !usable {
        return choice;
    }
    match choice {
        Some(held) => {
            if is_before(source, &held.1) {
                Some((number, *source))
            } else {
                Some(held)
            }
        }
        None => Some((number, *source)),
    }
}

/// The number of the source to pull from: of the usable ones the one with the least priority, of these the one with the
/// least name, and of equal ones the first. None exactly where none is usable.
pub fn pull_choice(sources: &[PullSource], usable: &[bool]) -> Option<usize>
    requires { length sources.now ≡ length usable.now }
    ensures { MatchOption result (IsNoneUsable (length sources.now) usable.now) (λ number. (source : PullSource) × IsChoice (length sources.now) sources.now usable.now number source) }
{
    let mut choice = None;
    for (number, source) in sources.iter().enumerate() {
        choice = chosen(choice, number, source, usable[number]);
    }
    match choice {
        Some(held) => Some(held.0),
        None => None,
    }
}
