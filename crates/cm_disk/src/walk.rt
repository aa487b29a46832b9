//! A walk over the places of one form.
ghost use Rattle.std.specs.Prelude.{◌≡◌, ◌<◌, List, ℕ, Bool, Some, true, false, is_some, option_map, IfOk, IfSome};
ghost use Rattle.std.specs.Option.{ForSome};
ghost use Rattle.hex.specs.Hex.{IsBytes};
ghost use Rattle.cm_base.specs.Causes.{HasCause};
ghost use Rattle.cm_disk.specs.Disk.{IsImage, LeavesNoMore, LeavesOnly, is_above, IsNext};
ghost use Rattle.cm_disk.specs.Ranks.{ahead, IsText, Rises};
ghost use Rattle.cm_disk.specs.Walks.{only_at};

use crate::{Disk, DiskFault};
use cm_base::Place;

/// A form of places, all of which stand in one folder. A type with no fields stands for it.
pub trait Form {
    /// What a place of the form names.
    type Named: Copy;

    /// Whether a text is a place of the form.
    ghost is_form: { List ℕ → Bool };

    /// The place of what is named.
    ghost place_of: { Self.Named → List ℕ };

    /// The folder, which is below each place of the form.
    fn folder() -> Place
        ensures { (q : List ℕ) → is_form q ≡ true → is_above (Some result) q ≡ true };

    /// The place of what is named.
    fn place(named: Self::Named) -> Place
        ensures { result ≡ place_of named };

    /// What a place names. None exactly where it is not of the form.
    fn named(place: &Place) -> Option<Self::Named>
        ensures form { is_some result ≡ is_form place.now }
        ensures place { IfSome result (λ named. place_of named ≡ place.now) };

    /// Whether a place is behind the folder, so that no place of the form is above it.
    fn is_past(place: &Place) -> bool
        ensures { result ≡ true → (q : List ℕ) → is_above (Some place.now) q ≡ true → is_form q ≡ false };
}

/// What the next place of a form names, of those that are there, in the byte order of the places. None behind the last. It goes on
/// from `after`, past places of other forms, and no further than the folder.
pub fn next_of_form<F: Form, D: Disk>(
    disk: &mut D,
    after: Option<F::Named>,
) -> Result<Option<F::Named>, DiskFault>
    ensures least { IfOk result (λ next. ForSome (D.reads disk.old) (λ files. IsNext (only_at F.is_form files) (option_map F.place_of after) (option_map F.place_of next))) }
    // Whatever the disk, a walk goes on, and ends.
    ensures above { IfOk result (λ next. IfSome next (λ named. is_above (option_map F.place_of after) (F.place_of named) ≡ true)) }
    ensures nearer { IfOk result (λ next. IfSome next (λ named. ahead (Some (F.place_of named)) < ahead (option_map F.place_of after))) }
    ensures same { D.reads disk.new ≡ D.reads disk.old }
    ensures stop { LeavesNoMore (D.may_leave disk.old) (D.may_leave disk.new) }
    ensures run { LeavesOnly D.moment D.left_since disk.old disk.new (IsImage (D.may_leave disk.old)) }
    ensures cause { HasCause (D.faults disk.old) (D.faults disk.new) result }
{
    match after {
        Some(named) => first_above::<F, D>(disk, F::place(named)),
        None => first_above::<F, D>(disk, F::folder()),
    }
}

// The first above a place.
fn first_above<F: Form, D: Disk>(disk: &mut D, from: Place) -> Result<Option<F::Named>, DiskFault>
    ensures least { IfOk result (λ next. ForSome (D.reads disk.old) (λ files. IsNext (only_at F.is_form files) (Some from) (option_map F.place_of next))) }
    ensures rises { IfOk result (λ next. IfSome next (λ named. Rises from (F.place_of named))) }
    ensures same { D.reads disk.new ≡ D.reads disk.old }
    ensures stop { LeavesNoMore (D.may_leave disk.old) (D.may_leave disk.new) }
    ensures run { LeavesOnly D.moment D.left_since disk.old disk.new (IsImage (D.may_leave disk.old)) }
    ensures cause { HasCause (D.faults disk.old) (D.faults disk.new) result }
{
    show_text(&from);
    let mut at = from;
    loop {
        let Some(place) = disk.next_place(Some(&at))? else {
            return Ok(None);
        };
        show_text(&place);
        if let Some(named) = F::named(&place) {
            return Ok(Some(named));
        }
        if F::is_past(&place) {
            return Ok(None);
        }
        at = place;
    }
}

// A place is a text, which is said here alone.
fn show_text(place: &Place)
    ensures { IsText place.now }
{
    let text = place.as_bytes();
    show_bytes(text);
}

// Bytes are below 256, which is said here alone.
fn show_bytes(text: &[u8])
    ensures { IsBytes text.now }
{
    let _many = text.len();
}
