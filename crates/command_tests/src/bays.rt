//! Bays that a site may be made of.
ghost use Rattle.std.specs.Prelude.{◌≡◌, true, codes};
ghost use Rattle.cm_groups.specs.Names.{is_among};
ghost use Rattle.cm_site.specs.Bays.{AreBays, AreDistinct, AreInOrder, names_of};

use cm_base::ServerName;
use cm_top::Bay;

// Whether a bay has the name.
fn has_name<D>(bays: &[Bay<D>], name: ServerName) -> bool
    ensures { result ≡ is_among (names_of bays.now) name }
{
    for bay in bays {
        if bay.name == name {
            return true;
        }
    }
    false
}

fn are_distinct<D>(bays: &[Bay<D>]) -> bool
    ensures { result ≡ true → AreDistinct (names_of bays.now) }
{
    for at in 0..bays.len() {
        if has_name(&bays[at + 1..], bays[at].name) {
            return false;
        }
    }
    true
}

// Whether the site's bay is the first, and the records' bay the second or none.
fn are_in_order<D>(bays: &[Bay<D>]) -> bool
    ensures { result ≡ true → AreInOrder (names_of bays.now) }
{
    match bays {
        [] => false,
        [first] => first.name.as_bytes() == b"site".as_slice(),
        [first, _, others @ ..] => {
            first.name.as_bytes() == b"site".as_slice() && !has_records(others)
        }
    }
}

// Whether a bay is that of the records.
fn has_records<D>(bays: &[Bay<D>]) -> bool
    ensures { result ≡ is_among (names_of bays.now) (codes "records") }
{
    for bay in bays {
        if bay.name.as_bytes() == b"records".as_slice() {
            return true;
        }
    }
    false
}

/// Whether a site may be made of these bays.
pub(crate) fn are_bays<D>(bays: &[Bay<D>]) -> bool
    ensures { result ≡ true → AreBays bays.now }
{
    bays.len() <= 66 && are_in_order(bays) && are_distinct(bays)
}
