//! What groups prefer, and whether they have a point.
ghost use Rattle.std.specs.Prelude.{◌≡◌, ◌<◌, ℕ, List, All, length};
ghost use Rattle.cm_groups.specs.Current.{passes};
ghost use Rattle.cm_groups.specs.Reach.{some_current};
ghost use Rattle.cm_locate.specs.Clients.{AreMarksOf};
ghost use Rattle.cm_locate.specs.Eligible.{is_in};

use cm_base::ServerName;
use cm_groups::{Groups, Marks};

/// Whether one of the marked groups has the point.
pub(crate) fn is_in(groups: &Groups, marks: &Marks, name: &ServerName) -> bool
    ensures { (numbers : List ℕ) → AreMarksOf numbers marks.now → result ≡ is_in groups.now name.now numbers }
{
    marks.has_one(groups.having(name))
}

/// Whether the group prefers points.
fn prefers(groups: &Groups, number: u16) -> bool
    requires { number < length groups.now }
    ensures { result ≡ passes (λ group. group.options.prefer_points) groups.now number }
{
    groups.options(number).prefer_points
}

/// Whether one of the groups of these numbers prefers points.
pub(crate) fn some_prefers(groups: &Groups, numbers: &[u16]) -> bool
    requires { All (λ number. number < length groups.now) numbers.now }
    ensures { result ≡ some_current (λ group. group.options.prefer_points) groups.now numbers.now }
{
    numbers.iter().any(|number| prefers(groups, *number))
}
