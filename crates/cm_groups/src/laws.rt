//! What holds of the definitions themselves.
ghost use Rattle.std.specs.Prelude.{◌≤◌, ℕ, Bool, IsTrue, List};
ghost use Rattle.cm_groups.specs.declared.group.Group.{Group};
ghost use Rattle.cm_groups.specs.Reach.{is_reached};

/// A group that is reached after some minutes is reached after more.
pub fn minutes_take_no_group_away()
    ensures { (groups : List Group) (current : List ℕ) (elapsed later : ℕ) (neighbours default_group : Bool) (number : ℕ) → elapsed ≤ later
        → IsTrue (is_reached groups current elapsed neighbours default_group number)
        → IsTrue (is_reached groups current later neighbours default_group number) }
{}
