//! The laws of the places of texts.
ghost use Rattle.std.specs.Prelude.{◌≡◌, ◌<◌, ◌^◌, ℕ};
ghost use Rattle.cm_log.specs.declared.shelf.Shelf.{Shelf as a_shelf};
ghost use Rattle.cm_log.specs.declared.shelf.Side.{Side as a_side};
ghost use Rattle.cm_log.specs.Shelves.{ready_place, log_place};
ghost use Rattle.cm_textlib.specs.Places.{topology_place};

/// Each number has a place of its own, and none is a place of a log.
pub fn numbers_have_their_own_places()
    ensures own { (a b : ℕ) → b < 2 ^ 32 → topology_place a ≡ topology_place b → a ≡ b }
    ensures ready { (number : ℕ) (shelf : a_shelf) → topology_place number ≡ ready_place shelf → ⊥ }
    ensures log { (number : ℕ) (shelf : a_shelf) (side : a_side) → topology_place number ≡ log_place shelf side → ⊥ }
{}
