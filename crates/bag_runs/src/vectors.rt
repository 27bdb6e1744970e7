//! Worked bags.

ghost use Rattle.std.specs.Prelude.{◌≡◌, [], ◌∷◌};
ghost use Rattle.schedule.specs.Bags.{added, held_at_2};

/// Counts stop at 2.
pub fn counts_stop_at_2()
    ensures { held_at_2 (added (1 ∷ 1 ∷ 2 ∷ []) (0 ∷ 1 ∷ 2 ∷ [])) ≡ 1 ∷ 2 ∷ 2 ∷ [] }
{}
