//! Faults of small topologies, and what carries over.

ghost use Rattle.std.specs.Prelude.{◌≡◌, true, false, [], ◌∷◌};
ghost use Rattle.schedule.specs.Rows.{line_of_3, only};
ghost use Rattle.candidate_order.specs.Rows.{at};
ghost use Rattle.link_faults.specs.{Narrowed.narrowed, Rows.{line_without_first, shared_pair}, Carrying.is_carrier};

/// A link is gone from a row of three nodes.
pub fn links_go()
    ensures first { narrowed line_of_3 0 0 ≡ line_without_first }
    ensures second { narrowed line_of_3 1 0 ≡ record { nodes = 3; groups = only 0 1 1 ∷ only 1 2 1 ∷ only 2 1 1 ∷ [] } }
{}

/// The links of a group are gone from every group, and one that has none left is dropped; but a
/// narrower group keeps them.
pub fn links_go_from_every_group()
    ensures all { narrowed (shared_pair 4) 0 0 ≡ record { nodes = 2; groups = [] } }
    ensures one { narrowed (shared_pair 4) 1 0 ≡ record { nodes = 2; groups = only 1 0 4 ∷ [] } }
    ensures narrower { narrowed (shared_pair 4) 0 3 ≡ shared_pair 3 }
{}

/// A candidate carries one of as many steps, no more rounds and no fewer chunks, and no other.
pub fn some_carry()
    ensures itself { is_carrier (at 1 1 1) (at 1 1 1) ≡ true }
    ensures harder { is_carrier (at 2 3 1) (at 2 2 2) ≡ true }
    ensures more_steps { is_carrier (at 1 1 1) (at 2 2 1) ≡ false }
    ensures more_rounds { is_carrier (at 2 2 1) (at 2 3 1) ≡ false }
    ensures fewer_chunks { is_carrier (at 2 2 2) (at 2 2 1) ≡ false }
{}
