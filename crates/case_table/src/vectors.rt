//! Worked tables: what the definitions say of two rows.

ghost use Rattle.std.specs.Prelude.{◌≡◌, [], ◌∷◌, true, false, Some, None, codes};
ghost use Rattle.case_table.specs.Rows.{is_one_to_one, value_at, word_at};

/// Rows are a table where their words differ and their numbers differ.
pub fn no_word_and_no_number_stand_twice()
    ensures apart { is_one_to_one ((codes "line", 0) ∷ (codes "ring", 1) ∷ []) ≡ true }
    ensures word { is_one_to_one ((codes "line", 0) ∷ (codes "line", 1) ∷ []) ≡ false }
    ensures number { is_one_to_one ((codes "line", 0) ∷ (codes "ring", 0) ∷ []) ≡ false }
{}

/// A word has its number, a number its word, and an unknown one has none.
pub fn look_ups_go_both_ways()
    ensures value { value_at ((codes "line", 0) ∷ (codes "ring", 1) ∷ []) (codes "ring") ≡ Some 1 }
    ensures word { word_at ((codes "line", 0) ∷ (codes "ring", 1) ∷ []) 1 ≡ Some (codes "ring") }
    ensures no_value { value_at ((codes "line", 0) ∷ (codes "ring", 1) ∷ []) (codes "rin") ≡ None }
    ensures no_word { word_at ((codes "line", 0) ∷ (codes "ring", 1) ∷ []) 2 ≡ None }
{}
