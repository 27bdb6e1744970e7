//! What the definitions give on small inputs.

ghost use Rattle.std.specs.Prelude.{◌≡◌, [], ◌∷◌};
ghost use Rattle.cnf_formula.specs.Literals.{yes, no};
ghost use Rattle.cardinality.specs.{Counting.at_most_one_of, Totalizers.totalizer_of};

/// A clause for each pair of three literals.
pub fn pairs_of_three()
    ensures { at_most_one_of (yes 1 ∷ no 2 ∷ yes 3 ∷ []) ≡ (no 1 ∷ yes 2 ∷ []) ∷ (no 1 ∷ no 3 ∷ []) ∷ (yes 2 ∷ no 3 ∷ []) ∷ [] }
{}

/// Three inputs are counted up to 2 by a totalizer: 4 and 5 count the last two, 6 and 7 all.
pub fn totalizer_of_three_inputs()
    ensures { totalizer_of 3 (yes 1 ∷ yes 2 ∷ yes 3 ∷ []) 1 ≡ record {
      vars = 4;
      clauses = (no 3 ∷ yes 4 ∷ []) ∷ (no 2 ∷ yes 4 ∷ []) ∷ (no 2 ∷ no 3 ∷ yes 5 ∷ [])
          ∷ (no 4 ∷ yes 6 ∷ []) ∷ (no 5 ∷ yes 7 ∷ []) ∷ (no 1 ∷ yes 6 ∷ []) ∷ (no 1 ∷ no 4 ∷ yes 7 ∷ []) ∷ [];
      outputs = yes 6 ∷ yes 7 ∷ [];
    } }
{}

/// One input, variable 7, is counted up to 2 by the variables 11 and 12.
pub fn totalizer_of_one_input()
    ensures { totalizer_of 10 (yes 7 ∷ []) 1 ≡ record { vars = 2; clauses = (no 7 ∷ yes 11 ∷ []) ∷ []; outputs = yes 11 ∷ yes 12 ∷ [] } }
{}

/// Five inputs up to 3.
pub fn totalizer_of_five_inputs()
    ensures { totalizer_of 11 (yes 11 ∷ no 4 ∷ no 5 ∷ no 10 ∷ yes 2 ∷ []) 2 ≡ record { vars = 10; clauses = (yes 4 ∷ yes 12 ∷ []) ∷ (no 11 ∷ yes 12 ∷ []) ∷ (no 11 ∷ yes 4 ∷ yes 13 ∷ []) ∷ (no 2 ∷ yes 14 ∷ []) ∷ (yes 10 ∷ yes 14 ∷ []) ∷ (yes 10 ∷ no 2 ∷ yes 15 ∷ []) ∷ (no 14 ∷ yes 16 ∷ []) ∷ (no 15 ∷ yes 17 ∷ []) ∷ (yes 5 ∷ yes 16 ∷ []) ∷ (yes 5 ∷ no 14 ∷ yes 17 ∷ []) ∷ (yes 5 ∷ no 15 ∷ yes 18 ∷ []) ∷ (no 16 ∷ yes 19 ∷ []) ∷ (no 17 ∷ yes 20 ∷ []) ∷ (no 18 ∷ yes 21 ∷ []) ∷ (no 12 ∷ yes 19 ∷ []) ∷ (no 12 ∷ no 16 ∷ yes 20 ∷ []) ∷ (no 12 ∷ no 17 ∷ yes 21 ∷ []) ∷ (no 13 ∷ yes 20 ∷ []) ∷ (no 13 ∷ no 16 ∷ yes 21 ∷ []) ∷ []; outputs = yes 19 ∷ yes 20 ∷ yes 21 ∷ [] } }
{}

/// Three inputs, where more are counted than there are.
pub fn totalizer_beyond_its_inputs()
    ensures { totalizer_of 12 (no 2 ∷ yes 12 ∷ no 8 ∷ []) 6 ≡ record { vars = 9; clauses = (yes 8 ∷ yes 13 ∷ []) ∷ (no 12 ∷ yes 13 ∷ []) ∷ (no 12 ∷ yes 8 ∷ yes 14 ∷ []) ∷ (no 13 ∷ yes 15 ∷ []) ∷ (no 14 ∷ yes 16 ∷ []) ∷ (yes 2 ∷ yes 15 ∷ []) ∷ (yes 2 ∷ no 13 ∷ yes 16 ∷ []) ∷ (yes 2 ∷ no 14 ∷ yes 17 ∷ []) ∷ []; outputs = yes 15 ∷ yes 16 ∷ yes 17 ∷ yes 18 ∷ yes 19 ∷ yes 20 ∷ yes 21 ∷ [] } }
{}

/// An input that stands twice counts twice.
pub fn totalizer_of_one_input_twice()
    ensures { totalizer_of 18 (yes 6 ∷ yes 6 ∷ []) 4 ≡ record { vars = 5; clauses = (no 6 ∷ yes 19 ∷ []) ∷ (no 6 ∷ yes 19 ∷ []) ∷ (no 6 ∷ no 6 ∷ yes 20 ∷ []) ∷ []; outputs = yes 19 ∷ yes 20 ∷ yes 21 ∷ yes 22 ∷ yes 23 ∷ [] } }
{}
