//! Laws of counting.

ghost use Rattle.std.specs.Prelude.{◌≡◌, ◌+◌, ◌*◌, ℕ, ◌<◌, ◌≤◌, Bool, List, length, All, Decides};
ghost use Rattle.cnf_formula.specs.{Literals.{LitValue, all_hold}, Formulas.IsAbout};
ghost use Rattle.cardinality.specs.{Counting.{IsCounter, true_inputs, at_most_one_of}, Totalizers.totalizer_of};

/// The clauses of pairs hold exactly where at most one of the inputs is true.
#[tactic(auto, using(crate::proofs::Pairs::pairs_decide))]
pub fn pairs_leave_at_most_one()
    ensures { (values : List Bool) (inputs : List LitValue) → Decides (all_hold values (at_most_one_of inputs)) (true_inputs values inputs ≤ 1) }
{}

/// The totalizer counts: where its clauses hold, each output is true for which enough inputs are,
/// and each assignment of the variables before it extends to one in which the outputs are true
/// exactly there.
pub fn totalizer_counts()
    ensures { (before : ℕ) (inputs : List LitValue) (bound : ℕ) → 0 < length inputs → All (IsAbout before) inputs → IsCounter before inputs bound (totalizer_of before inputs bound) }
{}

/// n inputs have n(n - 1)/2 clauses of pairs.
#[tactic(auto, using(crate::proofs::FewClauses::pairs_are_few))]
pub fn pairs_are_counted()
    ensures { (inputs : List LitValue) → length (at_most_one_of inputs) * 2 + length inputs ≡ length inputs * length inputs }
{}

/// A totalizer is small: with each input come at most bound + 1 variables and (bound + 2)² clauses.
#[tactic(auto, using(crate::proofs::FewClauses::few_variables, crate::proofs::FewClauses::few_clauses))]
pub fn totalizers_are_small()
    ensures variables { (before : ℕ) (inputs : List LitValue) (bound : ℕ) → 0 < length inputs → (totalizer_of before inputs bound).vars ≤ length inputs * (bound + 1) }
    ensures clauses { (before : ℕ) (inputs : List LitValue) (bound : ℕ) → 0 < length inputs → length (totalizer_of before inputs bound).clauses ≤ length inputs * ((bound + 2) * (bound + 2)) }
{}
