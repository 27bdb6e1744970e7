//! What the definitions give on small formulas.

ghost use Rattle.std.specs.Prelude.{◌≡◌, true, false, [], ◌∷◌, pos, negsuc};
ghost use Rattle.cnf_formula.specs.{Literals.{yes, no}, declared.line.LratLine.LratLine};
ghost use Rattle.proof_rules.specs.{Held.start_of, Judging.{verdict_of, deletion_verdict}, Refuting.{with_line, without_clauses, is_fresh, Refutes, SpentLog, Exhausted}};
ghost use Rattle.proof_rules.specs.Examples.{two_clauses, three_clauses, four_clauses, unit_of_four, end_of_four, eight_clauses, line_of_3, chain};

use crate::verdict::{LineCode, LineVerdict};
use cnf_formula::LratLine;

/// Over the clauses `1 2`, `1 -2`, `-1 2` and `-1 -2`: each line is given to a new checker.
pub fn lines_over_four_clauses()
    ensures accepted { verdict_of (start_of four_clauses) (record { id = 5; lits = yes 1 ∷ []; hints = pos 1 ∷ pos 2 ∷ [] }) ≡ LineVerdict.Accepted true }
    ensures id { verdict_of (start_of four_clauses) (record { id = 4; lits = yes 1 ∷ []; hints = pos 1 ∷ pos 2 ∷ [] }) ≡ LineVerdict.Refused LineCode.IdNotGreater 0 }
    ensures range { verdict_of (start_of four_clauses) (record { id = 5; lits = yes 3 ∷ []; hints = pos 1 ∷ pos 2 ∷ [] }) ≡ LineVerdict.Refused LineCode.VariableRange 0 }
    ensures twice { verdict_of (start_of four_clauses) (record { id = 5; lits = yes 1 ∷ no 1 ∷ []; hints = pos 1 ∷ pos 2 ∷ [] }) ≡ LineVerdict.Refused LineCode.VariableTwice 0 }
    ensures unknown { verdict_of (start_of four_clauses) (record { id = 5; lits = yes 1 ∷ []; hints = pos 9 ∷ pos 2 ∷ [] }) ≡ LineVerdict.Refused LineCode.UnknownHint 0 }
    ensures not_unit { verdict_of (start_of four_clauses) (record { id = 5; lits = []; hints = pos 1 ∷ pos 2 ∷ [] }) ≡ LineVerdict.Refused LineCode.HintNotUnit 0 }
    ensures no_conflict { verdict_of (start_of four_clauses) (record { id = 5; lits = yes 1 ∷ []; hints = pos 1 ∷ [] }) ≡ LineVerdict.Refused LineCode.NoConflict 0 }
    ensures after_conflict { verdict_of (start_of four_clauses) (record { id = 5; lits = yes 1 ∷ []; hints = pos 1 ∷ pos 2 ∷ pos 3 ∷ [] }) ≡ LineVerdict.Refused LineCode.HintsAfterConflict 2 }
    ensures negative { verdict_of (start_of four_clauses) (record { id = 5; lits = yes 1 ∷ []; hints = negsuc 0 ∷ pos 2 ∷ [] }) ≡ LineVerdict.Refused LineCode.PivotNotNegated 0 }
    ensures deletion { deletion_verdict (start_of four_clauses) (record { id = 5; ids = 9 ∷ [] }) ≡ LineVerdict.Refused LineCode.UnknownDeletion 0 }
{}

/// Two lines refute the four clauses. The first alone is a spent log of one line; it does not
/// exhaust the formula.
pub fn refutation_of_four_clauses()
    ensures second { verdict_of (with_line (start_of four_clauses) unit_of_four) end_of_four ≡ LineVerdict.Accepted true }
    ensures refutes { Refutes (LratLine.Addition unit_of_four ∷ LratLine.Addition end_of_four ∷ []) four_clauses }
    ensures spent { SpentLog (unit_of_four ∷ []) four_clauses 1 }
    ensures superset { is_fresh (start_of four_clauses) (yes 2 ∷ no 1 ∷ []) ≡ false }
{}

/// A clause that was deleted is no longer named by a hint, and is not deleted again.
pub fn deletions_from_four_clauses()
    ensures deleted { deletion_verdict (start_of four_clauses) (record { id = 5; ids = 4 ∷ 1 ∷ [] }) ≡ LineVerdict.Accepted false }
    ensures twice { deletion_verdict (start_of four_clauses) (record { id = 5; ids = 1 ∷ 1 ∷ [] }) ≡ LineVerdict.Refused LineCode.UnknownDeletion 0 }
    ensures hint { verdict_of (without_clauses (start_of four_clauses) (record { id = 5; ids = 4 ∷ 1 ∷ [] })) unit_of_four ≡ LineVerdict.Refused LineCode.UnknownHint 0 }
    ensures again { deletion_verdict (without_clauses (start_of four_clauses) (record { id = 5; ids = 4 ∷ 1 ∷ [] })) (record { id = 6; ids = 1 ∷ [] }) ≡ LineVerdict.Refused LineCode.UnknownDeletion 0 }
{}

/// The formula of every clause of all of three variables is exhausted by one line: no clause that
/// is then held has fewer than two literals.
pub fn exhausted_by_one_line()
    ensures { Exhausted eight_clauses 1 }
{}

/// The formula of one step on the line of three nodes falls by one line. Without the hint 9 the
/// last hint leaves a literal, and there is no conflict.
pub fn line_of_three_nodes()
    ensures accepted { verdict_of (start_of line_of_3) (record { id = 34; lits = []; hints = chain }) ≡ LineVerdict.Accepted true }
    ensures without_9 { verdict_of (start_of line_of_3) (record { id = 34; lits = []; hints = pos 2 ∷ pos 3 ∷ pos 16 ∷ pos 24 ∷ [] }) ≡ LineVerdict.Refused LineCode.NoConflict 0 }
{}

/// Lines with groups over the clauses `1 2` and `-1 2`: each is given to a new checker.
pub fn lines_over_two_clauses()
    ensures empty_prefix { verdict_of (start_of two_clauses) (record { id = 3; lits = yes 1 ∷ []; hints = negsuc 1 ∷ pos 1 ∷ [] }) ≡ LineVerdict.Accepted false }
    ensures true_already { verdict_of (start_of two_clauses) (record { id = 3; lits = yes 1 ∷ []; hints = pos 1 ∷ negsuc 1 ∷ [] }) ≡ LineVerdict.Accepted false }
    ensures no_group_needed { verdict_of (start_of two_clauses) (record { id = 3; lits = yes 1 ∷ []; hints = pos 1 ∷ [] }) ≡ LineVerdict.Accepted false }
    ensures no_hints { verdict_of (start_of two_clauses) (record { id = 3; lits = yes 1 ∷ []; hints = [] }) ≡ LineVerdict.Refused LineCode.NoConflict 0 }
    ensures empty_group { verdict_of (start_of two_clauses) (record { id = 3; lits = yes 1 ∷ []; hints = negsuc 1 ∷ [] }) ≡ LineVerdict.Refused LineCode.NoConflict 0 }
    ensures pivot_not_negated { verdict_of (start_of two_clauses) (record { id = 3; lits = yes 1 ∷ []; hints = negsuc 0 ∷ [] }) ≡ LineVerdict.Refused LineCode.PivotNotNegated 0 }
    ensures group_twice { verdict_of (start_of two_clauses) (record { id = 3; lits = yes 1 ∷ []; hints = negsuc 1 ∷ pos 1 ∷ negsuc 1 ∷ pos 1 ∷ [] }) ≡ LineVerdict.Refused LineCode.GroupTwice 2 }
    ensures no_pivot { verdict_of (start_of two_clauses) (record { id = 3; lits = []; hints = negsuc 1 ∷ pos 1 ∷ [] }) ≡ LineVerdict.Refused LineCode.NoPivot 0 }
    ensures first_is_pivot { verdict_of (start_of two_clauses) (record { id = 3; lits = yes 2 ∷ yes 1 ∷ []; hints = [] }) ≡ LineVerdict.Accepted false }
    ensures second_is_none { verdict_of (start_of two_clauses) (record { id = 3; lits = yes 1 ∷ yes 2 ∷ []; hints = [] }) ≡ LineVerdict.Refused LineCode.NoConflict 0 }
{}

/// With the clause `-1 3` added, a group is lacking.
pub fn group_lacking_over_three_clauses()
    ensures { verdict_of (start_of three_clauses) (record { id = 4; lits = yes 1 ∷ []; hints = negsuc 1 ∷ pos 1 ∷ [] }) ≡ LineVerdict.Refused LineCode.GroupMissing 0 }
{}
