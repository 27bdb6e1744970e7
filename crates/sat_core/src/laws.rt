//! Laws of what is learned at a conflict: it is accepted by its hints (RUP with hints, LRAT), and
//! is fresh.

ghost use Rattle.std.specs.Prelude.{◌≡◌, ◌≢◌, ◌↔◌, ℕ, ◌+◌, ◌<◌, ◌≤◌, ◌^◌, Bool, true, List, [], ◌∷◌, length, get_or, take, map, Contains, All, AllPairs};
ghost use Rattle.cnf_formula.specs.{Literals.{LitValue, has_literal}, Lines.ProofLineValue, Formulas.{FormulaValue, IsAbout, Satisfies}};
ghost use Rattle.proof_rules.specs.{declared.verdict.LineVerdict.TheVariants.Accepted, Held.{Entry, CheckerValue}, Judging.verdict_of, Accepting.Conflicts, Refuting.{is_fresh, SpentLog}};
ghost use Rattle.trail_core.specs.{Assigned.IsConsistent, Trails.{StepValue, lits_of}, Search.{IsSatisfied, IsUnit}, Meaning.{CoreValue, trues, IsClosed}, Formed.IsTrail};
ghost use Rattle.sat_core.specs.{inner.{Totals.{IsTotal, AreValues}, Holding.{AreNamed, AreAmongOr, Agree, IsNext}, Hints.numbers_to, Measure.{IsLess, remaining}}, Ready.IsReady};
ghost use Rattle.conflict_analysis.specs.{Learning.{IsAnalysis, hints_to}, Conflicts.IsConflict, Learned.IsLearned};
ghost use Rattle.sleeping_clauses.specs.{Naming.{name, IsNamed}, Sleeping.{SleepersValue, IsAsleep, HasNone}, declared.awake.Awake.Awake};

/// A literal stands in a clause exactly where the test finds it.
#[tactic(auto, using(crate::proofs::Members::found_exactly))]
pub fn literals_are_found_exactly()
    ensures { (clause : List LitValue) (l : LitValue) → (has_literal clause l ≡ true) ↔ Contains clause l }
{}

/// The reasons of the resolved steps in the order of the trail, and then the falsified clause, are
/// a conflict for what remains.
#[tactic(auto, using(crate::proofs::Hinted::hints_conflict))]
pub fn an_analysis_has_its_hints()
    ensures { (held : List Entry) (names : List ℕ) (clauses : List (List LitValue)) (steps : List StepValue) (resolved : StepValue → Bool) (conflict : ℕ) (clause : List LitValue) → AreNamed held names clauses → IsConsistent (lits_of steps)
        → IsAnalysis clauses steps resolved conflict clause → Conflicts held clause (numbers_to names resolved steps conflict) }
{}

/// What remains of an analysis is accepted where it names no variable twice.
pub fn an_analysis_is_accepted()
    ensures { (c : CheckerValue) (core : CoreValue) (names : List ℕ) (s : SleepersValue) (resolved : StepValue → Bool) (conflict : ℕ) (clause : List LitValue) (id : ℕ) → Agree c core names s → IsTrail core.vars core.trail core.limits
        → IsAnalysis core.clauses core.trail resolved conflict clause → AllPairs (λ a b. a.var ≢ b.var) clause → IsNext c id
        → verdict_of c (record { id = id; lits = clause; hints = map (name names) (hints_to resolved core.trail conflict) }) ≡ Accepted true }
{}

/// What is learned is accepted by the ledger's numbers, and short.
pub fn the_learned_line_is_accepted()
    ensures accepted { (c : CheckerValue) (core : CoreValue) (names : List ℕ) (held : ℕ) (s : SleepersValue) (conflict : ℕ) (learned line : ProofLineValue) → Agree c core names s → IsConflict core conflict → IsLearned core conflict learned → IsNamed names held learned line → IsNext c line.id
        → verdict_of c line ≡ Accepted true }
    ensures short { (core : CoreValue) (names : List ℕ) (held conflict : ℕ) (learned line : ProofLineValue) → IsConflict core conflict → IsLearned core conflict learned → IsNamed names held learned line → length line.hints ≤ core.vars + 1 }
{}

/// Above level 0 no held clause states it, where none that sleeps does.
pub fn the_learned_line_is_fresh()
    ensures fresh { (c : CheckerValue) (core : CoreValue) (names : List ℕ) (s : SleepersValue) (conflict : ℕ) (learned : ProofLineValue) → Agree c core names s → HasNone s learned.lits → IsConflict core conflict → 0 < length core.limits → IsLearned core conflict learned → is_fresh c learned.lits ≡ true }
    ensures unit { (c : CheckerValue) (clauses : List (List LitValue)) (s : SleepersValue) (trues clause : List LitValue) (l : LitValue) → AreAmongOr c.held clauses s → HasNone s clause → IsClosed trues clauses → IsUnit trues clause l → is_fresh c clause ≡ true }
{}

/// Above level 0 no line without a literal is accepted, where by the literals of level 0 no clause
/// that sleeps is falsified, and none is a unit clause.
pub fn no_line_closes_above_level_0()
    ensures { (c : CheckerValue) (core : CoreValue) (names : List ℕ) (s : SleepersValue) (conflict : ℕ) → Agree c core names s → ((clause : List LitValue) → IsAsleep s clause → IsClosed (take (get_or core.limits 0 0) (trues core)) (clause ∷ [])) → IsConflict core conflict → 0 < length core.limits
        → (line : ProofLineValue) → line.lits ≡ [] → verdict_of c line ≡ Accepted true → ⊥ }
{}

/// Each conflict for which a line is paid or a clause is woken, and each decision, leaves less to
/// do.
#[tactic(auto, using(crate::proofs::Measure::conflict_leaves_less, crate::proofs::Measure::decision_leaves_less))]
pub fn each_turn_leaves_less()
    ensures conflict { (limit spent spent' asleep asleep' vars len len' : ℕ) → IsLess spent asleep spent' asleep' → spent' ≤ limit → asleep' < 18446744073709551616 → remaining limit spent' asleep' vars len' < remaining limit spent asleep vars len }
    ensures decision { (limit spent asleep vars len len' : ℕ) → len < len' → len' ≤ vars → remaining limit spent asleep vars len' < remaining limit spent asleep vars len }
{}

/// Where nothing is left to decide, each clause of the core has a true literal.
#[tactic(auto, using(crate::proofs::Totality::total_satisfied))]
pub fn a_total_core_satisfies_its_clauses()
    ensures { (core : CoreValue) → IsTotal core → (clause : List LitValue) → Contains core.clauses clause → All (IsAbout core.vars) clause → IsSatisfied (trues core) clause }
{}

/// A log of lines, each implied and stated by none before, is shorter than 3 to the number of
/// variables: so many clauses there are that name no variable twice, and the one without a literal
/// is not among the lines.
#[tactic(auto, using(crate::proofs::Ternary::few_spent))]
pub fn logs_are_shorter_than_all_clauses()
    ensures { (f : FormulaValue) (lines : List ProofLineValue) (n : ℕ) → SpentLog lines f n → n < 3 ^ f.vars }
{}

/// Where nothing is left to decide, the values of the variables satisfy the formula.
pub fn a_total_core_has_a_model()
    ensures { (base : FormulaValue) (lines : List ProofLineValue) (core : CoreValue) (awake : Awake) (sleepers : SleepersValue) (values : List Bool) → IsReady base lines core awake sleepers → IsTotal core
        → length values ≡ base.vars → AreValues (trues core) core.vars values → Satisfies values base }
{}
