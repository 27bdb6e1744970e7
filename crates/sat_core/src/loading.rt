//! The core that a search begins with.

ghost use Rattle.std.specs.Prelude.{◌≡◌, ◌≢◌, ℕ, ◌<◌, ◌≤◌, true, false, [], length, slice_index, slice_set, Contains, All, AllPairs, IfOk, OnOk};
ghost use Rattle.cnf_formula.specs.{Literals.{LitValue, IsLit, code_of}, Formulas.IsClause};
ghost use Rattle.sat_core.specs.{inner.{Holding.IsSame, Loading.{own_of, IsLoaded}}, Ready.IsReady};
ghost use Rattle.sleeping_clauses.specs.Naming.{IsListed};

use cnf_formula::{ClauseList, Formula, Lit, OutOfMemory};
use sleeping_clauses::Awake;
use std::alloc::{AllocError, Global};
use trail_core::Core;

/// A clause of so few literals is looked through pair by pair for one that stands twice.
const FEW: usize = 6;

/// Whether a literal is one of these.
fn is_among(lit: Lit, lits: &[Lit]) -> bool
    ensures { result ≡ false → Contains lits.now lit → ⊥ }
{
    for other in lits {
        if *other == lit {
            return true;
        }
    }
    false
}

/// Whether no literal stands twice among these, by a look at each pair. Most clauses have two or
/// three.
#[tactic(auto, using(std::proofs::lemmas::Bool::Decides::nat_tests, std::proofs::lemmas::Grind::common_steps, crate::proofs::Apart::pair_apart, crate::proofs::Apart::three_apart))]
fn are_few_apart(lits: &[Lit]) -> bool
    ensures { result ≡ true → AllPairs (λ a b. a ≢ b) lits.now }
{
    match lits {
        [first, second] => first != second,
        [first, second, third] => first != second && first != third && second != third,
        _ => are_paired_apart(lits),
    }
}

/// The same for any number of literals.
fn are_paired_apart(lits: &[Lit]) -> bool
    ensures { result ≡ true → AllPairs (λ a b. a ≢ b) lits.now }
{
    for place in 0..lits.len() {
        if is_among(lits[place], &lits[..place]) {
            return false;
        }
    }
    true
}

/// Gives the number of a literal the mark. Whether it had another.
fn marks_at(seen: &mut Vec<u64>, lit: Lit, mark: u64) -> bool
    requires { IsLit lit → code_of lit < length seen.old.items }
    ensures marked { seen.new.items ≡ slice_set seen.old.items (code_of lit) mark }
    ensures other { result ≡ true → slice_index seen.old.items (code_of lit) ≢ mark }
    ensures same { result ≡ false → slice_index seen.old.items (code_of lit) ≡ mark }
    ensures lit { IsLit lit × (code_of lit < length seen.old.items) }
{
    let place = lit.code();
    let other = seen[place] != mark;
    seen[place] = mark;
    other
}

/// Whether no literal stands twice in a clause. `seen` has a place for the number of each literal,
/// none of which has this mark before.
#[tactic(auto, using(std::proofs::lemmas::Bool::Decides::nat_tests, std::proofs::lemmas::Grind::common_steps, crate::proofs::Members::list_steps, crate::proofs::Loaded::marks_below, std::proofs::lemmas::List::take_all))]
fn are_apart(lits: &[Lit], seen: &mut Vec<u64>, mark: u64) -> bool
    requires room { (l : LitValue) → IsLit l → Contains lits.now l → code_of l < length seen.old.items }
    requires unseen { (k : ℕ) → slice_index seen.old.items k < mark }
    ensures len { length seen.new.items ≡ length seen.old.items }
    ensures marked { (k : ℕ) → slice_index seen.new.items k ≤ mark }
    ensures once { result ≡ true → AllPairs (λ a b. a ≢ b) lits.now }
    ensures lits { result ≡ true → All IsLit lits.now }
{
    for lit in lits {
        if !marks_at(seen, *lit, mark) {
            return false;
        }
    }
    true
}

/// Keeps the literals of a clause, each once, in the order of their first places, in place of what
/// was kept. `seen` has a place for the number of each literal, none of which has this mark before.
fn once_each(
    kept: &mut Vec<Lit>,
    lits: &[Lit],
    seen: &mut Vec<u64>,
    mark: u64,
) -> Result<(), OutOfMemory>
    requires room { (l : LitValue) → IsLit l → Contains lits.now l → code_of l < length seen.old.items }
    requires unseen { (k : ℕ) → slice_index seen.old.items k < mark }
    ensures len { length seen.new.items ≡ length seen.old.items }
    ensures marked { (k : ℕ) → slice_index seen.new.items k ≤ mark }
    ensures same { OnOk result (IsSame lits.now kept.new.items) }
    ensures once { OnOk result (AllPairs (λ a b. a ≢ b) kept.new.items) }
    ensures lits { OnOk result (All IsLit kept.new.items) }
{
    kept.clear();
    for lit in lits {
        if marks_at(seen, *lit, mark) {
            kept.push(*lit)?;
        }
    }
    Ok(())
}

/// Whether no literal stands twice in a clause over so many variables. `seen` has this mark nowhere
/// before. `Err` comes only where memory runs out.
#[tactic(auto, using(std::proofs::lemmas::Bool::Decides::nat_tests, std::proofs::lemmas::Grind::common_steps, cnf_formula::proofs::Codes::code_within, crate::proofs::Members::list_steps, crate::proofs::Apart::resized_below))]
fn is_apart(own: u32, lits: &[Lit], seen: &mut Vec<u64>, mark: u64) -> Result<bool, OutOfMemory>
    requires about { IsClause own lits.now }
    requires unseen { (k : ℕ) → slice_index seen.old.items k < mark }
    ensures marked { (k : ℕ) → slice_index seen.new.items k ≤ mark }
    ensures once { IfOk result (λ apart. apart ≡ true → AllPairs (λ a b. a ≢ b) lits.now) }
{
    if lits.len() <= FEW {
        return Ok(are_few_apart(lits));
    }
    seen.resize(2 * own as usize + 2, 0)?;
    Ok(are_apart(lits, seen, mark))
}

/// Whether no clause has a literal twice.
#[tactic(auto, using(std::proofs::lemmas::Bool::Decides::nat_tests, std::proofs::lemmas::Grind::common_steps, crate::proofs::Listed::all_once))]
fn are_all_apart(alloc: Global, own: u32, clauses: &ClauseList) -> Result<bool, OutOfMemory>
    requires { All (IsClause own) clauses.now }
    ensures { IfOk result (λ apart. apart ≡ true → All (AllPairs (λ a b. a ≢ b)) clauses.now) }
{
    let mut seen = Vec::new(alloc);
    for place in 0..clauses.len() {
        if !is_apart(own, clauses.clause(place), &mut seen, place as u64 + 1)? {
            return Ok(false);
        }
    }
    Ok(true)
}

/// The clauses in their order, each literal of them once.
fn once_in_each(alloc: Global, own: u32, clauses: &ClauseList) -> Result<ClauseList, OutOfMemory>
    requires { All (IsClause own) clauses.now }
    ensures loaded { IfOk result (λ kept. IsLoaded clauses.now kept) }
    ensures within { IfOk result (λ kept. All (IsClause own) kept) }
    ensures once { IfOk result (λ kept. All (AllPairs (λ a b. a ≢ b)) kept) }
{
    let mut once = ClauseList::new(alloc);
    let mut kept = Vec::new(alloc);
    let mut seen = vec![in alloc; 0u64; 2 * own as usize + 2]?;
    for place in 0..clauses.len() {
        once_each(
            &mut kept,
            clauses.clause(place),
            &mut seen,
            place as u64 + 1,
        )?;
        once.push(&kept)?;
    }
    Ok(once)
}

/// A core with these clauses in their order, each literal of them once.
fn core_of(alloc: Global, own: u32, clauses: &ClauseList) -> Result<Core, OutOfMemory>
    requires { All (IsClause own) clauses.now }
    ensures vars { IfOk result (λ core. core.vars ≡ own) }
    ensures loaded { IfOk result (λ core. IsLoaded clauses.now core.clauses) }
    ensures once { IfOk result (λ core. All (AllPairs (λ a b. a ≢ b)) core.clauses) }
{
    if are_all_apart(alloc, own, clauses)? {
        return Core::of_clauses(alloc, own, clauses);
    }
    Core::of_clauses(alloc, own, &once_in_each(alloc, own, clauses)?)
}

/// Each of these is a literal that there is. It costs nothing.
#[tactic(auto, using(std::proofs::lemmas::List::get_or_default))]
fn know(lits: &[Lit])
    ensures { All IsLit lits.now }
{
    for lit in lits {
        let _code = lit.code();
    }
}

/// A core with the clauses of a formula in their order, each literal of them once, and the table of
/// them.
pub fn load(alloc: Global, formula: &Formula, own: u32) -> Result<(Core, Awake), OutOfMemory>
    requires { own ≡ own_of formula.now.vars }
    ensures vars { IfOk result (λ both. both.0.vars ≡ own) }
    ensures listed { IfOk result (λ both. IsListed both.0.clauses both.1) }
    ensures ready { IfOk result (λ both. IsReady formula.now [] both.0 both.1 (record { vars = own; clauses = []; numbers = []; asleep = [] })) }
{
    let clauses = formula.clauses();
    if clauses.len() >= u32::MAX as usize {
        return Err(AllocError);
    }
    know(clauses.lits());
    let core = core_of(alloc, own, clauses)?;
    let awake = Awake::of_formula(alloc, clauses.len() as u32)?;
    Ok((core, awake))
}
