//! The search for a model of a formula, or for a refutation.

ghost use Rattle.std.specs.Prelude.{◌≡◌, ◌≢◌, ◌↔◌, ◌+◌, ◌<◌, ◌≤◌, ◌^◌, true, Bool, List, [], length, map, Ok, Err, IsOk, IfOk, OnOk};
ghost use Rattle.cnf_formula.specs.{Formulas.Satisfies, Lines.ProofLineValue, declared.line.LratLine.TheVariants.Addition};
ghost use Rattle.proof_rules.specs.{declared.verdict.LineVerdict.TheVariants.Accepted, Judging.verdict_of, Refuting.{Refutes, SpentLog}};
ghost use Rattle.outer_ports.specs.Port.{HasCause};
ghost use Rattle.ledger_rules.specs.Logs.{checker_of};
ghost use Rattle.trail_core.specs.Meaning.{trues};
ghost use Rattle.sat_core.specs.{inner.{Guided.IsGuided, Loading.own_of, Totals.AreValues}, Ready.{AreNumbered, AreShort, IsReady}};

use crate::fault::SolveFault;
use crate::guide::Guide;
use crate::loading::load;
use crate::model::model_of;
use crate::searching::{End, search};
use cnf_formula::{Assignment, Formula};
use ledger_rules::Ledger;
use std::alloc::Global;
use trail_core::Core;

/// How a search ended.
#[derive(Debug, Drop)]
pub enum SatAnswer {
    /// The assignment satisfies the formula.
    Model(Assignment),
    /// The ledger's lines refute the formula.
    Refuted,
    /// As many lines were learned as may be.
    Spent,
}

/// The last variable that a literal can name.
const LAST_VARIABLE: u32 = 2_147_483_647;

/// What a search begins with: a core with the formula's clauses, and a guide of it.
fn prepared(alloc: Global, formula: &Formula, own: u32) -> Result<(Core, Guide), SolveFault>
    requires { own ≡ own_of formula.now.vars }
    ensures vars { IfOk result (λ both. both.0.vars ≡ own) }
    ensures ready { IfOk result (λ both. IsReady formula.now [] both.0 both.1.awake both.1.sleepers) }
    ensures guided { IfOk result (λ both. IsGuided both.0 both.1) }
    ensures fault { result ≢ Err SolveFault.LedgerFailed }
{
    let (core, awake) = load(alloc, formula, own)?;
    let guide = Guide::new(alloc, own, awake)?;
    Ok((core, guide))
}

/// The answer that a search's end gives: at `Total` the values of `vars` variables by the core,
/// which has the first `own`.
fn answer_of(
    alloc: Global,
    end: Result<End, SolveFault>,
    core: &Core,
    own: u32,
    vars: u32,
) -> Result<SatAnswer, SolveFault>
    requires own { own ≡ core.now.vars }
    requires small { own < 2147483648 }
    requires some { own ≤ vars }
    ensures model { (values : List Bool) → result ≡ Ok (SatAnswer.Model values)
        → (end ≡ Ok End.Total) × (length values ≡ vars) × AreValues (trues core.now) own values }
    ensures refuted { result ≡ Ok SatAnswer.Refuted → end ≡ Ok End.Refuted }
    ensures spent { result ≡ Ok SatAnswer.Spent → end ≡ Ok End.Spent }
    ensures answer { OnOk result (IsOk end) }
    ensures fault { result ≡ Err SolveFault.LedgerFailed ↔ end ≡ Err SolveFault.LedgerFailed }
{
    match end? {
        End::Total => Ok(SatAnswer::Model(model_of(alloc, core, own, vars)?)),
        End::Refuted => Ok(SatAnswer::Refuted),
        End::Spent => Ok(SatAnswer::Spent),
    }
}

/// Searches for an assignment that satisfies the formula, or for lines that refute it, by learning
/// a clause from each conflict (Marques-Silva and Sakallah 1999). The lines go to the ledger, which
/// has none yet; they are numbered on from the formula's clauses, and have at most one hint more
/// than the formula has variables.
///
/// `Spent` comes only where the ledger's limit is reached and no line without a literal follows
/// from what is held, so never where the limit is at least 3 to the number of variables.
/// [`SolveFault::LedgerFailed`] comes only where the ledger's store failed.
#[tactic(auto, using(std::proofs::lemmas::Bool::Decides::nat_tests, std::proofs::lemmas::Grind::common_steps, crate::proofs::Caused::no_answer, crate::proofs::Caused::on_fault, crate::proofs::Caused::still, crate::proofs::Caused::handed_other))]
pub fn solve<T, L: Ledger<T>>(
    alloc: Global,
    formula: &Formula,
    ledger: &mut L,
    store: &mut T,
) -> Result<SatAnswer, SolveFault>
    requires base { L.base ledger.old ≡ formula.now }
    requires empty { L.lines ledger.old ≡ [] }
    requires agrees { L.agrees ledger.old store.old }
    ensures model { (values : List Bool) → result ≡ Ok (SatAnswer.Model values) → Satisfies values formula.now }
    ensures refuted { result ≡ Ok SatAnswer.Refuted → Refutes (map Addition (L.lines ledger.new)) formula.now }
    ensures closed { result ≡ Ok SatAnswer.Refuted → length (L.lines ledger.new) ≤ L.limit ledger.new + 1 }
    ensures spent { result ≡ Ok SatAnswer.Spent → L.spent ledger.new ≡ L.limit ledger.new }
    ensures log { result ≡ Ok SatAnswer.Spent → SpentLog (L.lines ledger.new) formula.now (L.limit ledger.new) }
    ensures not_closed { result ≡ Ok SatAnswer.Spent → (line : ProofLineValue) → line.lits ≡ []
        → verdict_of (checker_of formula.now (L.lines ledger.new)) line ≡ Accepted true → ⊥ }
    ensures few { result ≡ Ok SatAnswer.Spent → L.limit ledger.new < 3 ^ formula.now.vars }
    ensures numbered { AreNumbered (length formula.now.clauses) (L.lines ledger.new) }
    ensures short { AreShort formula.now.vars (L.lines ledger.new) }
    ensures moves { L.moves ledger.old store.old ledger.new store.new }
    ensures agrees { OnOk result (L.agrees ledger.new store.new) }
    ensures base { L.base ledger.new ≡ L.base ledger.old }
    ensures limit { L.limit ledger.new ≡ L.limit ledger.old }
    ensures cause { HasCause SolveFault.LedgerFailed (L.faults ledger.old store.old) (L.faults ledger.new store.new) result }
{
    let own = formula.vars().min(LAST_VARIABLE);
    let (mut core, mut guide) = prepared(alloc, formula, own)?;
    let end = search(alloc, ledger, store, &mut core, &mut guide);
    answer_of(alloc, end, &core, own, formula.vars())
}
