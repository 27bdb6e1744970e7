//! A ledger that checks each line (as RUP along its hints).

ghost use Rattle.std.specs.Prelude.{◌≡◌, ◌≤◌, ◌+◌, List, [], ◌∷◌, ◌++◌, true, false, length, refl, IfOk, OnErr, OnOk};
ghost use Rattle.cnf_formula.specs.{Formulas.FormulaValue, Lines.ProofLineValue};
ghost use Rattle.proof_rules.specs.{declared.verdict.LineVerdict.TheVariants.Accepted, Judging.verdict_of};
ghost use Rattle.ledger_rules.specs.Logs.{checker_of, learned};

use crate::kept::KeptLedger;
use cnf_formula::{Formula, OutOfMemory, ProofLine};
use ledger_rules::{Ledger, LedgerFault, LedgerView, LineList};
use lrat_checker::{Checker, LineVerdict};
use std::alloc::Global;

/// Keeps its lines in memory, and gives each to a checker first. It writes nothing, and works
/// beside any store. Its formula is lent to it.
#[derive(Drop)]
pub struct CheckedLedger<'a> {
    pub(crate) kept: KeptLedger<'a>,
    pub(crate) checker: Checker,
    /// The checker has accepted a line that is not kept: a fault came between the two.
    pub(crate) ahead: bool,
    ghost checks: { ahead ≡ false → checker ≡ checker_of kept.base.now kept.lines },
}

/// Gives the checker a line that it accepts.
pub(crate) fn accept(checker: &mut Checker, line: &ProofLine) -> Result<(), OutOfMemory>
    requires { verdict_of checker.old line.now ≡ Accepted true }
    ensures accepted { OnOk result ((base : FormulaValue) (lines : List ProofLineValue) → checker.old ≡ checker_of base lines → checker.new ≡ checker_of base (lines ++ line.now ∷ [])) }
    ensures kept { OnErr result (checker.new ≡ checker.old) }
{
    match checker.add(line)? {
        LineVerdict::Accepted { .. } => Ok(()),
        LineVerdict::Refused { .. } => unreachable!(),
    }
}

impl<'a> CheckedLedger<'a> {
    /// A ledger of a formula without a line, which takes at most `limit` learned lines.
    pub fn new(
        alloc: Global,
        formula: &'a Formula,
        limit: u32,
    ) -> Result<CheckedLedger<'a>, OutOfMemory>
        ensures base { IfOk result (λ ledger. ⟦<CheckedLedger<'a> as LedgerView>⟧.base ledger ≡ formula.now) }
        ensures lines { IfOk result (λ ledger. ⟦<CheckedLedger<'a> as LedgerView>⟧.lines ledger ≡ []) }
        ensures limit { IfOk result (λ ledger. ⟦<CheckedLedger<'a> as LedgerView>⟧.limit ledger ≡ limit) }
    {
        Ok(CheckedLedger {
            kept: KeptLedger::new(alloc, formula, limit)?,
            checker: Checker::new(alloc, formula)?,
            ahead: false,
        })
    }

    /// The lines, in the order in which they were added.
    pub fn lines(&self) -> &LineList
        ensures { result.now ≡ ⟦<CheckedLedger<'a> as LedgerView>⟧.lines self.now }
    {
        self.kept.lines()
    }

    /// Gives the checker a line, and keeps it, for this much. Where the checker is ahead of the lines
    /// already, since a line that it has accepted was not kept, out of memory is answered.
    fn keep(&mut self, line: &ProofLine, charge: u32) -> Result<(), OutOfMemory>
        requires implied { verdict_of (checker_of self.old.kept.base.now self.old.kept.lines) line.now ≡ Accepted true }
        requires within { self.old.kept.spent + charge ≤ self.old.kept.limit }
        requires charged { self.old.kept.spent + charge ≡ length (learned (self.old.kept.lines ++ line.now ∷ [])) }
        ensures base { self.new.kept.base.now ≡ self.old.kept.base.now }
        ensures lines { OnOk result (self.new.kept.lines ≡ self.old.kept.lines ++ line.now ∷ []) }
        ensures spent { OnOk result (self.new.kept.spent ≡ self.old.kept.spent + charge) }
        ensures kept_lines { OnErr result (self.new.kept.lines ≡ self.old.kept.lines) }
        ensures kept_spent { OnErr result (self.new.kept.spent ≡ self.old.kept.spent) }
        ensures limit { self.new.kept.limit ≡ self.old.kept.limit }
    {
        if self.ahead {
            return Err(OutOfMemory);
        }
        accept(&mut self.checker, line)?;
        self.ahead = true;
        self.kept.keep(line, charge)?;
        self.ahead = false;
        Ok(())
    }
}

impl<'a> LedgerView for CheckedLedger<'a> {
    ghost base = { λ ledger. ⟦<KeptLedger<'a> as LedgerView>⟧.base ledger.kept };

    ghost lines = { λ ledger. ⟦<KeptLedger<'a> as LedgerView>⟧.lines ledger.kept };

    ghost spent = { λ ledger. ⟦<KeptLedger<'a> as LedgerView>⟧.spent ledger.kept };

    ghost limit = { λ ledger. ⟦<KeptLedger<'a> as LedgerView>⟧.limit ledger.kept };

    fn room(&self) -> bool {
        self.kept.room()
    }

    ghost within = { λ ledger. ledger.kept.within };

    ghost charged = { λ ledger. ledger.kept.charged };
}

impl<'a, T> Ledger<T> for CheckedLedger<'a> {
    ghost use Rattle.std.proofs.Common.{◌∙◌};

    ghost faults = { λ _ _. 0 };

    ghost agrees = { λ _ _. Unit {0} };

    ghost moves = { λ _ before _ now. now ≡ before };

    fn learn(&mut self, store: &mut T, line: &ProofLine) -> Result<(), LedgerFault> {
        self.keep(line, 1)?;
        Ok(())
    }

    fn close(&mut self, store: &mut T, line: &ProofLine) -> Result<(), LedgerFault> {
        self.keep(line, 0)?;
        Ok(())
    }

    ghost moves_refl = { λ _ _. refl };

    ghost moves_trans = { λ _ _ _ _ _ _ first second. second ∙ first };
}
