//! Whether proof lines refute a formula.

ghost use Rattle.std.specs.Prelude.{◌≡◌, IfOk, List};
ghost use Rattle.cnf_formula.specs.declared.line.LratLine.{LratLine};
ghost use Rattle.proof_rules.specs.Held.{start_of};
ghost use Rattle.proof_audit.specs.inner.Turns.{is_refuted, checker_after};

use crate::line_test::LineTest;
use cnf_formula::{Formula, LratLine, OutOfMemory};
use lrat_checker::Checker;
use std::alloc::Global;

/// Lines pass where each is accepted in its turn, and one has no literal.
#[derive(Drop)]
pub(crate) struct RefutationTest {
    checker: Checker,
}

impl RefutationTest {
    /// A test that took no line. An `Err` comes only where memory runs out.
    pub(crate) fn new(alloc: Global, formula: &Formula) -> Result<RefutationTest, OutOfMemory>
        ensures { IfOk result (λ test. (lines : List LratLine) → ⟦<RefutationTest as LineTest>⟧.passes test lines ≡ is_refuted (checker_after (start_of formula.now) lines)) }
    {
        Ok(RefutationTest {
            checker: Checker::new(alloc, formula)?,
        })
    }
}

impl LineTest for RefutationTest {
    ghost passes = { λ test lines. is_refuted (checker_after test.checker lines) };

    fn take(&mut self, line: LratLine) -> Result<bool, OutOfMemory> {
        let verdict = match line {
            LratLine::Addition(line) => self.checker.add(&line)?,
            LratLine::Deletion(deletion) => self.checker.delete(&deletion),
        };
        Ok(verdict.is_accepted())
    }

    fn passed(&self) -> bool {
        self.checker.refuted()
    }
}
