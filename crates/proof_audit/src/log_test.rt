//! Whether proof lines are a spent log of a formula.

ghost use Rattle.std.specs.Prelude.{◌≡◌, ◌==◌, ◌&&◌, ◌⊎◌, ◌+◌, true, false, Ok, IfOk, List, length};
ghost use Rattle.cnf_formula.specs.declared.line.LratLine.{LratLine};
ghost use Rattle.proof_rules.specs.{Held.start_of, Judging.{verdict_of, is_implied}, Refuting.{is_fresh, with_line}};
ghost use Rattle.proof_audit.specs.inner.Turns.{are_taken};

use crate::line_test::LineTest;
use cnf_formula::{Formula, LratLine, OutOfMemory, ProofLine};
use lrat_checker::Checker;
use std::alloc::Global;

/// Lines pass where there are as many as are left, and each is an addition that is implied and
/// fresh in its turn.
#[derive(Drop)]
pub(crate) struct LogTest {
    checker: Checker,
    left: u32,
}

impl LogTest {
    /// A test that took no line, of so many. An `Err` comes only where memory runs out.
    pub(crate) fn new(alloc: Global, formula: &Formula, count: u32) -> Result<LogTest, OutOfMemory>
        ensures { IfOk result (λ test. (lines : List LratLine) → ⟦<LogTest as LineTest>⟧.passes test lines ≡ (length lines == count && are_taken (start_of formula.now) lines)) }
    {
        Ok(LogTest {
            checker: Checker::new(alloc, formula)?,
            left: count,
        })
    }

    /// Takes an addition, if one more may come.
    fn learn(&mut self, line: &ProofLine) -> Result<bool, OutOfMemory>
        ensures learned { result ≡ Ok true → (self.old.left ≡ self.new.left + 1) × (self.new.checker ≡ with_line self.old.checker line.now) × (is_implied (verdict_of self.old.checker line.now) ≡ true) × (is_fresh self.old.checker line.now.lits ≡ true) }
        ensures refused { result ≡ Ok false → (self.old.left ≡ 0) ⊎ ((is_implied (verdict_of self.old.checker line.now) && is_fresh self.old.checker line.now.lits) ≡ false) }
    {
        if self.left == 0 || !self.checker.learn(line)? {
            return Ok(false);
        }
        self.left -= 1;
        Ok(true)
    }
}

impl LineTest for LogTest {
    ghost passes = { λ test lines. length lines == test.left && are_taken test.checker lines };

    fn take(&mut self, line: LratLine) -> Result<bool, OutOfMemory> {
        match line {
            LratLine::Addition(line) => self.learn(&line),
            LratLine::Deletion(_) => Ok(false),
        }
    }

    fn passed(&self) -> bool {
        self.left == 0
    }
}
