//! Two ledgers of the same lines.

ghost use Rattle.std.specs.Prelude.{◌≡◌, false, []};
ghost use Rattle.ledger_rules.specs.Logs.{checker_of};

use crate::checked::{CheckedLedger, accept};
use cnf_formula::ProofLine;
use ledger_rules::{Ledger, LedgerFault, LedgerView};
use lrat_checker::Checker;

/// Gives each line to a checker and to another ledger, beside whose stores it works.
#[derive(Drop)]
pub struct PairLedger<B: LedgerView> {
    checker: Checker,
    /// The checker has accepted a line that is not kept: a fault came between the two.
    ahead: bool,
    second: B,
    ghost checks: { ahead ≡ false → checker ≡ checker_of (B.base second) (B.lines second) },
}

impl<B: LedgerView> PairLedger<B> {
    /// The two as one. They have one formula and one limit, and no line, so of the first no more than
    /// its checker is needed.
    pub fn new<'a>(first: CheckedLedger<'a>, second: B) -> PairLedger<B>
        requires base { ⟦<CheckedLedger<'a> as LedgerView>⟧.base first ≡ B.base second }
        requires limit { ⟦<CheckedLedger<'a> as LedgerView>⟧.limit first ≡ B.limit second }
        requires empty { ⟦<CheckedLedger<'a> as LedgerView>⟧.lines first ≡ [] }
        requires none { B.lines second ≡ [] }
        ensures second { result.second ≡ second }
        ensures base { ⟦<PairLedger<B> as LedgerView>⟧.base result ≡ B.base second }
        ensures lines { ⟦<PairLedger<B> as LedgerView>⟧.lines result ≡ [] }
        ensures limit { ⟦<PairLedger<B> as LedgerView>⟧.limit result ≡ B.limit second }
    {
        PairLedger {
            checker: first.checker,
            ahead: first.ahead,
            second,
        }
    }

    /// The second.
    pub fn into_second(self) -> B
        ensures second { result ≡ self.second }
    {
        self.second
    }
}

impl<B: LedgerView> LedgerView for PairLedger<B> {
    ghost base = { λ pair. B.base pair.second };

    ghost lines = { λ pair. B.lines pair.second };

    ghost spent = { λ pair. B.spent pair.second };

    ghost limit = { λ pair. B.limit pair.second };

    fn room(&self) -> bool {
        self.second.room()
    }

    ghost within = { λ pair. B.within pair.second };

    ghost charged = { λ pair. B.charged pair.second };
}

impl<T, B: Ledger<T>> Ledger<T> for PairLedger<B> {
    ghost faults = { λ pair store. B.faults pair.second store };

    ghost agrees = { λ pair store. B.agrees pair.second store };

    ghost moves = { λ pair store later now. B.moves pair.second store later.second now };

    fn learn(&mut self, store: &mut T, line: &ProofLine) -> Result<(), LedgerFault> {
        if self.ahead {
            return Err(LedgerFault::OutOfMemory);
        }
        accept(&mut self.checker, line)?;
        self.ahead = true;
        self.second.learn(store, line)?;
        self.ahead = false;
        Ok(())
    }

    fn close(&mut self, store: &mut T, line: &ProofLine) -> Result<(), LedgerFault> {
        if self.ahead {
            return Err(LedgerFault::OutOfMemory);
        }
        accept(&mut self.checker, line)?;
        self.ahead = true;
        self.second.close(store, line)?;
        self.ahead = false;
        Ok(())
    }

    ghost moves_refl = { λ pair store. B.moves_refl pair.second store };

    ghost moves_trans = { λ a r b s c t first second. B.moves_trans a.second r b.second s c.second t first second };
}
