//! A ledger that counts the lines that it takes, the learned clauses as LRAT additions, and keeps
//! none.

ghost use Rattle.std.specs.Prelude.{◌≡◌, ◌≤◌, ◌+◌, [], ◌∷◌, ◌++◌, length, refl};
ghost use Rattle.ledger_rules.specs.Logs.{learned};

use crate::line_log::LineLog;
use cnf_formula::{Formula, ProofLine};
use ledger_rules::{Ledger, LedgerFault, LedgerView};

/// Counts its learned lines. It keeps no line and writes none, so that it needs no memory and works
/// beside any store. Its formula is lent to it.
#[derive(Drop)]
pub struct CountedLedger<'a> {
    base: &'a Formula,
    lines: LineLog,
    spent: u32,
    limit: u32,
    ghost within: { spent ≤ limit },
    ghost charged: { spent ≡ length (learned lines) },
}

impl<'a> CountedLedger<'a> {
    /// A ledger of a formula without a line, which takes at most `limit` learned lines.
    pub fn new(formula: &'a Formula, limit: u32) -> CountedLedger<'a>
        ensures base { ⟦<CountedLedger<'a> as LedgerView>⟧.base result ≡ formula.now }
        ensures lines { ⟦<CountedLedger<'a> as LedgerView>⟧.lines result ≡ [] }
        ensures limit { ⟦<CountedLedger<'a> as LedgerView>⟧.limit result ≡ limit }
    {
        CountedLedger {
            base: formula,
            lines: LineLog::new(),
            spent: 0,
            limit,
        }
    }

    /// Takes a line, and charges this much.
    pub(crate) fn take(&mut self, line: &ProofLine, charge: u32)
        requires within { self.old.spent + charge ≤ self.old.limit }
        requires charged { self.old.spent + charge ≡ length (learned (self.old.lines ++ line.now ∷ [])) }
        ensures base { self.new.base.now ≡ self.old.base.now }
        ensures lines { self.new.lines ≡ self.old.lines ++ line.now ∷ [] }
        ensures spent { self.new.spent ≡ self.old.spent + charge }
        ensures limit { self.new.limit ≡ self.old.limit }
    {
        self.lines.push(line);
        self.spent += charge;
    }

    /// What lines were added, in their order.
    pub fn into_log(self) -> LineLog
        ensures { result ≡ ⟦<CountedLedger<'a> as LedgerView>⟧.lines self.entry }
    {
        self.lines
    }
}

impl<'a> LedgerView for CountedLedger<'a> {
    ghost base = { λ ledger. ledger.base.now };

    ghost lines = { λ ledger. ledger.lines };

    ghost spent = { λ ledger. ledger.spent };

    ghost limit = { λ ledger. ledger.limit };

    fn room(&self) -> bool {
        self.spent < self.limit
    }

    ghost within = { λ ledger. ledger.within };

    ghost charged = { λ ledger. ledger.charged };
}

impl<'a, T> Ledger<T> for CountedLedger<'a> {
    ghost use Rattle.std.proofs.Common.{◌∙◌};

    ghost faults = { λ _ _. 0 };

    ghost agrees = { λ _ _. Unit {0} };

    ghost moves = { λ _ before _ now. now ≡ before };

    fn learn(&mut self, store: &mut T, line: &ProofLine) -> Result<(), LedgerFault> {
        self.take(line, 1);
        Ok(())
    }

    fn close(&mut self, store: &mut T, line: &ProofLine) -> Result<(), LedgerFault> {
        self.take(line, 0);
        Ok(())
    }

    ghost moves_refl = { λ _ _. refl };

    ghost moves_trans = { λ _ _ _ _ _ _ first second. second ∙ first };
}
