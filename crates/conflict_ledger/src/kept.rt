//! A ledger that keeps its lines, the learned clauses as LRAT additions, in memory.

ghost use Rattle.std.specs.Prelude.{◌≡◌, ◌≤◌, ◌+◌, [], ◌∷◌, ◌++◌, length, refl, IfOk, OnOk, OnErr};
ghost use Rattle.ledger_rules.specs.Logs.{learned};

use cnf_formula::{Formula, OutOfMemory, ProofLine};
use ledger_rules::{Ledger, LedgerFault, LedgerView, LineList};
use std::alloc::Global;

/// Keeps its lines in memory, and writes nothing: it works beside any store. Its formula is lent to
/// it.
#[derive(Drop)]
pub struct KeptLedger<'a> {
    base: &'a Formula,
    lines: LineList,
    spent: u32,
    limit: u32,
    ghost within: { spent ≤ limit },
    ghost charged: { spent ≡ length (learned lines) },
}

impl<'a> KeptLedger<'a> {
    /// A ledger of a formula without a line, which takes at most `limit` learned lines.
    pub fn new(
        alloc: Global,
        formula: &'a Formula,
        limit: u32,
    ) -> Result<KeptLedger<'a>, OutOfMemory>
        ensures base { IfOk result (λ ledger. ⟦<KeptLedger<'a> as LedgerView>⟧.base ledger ≡ formula.now) }
        ensures lines { IfOk result (λ ledger. ⟦<KeptLedger<'a> as LedgerView>⟧.lines ledger ≡ []) }
        ensures limit { IfOk result (λ ledger. ⟦<KeptLedger<'a> as LedgerView>⟧.limit ledger ≡ limit) }
    {
        Ok(KeptLedger {
            base: formula,
            lines: LineList::new(alloc),
            spent: 0,
            limit,
        })
    }

    /// Keeps a line, and charges this much. An `Err` comes where [`LineList::push`] gives one, and then
    /// the ledger is as before.
    pub(crate) fn keep(&mut self, line: &ProofLine, charge: u32) -> Result<(), OutOfMemory>
        requires within { self.old.spent + charge ≤ self.old.limit }
        requires charged { self.old.spent + charge ≡ length (learned (self.old.lines ++ line.now ∷ [])) }
        ensures base { self.new.base.now ≡ self.old.base.now }
        ensures lines { OnOk result (self.new.lines ≡ self.old.lines ++ line.now ∷ []) }
        ensures spent { OnOk result (self.new.spent ≡ self.old.spent + charge) }
        ensures kept_lines { OnErr result (self.new.lines ≡ self.old.lines) }
        ensures kept_spent { OnErr result (self.new.spent ≡ self.old.spent) }
        ensures limit { self.new.limit ≡ self.old.limit }
    {
        self.lines.push(line)?;
        self.spent += charge;
        Ok(())
    }

    /// The lines, in the order in which they were added.
    pub fn lines(&self) -> &LineList
        ensures { result.now ≡ ⟦<KeptLedger<'a> as LedgerView>⟧.lines self.now }
    {
        &self.lines
    }

    /// The lines, in the order in which they were added.
    pub fn into_lines(self) -> LineList
        ensures { result ≡ ⟦<KeptLedger<'a> as LedgerView>⟧.lines self.entry }
    {
        self.lines
    }
}

impl<'a> LedgerView for KeptLedger<'a> {
    ghost base = { λ ledger. ledger.base.now };

    ghost lines = { λ ledger. ledger.lines };

    ghost spent = { λ ledger. ledger.spent };

    ghost limit = { λ ledger. ledger.limit };

    fn room(&self) -> bool {
        self.spent < self.limit
    }

    ghost within = { λ ledger. ledger.within };

    ghost charged = { λ ledger. ledger.charged };
}

impl<'a, T> Ledger<T> for KeptLedger<'a> {
    ghost use Rattle.std.proofs.Common.{◌∙◌};

    ghost faults = { λ _ _. 0 };

    ghost agrees = { λ _ _. Unit {0} };

    ghost moves = { λ _ before _ now. now ≡ before };

    fn learn(&mut self, store: &mut T, line: &ProofLine) -> Result<(), LedgerFault> {
        self.keep(line, 1)?;
        Ok(())
    }

    fn close(&mut self, store: &mut T, line: &ProofLine) -> Result<(), LedgerFault> {
        self.keep(line, 0)?;
        Ok(())
    }

    ghost moves_refl = { λ _ _. refl };

    ghost moves_trans = { λ _ _ _ _ _ _ first second. second ∙ first };
}
