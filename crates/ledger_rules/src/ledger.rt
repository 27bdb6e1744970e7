//! What a search writes its lines to.

ghost use Rattle.std.specs.Prelude.{◌≡◌, ◌↔◌, ℕ, ◌+◌, ◌<◌, ◌≤◌, IsTrue, true, List, [], ◌∷◌, ◌++◌, length, OnOk, OnErr};
ghost use Rattle.cnf_formula.specs.{Formulas.FormulaValue, Lines.ProofLineValue};
ghost use Rattle.proof_rules.specs.{declared.verdict.LineVerdict.TheVariants.Accepted, Judging.verdict_of, Refuting.is_fresh};
ghost use Rattle.outer_ports.specs.Port.{HasCause};
ghost use Rattle.ledger_rules.specs.Logs.{checker_of, learned};

use crate::fault::LedgerFault;
use cnf_formula::ProofLine;

/// A formula, the lines about it, how many of these were learned, and how many may be.
pub trait LedgerView {
    ghost base: { Self → FormulaValue };

    ghost lines: { Self → List ProofLineValue };

    ghost spent: { Self → ℕ };

    ghost limit: { Self → ℕ };

    /// Whether one more line may be learned.
    fn room(&self) -> bool
        ensures { IsTrue result ↔ (spent self.now < limit self.now) };

    ghost within: { (ledger : Self) → spent ledger ≤ limit ledger };

    ghost charged: { (ledger : Self) → spent ledger ≡ length (learned (lines ledger)) };
}

/// A ledger that works beside a store, which is lent to each call.
///
/// The store has a count of faults that never falls. `agrees` says that the store holds what the
/// ledger says, and `moves` what the calls up to a later ledger and store may have changed. After a
/// fault the ledger is not used again.
pub trait Ledger<T>: LedgerView {
    ghost faults: { Self → T → ℕ };

    ghost agrees: { Self → T → Type 0 };

    ghost moves: { Self → T → Self → T → Type 0 };

    /// Adds a line that follows from what is held and that no held clause states already, and
    /// charges one. [`LedgerFault::Failed`] comes only where the count of faults rose, and each
    /// other answer leaves the count as it was.
    fn learn(&mut self, store: &mut T, line: &ProofLine) -> Result<(), LedgerFault>
        requires room { Self.spent self.old < Self.limit self.old }
        requires implied { verdict_of (checker_of (Self.base self.old) (Self.lines self.old)) line.now ≡ Accepted true }
        requires fresh { is_fresh (checker_of (Self.base self.old) (Self.lines self.old)) line.now.lits ≡ true }
        requires agrees { agrees self.old store.old }
        ensures moves { moves self.old store.old self.new store.new }
        ensures agrees { OnOk result (agrees self.new store.new) }
        ensures lines { OnOk result (Self.lines self.new ≡ Self.lines self.old ++ line.now ∷ []) }
        ensures spent { OnOk result (Self.spent self.new ≡ Self.spent self.old + 1) }
        ensures kept { OnErr result ((Self.lines self.new ≡ Self.lines self.old) × (Self.spent self.new ≡ Self.spent self.old)) }
        ensures base { Self.base self.new ≡ Self.base self.old }
        ensures limit { Self.limit self.new ≡ Self.limit self.old }
        ensures cause { HasCause LedgerFault.Failed (faults self.old store.old) (faults self.new store.new) result };

    /// Adds a line without a literal that follows from what is held, and charges nothing.
    /// [`LedgerFault::Failed`] comes only where the count of faults rose, and each other answer
    /// leaves the count as it was.
    fn close(&mut self, store: &mut T, line: &ProofLine) -> Result<(), LedgerFault>
        requires implied { verdict_of (checker_of (Self.base self.old) (Self.lines self.old)) line.now ≡ Accepted true }
        requires empty { line.now.lits ≡ [] }
        requires agrees { agrees self.old store.old }
        ensures moves { moves self.old store.old self.new store.new }
        ensures agrees { OnOk result (agrees self.new store.new) }
        ensures lines { OnOk result (Self.lines self.new ≡ Self.lines self.old ++ line.now ∷ []) }
        ensures spent { Self.spent self.new ≡ Self.spent self.old }
        ensures kept { OnErr result (Self.lines self.new ≡ Self.lines self.old) }
        ensures base { Self.base self.new ≡ Self.base self.old }
        ensures limit { Self.limit self.new ≡ Self.limit self.old }
        ensures cause { HasCause LedgerFault.Failed (faults self.old store.old) (faults self.new store.new) result };

    ghost moves_refl: { (ledger : Self) (store : T) → moves ledger store ledger store };

    ghost moves_trans: { (a : Self) (r : T) (b : Self) (s : T) (c : Self) (t : T) → moves a r b s → moves b s c t → moves a r c t };
}
