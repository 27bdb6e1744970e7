//! A ledger that writes its lines, the learned clauses as LRAT additions, to a shelf.

ghost use Rattle.std.specs.Prelude.{◌≡◌, ◌≢◌, ◌⊎◌, ℕ, ◌<◌, ◌++◌, [], ◌∷◌, List, Some, IsTrue, take, IfOk, OnOk};
ghost use Rattle.outer_ports.specs.{Port.{HasCause, Tells}, Shelf.OthersStay};
ghost use Rattle.conflict_ledger.specs.Shelved.{log_name, log_text};

use crate::counted::CountedLedger;
use crate::line_log::LineLog;
use cnf_formula::{Formula, OutOfMemory, ProofLine};
use ledger_rules::{Ledger, LedgerFault, LedgerView};
use lrat_text::print_line;
use outer_ports::{FileKind, Part, ProofName, Shelf, append_all};
use std::alloc::Global;

/// Writes each line to the refutation of a candidate on a shelf, and each learned line to the log
/// of its search too, before it answers. It keeps no line in memory, and its formula is lent to it.
#[derive(Drop)]
pub struct ShelfLedger<'a> {
    counted: CountedLedger<'a>,
    lrat: ProofName,
    partial: ProofName,
    /// The text of a line, whose memory serves the next.
    text: Vec<u8>,
    ghost apart: { lrat ≢ partial },
}

/// Writes the text of a line (LRAT, Cruz-Filipe et al. 2017) in place of what was written before.
fn write_text(text: &mut Vec<u8>, line: &ProofLine) -> Result<(), OutOfMemory>
    ensures { OnOk result (text.new.items ≡ log_text (line.now ∷ [])) }
{
    text.clear();
    print_line(text, line)?;
    Ok(())
}

/// Appends a text to a file. After a fault a part of the text was appended, from its front.
fn put<H: Shelf>(shelf: &mut H, name: ProofName, text: &[u8]) -> Result<(), LedgerFault>
    ensures told { Tells (H.tells shelf.old) (H.tells shelf.new) }
    ensures whole { IsTrue (H.tells shelf.new) → (before : List ℕ) → H.file shelf.old name ≡ Some before → OnOk result (H.file shelf.new name ≡ Some (before ++ text.now)) }
    ensures front { IsTrue (H.tells shelf.new) → (before : List ℕ) → H.file shelf.old name ≡ Some before → (k : ℕ) × (H.file shelf.new name ≡ Some (before ++ take k text.now)) }
    ensures others { IsTrue (H.tells shelf.new) → OthersStay name (H.file shelf.old) (H.file shelf.new) }
    ensures cause { HasCause LedgerFault.Failed (H.faults shelf.old) (H.faults shelf.new) result }
{
    append_all(shelf, name, text)?;
    Ok(())
}

impl<'a> ShelfLedger<'a> {
    /// A ledger of a formula without a line, which takes at most `limit` learned lines. Its two
    /// files, the refutation and the log of the candidate of this part, are made or emptied; every
    /// other file stays, whatever is answered, and after a fault each of the two is as before or
    /// empty.
    pub fn new<H: Shelf>(
        alloc: Global,
        formula: &'a Formula,
        limit: u32,
        shelf: &mut H,
        part: Part,
        candidate: (u8, u8, u8),
    ) -> Result<ShelfLedger<'a>, LedgerFault>
        requires { part ≢ Part.Joined }
        ensures base { IfOk result (λ ledger. ⟦<ShelfLedger<'a> as LedgerView>⟧.base ledger ≡ formula.now) }
        ensures lines { IfOk result (λ ledger. ⟦<ShelfLedger<'a> as LedgerView>⟧.lines ledger ≡ []) }
        ensures limit { IfOk result (λ ledger. ⟦<ShelfLedger<'a> as LedgerView>⟧.limit ledger ≡ limit) }
        ensures lrat { IfOk result (λ ledger. ledger.lrat ≡ log_name FileKind.Lrat part candidate) }
        ensures partial { IfOk result (λ ledger. ledger.partial ≡ log_name FileKind.Partial part candidate) }
        ensures agrees { IfOk result (λ ledger. ⟦<ShelfLedger<'a> as Ledger<H>>⟧.agrees ledger shelf.new) }
        ensures told { Tells (H.tells shelf.old) (H.tells shelf.new) }
        ensures others { IsTrue (H.tells shelf.new) → (name : ProofName) → name ≢ log_name FileKind.Lrat part candidate → name ≢ log_name FileKind.Partial part candidate → H.file shelf.new name ≡ H.file shelf.old name }
        ensures files { IsTrue (H.tells shelf.new) → (kind : FileKind) → let name = log_name kind part candidate in (H.file shelf.new name ≡ H.file shelf.old name) ⊎ (H.file shelf.new name ≡ Some []) }
        ensures cause { HasCause LedgerFault.Failed (H.faults shelf.old) (H.faults shelf.new) result }
    {
        let (s, r, c) = candidate;
        let lrat = ProofName {
            kind: FileKind::Lrat,
            part,
            s,
            r,
            c,
        };
        let partial = ProofName {
            kind: FileKind::Partial,
            part,
            s,
            r,
            c,
        };
        shelf.begin(lrat)?;
        shelf.begin(partial)?;
        Ok(ShelfLedger {
            counted: CountedLedger::new(formula, limit),
            lrat,
            partial,
            text: Vec::new(alloc),
        })
    }

    /// What lines were added, in their order.
    pub fn into_log(self) -> LineLog
        ensures { result ≡ ⟦<ShelfLedger<'a> as LedgerView>⟧.lines self.entry }
    {
        self.counted.into_log()
    }
}

impl<'a> LedgerView for ShelfLedger<'a> {
    ghost base = { λ ledger. ⟦<CountedLedger<'a> as LedgerView>⟧.base ledger.counted };

    ghost lines = { λ ledger. ⟦<CountedLedger<'a> as LedgerView>⟧.lines ledger.counted };

    ghost spent = { λ ledger. ⟦<CountedLedger<'a> as LedgerView>⟧.spent ledger.counted };

    ghost limit = { λ ledger. ⟦<CountedLedger<'a> as LedgerView>⟧.limit ledger.counted };

    fn room(&self) -> bool {
        self.counted.room()
    }

    ghost within = { λ ledger. ledger.counted.within };

    ghost charged = { λ ledger. ledger.counted.charged };
}

impl<'a, H: Shelf> Ledger<H> for ShelfLedger<'a> {
    ghost use Rattle.conflict_ledger.specs.{Beside.beside, Shelved.{ShelfAgrees, ShelfMoves, ShelfMoves-refl, ShelfMoves-trans}};

    ghost faults = { λ _ shelf. H.faults shelf };

    ghost agrees = { λ a shelf. ShelfAgrees (beside a (H.tells shelf) (H.file shelf)) (⟦<CountedLedger<'a> as LedgerView>⟧.lines a.counted) };

    ghost moves = { λ a r b s. ShelfMoves (beside a (H.tells r) (H.file r)) (beside b (H.tells s) (H.file s)) };

    fn learn(&mut self, store: &mut H, line: &ProofLine) -> Result<(), LedgerFault> {
        write_text(&mut self.text, line)?;
        put(store, self.lrat, &self.text)?;
        put(store, self.partial, &self.text)?;
        self.counted.take(line, 1);
        Ok(())
    }

    fn close(&mut self, store: &mut H, line: &ProofLine) -> Result<(), LedgerFault> {
        write_text(&mut self.text, line)?;
        put(store, self.lrat, &self.text)?;
        self.counted.take(line, 0);
        Ok(())
    }

    ghost moves_refl = { λ a shelf. ShelfMoves-refl (beside a (H.tells shelf) (H.file shelf)) };

    ghost moves_trans = { λ a r b s c t first second. ShelfMoves-trans (beside a (H.tells r) (H.file r)) (beside b (H.tells s) (H.file s)) (beside c (H.tells t) (H.file t)) first second };
}
