//! What lines of a proof there were, in no memory.

ghost use Rattle.std.specs.Prelude.{◌≡◌, ◌↔◌, ◌==◌, false, [], ◌∷◌, ◌++◌, length};
ghost use Rattle.ledger_rules.specs.Logs.{learned};

use crate::ghost_lines::GhostLines;
use cnf_formula::ProofLine;
use std::marker::Model;

/// The lines of a proof, in order, as clauses see them. None is kept, only whether there is one and
/// whether one was learned.
#[derive(Drop)]
pub struct LineLog {
    lines: GhostLines,
    empty: bool,
    any_learned: bool,
}

impl Model for LineLog {
    ghost use Rattle.std.specs.Prelude.{◌≡◌, ◌↔◌, ◌==◌, List, [], length, false};
    ghost use Rattle.cnf_formula.specs.Lines.{ProofLineValue};
    ghost use Rattle.ledger_rules.specs.Logs.{learned};

    ghost Value = { List ProofLineValue };

    ghost view = { λ a. a.lines.lines };

    ghost invariant = { λ a. (a.empty ≡ (length a.lines.lines == 0)) × (a.any_learned ≡ false ↔ learned a.lines.lines ≡ []) };
}

impl LineLog {
    /// No line.
    pub fn new() -> LineLog
        ensures { result ≡ [] }
    {
        LineLog {
            lines: GhostLines::none(),
            empty: true,
            any_learned: false,
        }
    }

    /// Whether there is no line.
    pub fn is_empty(&self) -> bool
        ensures { result ≡ (length self.now == 0) }
    {
        self.empty
    }

    /// Whether a line was learned. One that closes a refutation was not: it has no literal.
    pub fn has_learned(&self) -> bool
        ensures { result ≡ false ↔ learned self.now ≡ [] }
    {
        self.any_learned
    }

    /// Adds a line.
    pub fn push(&mut self, line: &ProofLine)
        ensures { self.new ≡ self.old ++ line.now ∷ [] }
    {
        self.lines = self.lines.with(line);
        self.empty = false;
        self.any_learned = self.any_learned || !line.lits.is_empty();
    }
}
