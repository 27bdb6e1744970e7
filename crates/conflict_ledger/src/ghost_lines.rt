//! The lines of a proof as clauses alone see them.

ghost use Rattle.std.specs.Prelude.{◌≡◌, List, [], ◌∷◌, ◌++◌};
ghost use Rattle.cnf_formula.specs.Lines.{ProofLineValue};
ghost use base.Fml.{ftrue};

use cnf_formula::ProofLine;
use std::marker::Model;

/// Lines that only clauses see: it has no bytes, so what its lines are is said by the two functions
/// that make one, and by nothing else.
#[derive(Drop)]
pub(crate) struct GhostLines {
    pub ghost lines: { List ProofLineValue },
}

impl Model for GhostLines {
    ghost also_owns = { λ _. ftrue };
}

impl GhostLines {
    /// No line.
    pub(crate) fn none() -> GhostLines
        ensures { result.lines ≡ [] }
    {
        GhostLines {}
    }

    /// These lines, and one more.
    pub(crate) fn with(&self, line: &ProofLine) -> GhostLines
        ensures { result.lines ≡ self.now.lines ++ line.now ∷ [] }
    {
        GhostLines {}
    }
}
