//! Tests of proof lines.

ghost use Rattle.std.specs.Prelude.{◌≡◌, [], ◌∷◌, Bool, true, false, List, Ok};
ghost use Rattle.cnf_formula.specs.declared.line.LratLine.{LratLine};

use cnf_formula::{LratLine, OutOfMemory};

/// What takes proof lines, in their order, and says whether they pass.
pub(crate) trait LineTest {
    // Whether what is taken already and these lines, as the last, pass.
    ghost passes: { Self → List LratLine → Bool };

    /// Takes a line. `false` says that no lines that begin so pass.
    fn take(&mut self, line: LratLine) -> Result<bool, OutOfMemory>
        ensures more { result ≡ Ok true → (more : List LratLine) → passes self.old (line ∷ more) ≡ passes self.new more }
        ensures over { result ≡ Ok false → (more : List LratLine) → passes self.old (line ∷ more) ≡ false };

    /// Whether the lines pass, of which all were taken.
    fn passed(&self) -> bool
        ensures { result ≡ passes self.now [] };
}
