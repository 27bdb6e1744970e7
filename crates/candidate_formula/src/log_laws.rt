//! Laws of the texts of proof lines.

ghost use Rattle.std.specs.Prelude.{◌≡◌, ◌↔◌, ◌≤◌, ℕ, List, Ok, Some, All, length, map};
ghost use Rattle.cnf_formula.specs.{Lines.ProofLineValue, declared.line.LratLine.{LratLine, TheVariants.Addition}};
ghost use Rattle.lrat_text.specs.Printing.{lrat_text, IsReadable};
ghost use Rattle.candidate_formula.specs.{Lines.lines_of_text, ProofTexts.IsProofText, ReadLines.lines_said, Files.longest_proof, Logs.{IsShortLine, most_lines}};

/// The lines that a text says are the same where its faults are told, and where they are not.
pub fn lines_are_said_without_their_faults()
    ensures { (bytes : List ℕ) (lines : List LratLine) → (lines_of_text bytes ≡ Ok lines) ↔ (lines_said bytes ≡ Some lines) }
{}

/// The lines that a text says are those that its words spell.
pub fn proof_texts_are_read_as_they_are_spelled()
    ensures { (bytes : List ℕ) (lines : List LratLine) → (lines_said bytes ≡ Some lines) ↔ IsProofText bytes lines }
{}

/// The text of lines whose numbers a reader takes says just these lines.
#[tactic(auto, using(crate::proofs::ReadBack::text_says))]
pub fn logs_are_read_back()
    ensures { (lines : List LratLine) → All IsReadable lines → lines_of_text (lrat_text lines) ≡ Ok lines }
{}

/// The text of at most 100,001 additions, each with at most 2,097,152 literals and at most one hint
/// more, is not too long for a file of proof lines.
#[tactic(auto, using(crate::proofs::Short::log_short))]
pub fn logs_are_short()
    ensures { (lines : List ProofLineValue) → All IsReadable (map Addition lines) → All IsShortLine lines → length lines ≤ most_lines → length (lrat_text (map Addition lines)) ≤ longest_proof }
{}
