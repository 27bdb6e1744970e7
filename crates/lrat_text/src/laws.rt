//! Laws of reading: what is said does not depend on how the bytes were cut, and what is printed is
//! read.

ghost use Rattle.std.specs.Prelude.{◌≡◌, ◌≢◌, ℕ, Bool, true, false, List, [], ◌++◌, length, All, Ok, Err, Some, None};
ghost use Rattle.text_lines.specs.Text.{rows_of, line};
ghost use Rattle.cnf_formula.specs.declared.line.LratLine.{LratLine};
ghost use Rattle.lrat_text.specs.{Printing.{line_words, IsReadable}, Reading.{ReaderValue, nothing_said, said_by, fed, said_to, after_next}, declared.fault.LratTextFault.LratTextFault};

use crate::fault::LratTextFault;

/// A line or a fault that a reader says to its bytes it says whatever is fed behind them.
#[tactic(auto, using(crate::proofs::Cutting::said_whatever_follows))]
pub fn lines_stay()
    ensures { (r : ReaderValue) (piece : List ℕ) → r.finished ≡ false → ((said_to r).answer ≡ Ok None → ⊥) → said_to (fed r piece) ≡ said_to r }
{}

/// To ask for a line where there is none changes nothing: with more bytes the answer is the same,
/// and so is the reader behind it.
#[tactic(auto, using(crate::proofs::Cutting::nothing_is_lost))]
pub fn nothing_is_lost()
    ensures { (r : ReaderValue) (piece : List ℕ) → r.finished ≡ false → (said_to r).answer ≡ Ok None
        → ((said_to (fed (after_next r) piece)).answer ≡ (said_to (fed r piece)).answer) × (after_next (fed (after_next r) piece) ≡ after_next (fed r piece)) }
{}

/// Before the text is finished, no line is said where the rest has no line feed, and where none is
/// said the reader keeps none. Once it is finished, none is said only where every byte belongs to a
/// line that was given or passed over.
#[tactic(auto, using(crate::proofs::Remaining::left_unfinished, crate::proofs::Remaining::left_finished, crate::proofs::Remaining::nothing_in_clear))]
pub fn none_is_said_where_none_is_left()
    ensures none_held { (r : ReaderValue) → r.fault ≡ None → r.finished ≡ false → All (λ b. b ≢ 10) r.rest → said_to r ≡ nothing_said }
    ensures none_kept { (r : ReaderValue) → r.finished ≡ false → (said_to r).answer ≡ Ok None → All (λ b. b ≢ 10) (after_next r).rest }
    ensures none_left { (r : ReaderValue) → r.finished ≡ true → (said_to r).answer ≡ Ok None → (after_next r).rest ≡ [] }
{}

/// A fault is kept, and said again and again, whatever comes. Out of memory is never said.
#[tactic(auto, using(crate::proofs::Remaining::kept_fault, crate::proofs::Cutting::said_fault, crate::proofs::Memory::said_told))]
pub fn faults_stay()
    ensures kept { (r : ReaderValue) (fault : LratTextFault) → (said_to r).answer ≡ Err fault → (after_next r).fault ≡ Some fault }
    ensures said { (r : ReaderValue) (fault : LratTextFault) → r.fault ≡ Some fault → said_to r ≡ record { answer = Err fault; taken = 0 } }
    ensures memory { (finished : Bool) (place : ℕ) (bytes : List ℕ) → (said_by finished place (rows_of bytes)).answer ≢ Err LratTextFault.OutOfMemory }
{}

/// What is printed is read: the text of a line whose numbers a reader takes is said to be that
/// line, whatever follows.
#[tactic(auto, using(crate::proofs::Printed::read_back))]
pub fn printed_lines_are_read()
    ensures { (l : LratLine) (more : List ℕ) (finished : Bool) (place : ℕ) → IsReadable l
        → said_by finished place (rows_of (line (line_words l) ++ more)) ≡ record { answer = Ok (Some l); taken = length (line (line_words l)) } }
{}
