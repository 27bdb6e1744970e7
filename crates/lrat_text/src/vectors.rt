//! What the definitions give on small texts.
#![tactic(auto, unfolding(crate::specs::inner::Vectors::digits))]

ghost use Rattle.std.specs.Prelude.{◌≡◌, ◌++◌, true, false, [], ◌∷◌, Some, None, Ok, Err, pos, negsuc, codes};
ghost use Rattle.text_lines.specs.Text.{rows_of};
ghost use Rattle.cnf_formula.specs.{Literals.{yes, no}, declared.line.LratLine.LratLine};
ghost use Rattle.lrat_text.specs.{Printing.{cnf_text, lrat_text}, Reading.{said_by, new_reader, fed, said_to, after_next}};

use crate::fault::LratTextFault;
use cnf_formula::LratLine;

/// The clauses `1 -2` and `0`, an addition and a deletion.
pub fn printed()
    ensures cnf { cnf_text (record { vars = 2; clauses = (yes 1 ∷ no 2 ∷ []) ∷ [] ∷ [] }) ≡ codes "p cnf 2 2" ++ 10 ∷ codes "1 -2 0" ++ 10 ∷ codes "0" ++ 10 ∷ [] }
    ensures lines { lrat_text (LratLine.Addition (record { id = 35; lits = yes 1 ∷ no 20 ∷ []; hints = pos 7 ∷ negsuc 11 ∷ [] }) ∷ LratLine.Deletion (record { id = 35; ids = 1 ∷ 30 ∷ [] }) ∷ [])
        ≡ codes "35 1 -20 0 7 -12 0" ++ 10 ∷ codes "35 d 1 30 0" ++ 10 ∷ [] }
    ensures empty { lrat_text (LratLine.Addition (record { id = 34; lits = []; hints = pos 2 ∷ pos 3 ∷ pos 9 ∷ pos 16 ∷ pos 24 ∷ [] }) ∷ []) ≡ codes "34 0 2 3 9 16 24 0" ++ 10 ∷ [] }
{}

/// An addition and a deletion. Fields stand between any number of spaces and tabs, also at the ends
/// of a line, and a byte 13 before the line feed is passed over.
pub fn lines()
    ensures addition { said_by false 0 (rows_of (codes "5 1 -2 0 1 -3 0\n6")) ≡ record { answer = Ok (Some (LratLine.Addition (record { id = 5; lits = yes 1 ∷ no 2 ∷ []; hints = pos 1 ∷ negsuc 2 ∷ [] }))); taken = 16 } }
    ensures empty { said_by false 0 (rows_of (codes "34 0 0\n")) ≡ record { answer = Ok (Some (LratLine.Addition (record { id = 34; lits = []; hints = [] }))); taken = 7 } }
    ensures deletion { said_by false 0 (rows_of (codes "5 d 9 1 0\n")) ≡ record { answer = Ok (Some (LratLine.Deletion (record { id = 5; ids = 9 ∷ 1 ∷ [] }))); taken = 10 } }
    ensures spaces { said_by false 0 (rows_of (codes " \t5  0 \t0 \r\n")) ≡ record { answer = Ok (Some (LratLine.Addition (record { id = 5; lits = []; hints = [] }))); taken = 12 } }
    ensures last { said_by true 0 (rows_of (codes "5 0 0")) ≡ record { answer = Ok (Some (LratLine.Addition (record { id = 5; lits = []; hints = [] }))); taken = 5 } }
{}

/// Empty lines, lines of spaces and tabs, and lines that begin with `c` are passed over. A line
/// without its line feed is not said before the text is finished.
pub fn lines_passed_over()
    ensures passed { said_by false 0 (rows_of (codes "\n \t\r\nc 1 0\n comment\n5 0 0\n")) ≡ record { answer = Ok (Some (LratLine.Addition (record { id = 5; lits = []; hints = [] }))); taken = 26 } }
    ensures none { said_by false 0 (rows_of (codes "c 1\n5 0 0")) ≡ record { answer = Ok None; taken = 4 } }
    ensures finished { said_by true 0 (rows_of (codes "c 1\n \n\t")) ≡ record { answer = Ok None; taken = 7 } }
{}

/// Faults with their places.
pub fn faults()
    ensures truncated { said_by true 0 (rows_of (codes "5 1 0 1 2")) ≡ record { answer = Err LratTextFault.Truncated; taken = 0 } }
    ensures word { said_by false 0 (rows_of (codes "5 x 0\n")) ≡ record { answer = Err (LratTextFault.BadToken 2); taken = 0 } }
    ensures id { said_by false 0 (rows_of (codes "4294967296 \n")) ≡ record { answer = Err (LratTextFault.NumberRange 0); taken = 0 } }
    ensures zero_id { said_by false 0 (rows_of (codes "0 0 0\n")) ≡ record { answer = Err (LratTextFault.BadToken 0); taken = 0 } }
    ensures minus_zero { said_by false 0 (rows_of (codes "5 1 -0 0\n")) ≡ record { answer = Err (LratTextFault.BadToken 4); taken = 0 } }
    ensures leading_zero { said_by false 0 (rows_of (codes "5 01 0 0\n")) ≡ record { answer = Err (LratTextFault.BadToken 2); taken = 0 } }
    ensures minus { said_by false 0 (rows_of (codes "5 d -1 0\n")) ≡ record { answer = Err (LratTextFault.BadToken 4); taken = 0 } }
    ensures literal { said_by false 0 (rows_of (codes "5 -2147483648 0 0\n")) ≡ record { answer = Err (LratTextFault.NumberRange 2); taken = 0 } }
    ensures behind { said_by false 0 (rows_of (codes "5 0 0 7\n")) ≡ record { answer = Err (LratTextFault.BadToken 6); taken = 0 } }
    ensures open_line { said_by false 0 (rows_of (codes "5 1 0 1\r\n")) ≡ record { answer = Err (LratTextFault.BadToken 8); taken = 0 } }
    ensures later { said_by false 100 (rows_of (codes "c\n5 0 x\n")) ≡ record { answer = Err (LratTextFault.BadToken 106); taken = 2 } }
{}

/// A reader that is fed a line in two pieces says it after the second, and its rest begins behind
/// it. A fault is said again and again.
pub fn readers()
    ensures first { said_to (fed new_reader (codes "5 0 ")) ≡ record { answer = Ok None; taken = 0 } }
    ensures second { said_to (fed (fed new_reader (codes "5 0 ")) (codes "0\n6 x")) ≡ record { answer = Ok (Some (LratLine.Addition (record { id = 5; lits = []; hints = [] }))); taken = 6 } }
    ensures behind { after_next (fed new_reader (codes "5 0 0\n6 x")) ≡ record { rest = codes "6 x"; place = 6; finished = false; fault = None } }
    ensures again { said_to (after_next (fed new_reader (codes "x\n5 0 0\n"))) ≡ record { answer = Err (LratTextFault.BadToken 0); taken = 0 } }
{}
