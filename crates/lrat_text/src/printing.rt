//! How formulas and proof lines are printed.

ghost use Rattle.std.specs.Prelude.{◌≡◌, ◌+◌, ◌≤◌, ◌∷◌, ◌++◌, [], map, OnOk, OnErr, IfOk, decimal, vec_len, vec_capacity};
ghost use Rattle.text_lines.specs.Text.{line as text_of_line};
ghost use Rattle.cnf_formula.specs.declared.line.LratLine.{LratLine};
ghost use Rattle.lrat_text.specs.Printing.{literal_word, hint_word, line_words, trailed, cnf_text, closed};

use cnf_formula::{Deletion, Formula, Lit, OutOfMemory, ProofLine};
use std::alloc::Global;
use text_lines::{push_number, push_number_reserved, push_word};

/// How many bytes a number has at most, with a sign before it and a space behind it.
const WORD_ROOM: usize = 22;

/// How many bytes the text of a formula has room for at first, for each of its clauses.
const CLAUSE_ROOM: usize = 16;

/// How many bytes the text of a line has room for at first, for each of its numbers.
const NUMBER_ROOM: usize = 8;

/// A number and a space, where there is room for any number.
fn push_plain(out: &mut Vec<u8>, number: u64)
    requires { vec_len out.old + 21 ≤ vec_capacity out.old }
    ensures { out.new.items ≡ out.old.items ++ decimal number ++ 32 ∷ [] }
{
    push_number_reserved(out, number);
    out.push_reserved(b' ');
}

/// A minus sign, a number and a space, where there is room for any number.
fn push_minus(out: &mut Vec<u8>, number: u64)
    requires { vec_len out.old + 22 ≤ vec_capacity out.old }
    ensures { out.new.items ≡ out.old.items ++ 45 ∷ [] ++ decimal number ++ 32 ∷ [] }
{
    out.push_reserved(b'-');
    push_plain(out, number);
}

/// A literal and a space.
fn push_literal(out: &mut Vec<u8>, lit: Lit) -> Result<(), OutOfMemory>
    ensures { OnOk result (out.new.items ≡ out.old.items ++ trailed (literal_word lit ∷ [])) }
{
    out.reserve(WORD_ROOM)?;
    let var = u64::from(lit.var());
    if lit.positive() {
        push_plain(out, var);
    } else {
        push_minus(out, var);
    }
    Ok(())
}

/// Literals, with a space behind each.
fn push_literals(out: &mut Vec<u8>, lits: &[Lit]) -> Result<(), OutOfMemory>
    ensures { OnOk result (out.new.items ≡ out.old.items ++ trailed (map literal_word lits.now)) }
{
    for lit in lits {
        push_literal(out, *lit)?;
    }
    Ok(())
}

/// A hint and a space.
fn push_hint(out: &mut Vec<u8>, hint: i64) -> Result<(), OutOfMemory>
    ensures { OnOk result (out.new.items ≡ out.old.items ++ trailed (hint_word hint ∷ [])) }
{
    out.reserve(WORD_ROOM)?;
    if hint < 0 {
        push_minus(out, hint.unsigned_abs());
    } else {
        push_plain(out, hint.unsigned_abs());
    }
    Ok(())
}

/// Hints, with a space behind each.
fn push_hints(out: &mut Vec<u8>, hints: &[i64]) -> Result<(), OutOfMemory>
    ensures { OnOk result (out.new.items ≡ out.old.items ++ trailed (map hint_word hints.now)) }
{
    for hint in hints {
        push_hint(out, *hint)?;
    }
    Ok(())
}

/// The number of a clause and a space.
fn push_id(out: &mut Vec<u8>, id: u64) -> Result<(), OutOfMemory>
    ensures { OnOk result (out.new.items ≡ out.old.items ++ decimal id ++ 32 ∷ []) }
{
    out.reserve(WORD_ROOM)?;
    push_plain(out, id);
    Ok(())
}

/// Numbers, with a space behind each.
fn push_ids(out: &mut Vec<u8>, ids: &[u64]) -> Result<(), OutOfMemory>
    ensures { OnOk result (out.new.items ≡ out.old.items ++ trailed (map decimal ids.now)) }
{
    for id in ids {
        push_id(out, *id)?;
    }
    Ok(())
}

/// The zero that closes a list, and the byte behind it.
fn push_zero(out: &mut Vec<u8>, behind: u8) -> Result<(), OutOfMemory>
    ensures { OnOk result (out.new.items ≡ out.old.items ++ 48 ∷ behind ∷ []) }
{
    out.reserve(2)?;
    out.push_reserved(b'0');
    out.push_reserved(behind);
    Ok(())
}

fn push_line(out: &mut Vec<u8>, line: &ProofLine) -> Result<(), OutOfMemory>
    ensures { OnOk result (out.new.items ≡ out.old.items ++ text_of_line (line_words (LratLine.Addition line.now))) }
{
    push_id(out, line.id)?;
    push_literals(out, &line.lits)?;
    push_zero(out, b' ')?;
    push_hints(out, &line.hints)?;
    push_zero(out, b'\n')?;
    Ok(())
}

fn push_deletion(out: &mut Vec<u8>, deletion: &Deletion) -> Result<(), OutOfMemory>
    ensures { OnOk result (out.new.items ≡ out.old.items ++ text_of_line (line_words (LratLine.Deletion deletion.now))) }
{
    push_number(out, deletion.id)?;
    push_word(out, b" d ")?;
    push_ids(out, &deletion.ids)?;
    push_zero(out, b'\n')?;
    Ok(())
}

fn push_clause(out: &mut Vec<u8>, lits: &[Lit]) -> Result<(), OutOfMemory>
    ensures { OnOk result (out.new.items ≡ out.old.items ++ text_of_line (closed (map literal_word lits.now))) }
{
    push_literals(out, lits)?;
    push_zero(out, b'\n')?;
    Ok(())
}

/// Appends the text of an addition: its number, its literals and its hints, each list closed by a
/// zero (LRAT, Cruz-Filipe et al. 2017). An `Err` comes only where memory runs out, and leaves the
/// bytes as they were.
pub fn print_line(out: &mut Vec<u8>, line: &ProofLine) -> Result<(), OutOfMemory>
    ensures printed { OnOk result (out.new.items ≡ out.old.items ++ text_of_line (line_words (LratLine.Addition line.now))) }
    ensures unchanged { OnErr result (out.new.items ≡ out.old.items) }
{
    let numbers = line.lits.len().saturating_add(line.hints.len());
    let room = numbers.saturating_mul(NUMBER_ROOM);
    let mut text = Vec::with_capacity(*out.allocator(), room)?;
    push_line(&mut text, line)?;
    push_word(out, &text)
}

/// Appends the text of a deletion: its number, `d` and the numbers of the clauses, closed by a
/// zero. An `Err` comes only where memory runs out, and leaves the bytes as they were.
pub fn print_deletion(out: &mut Vec<u8>, deletion: &Deletion) -> Result<(), OutOfMemory>
    ensures printed { OnOk result (out.new.items ≡ out.old.items ++ text_of_line (line_words (LratLine.Deletion deletion.now))) }
    ensures unchanged { OnErr result (out.new.items ≡ out.old.items) }
{
    let mut text = Vec::new(*out.allocator());
    push_deletion(&mut text, deletion)?;
    push_word(out, &text)
}

/// The text of a formula (DIMACS CNF): the line `p cnf V M`, and a line for each clause. `Err`
/// comes only where memory runs out.
pub fn print_cnf(alloc: Global, formula: &Formula) -> Result<Vec<u8>, OutOfMemory>
    ensures { IfOk result (λ text. text.items ≡ cnf_text formula.now) }
{
    let clauses = formula.clauses();
    let room = clauses.len().saturating_mul(CLAUSE_ROOM);
    let mut out = Vec::with_capacity(alloc, room)?;
    push_word(&mut out, b"p cnf ")?;
    push_number(&mut out, u64::from(formula.vars()))?;
    push_word(&mut out, b" ")?;
    push_number(&mut out, clauses.len() as u64)?;
    push_word(&mut out, b"\n")?;
    for place in 0..clauses.len() {
        push_clause(&mut out, clauses.clause(place))?;
    }
    Ok(out)
}
