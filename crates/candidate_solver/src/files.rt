//! The files of a candidate.

ghost use Rattle.std.specs.Prelude.{◌≡◌, ◌≢◌, [], false, IsTrue, Some, OnOk};
ghost use Rattle.outer_ports.specs.{Port.{HasCause, Tells}, Shelf.OthersStay};
ghost use Rattle.candidate_formula.specs.Files.{file_of};
ghost use Rattle.cnf_formula.specs.Formulas.{FormulaValue};
ghost use Rattle.candidate_solver.specs.Trying.{BeginsOwn, HasLines, HasText, IsTidy};

use candidate_formula::file_name;
use candidate_order::Candidate;
use cnf_formula::Formula;
use conflict_ledger::LineLog;
use engine_rules::{EngineFault, Settled};
use lrat_text::print_cnf;
use outer_ports::{FileKind, Part, Shelf, write_file};
use std::alloc::Global;

/// Writes the formula of a candidate to its file.
pub(crate) fn write_formula<H: Shelf>(
    alloc: Global,
    formula: &Formula,
    store: &mut H,
    part: Part,
    candidate: Candidate,
) -> Result<(), EngineFault>
    ensures told { Tells (H.tells store.old) (H.tells store.new) }
    ensures text { IsTrue (H.tells store.new) → OnOk result (HasText formula.now part candidate (H.file store.new)) }
    ensures begins { IsTrue (H.tells store.new) → BeginsOwn formula.now part candidate (H.file store.old) (H.file store.new) }
    ensures cause { HasCause EngineFault.ShelfFailed (H.faults store.old) (H.faults store.new) result }
{
    let text = print_cnf(alloc, formula)?;
    write_file(store, file_name(FileKind::Cnf, part, candidate), &text)?;
    Ok(())
}

/// Empties a file of a candidate, where it has lines.
fn empty<H: Shelf>(
    store: &mut H,
    kind: FileKind,
    part: Part,
    candidate: Candidate,
    has_lines: bool,
) -> Result<(), EngineFault>
    requires kind { kind ≢ FileKind.Cnf }
    requires none { has_lines ≡ false → IsTrue (H.tells store.old) → H.file store.old (file_of kind part candidate) ≡ Some [] }
    ensures told { Tells (H.tells store.old) (H.tells store.new) }
    ensures emptied { IsTrue (H.tells store.new) → OnOk result (H.file store.new (file_of kind part candidate) ≡ Some []) }
    ensures others { IsTrue (H.tells store.new) → OthersStay (file_of kind part candidate) (H.file store.old) (H.file store.new) }
    ensures begins { IsTrue (H.tells store.new) → (f : FormulaValue) → BeginsOwn f part candidate (H.file store.old) (H.file store.new) }
    ensures cause { HasCause EngineFault.ShelfFailed (H.faults store.old) (H.faults store.new) result }
{
    if has_lines {
        store.begin(file_name(kind, part, candidate))?;
    }
    Ok(())
}

/// Empties the files of a candidate that do not prove such an outcome. They hold these lines, and
/// one that holds none is left as it is.
pub(crate) fn tidy<H: Shelf>(
    store: &mut H,
    part: Part,
    candidate: Candidate,
    kind: Settled,
    lines: &LineLog,
) -> Result<(), EngineFault>
    requires { IsTrue (H.tells store.old) → HasLines part candidate lines.now (H.file store.old) }
    ensures told { Tells (H.tells store.old) (H.tells store.new) }
    ensures tidy { IsTrue (H.tells store.new) → OnOk result (IsTidy kind part candidate (H.file store.old) (H.file store.new)) }
    ensures formula { IsTrue (H.tells store.new) → H.file store.new (file_of FileKind.Cnf part candidate) ≡ H.file store.old (file_of FileKind.Cnf part candidate) }
    ensures begins { IsTrue (H.tells store.new) → (f : FormulaValue) → BeginsOwn f part candidate (H.file store.old) (H.file store.new) }
    ensures cause { HasCause EngineFault.ShelfFailed (H.faults store.old) (H.faults store.new) result }
{
    let has_lines = !lines.is_empty();
    let has_log = lines.has_learned();
    match kind {
        Settled::Solved => {
            empty(store, FileKind::Lrat, part, candidate, has_lines)?;
            empty(store, FileKind::Partial, part, candidate, has_log)
        }
        Settled::Refuted => empty(store, FileKind::Partial, part, candidate, has_log),
        Settled::Unknown => empty(store, FileKind::Lrat, part, candidate, has_lines),
    }
}
