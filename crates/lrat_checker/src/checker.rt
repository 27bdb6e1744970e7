//! The checker of proof lines (LRAT).

ghost use Rattle.std.specs.Prelude.{◌≡◌, ◌≢◌, ◌&&◌, Ok, IfOk, OnOk, OnErr, true, false};
ghost use Rattle.cnf_formula.specs.Formulas.{IsClause, Satisfiable};
ghost use Rattle.proof_rules.specs.{Held.start_of, Judging.{verdict_of, deletion_verdict, is_accepted, is_implied}, Accepting.{Implied, Redundant}, Refuting.{is_fresh as is_fresh_for, with_line, without_clauses}};

use crate::freshness::is_fresh;
use crate::judging::judge;
use crate::marks::Marks;
use crate::table::ClauseTable;
use cnf_formula::{Deletion, Formula, Lit, OutOfMemory, ProofLine};
use proof_rules::{LineCode, LineVerdict};
use std::alloc::Global;
use std::marker::Model;

/// A formula, the clauses that are held by number, and what was accepted. It is seen as that:
/// between two calls no literal is marked.
#[derive(Drop)]
pub struct Checker {
    table: ClauseTable,
    marks: Marks,
    /// How many clauses the formula has.
    originals: usize,
    greatest: u64,
    refuted: bool,
    /// How much room the formula and the added clauses that are held take in the table, and those
    /// that are no longer held.
    kept: usize,
    gone: usize,
}

/// The room that a clause takes in a table, in literals.
fn room_of(lits: &[Lit]) -> usize {
    lits.len().saturating_add(1)
}

/// The room that a formula takes in a table. Each variable has lists.
fn room_of_all(formula: &Formula) -> usize {
    let mut room = formula.vars() as usize;
    let clauses = formula.clauses();
    for place in 0..clauses.len() {
        room = room.saturating_add(room_of(clauses.clause(place)));
    }
    room
}

impl Model for Checker {
    ghost use Rattle.proof_rules.specs.Held.{CheckerValue};
    ghost use Rattle.lrat_checker.specs.Checking.{checker_of, CanCheck};

    ghost Value = { CheckerValue };

    ghost view = { λ c. checker_of c.table c.originals c.greatest c.refuted };

    ghost invariant = { λ c. CanCheck c.table c.marks c.originals c.greatest c.refuted };
}

impl Checker {
    /// A checker of lines about a formula, which holds its clauses under the numbers from 1.
    pub fn new(alloc: Global, formula: &Formula) -> Result<Checker, OutOfMemory>
        ensures { IfOk result (λ checker. checker ≡ start_of formula.now) }
    {
        Ok(Checker {
            table: ClauseTable::new(alloc, formula)?,
            marks: Marks::new(alloc, formula.vars())?,
            originals: formula.clauses().len(),
            greatest: 0,
            refuted: false,
            kept: room_of_all(formula),
            gone: 0,
        })
    }

    /// The verdict on an addition, which changes nothing.
    fn verdict(&mut self, line: &ProofLine) -> Result<LineVerdict, OutOfMemory>
        ensures verdict { IfOk result (λ verdict. verdict ≡ verdict_of self.old line.now) }
        ensures same { self.new ≡ self.old }
    {
        if line.id <= self.greatest.max(self.originals as u64) {
            return Ok(LineVerdict::Refused {
                code: LineCode::IdNotGreater,
                hint: 0,
            });
        }
        let verdict = judge(&mut self.table, &mut self.marks, line);
        self.marks.back_to(0);
        verdict
    }

    /// Has the table forget what is no longer held, once that takes more room than the rest, so
    /// that each deletion pays for it. An `Err` comes only where memory runs out.
    fn clean(&mut self) -> Result<(), OutOfMemory>
        ensures { self.new ≡ self.old }
    {
        if self.gone > self.kept {
            self.table.forget(self.originals)?;
            self.gone = 0;
        }
        Ok(())
    }

    /// Holds the clause of an accepted addition. An `Err` comes only where memory runs out, and
    /// then nothing changes.
    fn hold(&mut self, line: &ProofLine) -> Result<(), OutOfMemory>
        requires { is_accepted (verdict_of self.old line.now) ≡ true }
        ensures held { OnOk result (self.new ≡ with_line self.old line.now) }
        ensures kept { OnErr result (self.new ≡ self.old) }
    {
        let refuted = self.refuted || line.lits.is_empty();
        self.table.push(line.id, &line.lits, true)?;
        self.greatest = line.id;
        self.refuted = refuted;
        self.kept = self.kept.saturating_add(room_of(&line.lits));
        Ok(())
    }

    /// Judges an addition by the rules of LRAT (Cruz-Filipe et al. 2017): as RUP by its hints, or
    /// as RAT on its first literal, the pivot, with groups for the clauses that hold the negation
    /// of it. An accepted line is held from then on under its number; a refused one changes
    /// nothing, and the code is that of its first check that fails. `Err` comes only where memory
    /// runs out, and then nothing changes.
    pub fn add(&mut self, line: &ProofLine) -> Result<LineVerdict, OutOfMemory>
        ensures verdict { IfOk result (λ verdict. verdict ≡ verdict_of self.old line.now) }
        ensures accepted { IfOk result (λ verdict. is_accepted verdict ≡ true → self.new ≡ with_line self.old line.now) }
        ensures refused { IfOk result (λ verdict. is_accepted verdict ≡ false → self.new ≡ self.old) }
        ensures kept { OnErr result (self.new ≡ self.old) }
        ensures implied { result ≡ Ok (LineVerdict.Accepted true) → Implied self.old line.now }
        ensures redundant { result ≡ Ok (LineVerdict.Accepted false) → Redundant self.old line.now }
    {
        let verdict = self.verdict(line)?;
        if verdict.is_accepted() {
            self.clean()?;
            self.hold(line)?;
        }
        Ok(verdict)
    }

    /// Whether a clause of the formula's variables is fresh: it has a literal, and is a superset of
    /// no held clause. Nothing changes.
    fn has_no_subset(&mut self, lits: &[Lit]) -> Result<bool, OutOfMemory>
        requires about { IsClause self.old.formula.vars lits.now }
        ensures fresh { IfOk result (λ fresh. fresh ≡ is_fresh_for self.old lits.now) }
        ensures same { self.new ≡ self.old }
    {
        let fresh = is_fresh(&self.table, &mut self.marks, lits);
        self.marks.back_to(0);
        fresh
    }

    /// Takes an addition as a line of a spent log: if it follows from what is held (as RUP by its
    /// hints), and its clause has a literal and is a superset of no held clause (none subsumes it).
    /// Then it is held from then on under its number, and otherwise nothing changes. `Err` comes
    /// only where memory runs out, and then nothing changes.
    pub fn learn(&mut self, line: &ProofLine) -> Result<bool, OutOfMemory>
        ensures learned { IfOk result (λ learned. learned ≡ (is_implied (verdict_of self.old line.now) && is_fresh_for self.old line.now.lits)) }
        ensures held { result ≡ Ok true → self.new ≡ with_line self.old line.now }
        ensures kept { result ≢ Ok true → self.new ≡ self.old }
    {
        let verdict = self.verdict(line)?;
        if verdict != (LineVerdict::Accepted { implied: true })
            || !self.has_no_subset(&line.lits)?
        {
            return Ok(false);
        }
        self.clean()?;
        self.hold(line)?;
        Ok(true)
    }

    /// The room that the clauses of these numbers take in the table, but for those of the formula,
    /// which stay there.
    fn room_at(&self, ids: &[u64]) -> usize {
        let mut room: usize = 0;
        for id in ids {
            if *id > self.originals as u64 {
                if let Some(clause) = self.table.clause(*id) {
                    room = room.saturating_add(room_of(clause));
                }
            }
        }
        room
    }

    /// Lets the clauses of these numbers go, if each is held and they differ. Otherwise the
    /// deletion is refused and nothing changes.
    pub fn delete(&mut self, deletion: &Deletion) -> LineVerdict
        ensures verdict { result ≡ deletion_verdict self.old deletion.now }
        ensures accepted { is_accepted result ≡ true → self.new ≡ without_clauses self.old deletion.now }
        ensures refused { is_accepted result ≡ false → self.new ≡ self.old }
    {
        let room = self.room_at(&deletion.ids);
        if self.table.remove(&deletion.ids) {
            self.kept = self.kept.saturating_sub(room);
            self.gone = self.gone.saturating_add(room);
            LineVerdict::Accepted { implied: false }
        } else {
            LineVerdict::Refused {
                code: LineCode::UnknownDeletion,
                hint: 0,
            }
        }
    }

    /// Whether an accepted line had no literal. Then no assignment satisfies the formula.
    pub fn refuted(&self) -> bool
        ensures is { result ≡ self.now.refuted }
        ensures unsatisfiable { result ≡ true → Satisfiable self.now.formula → ⊥ }
    {
        self.refuted
    }
}
