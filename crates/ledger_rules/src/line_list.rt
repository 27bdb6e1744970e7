//! The lines of a proof, in little memory.

ghost use Rattle.std.specs.Prelude.{◌≡◌, ◌==◌, ◌<◌, false, List, [], ◌∷◌, ◌++◌, length, get_or, IfOk, OnOk, OnErr};
ghost use Rattle.cnf_formula.specs.Lines.{ProofLineValue};
ghost use Rattle.ledger_rules.specs.Logs.{learned};

use crate::hints::{narrowed, widened};
use cnf_formula::{Lit, OutOfMemory, ProofLine};
use std::alloc::Global;
use std::marker::Model;

/// The number of a line, and where its literals and its hints lie.
#[derive(Clone, Copy, Debug)]
pub(crate) struct LineRow {
    pub id: u32,
    pub lits_start: u32,
    pub lits_end: u32,
    pub hints_start: u32,
    pub hints_end: u32,
}

/// The lines of a proof, in order. The literals of all lines lie in one list, and so do their hints.
#[derive(Debug, Drop)]
pub struct LineList {
    lits: Vec<Lit>,
    hints: Vec<u32>,
    rows: Vec<LineRow>,
}

impl Model for LineList {
    ghost use Rattle.std.specs.Prelude.{List, map};
    ghost use Rattle.cnf_formula.specs.Lines.{ProofLineValue};
    ghost use Rattle.ledger_rules.specs.inner.Stored.{line_in, AreStored};

    ghost Value = { List ProofLineValue };

    ghost view = { λ a. map (line_in a.lits.items a.hints.items) a.rows.items };

    ghost invariant = { λ a. AreStored a.lits.items a.hints.items a.rows.items };
}

impl LineList {
    /// No line.
    pub fn new(alloc: Global) -> LineList
        ensures { result ≡ [] }
    {
        LineList {
            lits: Vec::new(alloc),
            hints: Vec::new(alloc),
            rows: Vec::new(alloc),
        }
    }

    /// How many lines there are.
    pub fn len(&self) -> usize
        ensures { result ≡ length self.now }
    {
        self.rows.len()
    }

    /// Whether there is no line.
    pub fn is_empty(&self) -> bool
        ensures { result ≡ (length self.now == 0) }
    {
        self.rows.is_empty()
    }

    /// Whether a line may have been learned. One that closes a refutation was not: it has no literal.
    pub fn has_learned(&self) -> bool
        ensures { result ≡ false → learned self.now ≡ [] }
    {
        !self.lits.is_empty()
    }

    /// The literals of the line at this place, from 0.
    pub fn lits(&self, place: usize) -> &[Lit]
        requires { place < length self.now }
        ensures { (d : ProofLineValue) → result.now ≡ (get_or self.now place d).lits }
    {
        let row = self.rows[place];
        &self.lits[row.lits_start as usize..row.lits_end as usize]
    }

    /// A copy of the line at this place, from 0. `Err` comes only where memory runs out.
    pub fn line(&self, place: usize) -> Result<ProofLine, OutOfMemory>
        requires { place < length self.now }
        ensures { IfOk result (λ line. (d : ProofLineValue) → line ≡ get_or self.now place d) }
    {
        let row = self.rows[place];
        let alloc = *self.rows.allocator();
        let lits = &self.lits[row.lits_start as usize..row.lits_end as usize];
        let hints = &self.hints[row.hints_start as usize..row.hints_end as usize];
        Ok(ProofLine {
            id: u64::from(row.id),
            lits: Vec::from_slice(alloc, lits)?,
            hints: widened(alloc, hints)?,
        })
    }

    /// Adds a line. An `Err` comes where memory runs out, and then the lines are as before. It comes
    /// too where the line's number or a hint is negative or above 4,294,967,295, or where the lines
    /// would have more literals or hints than that in all.
    pub fn push(&mut self, line: &ProofLine) -> Result<(), OutOfMemory>
        ensures added { OnOk result (self.new ≡ self.old ++ line.now ∷ []) }
        ensures kept { OnErr result (self.new ≡ self.old) }
    {
        let Ok(id) = u32::try_from(line.id) else {
            return Err(OutOfMemory);
        };
        let hints = narrowed(*self.rows.allocator(), &line.hints)?;
        let lits_start = self.lits.len();
        let hints_start = self.hints.len();
        if line.lits.len() >= u32::MAX as usize - lits_start
            || hints.len() >= u32::MAX as usize - hints_start
        {
            return Err(OutOfMemory);
        }
        self.rows.reserve(1)?;
        self.lits.reserve(line.lits.len())?;
        self.hints.extend_from_slice(&hints)?;
        self.lits.extend_from_slice(&line.lits)?;
        self.rows.push_reserved(LineRow {
            id,
            lits_start: lits_start as u32,
            lits_end: self.lits.len() as u32,
            hints_start: hints_start as u32,
            hints_end: self.hints.len() as u32,
        });
        Ok(())
    }
}
