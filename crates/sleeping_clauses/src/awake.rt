//! The clauses of a core, which are awake: under which number the ledger holds each, and of how
//! much use each was.

ghost use Rattle.std.specs.{Prelude.{◌≡◌, ◌+◌, ◌<◌, ◌≤◌, ◌∷◌, ◌++◌, [], true, All, length, map, IfOk, OnOk}, List.range_with_len};
ghost use Rattle.sleeping_clauses.specs.Naming.{IsName, IsNamed, name};

use cnf_formula::{Lit, OutOfMemory, ProofLine};
use std::alloc::{AllocError, Global};
use trail_core::{ClauseId, Core};

/// A clause whose literals became false on so few levels, or fewer, stays awake.
const GLUE: u32 = 2;

/// A clause that took part in a conflict while so many lines were learned stays awake.
const RECENT: u32 = 1000;

/// One that took part in none while so many were learned falls asleep.
const IDLE: u32 = 5000;

/// Between these two a clause falls asleep if it took part in none while so many times the lines of
/// the search, divided by its levels, were learned. So early on clauses of many levels go first.
const SHARE: u32 = 6;

/// So many lines are learned before clauses fall asleep anew.
const ROUND: u32 = 2000;

/// Of how much use a clause was.
#[derive(Clone, Copy)]
pub struct Usage {
    /// On how many levels its literals were false when it was learned (LBD: Audemard and Simon
    /// 2009).
    pub levels: u32,
    /// How many clauses the ledger held when it took part in a conflict last.
    pub last: u32,
}

/// Of how much use a clause of the formula was before the first conflict.
const UNUSED: Usage = Usage { levels: 0, last: 0 };

/// The clauses that a core has, of those that a ledger holds; the formula's come first.
#[derive(Drop)]
pub struct Awake {
    /// The clauses, in the order in which the core has them.
    pub ids: Vec<ClauseId>,
    /// Of each, by its number in the core from 1, its number in the ledger. The first place is no
    /// clause's.
    pub names: Vec<u32>,
    /// Of how much use each was; empty before the first is learned.
    pub usage: Vec<Usage>,
    /// How many clauses the formula has.
    pub formula: u32,
    /// How many clauses the ledger holds, which is the number of the last.
    pub held: u32,
    /// How many it held when clauses fell asleep last.
    pub slept: u32,
}

/// The ledger's number of the clause that has this one in the core, counted from 1.
fn name_at(names: &[u32], hint: i64) -> i64
    requires { IsName (length names.now) hint }
    ensures { result ≡ name names.now hint }
{
    i64::from(names[hint as usize])
}

/// A clause took part in a conflict.
fn touch(usage: &mut Vec<Usage>, place: usize, now: u32) {
    if let Some(usage) = usage.get_mut(place) {
        usage.last = now;
    }
}

/// The clauses that are hints took part in a conflict.
fn touch_all(usage: &mut Vec<Usage>, hints: &[i64], now: u32) {
    for hint in hints {
        if *hint > 0 {
            touch(usage, *hint as usize - 1, now);
        }
    }
}

/// The hints of a line took part in a conflict, of so many clauses. A line that closes the search
/// leaves no use to note. `Err` comes only where memory runs out.
fn touch_by(
    usage: &mut Vec<Usage>,
    clauses: usize,
    line: &ProofLine,
    now: u32,
) -> Result<(), OutOfMemory> {
    if !line.lits.is_empty() {
        usage.resize(clauses, UNUSED)?;
        touch_all(usage, &line.hints, now);
    }
    Ok(())
}

impl Awake {
    /// A table of no clause, with room for the clauses of the formula, whose number is `formula`,
    /// where the ledger holds `held`. `Err` comes only where memory runs out.
    pub fn new(alloc: Global, formula: u32, held: u32) -> Result<Awake, OutOfMemory>
        ensures { IfOk result (λ a. (a.ids.items ≡ []) × (a.names.items ≡ 0 ∷ []) × (a.formula ≡ formula) × (a.held ≡ held)) }
    {
        let clauses = formula as usize;
        let mut names = Vec::with_capacity(alloc, clauses + 1)?;
        names.push_reserved(0u32);
        Ok(Awake {
            ids: Vec::with_capacity(alloc, clauses)?,
            names,
            usage: Vec::with_capacity(alloc, clauses)?,
            formula,
            held,
            slept: held,
        })
    }

    /// The table of the clauses of a formula, whose number is `formula`: the core and the ledger
    /// have them in the same order, the ledger under the numbers from 1. `Err` comes only where
    /// memory runs out.
    pub fn of_formula(alloc: Global, formula: u32) -> Result<Awake, OutOfMemory>
        ensures ids { IfOk result (λ a. a.ids.items ≡ range_with_len 0 formula) }
        ensures names { IfOk result (λ a. a.names.items ≡ range_with_len 0 (formula + 1)) }
        ensures formula { IfOk result (λ a. a.formula ≡ formula) }
        ensures held { IfOk result (λ a. a.held ≡ formula) }
    {
        let clauses = formula as usize;
        let mut ids = Vec::with_capacity(alloc, clauses)?;
        let mut names = Vec::with_capacity(alloc, clauses + 1)?;
        names.push_reserved(0u32);
        for number in 0..formula {
            ids.push_reserved(ClauseId::new(number));
            names.push_reserved(number + 1);
        }
        Ok(Awake {
            ids,
            names,
            usage: Vec::new(alloc),
            formula,
            held: formula,
            slept: formula,
        })
    }

    /// Notes the next clause of the core, which the ledger holds under this number. `Err` comes
    /// only where memory runs out, and then the clause may be noted in part.
    pub fn note(&mut self, id: ClauseId, number: u32, usage: Usage) -> Result<(), OutOfMemory>
        ensures ids { OnOk result (self.new.ids.items ≡ self.old.ids.items ++ id ∷ []) }
        ensures names { OnOk result (self.new.names.items ≡ self.old.names.items ++ number ∷ []) }
        ensures formula { self.new.formula ≡ self.old.formula }
        ensures held { self.new.held ≡ self.old.held }
    {
        self.ids.push(id)?;
        self.names.push(number)?;
        self.usage.push(usage)?;
        Ok(())
    }

    /// Notes the next clause of the core, which is the next of the ledger, and was false on so many
    /// levels. `Err` comes where memory runs out or the numbers do, and then the clause may be
    /// noted in part.
    pub fn learn(&mut self, id: ClauseId, levels: u32) -> Result<(), OutOfMemory>
        ensures ids { OnOk result (self.new.ids.items ≡ self.old.ids.items ++ id ∷ []) }
        ensures names { OnOk result (self.new.names.items ≡ self.old.names.items ++ (self.old.held + 1) ∷ []) }
        ensures formula { OnOk result (self.new.formula ≡ self.old.formula) }
        ensures held { OnOk result (self.new.held ≡ self.old.held + 1) }
    {
        if self.held == u32::MAX {
            return Err(AllocError);
        }
        let number = self.held + 1;
        self.note(
            id,
            number,
            Usage {
                levels,
                last: number,
            },
        )?;
        self.held = number;
        Ok(())
    }

    /// A line by the ledger's numbers, of one by the core's. The clauses that are its hints took
    /// part in a conflict, which is noted unless the line closes the search. `Err` comes only where
    /// memory runs out.
    pub fn named(&mut self, alloc: Global, line: ProofLine) -> Result<ProofLine, OutOfMemory>
        requires known { All (IsName (length self.old.names.items)) line.hints }
        ensures line { IfOk result (IsNamed self.old.names.items self.old.held line) }
        ensures ids { self.new.ids ≡ self.old.ids }
        ensures names { self.new.names ≡ self.old.names }
        ensures formula { self.new.formula ≡ self.old.formula }
        ensures held { self.new.held ≡ self.old.held }
    {
        touch_by(&mut self.usage, self.ids.len(), &line, self.held)?;
        let hints = renamed(alloc, &self.names, &line.hints)?;
        Ok(ProofLine {
            id: u64::from(self.held) + 1,
            lits: line.lits,
            hints,
        })
    }

    /// Of how much use the clause at a place was.
    pub fn usage_of(&self, place: usize) -> Usage {
        match self.usage.get(place) {
            Some(usage) => *usage,
            None => UNUSED,
        }
    }

    /// Whether enough lines were learned since clauses fell asleep.
    pub fn is_due(&self) -> bool {
        self.held.saturating_sub(self.slept) >= ROUND
    }

    /// The clauses that made literals of the trail true stay awake.
    pub fn keep_reasons(&mut self, core: &Core)
        ensures ids { self.new.ids ≡ self.old.ids }
        ensures names { self.new.names ≡ self.old.names }
        ensures formula { self.new.formula ≡ self.old.formula }
        ensures held { self.new.held ≡ self.old.held }
    {
        let trail = core.trail();
        for place in 0..trail.len() {
            if let Some(reason) = core.reason(trail[place]) {
                touch(&mut self.usage, reason.number() as usize, self.held);
            }
        }
    }

    /// How many lines are learned before a clause whose literals became false on so many levels
    /// falls asleep, if it takes part in no conflict meanwhile.
    fn patience(&self, levels: u32) -> u32 {
        let learned = self.held.saturating_sub(self.formula);
        (learned.saturating_mul(SHARE) / levels.max(1)).clamp(RECENT, IDLE)
    }

    /// Whether the clause at a place is to fall asleep: one that was learned, has three literals or
    /// more, and was of little use.
    pub fn is_idle(&self, place: usize, lits: &[Lit]) -> bool
        ensures learned { result ≡ true → self.now.formula ≤ place }
        ensures long { result ≡ true → 2 < length lits.now }
    {
        if place < self.formula as usize || lits.len() < 3 {
            return false;
        }
        match self.usage.get(place) {
            Some(usage) => {
                usage.levels > GLUE
                    && usage.last.saturating_add(self.patience(usage.levels)) <= self.held
            }
            None => false,
        }
    }
}

/// Hints by the ledger's numbers, of hints by the core's.
fn renamed(alloc: Global, names: &[u32], hints: &[i64]) -> Result<Vec<i64>, OutOfMemory>
    requires { All (IsName (length names.now)) hints.now }
    ensures { IfOk result (λ v. v.items ≡ map (name names.now) hints.now) }
{
    let mut named = Vec::with_capacity(alloc, hints.len())?;
    for hint in hints {
        named.push(name_at(names, *hint))?;
    }
    Ok(named)
}
