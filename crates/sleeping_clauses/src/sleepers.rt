//! Learned clauses that sleep: the ledger holds them, but no propagation meets them. A line that
//! one of them states already (subsumption) is not learned: that clause is woken.

ghost use Rattle.std.specs.Prelude.{◌≡◌, ◌≢◌, ℕ, ◌+◌, ◌*◌, ◌<◌, ◌≤◌, [], ◌∷◌, ◌++◌, true, false, All, AllPairs, Contains, length, get_or, slice_set, IfOk, OnOk, OnErr, MatchOption, map};
ghost use Rattle.cnf_formula.specs.{Literals.{LitValue, code_of}, Formulas.IsClause};
ghost use Rattle.sleeping_clauses.specs.Sleeping.{SleepersValue, HasMark, IsCover, AreFew, list_at, sleeping};

use cnf_formula::{ClauseList, Formula, Lit, OutOfMemory};
use std::alloc::Global;
use std::marker::Model;

/// A clause that a literal leads, and two more of its literals, by which it is mostly passed over.
#[derive(Clone, Copy)]
pub struct Led {
    pub place: usize,
    pub second: Lit,
    pub third: Lit,
}

/// Clauses that fell asleep, each with its number in the ledger, and whether it sleeps still. One
/// of a clause's literals leads it: of those that stand in fewest learned clauses.
#[derive(Drop)]
pub struct Sleepers {
    clauses: Formula,
    numbers: Vec<u32>,
    asleep: Vec<bool>,
    /// How many sleep.
    count: usize,
    /// By literal the clauses that it leads; empty before the first falls asleep.
    leads: Vec<Vec<Led>>,
    /// By literal the stamp of the last clause that was looked for and has it; empty before the
    /// first falls asleep.
    marks: Vec<u32>,
    stamp: u32,
    /// By literal in how many learned clauses it stands.
    common: Vec<u32>,
}

impl Model for Sleepers {
    ghost use Rattle.std.specs.Prelude.{map};
    ghost use Rattle.sleeping_clauses.specs.Sleeping.{SleepersValue, AreStored};

    ghost Value = { SleepersValue };

    ghost view = { λ s. record { vars = s.clauses.vars; clauses = s.clauses.clauses; numbers = s.numbers.items; asleep = s.asleep.items } };

    ghost invariant = { λ s. AreStored s.clauses.vars s.clauses.clauses s.numbers.items s.asleep.items s.count (map (λ l. l.items) s.leads.items) s.marks.items };
}

/// The stamp after one. Past the last all marks are taken away, and the stamps begin anew.
fn next_stamp(marks: &mut Vec<u32>, stamp: u32) -> u32
    ensures { length marks.new.items ≡ length marks.old.items }
{
    if stamp == u32::MAX {
        marks.fill(0);
        return 1;
    }
    stamp + 1
}

/// Marks the literals of a clause.
fn mark_all(marks: &mut Vec<u32>, lits: &[Lit], stamp: u32)
    requires { All (λ l. code_of l < length marks.old.items) lits.now }
    ensures len { length marks.new.items ≡ length marks.old.items }
    ensures marked { (l : LitValue) → Contains lits.now l → HasMark marks.new.items stamp l }
{
    for lit in lits {
        marks[lit.code()] = stamp;
    }
}

/// Whether a literal has the mark.
fn is_marked(marks: &[u32], lit: Lit, stamp: u32) -> bool
    ensures { HasMark marks.now stamp lit → result ≡ true }
{
    match marks.get(lit.code()) {
        Some(mark) => *mark == stamp,
        None => false,
    }
}

/// Whether each literal of a clause has the mark.
fn are_marked(marks: &[u32], lits: &[Lit], stamp: u32) -> bool
    ensures { ((l : LitValue) → Contains lits.now l → HasMark marks.now stamp l) → result ≡ true }
{
    for lit in lits {
        if !is_marked(marks, *lit, stamp) {
            return false;
        }
    }
    true
}

/// Whether what a literal leads is a clause that sleeps and whose literals have the mark.
fn covers(clauses: &ClauseList, asleep: &[bool], led: Led, marks: &[u32], stamp: u32) -> bool
    requires { length asleep.now ≡ length clauses.now }
    ensures asleep { result ≡ true → (led.place < length clauses.now) × (get_or asleep.now led.place false ≡ true) }
    ensures other { result ≡ false → IsCover clauses.now asleep.now marks.now stamp led → ⊥ }
{
    if !is_marked(marks, led.second, stamp) || !is_marked(marks, led.third, stamp) {
        return false;
    }
    let place = led.place;
    if place >= clauses.len() || !asleep[place] {
        return false;
    }
    are_marked(marks, clauses.clause(place), stamp)
}

/// A clause of a list that sleeps and whose literals have the mark.
fn marked_among(
    clauses: &ClauseList,
    asleep: &[bool],
    list: &[Led],
    marks: &[u32],
    stamp: u32,
) -> Option<usize>
    requires { length asleep.now ≡ length clauses.now }
    ensures { MatchOption result
        ((led : Led) → Contains list.now led → IsCover clauses.now asleep.now marks.now stamp led → ⊥)
        (λ place. (place < length clauses.now) × (get_or asleep.now place false ≡ true)) }
{
    for led in list {
        if covers(clauses, asleep, *led, marks, stamp) {
            return Some(led.place);
        }
    }
    None
}

/// Whether a literal stands in fewer learned clauses than another.
fn is_rarer(common: &[u32], lit: Lit, other: Lit) -> bool {
    match (common.get(lit.code()), common.get(other.code())) {
        (Some(lit), Some(other)) => *lit < *other,
        _ => false,
    }
}

/// A literal of a clause that stands in fewest learned clauses, of those that are not among some
/// others, if there are such.
fn rarest(common: &[u32], lits: &[Lit], others: &[Lit]) -> Lit
    requires { 0 < length lits.now }
    ensures { Contains lits.now result }
{
    let mut best = lits[0];
    for lit in lits {
        let is_better = is_among(best, others)
            || !is_among(*lit, others) && is_rarer(common, *lit, best);
        if is_better {
            best = *lit;
        }
    }
    best
}

/// Whether a literal is one of these.
fn is_among(lit: Lit, lits: &[Lit]) -> bool {
    for other in lits {
        if lit == *other {
            return true;
        }
    }
    false
}

/// Adds empty lists, until there are so many. `Err` comes only where memory runs out.
fn reach(leads: &mut Vec<Vec<Led>>, count: usize) -> Result<(), OutOfMemory>
    ensures long { length leads.old.items ≤ length leads.new.items }
    ensures room { OnOk result (count ≤ length leads.new.items) }
    ensures kept { (other : ℕ) (x : Led) → Contains (list_at (map (λ l. l.items) leads.old.items) other) x → Contains (list_at (map (λ l. l.items) leads.new.items) other) x }
{
    let alloc = *leads.allocator();
    leads.reserve(count.saturating_sub(leads.len()))?;
    while leads.len() < count {
        leads.push_reserved(Vec::new(alloc));
    }
    Ok(())
}

/// Puts a clause into the list of the literal that leads it, of which there are to be so many.
/// `Err` comes only where memory runs out.
fn lead(leads: &mut Vec<Vec<Led>>, count: usize, code: usize, led: Led) -> Result<(), OutOfMemory>
    requires { code < count }
    ensures long { length leads.old.items ≤ length leads.new.items }
    ensures room { OnOk result (count ≤ length leads.new.items) }
    ensures kept { (other : ℕ) (x : Led) → Contains (list_at (map (λ l. l.items) leads.old.items) other) x → Contains (list_at (map (λ l. l.items) leads.new.items) other) x }
    ensures led { OnOk result (Contains (list_at (map (λ l. l.items) leads.new.items) code) led) }
{
    reach(leads, count)?;
    let list = &mut leads[code];
    list.push(led)?;
    Ok(())
}

impl Sleepers {
    /// None sleeps, of clauses over so many variables. `Err` comes only where memory runs out.
    pub fn new(alloc: Global, vars: u32) -> Result<Sleepers, OutOfMemory>
        ensures { IfOk result (λ s. s ≡ record { vars = vars; clauses = []; numbers = []; asleep = [] }) }
    {
        let codes = 2 * vars as usize + 2;
        Ok(Sleepers {
            clauses: Formula::new(alloc, vars),
            numbers: Vec::new(alloc),
            asleep: Vec::new(alloc),
            count: 0,
            leads: Vec::new(alloc),
            marks: Vec::new(alloc),
            stamp: 0,
            common: vec![in alloc; 0u32; codes]?,
        })
    }

    /// How many clauses fell asleep, those that were woken among them.
    pub fn len(&self) -> usize
        ensures len { result ≡ length self.now.clauses }
        ensures flags { length self.now.asleep ≡ length self.now.clauses }
    {
        self.numbers.len()
    }

    /// How many variables there are.
    pub fn vars(&self) -> u32
        ensures { result ≡ self.now.vars }
    {
        self.clauses.vars()
    }

    /// Whether the clause at a place sleeps.
    pub fn is_asleep(&self, place: usize) -> bool
        requires { place < length self.now.clauses }
        ensures { result ≡ get_or self.now.asleep place false }
    {
        self.asleep[place]
    }

    /// The literals of the clause at a place.
    pub fn clause(&self, place: usize) -> &[Lit]
        requires { place < length self.now.clauses }
        ensures value { result.now ≡ get_or self.now.clauses place [] }
        ensures about { IsClause self.now.vars result.now }
        ensures once { AllPairs (λ a b. a ≢ b) result.now }
    {
        self.clauses.clauses().clause(place)
    }

    /// The number in the ledger of the clause at a place.
    pub fn number(&self, place: usize) -> u32
        requires { place < length self.now.clauses }
        ensures { result ≡ get_or self.now.numbers place 0 }
    {
        self.numbers[place]
    }

    /// Counts the literals of a clause that is learned.
    pub fn learn(&mut self, lits: &[Lit])
        ensures { self.new ≡ self.old }
    {
        for lit in lits {
            if let Some(count) = self.common.get_mut(lit.code()) {
                *count = count.saturating_add(1);
            }
        }
    }

    /// A clause falls asleep. `Err` comes only where memory runs out, and then nothing changes.
    pub fn push(&mut self, lits: &[Lit], number: u32) -> Result<(), OutOfMemory>
        requires about { IsClause self.old.vars lits.now }
        requires once { AllPairs (λ a b. a ≢ b) lits.now }
        requires some { 0 < length lits.now }
        ensures added { OnOk result (self.new ≡ record { vars = self.old.vars; clauses = self.old.clauses ++ lits.now ∷ []; numbers = self.old.numbers ++ number ∷ []; asleep = self.old.asleep ++ true ∷ [] }) }
        ensures kept { OnErr result (self.new ≡ self.old) }
        ensures numbers { length self.old.numbers ≡ length self.old.clauses }
        ensures flags { length self.old.asleep ≡ length self.old.clauses }
        ensures few { AreFew self.new }
    {
        let first = rarest(&self.common, lits, &[]);
        let second = rarest(&self.common, lits, &[first]);
        let third = rarest(&self.common, lits, &[first, second]);
        self.numbers.reserve(1)?;
        self.asleep.reserve(1)?;
        let codes = 2 * self.clauses.vars() as usize + 2;
        self.marks.resize(codes, 0)?;
        let place = self.numbers.len();
        lead(
            &mut self.leads,
            codes,
            first.code(),
            Led {
                place,
                second,
                third,
            },
        )?;
        self.clauses.add(lits)?;
        self.numbers.push_reserved(number);
        self.asleep.push_reserved(true);
        self.count += 1;
        Ok(())
    }

    /// The clause at a place, which sleeps, sleeps no more.
    pub fn wake(&mut self, place: usize)
        requires within { place < length self.old.clauses }
        requires asleep { get_or self.old.asleep place false ≡ true }
        ensures woken { self.new ≡ record self.old { asleep = slice_set self.old.asleep place false } }
        ensures fewer { sleeping self.new + 1 ≡ sleeping self.old }
    {
        self.asleep[place] = false;
        self.count -= 1;
    }

    /// A clause that sleeps and whose literals all stand in a clause. It looks at no clause but
    /// those that these literals lead.
    pub fn subset_of(&mut self, lits: &[Lit]) -> Option<usize>
        requires { IsClause self.old.vars lits.now }
        ensures same { self.new ≡ self.old }
        ensures found { MatchOption result
            ((place : ℕ) → place < length self.old.clauses → get_or self.old.asleep place false ≡ true → ((l : LitValue) → Contains (get_or self.old.clauses place []) l → Contains lits.now l) → ⊥)
            (λ place. (place < length self.old.clauses) × (get_or self.old.asleep place false ≡ true)) }
    {
        if self.count == 0 {
            return None;
        }
        self.stamp = next_stamp(&mut self.marks, self.stamp);
        mark_all(&mut self.marks, lits, self.stamp);
        first_marked(
            self.clauses.clauses(),
            &self.asleep,
            &self.leads,
            lits,
            &self.marks,
            self.stamp,
        )
    }
}

/// A clause that sleeps, that one of these literals leads, and whose literals have the mark.
fn first_marked(
    clauses: &ClauseList,
    asleep: &[bool],
    leads: &[Vec<Led>],
    lits: &[Lit],
    marks: &[u32],
    stamp: u32,
) -> Option<usize>
    requires same { length asleep.now ≡ length clauses.now }
    requires about { All (λ l. code_of l < length leads.now) lits.now }
    ensures { MatchOption result
        ((l : LitValue) (led : Led) → Contains lits.now l → Contains (list_at (map (λ v. v.items) leads.now) (code_of l)) led → IsCover clauses.now asleep.now marks.now stamp led → ⊥)
        (λ place. (place < length clauses.now) × (get_or asleep.now place false ≡ true)) }
{
    for lit in lits {
        let list = &leads[lit.code()];
        if let Some(place) = marked_among(clauses, asleep, list, marks, stamp) {
            return Some(place);
        }
    }
    None
}
