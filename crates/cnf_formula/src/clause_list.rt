//! Clauses, one after another in one list of literals.

ghost use Rattle.std.specs.Prelude.{◌≡◌, ◌<◌, ◌≤◌, [], ◌∷◌, ◌++◌, length, get_or, slice_range, flat_map, OnOk, OnErr};

use crate::lit::Lit;
use std::alloc::{AllocError, Global};
use std::marker::Model;

/// Clauses, in the order in which they were added. A clause is a list of literals, of which one has
/// to be true.
#[derive(Clone, Debug, Drop)]
pub struct ClauseList {
    /// The literals of all clauses, one clause after another.
    lits: Vec<Lit>,
    /// Where each clause ends.
    ends: Vec<usize>,
}

impl Model for ClauseList {
    ghost use Rattle.std.specs.Prelude.{List, length};
    ghost use Rattle.cnf_formula.specs.{Literals.LitValue, inner.Lying.{cut, AreEnds}};

    ghost Value = { List (List LitValue) };

    ghost view = { λ a. cut a.lits.items 0 a.ends.items };

    ghost invariant = { λ a. AreEnds 0 a.ends.items (length a.lits.items) };
}

/// Where the clause at a place begins, among clauses that end at these places.
fn start_of(ends: &[usize], place: usize) -> usize
    requires { place < length ends.now }
    ensures { result ≡ get_or (0 ∷ ends.now) place 0 }
{
    if place == 0 { 0 } else { ends[place - 1] }
}

/// The literals from a place on, before another.
fn part_of(lits: &[Lit], start: usize, end: usize) -> &[Lit]
    requires order { start ≤ end }
    requires within { end ≤ length lits.now }
    ensures { result.now ≡ slice_range lits.now start end }
{
    &lits[start..end]
}

impl ClauseList {
    /// No clause. It takes no memory.
    pub fn new(alloc: Global) -> ClauseList
        ensures { result ≡ [] }
    {
        ClauseList {
            lits: Vec::new(alloc),
            ends: Vec::new(alloc),
        }
    }

    /// How many clauses there are.
    #[tactic(auto, using(crate::proofs::Lying::cut_long))]
    pub fn len(&self) -> usize
        ensures { result ≡ length self.now }
    {
        self.ends.len()
    }

    /// The literals of the clause at a place, in their order.
    #[tactic(auto, using(std::proofs::lemmas::List::get_or_read, crate::proofs::Lying::cut_long, crate::proofs::Lying::cut_at, crate::proofs::Lying::ends_at))]
    pub fn clause(&self, place: usize) -> &[Lit]
        requires { place < length self.now }
        ensures { result.now ≡ get_or self.now place [] }
    {
        part_of(&self.lits, start_of(&self.ends, place), self.ends[place])
    }

    /// The literals of all clauses, one clause after another.
    #[tactic(auto, using(crate::proofs::Lying::cut_joined))]
    pub fn lits(&self) -> &[Lit]
        ensures { result.now ≡ flat_map (λ clause. clause) self.now }
    {
        &self.lits
    }

    /// Adds a clause of these literals. An `Err` comes only where memory runs out, and then the
    /// clauses are as before.
    pub fn push(&mut self, lits: &[Lit]) -> Result<(), AllocError>
        ensures added { OnOk result (self.new ≡ self.old ++ lits.now ∷ []) }
        ensures kept { OnErr result (self.new ≡ self.old) }
    {
        self.ends.reserve(1)?;
        self.lits.extend_from_slice(lits)?;
        self.ends.push_reserved(self.lits.len());
        Ok(())
    }
}
