ghost use Rattle.std.specs.Prelude.{◌≡◌, ◌+◌, ◌<◌, [], ◌∷◌, length, OnOk, OnErr, Decides};
ghost use Rattle.cnf_formula.specs.{Literals.all_hold, Formulas.{FormulaValue, IsFormula, IsClause, Satisfies, with_clauses}};

use crate::OutOfMemory;
use crate::assignment::Assignment;
use crate::clause_list::ClauseList;
use crate::lit::Lit;
use std::alloc::Global;
use std::marker::Model;

/// A formula in conjunctive normal form: variables numbered from 1 to `vars`, and clauses over
/// them.
#[derive(Clone, Debug, Drop)]
pub struct Formula {
    vars: u32,
    clauses: ClauseList,
}

impl Model for Formula {
    ghost use Rattle.cnf_formula.specs.Formulas.{FormulaValue, IsFormula};

    ghost Value = { FormulaValue };

    ghost view = { λ f. record { vars = f.vars; clauses = f.clauses } };

    ghost invariant = { λ f. IsFormula (record { vars = f.vars; clauses = f.clauses }) };
}

/// Whether one of the literals is true where the variables have these values.
fn clause_holds(lits: &[Lit], values: &[bool]) -> bool
    requires { IsClause (length values.now) lits.now }
    ensures { result ≡ Rattle.cnf_formula.specs.Literals.clause_holds values.now lits.now }
{
    for lit in lits {
        if lit.is_true(values) {
            return true;
        }
    }
    false
}

impl Formula {
    /// The formula of so many variables and no clause.
    pub fn new(alloc: Global, vars: u32) -> Formula
        ensures { result ≡ record { vars = vars; clauses = [] } }
    {
        Formula {
            vars,
            clauses: ClauseList::new(alloc),
        }
    }

    /// How many variables there are.
    pub fn vars(&self) -> u32
        ensures vars { result ≡ self.now.vars }
        ensures limits { IsFormula self.now }
    {
        self.vars
    }

    /// Adds a variable, and gives its number.
    pub fn fresh_var(&mut self) -> u32
        requires { self.old.vars < 2147483647 }
        ensures number { result ≡ self.old.vars + 1 }
        ensures added { self.new ≡ record { vars = self.old.vars + 1; clauses = self.old.clauses } }
    {
        self.vars += 1;
        self.vars
    }

    /// Adds a clause of these literals, about the formula's variables. An `Err` comes only where
    /// memory runs out, and then the formula is as before.
    pub fn add(&mut self, lits: &[Lit]) -> Result<(), OutOfMemory>
        requires { IsClause self.old.vars lits.now }
        ensures added { OnOk result (self.new ≡ with_clauses self.old (lits.now ∷ [])) }
        ensures kept { OnErr result (self.new ≡ self.old) }
    {
        self.clauses.push(lits)
    }

    /// The clauses, in the order in which they were added.
    pub fn clauses(&self) -> &ClauseList
        ensures clauses { result.now ≡ self.now.clauses }
        ensures limits { IsFormula self.now }
    {
        &self.clauses
    }

    /// Whether every clause has a literal that is true in the assignment, which has a value for
    /// each variable.
    pub fn holds(&self, assignment: &Assignment) -> bool
        requires { length assignment.now ≡ self.now.vars }
        ensures { Decides result (Satisfies assignment.now self.now) }
    {
        self.clauses_hold(&assignment.values)
    }

    fn clauses_hold(&self, values: &[bool]) -> bool
        requires { length values.now ≡ self.now.vars }
        ensures { result ≡ all_hold values.now self.now.clauses }
    {
        for place in 0..self.clauses.len() {
            if !clause_holds(self.clauses.clause(place), values) {
                return false;
            }
        }
        true
    }
}
