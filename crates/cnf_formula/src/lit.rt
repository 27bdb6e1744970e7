ghost use Rattle.std.specs.Prelude.{◌≡◌, ◌<◌, ◌≤◌, length};
ghost use Rattle.cnf_formula.specs.Literals.{LitValue, IsLit, negation, code_of, is_true};

use std::marker::Model;

/// A literal: a variable, numbered from 1 to 2,147,483,647, or its negation. It is kept as one
/// number, twice the variable and one more for a negation, as solvers have it (Eén and Sörensson
/// 2003).
#[derive(Clone, Copy, Debug, PartialEq, Eq)]
pub struct Lit {
    code: u32,
}

impl Model for Lit {
    ghost use Rattle.std.{specs.Prelude.{◌≡◌, ℕ, ◌+◌, ◌*◌, ◌/◌, ◌%◌, ◌<◌, nat_eq}, proofs.{Common.arith, lemmas.Nat.{div-add-mod', mod_below}}};
    ghost use Rattle.std.proofs.lemmas.Bool.{cond_both, eqb-true, eqb-false};
    ghost use Rattle.cnf_formula.specs.Literals.{LitValue, IsLit, code_of, literal_of};

    ghost Value = { LitValue };

    ghost view = { λ l. literal_of l.code };

    ghost invariant = { λ l. IsLit (literal_of l.code) };

    ghost inverse = { λ l. record { code = code_of l } };

    ghost inverse_ok = { λ l h i. record {
      code = (let whole : l.code / 2 * 2 + l.code % 2 ≡ l.code = div-add-mod' l.code 2 in
          let low : l.code % 2 < 2 = mod_below l.code 2 (omega arith) in
          cond_both (nat_eq (l.code % 2) 0) 0 1 (λ (d : ℕ). 2 * (l.code / 2) + d ≡ l.code)
          (λ e. omega (arith, whole, eqb-true (l.code % 2) 0 e))
          (λ e. omega (arith, whole, low, eqb-false (l.code % 2) 0 e)) i);
    } };
}

impl Lit {
    /// The literal of a variable from 1 to 2,147,483,647: the variable itself where `positive` is
    /// true, else its negation.
    pub fn new(var: u32, positive: bool) -> Lit
        requires { IsLit (record { var = var; positive = positive }) }
        ensures { result ≡ record { var = var; positive = positive } }
    {
        Lit {
            code: 2 * var + if positive { 0 } else { 1 },
        }
    }

    /// The variable, from 1 to 2,147,483,647.
    pub fn var(self) -> u32
        ensures var { result ≡ self.var }
        ensures limits { IsLit self }
    {
        self.code / 2
    }

    /// Whether the literal is the variable itself, and not its negation.
    pub fn positive(self) -> bool
        ensures { result ≡ self.positive }
    {
        self.code % 2 == 0
    }

    /// The literal that is true where this one is false.
    pub fn negated(self) -> Lit
        ensures { result ≡ negation self }
    {
        Lit {
            code: self.code ^ 1,
        }
    }

    /// Whether the literal is true where the variables have these values, that of variable 1 first.
    pub fn is_true(self, values: &[bool]) -> bool
        requires { self.var ≤ length values.now }
        ensures { result ≡ is_true values.now self }
    {
        values[self.var() as usize - 1] == self.positive()
    }

    /// The literal's place in a table that has one for each literal: twice the variable, and one
    /// more for a negation. So it is at least 2, and below twice the number of variables and 2
    /// more.
    pub fn code(self) -> usize
        ensures code { result ≡ code_of self }
        ensures limits { IsLit self }
    {
        self.code as usize
    }
}

/// Variable 1, which fills the places of a short list that hold no literal.
impl Default for Lit {
    fn default() -> Lit {
        Lit { code: 2 }
    }
}
