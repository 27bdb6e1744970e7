//! An entry of a watch list.

ghost use Rattle.std.specs.Prelude.{◌≡◌, ◌≤◌};
ghost use Rattle.trail_core.specs.Watching.{WatchValue};

use cnf_formula::Lit;
use std::marker::Model;

/// A clause that watches a literal, another literal of it (a blocking literal: Sörensson and Eén
/// 2008), and whether these two are all that it has. So the clause need not be read where the
/// blocking literal is true, nor where it has but two.
#[derive(Clone, Copy)]
pub(crate) struct Watch {
    /// Twice the number of the clause, and one more for a clause of two literals.
    code: u32,
    blocker: Lit,
}

impl Model for Watch {
    ghost use Rattle.std.{specs.Prelude.{◌≡◌, ◌==◌, ℕ, ◌+◌, ◌*◌, ◌/◌, ◌%◌, ◌<◌, nat_eq, if◌then◌else◌}, proofs.Common.arith};
    ghost use Rattle.std.proofs.lemmas.{Nat.{div-add-mod', mod_below}, Bool.{cond_both, eqb-true, eqb-false}};
    ghost use Rattle.trail_core.specs.Watching.{WatchValue};

    ghost Value = { WatchValue };

    ghost view = { λ a. record { clause = a.code / 2; pair = a.code % 2 == 1; blocker = a.blocker } };

    ghost inverse = { λ w. record { code = 2 * w.clause + (if w.pair then 1 else 0); blocker = w.blocker } };

    ghost inverse_ok = { λ a h i. record {
      code = (let whole : a.code / 2 * 2 + a.code % 2 ≡ a.code = div-add-mod' a.code 2 in
          let low : a.code % 2 < 2 = mod_below a.code 2 (omega arith) in
          cond_both (nat_eq (a.code % 2) 1) 1 0 (λ (d : ℕ). 2 * (a.code / 2) + d ≡ a.code)
          (λ e. omega (arith, whole, eqb-true (a.code % 2) 1 e))
          (λ e. omega (arith, whole, low, eqb-false (a.code % 2) 1 e)) i);
      blocker = a.blocker;
    } };
}

impl Watch {
    /// The entry of a clause, of two literals where `pair` is true, with a literal of it other than
    /// the one whose list it comes to.
    pub(crate) fn new(clause: u32, pair: bool, blocker: Lit) -> Watch
        requires { clause ≤ 2147483647 }
        ensures { result ≡ record { clause = clause; pair = pair; blocker = blocker } }
    {
        Watch {
            code: 2 * clause + if pair { 1 } else { 0 },
            blocker,
        }
    }

    /// The number of the clause.
    pub(crate) fn clause(&self) -> u32
        ensures { result ≡ self.now.clause }
    {
        self.code / 2
    }

    /// Whether the clause has but the literal that it watches and the blocking literal.
    pub(crate) fn is_pair(&self) -> bool
        ensures { result ≡ self.now.pair }
    {
        self.code % 2 == 1
    }

    /// The blocking literal.
    pub(crate) fn blocker(&self) -> Lit
        ensures { result ≡ self.now.blocker }
    {
        self.blocker
    }

    /// The same entry with another blocking literal.
    pub(crate) fn blocked_by(&self, blocker: Lit) -> Watch
        ensures { result ≡ record self.now { blocker = blocker } }
    {
        Watch {
            code: self.code,
            blocker,
        }
    }
}

/// What fills the places of a short list that hold no entry.
impl Default for Watch {
    fn default() -> Watch {
        Watch {
            code: 0,
            blocker: Lit::default(),
        }
    }
}
