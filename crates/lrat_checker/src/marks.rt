//! Literals that are marked as false.

ghost use Rattle.std.specs.Prelude.{◌≡◌, ◌+◌, ◌-◌, ◌≤◌, [], ◌∷◌, length, drop, IfOk, OnOk, OnErr};
ghost use Rattle.cnf_formula.specs.{Literals.has_literal, Formulas.IsAbout};
ghost use Rattle.proof_rules.specs.Accepting.{is_made_true};
ghost use Rattle.lrat_checker.specs.inner.Marking.{MarksValue};

use cnf_formula::{Lit, OutOfMemory};
use std::alloc::Global;
use std::marker::Model;

/// Literals that are false, in a table by literal, and the order in which they became so. To mark
/// one and to take the marks back cost no more than the marks do.
#[derive(Drop)]
pub(crate) struct Marks {
    vars: u32,
    /// By the code of a literal, how many times it is marked.
    counts: Vec<usize>,
    marked: Vec<Lit>,
}

impl Model for Marks {
    ghost use Rattle.std.specs.Prelude.{reverse};
    ghost use Rattle.lrat_checker.specs.inner.Marking.{MarksValue, IsCounted};

    ghost Value = { MarksValue };

    ghost view = { λ m. record { vars = m.vars; falses = reverse m.marked.items } };

    ghost invariant = { λ m. IsCounted m.vars m.counts.items m.marked.items };
}

impl Marks {
    /// No mark, on the literals of so many variables.
    pub(crate) fn new(alloc: Global, vars: u32) -> Result<Marks, OutOfMemory>
        ensures { IfOk result (λ m. m ≡ record { vars = vars; falses = [] }) }
    {
        Ok(Marks {
            vars,
            counts: vec![in alloc; 0usize; 2 * vars as usize + 2]?,
            marked: Vec::new(alloc),
        })
    }

    /// Whether a literal is marked.
    pub(crate) fn is_false(&self, lit: Lit) -> bool
        requires { IsAbout self.now.vars lit }
        ensures { result ≡ has_literal self.now.falses lit }
    {
        self.counts[lit.code()] > 0
    }

    /// Whether the negation of a literal is marked.
    pub(crate) fn is_true(&self, lit: Lit) -> bool
        requires { IsAbout self.now.vars lit }
        ensures { result ≡ is_made_true self.now.falses lit }
    {
        self.is_false(lit.negated())
    }

    /// How many marks there are; a literal may have several.
    pub(crate) fn len(&self) -> usize
        ensures { result ≡ length self.now.falses }
    {
        self.marked.len()
    }

    /// Marks a literal, one time more. An `Err` comes only where memory runs out, and then nothing
    /// changes.
    pub(crate) fn mark(&mut self, lit: Lit) -> Result<(), OutOfMemory>
        requires { IsAbout self.old.vars lit }
        ensures marked { OnOk result (self.new ≡ record { vars = self.old.vars; falses = lit ∷ self.old.falses }) }
        ensures kept { OnErr result (self.new ≡ self.old) }
    {
        self.marked.push(lit)?;
        self.counts[lit.code()] += 1;
        Ok(())
    }

    /// Takes the latest marks back, until there are so many.
    pub(crate) fn back_to(&mut self, len: usize)
        requires { len ≤ length self.old.falses }
        ensures { self.new ≡ record { vars = self.old.vars; falses = drop (length self.old.falses - len) self.old.falses } }
    {
        while self.marked.len() > len {
            let lit = self.marked.take_last();
            self.counts[lit.code()] -= 1;
        }
    }
}
