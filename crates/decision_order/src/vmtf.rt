//! Variables in the order of their last bump (VMTF).

ghost use Rattle.std.specs.Prelude.{◌≡◌, ℕ, ◌+◌, ◌<◌, ◌≤◌, All, length, IfOk, IfSome};
ghost use Rattle.decision_order.specs.inner.Orders.{IsVar};

use cnf_formula::{ClauseList, Lit, OutOfMemory};
use std::alloc::Global;
use std::marker::Model;

/// More than any variable.
const AGE: u64 = 1 << 32;

/// A queue of variables, of which the one that was bumped last is taken first (variable move to
/// front: Biere and Froehlich 2015). The variables stand in a circle, in which place 0, which is no
/// variable's, lies between the latest and the earliest. No proof hangs on the circle: each link
/// names a place, and who takes variables counts them.
#[derive(Drop)]
pub struct Queue {
    vars: u32,
    /// By variable the one that was bumped last before it; at 0 the latest.
    earlier: Vec<u32>,
    /// By variable the one that was bumped next after it; at 0 the earliest.
    later: Vec<u32>,
    /// By variable a number that is greater, the later it was bumped; 0 at 0.
    stamps: Vec<u64>,
    /// The greatest stamp.
    clock: u64,
    /// The variable that is taken next; 0 where none is left.
    next: u32,
    /// The variables that are to be bumped, each with how many were since it was bumped last, times
    /// `AGE`; so one number has both, and the numbers sort by age.
    met: Vec<u64>,
}

impl Model for Queue {
    ghost use Rattle.std.specs.Prelude.{◌≡◌, ℕ, ◌+◌, ◌<◌, All, length};
    ghost use Rattle.decision_order.specs.inner.Orders.{IsPlace, IsVar};

    ghost Value = { ℕ };

    ghost view = { λ a. a.vars };

    ghost invariant = { λ a. (length a.earlier.items ≡ a.vars + 1) × (length a.later.items ≡ a.vars + 1) × (length a.stamps.items ≡ a.vars + 1)
        × All (IsPlace (a.vars + 1)) a.earlier.items × All (IsPlace (a.vars + 1)) a.later.items × (a.next < a.vars + 1) };
}

impl Queue {
    /// All of so many variables; the first is the latest. `Err` comes only where memory runs out.
    pub fn new(alloc: Global, vars: u32) -> Result<Queue, OutOfMemory>
        requires { vars < 2147483648 }
        ensures { IfOk result (λ queue. queue ≡ vars) }
    {
        let places = vars as usize + 1;
        let mut earlier = Vec::with_capacity(alloc, places)?;
        let mut later = Vec::with_capacity(alloc, places)?;
        let mut stamps = Vec::with_capacity(alloc, places)?;
        later.push(vars)?;
        stamps.push(0)?;
        for index in 0..vars {
            earlier.push(index + 1)?;
            later.push(index)?;
            stamps.push(u64::from(vars - index))?;
        }
        earlier.push(0)?;
        Ok(Queue {
            vars,
            earlier,
            later,
            stamps,
            clock: u64::from(vars),
            next: vars.min(1),
            met: Vec::new(alloc),
        })
    }

    /// How many variables there are.
    pub fn vars(&self) -> u32
        ensures { result ≡ self.now }
    {
        self.vars
    }

    /// Takes the next variable, which is the latest that was not passed; none where no variable is
    /// left.
    pub fn pop(&mut self) -> Option<u32>
        ensures same { self.new ≡ self.old }
        ensures var { IfSome result (IsVar (self.old + 1)) }
    {
        let var = self.next;
        if var == 0 {
            return None;
        }
        self.next = self.earlier[var as usize];
        Some(var)
    }

    /// Goes back to the latest variable of some literals, where it was passed.
    pub fn insert_all(&mut self, lits: &[Lit])
        requires { All (λ lit. lit.var ≤ self.old) lits.now }
        ensures { self.new ≡ self.old }
    {
        let mut next = self.next;
        let mut latest = self.stamps[next as usize];
        for lit in lits {
            let stamp = self.stamps[lit.var() as usize];
            if stamp > latest {
                next = lit.var();
                latest = stamp;
            }
        }
        self.next = next;
    }

    /// Notes variables that are to be bumped; those past the last are passed over. `Err` comes only
    /// where memory runs out.
    pub fn meet(&mut self, lits: &[Lit]) -> Result<(), OutOfMemory>
        ensures { self.new ≡ self.old }
    {
        for lit in lits {
            if lit.var() <= self.vars {
                self.note(lit.var())?;
            }
        }
        Ok(())
    }

    /// Notes a variable that is to be bumped.
    fn note(&mut self, var: u32) -> Result<(), OutOfMemory>
        requires { IsVar (self.old + 1) var }
        ensures { self.new ≡ self.old }
    {
        let age = self.clock.saturating_sub(self.stamps[var as usize]);
        let age = age.min(u64::from(u32::MAX));
        self.met.push(age * AGE + u64::from(var))?;
        Ok(())
    }

    /// Bumps the variables that were noted, the earliest first, so that among themselves they stay
    /// in their order.
    pub fn bump_met(&mut self)
        ensures { self.new ≡ self.old }
    {
        self.met.sort_unstable();
        for _ in 0..self.met.len() {
            let Some(met) = self.met.pop() else {
                break;
            };
            let var = (met % AGE) as u32;
            if 0 < var && var <= self.vars {
                self.take_out(var);
                self.put_last(var);
            }
        }
    }

    /// Bumps the variables of lists of literals, one list after another, and goes back to the
    /// latest. `Err` comes only where memory runs out.
    pub fn bump_all(&mut self, lists: &ClauseList) -> Result<(), OutOfMemory>
        ensures { self.new ≡ self.old }
    {
        for place in 0..lists.len() {
            self.meet(lists.clause(place))?;
            self.bump_met();
        }
        self.next = self.earlier[0];
        Ok(())
    }

    /// Joins the neighbours of a variable.
    fn take_out(&mut self, var: u32)
        requires { IsVar (self.old + 1) var }
        ensures { self.new ≡ self.old }
    {
        let earlier = self.earlier[var as usize];
        let later = self.later[var as usize];
        if self.next == var {
            self.next = earlier;
        }
        self.later[earlier as usize] = later;
        self.earlier[later as usize] = earlier;
    }

    /// Puts a variable that was taken out between the latest and place 0.
    fn put_last(&mut self, var: u32)
        requires { IsVar (self.old + 1) var }
        ensures { self.new ≡ self.old }
    {
        let latest = self.earlier[0];
        self.later[latest as usize] = var;
        self.earlier[var as usize] = latest;
        self.later[var as usize] = 0;
        self.earlier[0] = var;
        self.clock = self.clock.saturating_add(1);
        self.stamps[var as usize] = self.clock;
    }
}
