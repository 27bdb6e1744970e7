//! Which variable is decided next (VSIDS, VMTF), and as what (phase saving).

ghost use Rattle.std.specs.Prelude.{◌≡◌, ℕ, ◌+◌, ◌<◌, ◌≤◌, All, length, IfOk, IfSome, MatchOption};
ghost use Rattle.cnf_formula.specs.Literals.{no};
ghost use Rattle.trail_core.specs.{Assigned.IsOpen, Meaning.trues};
ghost use Rattle.decision_order.specs.inner.Orders.{IsVar};

use crate::inputs::inputs_of;
use crate::turns::Mode;
use crate::vmtf::Queue;
use crate::vsids::Order;
use cnf_formula::{ClauseList, Lit, OutOfMemory};
use std::alloc::Global;
use std::marker::Model;
use trail_core::{ClauseId, Core};

/// So many literals are noted at most before the queue is made of them.
const MANY: usize = 1 << 22;

/// Variables by activity and by the time of their last bump, each with the value that it had last.
#[derive(Drop)]
pub struct Decider {
    vars: u32,
    order: Order,
    /// None before the first focused turn, unless the opening meets many literals.
    queue: Option<Queue>,
    /// Through which literals each conflict came about while there was no queue.
    met: ClauseList,
    phases: Vec<bool>,
    mode: Mode,
    /// By variable whether it is an input; empty before the first stable turn.
    inputs: Vec<bool>,
}

impl Model for Decider {
    ghost use Rattle.std.specs.Prelude.{◌≡◌, ℕ, ◌+◌, ◌<◌, length, IfSome};

    ghost Value = { ℕ };

    ghost view = { λ a. a.vars };

    ghost invariant = { λ a. (a.order ≡ a.vars) × IfSome a.queue (λ queue. queue ≡ a.vars) × (length a.phases.items ≡ a.vars + 1) × (a.vars < 2147483648) };
}

/// An open variable, as false.
fn an_open(core: &Core, vars: u32) -> Option<Lit>
    requires vars { vars ≡ core.now.vars }
    requires small { vars < 2147483648 }
    ensures { MatchOption result
        ((v : ℕ) → 0 < v → v ≤ core.now.vars → IsOpen (trues core.now) (no v) → ⊥)
        (λ lit. IsOpen (trues core.now) lit × (lit.var ≤ core.now.vars)) }
{
    for index in 0..vars {
        let lit = Lit::new(index + 1, false);
        if core.value(lit).is_none() {
            return Some(lit);
        }
    }
    None
}

/// The clause that made a literal true; none for a decision, and where it is not true.
fn reason_of(core: &Core, lit: Lit, vars: u32) -> Option<&[Lit]>
    requires { vars ≡ core.now.vars }
{
    if lit.var() > vars || core.value(lit) != Some(true) {
        return None;
    }
    let id = core.reason(lit)?;
    if id.number() >= core.count() {
        return None;
    }
    Some(core.clause(id))
}

/// Bumps variables, and those in the reasons of literals; those past the last are passed over.
/// `Err` comes only where memory runs out.
fn bump(queue: &mut Queue, core: &Core, met: &[Lit], lits: &[Lit]) -> Result<(), OutOfMemory>
    requires { queue.old ≡ core.now.vars }
    ensures { queue.new ≡ queue.old }
{
    queue.meet(met)?;
    for lit in lits {
        if let Some(clause) = reason_of(core, lit.negated(), queue.vars()) {
            queue.meet(clause)?;
        }
    }
    queue.bump_met();
    Ok(())
}

impl Decider {
    /// The variables 1 to `vars` in the order of their numbers, each to be false first. `Err` comes
    /// only where memory runs out.
    pub fn new(alloc: Global, vars: u32) -> Result<Decider, OutOfMemory>
        requires { vars < 2147483648 }
        ensures { IfOk result (λ decider. decider ≡ vars) }
    {
        Ok(Decider {
            vars,
            order: Order::new(alloc, vars)?,
            queue: None,
            met: ClauseList::new(alloc),
            phases: vec![in alloc; false; vars as usize + 1]?,
            mode: Mode::Opening,
            inputs: Vec::new(alloc),
        })
    }

    /// From now on variables are decided as this mode has it. The first `count` of these clauses
    /// are the formula's, which says what the inputs are. `Err` comes only where memory runs out.
    pub fn settle(
        &mut self,
        alloc: Global,
        core: &Core,
        ids: &[ClauseId],
        count: u32,
        mode: Mode,
    ) -> Result<(), OutOfMemory>
        ensures { self.new ≡ self.old }
    {
        if mode == self.mode {
            return Ok(());
        }
        self.mode = mode;
        if mode != Mode::Stable {
            return self.make_queue(alloc);
        }
        if self.inputs.is_empty() {
            self.inputs = inputs_of(alloc, core, ids, count, self.vars)?;
        }
        self.order.insert_rest()
    }

    /// Whether a variable is an input.
    fn is_input(&self, var: u32) -> bool {
        self.inputs.get(var as usize) == Some(&true)
    }

    /// Takes the most active input, and where none is left the variable that was bumped last; none
    /// where no variable is left.
    fn pop_input(&mut self) -> Option<u32>
        ensures same { self.new ≡ self.old }
        ensures var { IfSome result (IsVar (self.old + 1)) }
    {
        for _ in 0..self.vars {
            let Some(var) = self.order.pop() else {
                break;
            };
            if self.is_input(var) {
                return Some(var);
            }
        }
        self.queue.as_mut()?.pop()
    }

    /// Takes the next variable; none where no variable is left.
    fn pop(&mut self) -> Option<u32>
        ensures same { self.new ≡ self.old }
        ensures var { IfSome result (IsVar (self.old + 1)) }
    {
        match self.mode {
            Mode::Opening => self.order.pop(),
            Mode::Stable => self.pop_input(),
            Mode::Focused => self.queue.as_mut()?.pop(),
        }
    }

    /// A literal that is open; none where no variable is.
    pub fn choose(&mut self, core: &Core) -> Option<Lit>
        requires { self.old ≡ core.now.vars }
        ensures same { self.new ≡ self.old }
        ensures open { MatchOption result
            ((v : ℕ) → 0 < v → v ≤ core.now.vars → IsOpen (trues core.now) (no v) → ⊥)
            (λ lit. IsOpen (trues core.now) lit × (lit.var ≤ core.now.vars)) }
    {
        for _ in 0..self.vars {
            let Some(var) = self.pop() else {
                break;
            };
            let lit = Lit::new(var, self.phases[var as usize]);
            if core.value(lit).is_none() {
                return Some(lit);
            }
        }
        an_open(core, self.vars)
    }

    /// Keeps the values that literals give their variables.
    fn keep_values(&mut self, lits: &[Lit])
        requires { All (λ lit. lit.var ≤ self.old) lits.now }
        ensures { self.new ≡ self.old }
    {
        for lit in lits {
            self.phases[lit.var() as usize] = lit.positive();
        }
    }

    /// Puts the inputs of some literals into the order. `Err` comes only where memory runs out.
    fn insert_inputs(&mut self, lits: &[Lit]) -> Result<(), OutOfMemory>
        requires { All (λ lit. lit.var ≤ self.old) lits.now }
        ensures { self.new ≡ self.old }
    {
        for lit in lits {
            if self.is_input(lit.var()) {
                self.order.insert(lit.var())?;
            }
        }
        Ok(())
    }

    /// Gives the variables of literals that are to be open again to the decisions that come, and
    /// keeps their values. `Err` comes only where memory runs out.
    pub fn release(&mut self, lits: &[Lit]) -> Result<(), OutOfMemory>
        requires { All (λ lit. lit.var ≤ self.old) lits.now }
        ensures { self.new ≡ self.old }
    {
        self.keep_values(lits);
        if let Some(queue) = &mut self.queue {
            queue.insert_all(lits);
        }
        match self.mode {
            Mode::Opening => self.order.insert_all(lits),
            Mode::Stable => self.insert_inputs(lits),
            Mode::Focused => Ok(()),
        }
    }

    /// Makes the queue, where there is none yet, by what conflicts met so far.
    fn make_queue(&mut self, alloc: Global) -> Result<(), OutOfMemory>
        ensures { self.new ≡ self.old }
    {
        if self.queue.is_some() {
            return Ok(());
        }
        let mut queue = Queue::new(alloc, self.vars)?;
        queue.bump_all(&self.met)?;
        self.queue = Some(queue);
        self.met = ClauseList::new(alloc);
        Ok(())
    }

    /// Notes what a conflict met for the queue, which is made once this is much.
    fn note(&mut self, alloc: Global, met: &[Lit]) -> Result<(), OutOfMemory>
        ensures { self.new ≡ self.old }
    {
        self.met.push(met)?;
        if self.met.lits().len() < MANY {
            return Ok(());
        }
        self.make_queue(alloc)
    }

    /// Makes the variables through which a conflict came about, and where the search is focused
    /// those in the reasons of the literals of its line too, likelier to be decided; those past the
    /// last are passed over. The opening notes them for the queue. `Err` comes only where memory
    /// runs out.
    pub fn learn(
        &mut self,
        alloc: Global,
        core: &Core,
        met: &[Lit],
        lits: &[Lit],
    ) -> Result<(), OutOfMemory>
        requires { self.old ≡ core.now.vars }
        ensures { self.new ≡ self.old }
    {
        if self.mode != Mode::Focused {
            self.order.raise_all(met);
        }
        let reasons = match self.mode {
            Mode::Stable => return Ok(()),
            Mode::Opening => &[],
            Mode::Focused => lits,
        };
        match &mut self.queue {
            Some(queue) => bump(queue, core, met, reasons),
            None => self.note(alloc, met),
        }
    }
}
