//! Variables in the order of their activity (VSIDS).

ghost use Rattle.std.specs.Prelude.{◌≡◌, ℕ, ◌+◌, ◌*◌, ◌<◌, ◌≤◌, All, length, IfOk, IfSome};
ghost use Rattle.decision_order.specs.inner.Orders.{IsVar};

use cnf_formula::{Lit, OutOfMemory};
use std::alloc::Global;
use std::marker::Model;

/// The place of a variable that does not stand in the heap.
const ABSENT: usize = usize::MAX;

/// What a variable gains at first is so many times the number of variables.
const FIRST_GAIN: u64 = 1000;

/// Activities above this are made smaller, all of them.
const HIGHEST: u64 = 1 << 60;

/// How many bits they lose then.
const SHRINK_BITS: u32 = 40;

/// At each conflict what is gained grows by its part in so many.
const GROWTH: u64 = 20;

/// A binary heap of variables, of which the most active is taken first.
#[derive(Drop)]
pub struct Order {
    vars: u32,
    heap: Vec<u32>,
    /// By variable its place in the heap.
    places: Vec<usize>,
    activity: Vec<u64>,
    /// What a variable gains where a conflict comes about through it.
    gain: u64,
}

impl Model for Order {
    ghost use Rattle.std.specs.Prelude.{◌≡◌, ℕ, ◌+◌, All, length};
    ghost use Rattle.decision_order.specs.inner.Orders.{IsVar};

    ghost Value = { ℕ };

    ghost view = { λ a. a.vars };

    ghost invariant = { λ a. (length a.places.items ≡ a.vars + 1) × (length a.activity.items ≡ a.vars + 1) × All (IsVar (a.vars + 1)) a.heap.items };
}

/// Puts a variable at a place of the heap or above it, below none that is less active.
fn rise(heap: &mut Vec<u32>, places: &mut Vec<usize>, activity: &[u64], var: u32, place: usize)
    requires var { IsVar (length activity.now) var }
    requires place { place < length heap.old.items }
    requires places { length places.old.items ≡ length activity.now }
    requires vars { All (IsVar (length activity.now)) heap.old.items }
    ensures len { length heap.new.items ≡ length heap.old.items }
    ensures places { length places.new.items ≡ length places.old.items }
    ensures vars { All (IsVar (length activity.now)) heap.new.items }
{
    let mut hole = place;
    while hole > 0 {
        let parent = (hole - 1) / 2;
        let above = heap[parent];
        if activity[above as usize] >= activity[var as usize] {
            break;
        }
        heap[hole] = above;
        places[above as usize] = hole;
        hole = parent;
    }
    heap[hole] = var;
    places[var as usize] = hole;
}

/// The more active child of a place that has one.
fn child_of(heap: &[u32], activity: &[u64], place: usize) -> usize
    requires child { 2 * place + 1 < length heap.now }
    requires vars { All (IsVar (length activity.now)) heap.now }
    ensures below { place < result }
    ensures within { result < length heap.now }
{
    let left = 2 * place + 1;
    let right = left + 1;
    if right < heap.len() && activity[heap[right] as usize] > activity[heap[left] as usize] {
        right
    } else {
        left
    }
}

/// Puts a variable at a place of the heap or below it, above none that is more active.
fn sink(heap: &mut Vec<u32>, places: &mut Vec<usize>, activity: &[u64], var: u32, place: usize)
    requires var { IsVar (length activity.now) var }
    requires place { place < length heap.old.items }
    requires places { length places.old.items ≡ length activity.now }
    requires vars { All (IsVar (length activity.now)) heap.old.items }
    ensures len { length heap.new.items ≡ length heap.old.items }
    ensures places { length places.new.items ≡ length places.old.items }
    ensures vars { All (IsVar (length activity.now)) heap.new.items }
{
    let mut hole = place;
    while 2 * hole + 1 < heap.len() {
        let child = child_of(heap, activity, hole);
        let below = heap[child];
        if activity[below as usize] <= activity[var as usize] {
            break;
        }
        heap[hole] = below;
        places[below as usize] = hole;
        hole = child;
    }
    heap[hole] = var;
    places[var as usize] = hole;
}

impl Order {
    /// All of so many variables, in the order of their numbers: the first is more active than the
    /// second, and so on, but all of them less than a variable that has gained once.
    pub fn new(alloc: Global, vars: u32) -> Result<Order, OutOfMemory>
        ensures { IfOk result (λ order. order ≡ vars) }
    {
        let count = vars as usize;
        let mut heap = Vec::with_capacity(alloc, count)?;
        let mut places = Vec::with_capacity(alloc, count + 1)?;
        let mut activity = Vec::with_capacity(alloc, count + 1)?;
        places.push_reserved(ABSENT);
        activity.push_reserved(u64::from(vars));
        for index in 0..vars {
            heap.push_reserved(index + 1);
            places.push_reserved(index as usize);
            activity.push_reserved(u64::from(vars - index - 1));
        }
        Ok(Order {
            vars,
            heap,
            places,
            activity,
            gain: FIRST_GAIN * u64::from(vars),
        })
    }

    /// Takes a most active variable out; none where no variable is left.
    pub fn pop(&mut self) -> Option<u32>
        ensures same { self.new ≡ self.old }
        ensures var { IfSome result (IsVar (self.old + 1)) }
    {
        let last = self.heap.pop()?;
        if self.heap.is_empty() {
            self.places[last as usize] = ABSENT;
            return Some(last);
        }
        let first = self.heap[0];
        self.places[first as usize] = ABSENT;
        sink(&mut self.heap, &mut self.places, &self.activity, last, 0);
        Some(first)
    }

    /// Puts a variable in, where it is out.
    pub fn insert(&mut self, var: u32) -> Result<(), OutOfMemory>
        requires { IsVar (self.old + 1) var }
        ensures { self.new ≡ self.old }
    {
        if self.places[var as usize] == ABSENT {
            let place = self.heap.len();
            self.heap.push(var)?;
            rise(&mut self.heap, &mut self.places, &self.activity, var, place);
        }
        Ok(())
    }

    /// Puts the variables of literals in that are out. `Err` comes only where memory runs out.
    pub fn insert_all(&mut self, lits: &[Lit]) -> Result<(), OutOfMemory>
        requires { All (λ lit. lit.var ≤ self.old) lits.now }
        ensures { self.new ≡ self.old }
    {
        for lit in lits {
            self.insert(lit.var())?;
        }
        Ok(())
    }

    /// Puts all variables in that are out. `Err` comes only where memory runs out.
    pub fn insert_rest(&mut self) -> Result<(), OutOfMemory>
        ensures { self.new ≡ self.old }
    {
        for index in 0..self.vars {
            self.insert(index + 1)?;
        }
        Ok(())
    }

    /// Makes the variables of literals more active than they were, and what is gained from now on
    /// count for more; those past the last are passed over.
    pub fn raise_all(&mut self, lits: &[Lit])
        ensures { self.new ≡ self.old }
    {
        for lit in lits {
            if lit.var() <= self.vars {
                self.raise(lit.var());
            }
        }
        self.age();
    }

    /// Makes a variable more active.
    fn raise(&mut self, var: u32)
        requires { IsVar (self.old + 1) var }
        ensures { self.new ≡ self.old }
    {
        let activity = self.activity[var as usize].saturating_add(self.gain);
        self.activity[var as usize] = activity;
        let place = self.places[var as usize];
        if place < self.heap.len() {
            rise(&mut self.heap, &mut self.places, &self.activity, var, place);
        }
        if activity > HIGHEST {
            self.shrink();
        }
    }

    /// Makes all activities, and what is gained, smaller.
    fn shrink(&mut self)
        ensures { self.new ≡ self.old }
    {
        for activity in self.activity.iter_mut() {
            *activity >>= SHRINK_BITS;
        }
        self.gain = (self.gain >> SHRINK_BITS) + 1;
    }

    /// Makes what is gained from now on count for more than what was before.
    fn age(&mut self)
        ensures { self.new ≡ self.old }
    {
        self.gain = self.gain.saturating_add(self.gain / GROWTH);
    }
}
