//! Sets of numbers that are emptied at no cost.

use cnf_formula::OutOfMemory;
use std::alloc::Global;

/// A set of numbers, by stamps.
#[derive(Drop)]
pub(crate) struct Seen {
    /// By number the stamp of the last set to which it was added.
    marks: Vec<u32>,
    /// The stamp of this set, above all marks of those before it.
    stamp: u32,
}

impl Seen {
    /// Empty, for numbers up to a last one. `Err` comes only where memory runs out.
    pub fn new(alloc: Global, last: u32) -> Result<Seen, OutOfMemory> {
        Ok(Seen {
            marks: vec![in alloc; 0u32; last as usize + 1]?,
            stamp: 1,
        })
    }

    /// Takes all numbers out.
    pub fn clear(&mut self) {
        if self.stamp == u32::MAX {
            self.marks.fill(0);
            self.stamp = 0;
        }
        self.stamp += 1;
    }

    /// Adds a number. Whether it was not in the set.
    pub fn add(&mut self, number: u32) -> bool {
        match self.marks.get_mut(number as usize) {
            Some(mark) => {
                let is_new = *mark != self.stamp;
                *mark = self.stamp;
                is_new
            }
            None => false,
        }
    }
}
