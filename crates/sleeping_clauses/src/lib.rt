//! The clauses of a core that are awake, with their numbers in a ledger and of how much use each
//! was, and learned clauses that sleep: the ledger holds them, but the core does not (clause
//! database reduction). One that states a line is found in the lists of that line's literals
//! (subsumption).
#![tactic(auto)]

mod awake;
mod sleepers;

pub use awake::{Awake, Usage};
pub use sleepers::Sleepers;
