//! The search for a model of a formula, or for lines that refute it, by learning clauses from
//! conflicts (CDCL).
#![tactic(auto)]

mod backjump;
mod fault;
mod guide;
mod laws;
mod loading;
mod model;
mod resting;
mod searching;
mod solving;
mod stating;
mod step;
mod turn;
mod waking;

pub use fault::SolveFault;
pub use solving::{SatAnswer, solve};
