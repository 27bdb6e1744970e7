//! The search of a whole report: the frontier of each part of a collective, the joins of two parts,
//! and the files that prove them.
#![tactic(auto)]

mod both;
mod joining;
mod part;
mod searching;
mod single;
mod whole;

pub use engine_rules::EngineFault;
pub use searching::search_report;
pub use std::alloc::AllocError as OutOfMemory;
