//! Cuts say why no schedule can be better: an engine that refutes what a cut refutes and leaves the
//! rest to another, and what the cuts and the floor say of sums.
#![tactic(auto)]

mod engine;
pub mod laws;
mod parting;
pub mod vectors;

pub use engine::CutEngine;
pub use node_cuts::{Cut, CutTable, Floor, OutOfMemory, Sets, first_cut, floor_of, has_node};
pub use parting::{RefutedParts, cuts_are_refuted, part_refuted};
