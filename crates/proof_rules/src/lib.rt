//! What it means that a line of a proof is accepted (LRAT: implied lines are RUP, redundant ones
//! RAT), that lines refute a formula, and that a search for a refutation (CDCL with so many learned
//! clauses) is exhausted.
#![tactic(auto)]

pub mod laws;
pub mod vectors;
mod verdict;

pub use verdict::{LineCode, LineVerdict};
