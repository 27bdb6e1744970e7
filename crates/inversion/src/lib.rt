//! Schedules that add up: the inverses of those that copy, and the verdict on one.
#![tactic(auto)]

mod counting;
pub mod frontier_laws;
mod invert;
mod judge;
pub mod laws;
pub mod reduction_laws;
pub mod vectors;
mod verdict;

pub use counting::counts_verdict;
pub use invert::{invert_frontier, invert_schedule};
pub use judge::{first_misfit, judge_counts, sums, sums_by_last};
pub use verdict::SumVerdict;
