//! Points of an allreduce: a reducescatter and then an allgather.
#![tactic(auto)]

mod clash;
mod join;
pub mod join_laws;
mod judge;
pub mod laws;
pub mod vectors;

pub use join::join_points;
pub use judge::{all_summed, all_summed_by_last};
